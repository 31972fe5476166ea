// The lesser of any two bounds.
ghost use Rattle.bounds.specs.Numbers.{lesser_tells};
ghost use Rattle.bounds.specs.Covers.{lesser_means};

use crate::Bound;
use crate::questions::Question;

#[derive(Clone, Copy)]
pub struct Lesser<A, B> {
    pub first: A,
    pub second: B,
}

impl<A: Bound, B: Bound> Bound for Lesser<A, B> {
    ghost tells = { λ bound. lesser_tells (A.Bound.tells bound.first) (B.Bound.tells bound.second) };

    // from the two parts' meaning alone
    ghost meaning = { λ bound. lesser_means _ _ (A.Bound.meaning bound.first) (B.Bound.meaning bound.second) };

    fn tell(&self, question: Question) -> u64 {
        let first = self.first.tell(question);
        first.min(self.second.tell(question))
    }
}
