// The bound that always tells the full scale.
ghost use Rattle.bounds.specs.Numbers.{plain_tells};
ghost use Rattle.bounds.specs.Covers.{plain_means};

use crate::Bound;
use crate::questions::Question;

#[derive(Clone, Copy)]
pub struct Plain;

impl Bound for Plain {
    ghost tells = { λ _. plain_tells };

    ghost meaning = { λ bound. plain_means };

    fn tell(&self, question: Question) -> u64 {
        question.network.scale().full()
    }
}
