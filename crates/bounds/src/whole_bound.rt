// The chance of all lanes that are picked or undecided, if a set may have as many.
ghost use Rattle.bounds.specs.Numbers.{whole_tells};
ghost use Rattle.bounds.specs.Covers.{whole_means};

use crate::Bound;
use crate::questions::Question;
use reliability::chance;

#[derive(Clone, Copy)]
pub struct Whole;

impl Bound for Whole {
    ghost tells = { λ _. whole_tells };

    ghost meaning = { λ bound. whole_means };

    fn tell(&self, question: Question) -> u64 {
        let full = question.network.scale().full();
        let Some(set) = question.candidates() else {
            return full;
        };
        // refused only where more than K lanes are named, since all of them were given
        chance(question.network, set).unwrap_or(full)
    }
}
