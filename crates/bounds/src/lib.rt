// Upper bounds on the chance of every set that is still possible, on whose word a search drops whole branches.
// Promise: to a lawful question a bound tells a number not below the chance of any set still possible, and to any other the full scale.
#![tactic(auto)]

ghost use Rattle.std.specs.Prelude.{◌≡◌, ℕ};
ghost use Rattle.bounds.specs.Meaning.{Meaning};
ghost use Rattle.bounds.specs.Questions.{Asked, asked_of};

mod depot_bound;
mod lesser_bound;
mod plain_bound;
mod questions;
mod whole_bound;

pub use depot_bound::Depot;
pub use lesser_bound::Lesser;
pub use plain_bound::Plain;
pub use questions::Question;
pub use whole_bound::Whole;

// A bound by the number that it tells to a question, which depends on the question's parts alone.
pub trait Bound {
    ghost tells: { Self → Asked → ℕ };

    fn tell(&self, question: Question) -> u64
        ensures { result ≡ tells self.now (asked_of question.entry) };

    ghost meaning: { (bound : Self) → Meaning (tells bound) };
}
