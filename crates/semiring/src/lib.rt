// Values in which the states of a set of lanes are added up: a commutative semiring with a running and a failing weight for each lane.
// Promise: every implementation shows the semiring's laws, so that one routine serves them all.
#![tactic(auto)]

ghost use Rattle.std.specs.Prelude.{◌≡◌};
ghost use Rattle.semiring.specs.Semirings.{Laws, Ops};

mod cheapests;
mod shares;
mod yes_no;

pub use cheapests::Cheapest;
use network::{Lane, Scale};
pub use shares::Share;
pub use yes_no::YesNo;

pub trait Semiring: Copy {
    // What the operations and the weights mean.
    ghost ops: { Ops Self };

    fn zero() -> Self
        ensures { result ≡ ops.zero };

    fn one() -> Self
        ensures { result ≡ ops.one };

    fn sum(self, other: Self) -> Self
        ensures { result ≡ ops.sum self other };

    fn product(self, other: Self) -> Self
        ensures { result ≡ ops.product self other };

    // The weight of the lane's running, and below of its failing.
    fn running(lane: &Lane, scale: Scale) -> Self
        ensures { result ≡ ops.running scale.parts lane.now };

    fn failing(lane: &Lane, scale: Scale) -> Self
        ensures { result ≡ ops.failing scale.parts lane.now };

    ghost laws: { Laws ops };
}
