ghost use Rattle.std.specs.Prelude.{◌≡◌};
ghost use Rattle.semiring.specs.Cheapest.{cheapest, cheapest_ops, present};
ghost use Rattle.semiring.specs.ValuesLemmas.{cheapest_laws};

use crate::Semiring;
use crate::cheapests::Cheapest;
use network::{Lane, Scale};

impl Cheapest {
    pub fn new(cost: u32) -> Cheapest
        ensures { result ≡ cheapest cost }
    {
        Cheapest { cost }
    }

    // The cost, unless it is absent.
    pub fn present(self) -> Option<u32>
        ensures { result ≡ present self.cost }
    {
        if self.cost == u32::MAX {
            None
        } else {
            Some(self.cost)
        }
    }
}

impl Semiring for Cheapest {
    ghost ops = { cheapest_ops };

    ghost laws = { cheapest_laws };

    fn zero() -> Cheapest {
        Cheapest::new(u32::MAX)
    }

    fn one() -> Cheapest {
        Cheapest::new(0)
    }

    fn sum(self, other: Cheapest) -> Cheapest {
        Cheapest::new(self.cost.min(other.cost))
    }

    fn product(self, other: Cheapest) -> Cheapest {
        Cheapest::new(self.cost.saturating_add(other.cost))
    }

    fn running(lane: &Lane, _scale: Scale) -> Cheapest {
        Cheapest::new(lane.cost)
    }

    fn failing(_lane: &Lane, _scale: Scale) -> Cheapest {
        Self::one()
    }
}
