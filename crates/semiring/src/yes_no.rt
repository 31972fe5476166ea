// Whether some state is there at all.
ghost use Rattle.std.specs.Prelude.{◌≡◌};
ghost use Rattle.semiring.specs.YesNo.{yes_no_ops};
ghost use Rattle.semiring.specs.ValuesLemmas.{yes_no_laws};

use crate::Semiring;
use network::{Lane, Scale};

#[derive(Clone, Copy)]
pub struct YesNo {
    pub yes: bool,
}

impl Semiring for YesNo {
    ghost ops = { yes_no_ops };

    ghost laws = { yes_no_laws };

    fn zero() -> YesNo {
        YesNo { yes: false }
    }

    fn one() -> YesNo {
        YesNo { yes: true }
    }

    fn sum(self, other: YesNo) -> YesNo {
        YesNo {
            yes: self.yes | other.yes,
        }
    }

    fn product(self, other: YesNo) -> YesNo {
        YesNo {
            yes: self.yes & other.yes,
        }
    }

    fn running(_lane: &Lane, _scale: Scale) -> YesNo {
        Self::one()
    }

    fn failing(lane: &Lane, scale: Scale) -> YesNo {
        Self::running(lane, scale)
    }
}
