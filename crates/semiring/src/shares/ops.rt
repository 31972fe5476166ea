ghost use Rattle.std.specs.Prelude.{◌≡◌, ◌*◌, min};
ghost use Rattle.network.specs.Scales.{full_limit};
ghost use Rattle.semiring.specs.Shares.{share, share_ops};
ghost use Rattle.semiring.specs.ValuesLemmas.{share_laws};

use crate::Semiring;
use crate::shares::Share;
use network::{Lane, Scale};

impl Share {
    // Numbers above stand as this one.
    pub const MOST: u64 = 1_000_000_000_000_000_000;

    pub fn new(parts: u64) -> Share
        ensures { result ≡ share parts }
    {
        Share {
            parts: parts.min(Self::MOST),
        }
    }

    pub fn parts(self) -> u64
        ensures { result ≡ self.parts }
    {
        self.parts
    }
}

// In twice the width, which compiles to one multiplication.
fn multiply(a: u64, b: u64) -> u64
    ensures { result ≡ min (a * b) full_limit }
{
    let wide = u128::from(a) * u128::from(b);
    if wide < u128::from(Share::MOST) {
        wide as u64
    } else {
        Share::MOST
    }
}

impl Semiring for Share {
    ghost ops = { share_ops };

    ghost laws = { share_laws };

    fn zero() -> Share {
        Share::new(0)
    }

    fn one() -> Share {
        Share::new(1)
    }

    fn sum(self, other: Share) -> Share {
        Share::new(self.parts + other.parts)
    }

    fn product(self, other: Share) -> Share {
        Share {
            parts: multiply(self.parts, other.parts),
        }
    }

    fn running(lane: &Lane, _scale: Scale) -> Share {
        Share::new(u64::from(lane.chance))
    }

    fn failing(lane: &Lane, scale: Scale) -> Share {
        Share::new(u64::from(scale.parts().saturating_sub(lane.chance)))
    }
}
