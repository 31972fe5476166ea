// A lane on offer between two depots, and the check that it passes before a network takes it.
ghost use Rattle.std.specs.Prelude.{◌≡◌};
ghost use Rattle.network.specs.Answers.{told};
ghost use Rattle.network.specs.Lanes.{lane_refusal, price_refusal};
ghost use Rattle.network.specs.Marks.{ReadsMark, mark_number};
ghost use Rattle.network.specs.Sets.{marked};

use crate::refusals::Refusal;
use crate::scales::Scale;

#[derive(Clone, Copy, PartialEq, Eq, Debug, Default)]
pub enum Mark {
    #[default]
    Struck = 0,
    Standing = 1,
}

// A byte that is the number of no mark.
#[derive(Clone, Copy, PartialEq, Eq, Debug)]
pub struct UnknownMark;

impl Mark {
    pub fn stands(self) -> bool
        ensures { result ≡ marked self }
    {
        self == Mark::Standing
    }
}

impl From<Mark> for u8 {
    ghost from_gives = { λ mark number. number ≡ mark_number mark };

    fn from(mark: Mark) -> u8 {
        mark as u8
    }
}

impl TryFrom<u8> for Mark {
    type Error = UnknownMark;

    ghost try_from_gives = { ReadsMark };

    fn try_from(number: u8) -> Result<Mark, UnknownMark> {
        match number {
            0 => Ok(Mark::Struck),
            1 => Ok(Mark::Standing),
            _ => Err(UnknownMark),
        }
    }
}

// The two ends are in no order. The chance is in parts of the network's scale.
#[derive(Clone, Copy, PartialEq, Eq, Debug, Default)]
pub struct Lane {
    pub left: u8,
    pub right: u8,
    pub chance: u16,
    pub cost: u32,
    pub mark: Mark,
}

impl Lane {
    pub const MOST_COST: u32 = 1_000_000;

    pub fn check(&self, scale: Scale, depots: u8) -> Result<(), Refusal>
        ensures { result ≡ told (lane_refusal scale.parts depots self.now) tt }
    {
        if self.left >= depots || self.right >= depots || self.left == self.right {
            return Err(Refusal::EndsUnfit);
        }
        self.check_price(scale)
    }

    // Chance, then cost.
    pub(crate) fn check_price(&self, scale: Scale) -> Result<(), Refusal>
        ensures { result ≡ told (price_refusal scale.parts self.now) tt }
    {
        if self.chance == 0 || self.chance > scale.parts() {
            return Err(Refusal::ChanceOutOfRange);
        }
        if self.cost > Self::MOST_COST {
            return Err(Refusal::CostTooHigh);
        }
        Ok(())
    }
}
