// The kinds of records, and where in a sheet file each may stand.
ghost use Rattle.std.specs.Prelude.{◌≡◌};
ghost use Rattle.std.specs.Option.{ok_or};
ghost use Rattle.records.specs.Kinds.{allowed_length, kind_number, kind_of};
ghost use Rattle.records.specs.declared.faults.Misfit.TheVariants.{KindNotDefined};

use crate::faults::Misfit;

#[derive(Clone, Copy, PartialEq, Eq, Debug)]
pub enum Kind {
    Sheet = 1,
    Lane = 2,
    Goal = 3,
    Plan = 4,
    NoPlan = 5,
}

impl From<Kind> for u16 {
    ghost from_gives = { λ kind number. number ≡ kind_number kind };

    fn from(kind: Kind) -> u16 {
        kind as u16
    }
}

impl TryFrom<u16> for Kind {
    type Error = Misfit;

    ghost try_from_gives = { λ number answer. answer ≡ ok_or (kind_of number) KindNotDefined };

    fn try_from(number: u16) -> Result<Kind, Misfit> {
        match number {
            1 => Ok(Kind::Sheet),
            2 => Ok(Kind::Lane),
            3 => Ok(Kind::Goal),
            4 => Ok(Kind::Plan),
            5 => Ok(Kind::NoPlan),
            _ => Err(Misfit::KindNotDefined),
        }
    }
}

// A sheet file begins with its sheet, goes on with lanes while there are fewer than twenty, and ends with at most one goal.
#[derive(Clone, Copy, PartialEq, Eq, Debug)]
pub enum Stage {
    First,
    Lanes,
    Full,
    Last,
}

impl Stage {
    const SHEET_BYTES: usize = 4;

    const LANE_BYTES: usize = 9;

    const GOAL_BYTES: usize = 9;

    // The bytes of a body of this kind, if it is allowed here.
    pub fn body_length(self, kind: Kind) -> Option<usize>
        ensures { result ≡ allowed_length self kind }
    {
        match (self, kind) {
            (Stage::First, Kind::Sheet) => Some(Self::SHEET_BYTES),
            (Stage::Lanes, Kind::Lane) => Some(Self::LANE_BYTES),
            (Stage::Lanes | Stage::Full, Kind::Goal) => Some(Self::GOAL_BYTES),
            _ => None,
        }
    }
}
