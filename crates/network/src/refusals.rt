// The answers by which a call is refused, each with its number in the refusal table.
ghost use Rattle.std.specs.Prelude.{◌≡◌, Some};
ghost use Rattle.network.specs.Refusals.{refusal_number, refusal_text};

use std::error::Error;
use std::fmt;

#[derive(Clone, Copy, PartialEq, Eq, Debug)]
pub enum Refusal {
    ScaleNotAdmitted = 1,
    SetLimitNotAdmitted = 2,
    DepotsOutOfRange = 3,
    EndsUnfit = 4,
    ChanceOutOfRange = 5,
    CostTooHigh = 6,
    LanesFull = 7,
    NumberNotGiven = 8,
    MarkedAlready = 9,
    PlacesOutOfRange = 10,
    PartsOutOfRange = 11,
    NoGoal = 12,
    GrantTooLarge = 13,
    LaneNotGiven = 14,
    TooManyLanesNamed = 15,
    ScratchTooShort = 16,
}

impl From<Refusal> for u8 {
    ghost from_gives = { λ refusal number. number ≡ refusal_number refusal };

    fn from(refusal: Refusal) -> u8 {
        refusal as u8
    }
}

impl fmt::Display for Refusal {
    ghost output = { λ refusal. Some (refusal_text refusal) };

    fn fmt<W: fmt::Write>(&self, f: &mut fmt::Formatter<W>) -> fmt::Result {
        write!(f, "refusal {}", u8::from(*self))
    }
}

impl Error for Refusal {}
