// The worked searches on the three-depot sheet, proved from the definitions in one check over a list, and a run of calls.
// Promise: the code's reports are the expected ones, in the order of the list; of the run, what the statement over runs says.
#![tactic(auto)]

ghost use Rattle.std.specs.Prelude.{◌≡◌};
ghost use Rattle.sheet_examples.specs.Searches.{SearchesHold, expected_reports};

mod memory;
mod runs;
mod searches;

use crate::searches::seek_in;
use bounds::{Depot, Plain, Whole};
pub use memory::Rooms;
pub use runs::{Followed, follow};
pub use searches::{open_three, seek};
use sheet::{Goal, Report};

// The number of searches in the list.
pub const SEARCHES: usize = 6;

const EIGHT_OF_10: Goal = Goal {
    places: 1,
    parts: 8,
};

const EIGHTY_TWO_OF_100: Goal = Goal {
    places: 2,
    parts: 82,
};

const JUST_WITHIN_REACH: Goal = Goal {
    places: 3,
    parts: 954,
};

const JUST_OUT_OF_REACH: Goal = Goal {
    places: 3,
    parts: 955,
};

// The code's reports of the searches of the list.
pub fn reports(rooms: Rooms) -> [Report; SEARCHES]
    ensures value { result ≡ expected_reports }
    ensures hold { SearchesHold }
{
    let Rooms([first, second, third, fourth, fifth, sixth]) = rooms;
    [
        seek_in(first, Plain, EIGHT_OF_10),
        seek_in(second, Plain, EIGHTY_TWO_OF_100),
        seek_in(third, Plain, JUST_WITHIN_REACH),
        seek_in(fourth, Plain, JUST_OUT_OF_REACH),
        seek_in(fifth, Depot, EIGHT_OF_10),
        seek_in(sixth, Whole, EIGHT_OF_10),
    ]
}
