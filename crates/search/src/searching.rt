// A search in place: its pending branches, its best set and its openings.
mod calls;
mod openings;
mod questions;

use crate::branches::Branch;
use network::MOST_LANES;
use rooms::Room;
use std::marker::Model;

// One more than the most lanes of a network.
const MOST_PENDING: usize = MOST_LANES + 1;

// The memory of a search's branches.
pub type SearchRoom = Room<Branch, MOST_PENDING>;

// The newest branch is the last.
#[derive(Drop)]
pub struct Search {
    pending: Vec<Branch>,
    best: Option<u32>,
    openings: u32,
}

// Clauses see how far it has come: the newest branch first.
impl Model for Search {
    ghost use Rattle.search.specs.Opening.{Progress};

    ghost Value = { Progress };

    ghost use Rattle.search.specs.Searching.{Held, progress_of};

    ghost view = { progress_of };

    ghost invariant = { Held };
}
