// A sheet in place: its lanes, its bound, its goal and its search.
ghost use Rattle.std.specs.Prelude.{◌≡◌, true, length};
ghost use Rattle.network.specs.Networks.{lanes_of, most_of, parts_of};
ghost use Rattle.search.specs.Keeping.{best_fits};
ghost use Rattle.search.specs.Searching.{Over};
ghost use Rattle.sheet.specs.Goals.{goal_in, least_for, least_in};
ghost use Rattle.sheet.specs.Models.{state_by};

mod changes;
mod grants;
mod machine;
mod opening;
mod questions;
mod reports;

use crate::goals::Target;
use crate::words::State;
use network::{LaneRoom, Network};
use search::{Search, SearchRoom};

// The memory of a sheet, for twenty lanes and twenty-one branches, reserved before there is one.
#[derive(Drop)]
pub struct SheetRoom {
    lanes: LaneRoom,
    branches: SearchRoom,
}

// The least chance that reaches the goal, and the state, are kept beside what they follow from.
// No model: its calls promise by `model_of`, which takes what the bound tells, and its questions by the network in it. One view
// would have to hold both, and each clause would take it apart.
#[derive(Drop)]
pub struct Sheet<B> {
    network: Network,
    bound: B,
    target: Option<Target>,
    state: State,
    seeking: Search,
    ghost given: { Over (lanes_of network) seeking },
    ghost fits: { best_fits (length (lanes_of network)) (most_of network) seeking.best ≡ true },
    ghost reached: { least_in target ≡ least_for (parts_of network) (most_of network) (goal_in target) },
    ghost stands: { state ≡ state_by (goal_in target) seeking },
}
