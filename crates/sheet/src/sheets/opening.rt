// The way in for a sheet.
ghost use Rattle.std.specs.Prelude.{◌≡◌, ◌≤◌, [], vec_capacity};
ghost use Rattle.network.specs.Answers.{Told};
ghost use Rattle.sheet.specs.Calls.{opened, opening_refusal};
ghost use Rattle.sheet.specs.Sheets.{model_of};

use crate::sheets::{Sheet, SheetRoom};
use crate::words::State;
use bounds::Bound;
use network::{LaneRoom, Network, Refusal};
use search::{Search, SearchRoom};
use std::alloc::{AllocError, Global};

impl SheetRoom {
    // The only call on a sheet that can lack memory.
    pub fn reserve(heap: Global) -> Result<SheetRoom, AllocError> {
        Ok(SheetRoom {
            lanes: LaneRoom::reserve(heap)?,
            branches: SearchRoom::reserve(heap)?,
        })
    }
}

impl<B: Bound + Drop> Sheet<B> {
    // A sheet without lanes and without a goal, which keeps its scale, K, depots and bound. These stand side by side, as only this
    // call and `Network::new` take them, and each caller names all.
    pub fn open(
        room: SheetRoom,
        parts: u16,
        most: u8,
        depots: u8,
        bound: B,
    ) -> Result<Sheet<B>, Refusal>
        ensures { Told (opening_refusal parts most depots) result (λ sheet. model_of B.tells sheet ≡ opened parts most depots (B.tells bound)) }
    {
        let SheetRoom { lanes, branches } = room;
        let network = Network::new(lanes, parts, most, depots, &[])?;
        Ok(Sheet {
            network,
            bound,
            target: None,
            state: State::Drafting,
            seeking: Search::new(branches),
        })
    }
}
