// The way in for a search, and how it starts.
ghost use Rattle.std.specs.Prelude.{◌≡◌};
ghost use Rattle.network.specs.Networks.{lanes_of};
ghost use Rattle.search.specs.Opening.{none_started, start_over};

use crate::branches::Branch;
use crate::searching::{MOST_PENDING, Search, SearchRoom};
use network::Network;

impl Search {
    pub const MOST_PENDING: usize = MOST_PENDING;

    // Nothing is pending.
    pub fn new(room: SearchRoom) -> Search
        ensures { result ≡ none_started }
    {
        Search {
            pending: room.into_items(),
            best: None,
            openings: 0,
        }
    }

    // As a search that was never started.
    pub fn clear(&mut self)
        ensures { self.new ≡ none_started }
    {
        self.pending.clear();
        self.best = None;
        self.openings = 0;
    }

    // Nothing is picked, and all standing lanes are undecided.
    pub fn restart(&mut self, network: &Network)
        ensures { self.new ≡ start_over (lanes_of network.now) }
    {
        self.clear();
        self.pending.push_reserved(Branch {
            picked: 0,
            undecided: network.standing(),
        });
    }
}
