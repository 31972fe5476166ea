// What a search tells of itself.
ghost use Rattle.std.specs.Prelude.{◌≡◌, ◌+◌, ◌≤◌, true};
ghost use Rattle.search.specs.Keeping.{all_work, most_openings, shallow};
ghost use Rattle.search.specs.Searching.{is_ended};

use crate::searching::Search;

impl Search {
    pub fn best(&self) -> Option<u32>
        ensures { result ≡ self.now.best }
    {
        self.best
    }

    // With all that the pending branches may take, they stay within one grant.
    pub fn openings(&self) -> u32
        ensures told { result ≡ self.now.openings }
        ensures within { self.now.openings + all_work self.now.pending ≤ most_openings }
    {
        self.openings
    }

    // The pending branches fit the room reserved for them.
    pub fn has_ended(&self) -> bool
        ensures told { result ≡ is_ended self.now.pending }
        ensures fitting { shallow self.now.pending ≡ true }
    {
        self.pending.is_empty()
    }
}
