// Branches of a search, and what comes of opening one.
ghost use Rattle.std.specs.Prelude.{◌≡◌, ◌+◌, ◌^◌, ◌<◌};
ghost use Rattle.search.specs.Opening.{with_lane, without};
ghost use Rattle.search.specs.declared.branches.Opening.TheVariants.{Split};

// The sets that have all picked lanes and otherwise only undecided ones.
#[derive(Clone, Copy)]
pub struct Branch {
    pub picked: u32,
    pub undecided: u32,
}

// A branch is dropped; or it is one set, which reaches the goal or misses it; or it is split at its highest undecided lane.
#[derive(Clone, Copy)]
pub enum Opening {
    Dropped,
    Missed,
    Reached,
    Split { without: Branch, with_lane: Branch },
}

impl Branch {
    pub(crate) fn split(self) -> Opening
        requires undecided { 0 < self.undecided }
        requires within { self.picked + self.undecided < 2 ^ 32 }
        ensures { result ≡ Split (without self) (with_lane self) }
    {
        let lane = 1 << self.undecided.ilog2();
        let without = Branch {
            undecided: self.undecided - lane,
            ..self
        };
        let with_lane = Branch {
            picked: without.picked + lane,
            ..without
        };
        Opening::Split { without, with_lane }
    }
}
