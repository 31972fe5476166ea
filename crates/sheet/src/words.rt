// What a sheet is asked to do, and what it tells.

// The most openings of one grant; a search of twenty lanes takes no more.
pub const MOST_GRANTED: u32 = 2_097_151;

// g parts of S^r: r is `places`, g is `parts`.
#[derive(Clone, Copy, PartialEq, Eq, Debug)]
pub struct Goal {
    pub places: u8,
    pub parts: u64,
}

// The figures of an offer and of a price stand as the customer gives them: a struct of them would be made for a call and taken
// apart in it.
#[derive(Clone, Copy, PartialEq, Eq, Debug)]
pub enum Call {
    Offer {
        left: u8,
        right: u8,
        chance: u16,
        cost: u32,
    },
    Strike {
        lane: u8,
    },
    Restore {
        lane: u8,
    },
    Reprice {
        lane: u8,
        chance: u16,
        cost: u32,
    },
    StateGoal(Goal),
    Grant {
        openings: u32,
    },
}

// Drafting is without a goal; with one a search works until no branch is pending.
#[derive(Clone, Copy, PartialEq, Eq, Debug)]
pub enum State {
    Drafting,
    Working,
    Found,
    NoneFound,
}

// A set of lanes with its cost and its chance, in parts of the full scale.
#[derive(Clone, Copy, PartialEq, Eq, Debug)]
pub struct Plan {
    pub set: u32,
    pub cost: u32,
    pub chance: u64,
}

// State and best set are told side by side, as asked for: while the sheet works, the best set is the best so far.
// The openings are those since the last change.
#[derive(Clone, Copy, PartialEq, Eq, Debug)]
pub struct Report {
    pub state: State,
    pub best: Option<Plan>,
    pub openings: u32,
}
