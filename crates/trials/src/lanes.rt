// The lane that other lanes of the tests are made from.
use network::{Lane, Mark};

pub const FIRST: Lane = Lane {
    left: 0,
    right: 1,
    chance: 9,
    cost: 4,
    mark: Mark::Standing,
};
