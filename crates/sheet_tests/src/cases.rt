// What is compared with the enumeration: lanes with a limit, goals, and the report that is due.
use crate::layouts::{Layout, SETS};
use network::Lane;
use sheet::{Plan, Report, State};
use std::fmt;

// The most lanes in a set, and how many parts of ten to the power of five one part of the full scale is.
pub const LIMITS: [(u8, u64); 2] = [(2, 1000), (5, 1)];

pub const GOAL_COUNT: usize = 14;

// The places and parts of a goal, and the chance in parts of ten to the power of five.
pub const GOALS: [(u8, u64, u64); GOAL_COUNT] = [
    (1, 1, 10_000),
    (1, 2, 20_000),
    (1, 3, 30_000),
    (1, 4, 40_000),
    (1, 5, 50_000),
    (1, 6, 60_000),
    (1, 7, 70_000),
    (1, 8, 80_000),
    (1, 9, 90_000),
    (1, 10, 100_000),
    (2, 1, 1000),
    (2, 81, 81_000),
    (2, 95, 95_000),
    (2, 99, 99_000),
];

// The lanes that are taken in one of the ways.
#[derive(Clone, Copy)]
pub struct Taken<'a> {
    pub way: u32,
    pub layout: Layout<'a>,
}

impl fmt::Display for Taken<'_> {
    fn fmt<W: fmt::Write>(&self, f: &mut fmt::Formatter<W>) -> fmt::Result {
        write!(f, "depots {}, way {}", self.layout.depots, self.way)
    }
}

// Lanes with the chances of their sets, and how many of them a set may have.
#[derive(Clone, Copy)]
pub struct Case<'a> {
    pub taken: Taken<'a>,
    pub chances: &'a [u64; SETS as usize],
    pub most: u8,
    pub unit: u64,
}

impl fmt::Display for Case<'_> {
    fn fmt<W: fmt::Write>(&self, f: &mut fmt::Formatter<W>) -> fmt::Result {
        write!(f, "{}, at most {}", self.taken, self.most)
    }
}

impl Case<'_> {
    // Of equally cheap sets the one with the lowest number.
    fn cheapest(&self, least: u64) -> Option<Plan> {
        let layout = self.taken.layout;
        let standing = layout.standing();
        let most = u32::from(self.most);
        (0..SETS)
            .zip(*self.chances)
            .filter(|(set, chance)| {
                set & standing == *set && set.count_ones() <= most && *chance >= least
            })
            .map(|(set, chance)| Plan {
                set,
                cost: layout.cost(set),
                chance: chance / self.unit.max(1),
            })
            .min_by_key(|plan| plan.cost)
    }

    // The report that is due, but for the openings, which it tells as given.
    pub fn due(&self, least: u64, openings: u32) -> Report {
        let best = self.cheapest(least);
        let state = match best {
            Some(_) => State::Found,
            None => State::NoneFound,
        };
        Report {
            state,
            best,
            openings,
        }
    }
}
