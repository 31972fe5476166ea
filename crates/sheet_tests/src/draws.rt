// Small networks to test on, drawn from a number.
use crate::layouts::LANES;
use network::{Lane, LaneRoom, Mark, Network};
use std::alloc::AllocGlobal;
use std::array;
use std::test::Fail;
use trials::Draws;

pub const DEPOTS: u8 = 4;

const PAIRS: [(u8, u8); 6] = [(0, 1), (1, 2), (2, 3), (3, 0), (0, 2), (1, 3)];

// About one lane in four is struck.
fn lane_of(draw: u32) -> Lane {
    let (left, right) = PAIRS[(draw / 65_536 % 6) as usize];
    let mark = if draw / 4096 % 4 == 0 {
        Mark::Struck
    } else {
        Mark::Standing
    };
    Lane {
        left,
        right,
        chance: 1 + (draw / 1024 % 10) as u16,
        cost: draw / 512 % 30,
        mark,
    }
}

// Five lanes on four depots, another five for each number.
pub fn lanes_of(number: u32) -> [Lane; LANES] {
    let mut draws = Draws { last: number };
    array::from_fn(|_| lane_of(draws.draw()))
}

// A set has at most so many of the lanes.
pub fn network_of(rt: &impl AllocGlobal, most: u8, lanes: &[Lane]) -> Result<Network, Fail> {
    let room = LaneRoom::reserve(rt.alloc())?;
    Ok(Network::new(room, 10, most, DEPOTS, lanes)?)
}
