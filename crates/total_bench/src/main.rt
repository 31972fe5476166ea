// Times the share total of a set of lanes on ten depots: total_bench ROUNDS [LANES].
// Without an argument it does nothing. With one it writes a line: rounds, microseconds, checksum.
#![tactic(auto)]

use anyhow::ensure;
use network::{Lane, LaneRoom, Mark, Network};
use reliability::{SCRATCH_PLACES, total};
use semiring::{Semiring, Share};
use std::alloc::Global;
use std::env;
use std::time::Instant;

const LANES: usize = 18;

const NETWORKS: usize = 8;

// A ring of ten depots, and eight chords.
const ENDS: [[u8; 2]; LANES] = [
    [0, 1],
    [1, 2],
    [2, 3],
    [3, 4],
    [4, 5],
    [5, 6],
    [6, 7],
    [7, 8],
    [8, 9],
    [9, 0],
    [0, 5],
    [1, 4],
    [2, 7],
    [3, 8],
    [4, 9],
    [6, 0],
    [7, 5],
    [8, 1],
];

// Each network has chances of its own, so that no total can be kept from an earlier round.
fn lane_of(ends: [u8; 2], place: usize, number: usize) -> Lane {
    let [left, right] = ends;
    Lane {
        left,
        right,
        chance: 1 + ((place % 9 * 7 + number % 9 * 5) % 9) as u16,
        cost: 10,
        mark: Mark::Standing,
    }
}

fn build(heap: Global, number: usize) -> anyhow::Result<Network> {
    let lanes = ENDS
        .into_iter()
        .enumerate()
        .map(|(place, ends)| lane_of(ends, place, number))
        .collect::<Vec<Lane>>(heap)?;
    let room = LaneRoom::reserve(heap)?;
    Ok(Network::new(room, 10, 18, 10, lanes.as_slice())?)
}

// The totals of one round after another, in one number.
fn sum_up(
    networks: &[Network],
    rounds: usize,
    set: u32,
    scratch: &mut [Share],
) -> anyhow::Result<u64> {
    let mut checksum = 0u64;
    for network in networks.iter().cycle().take(rounds) {
        let share = total::<Share>(network, set, scratch)?;
        checksum = checksum.wrapping_mul(31).wrapping_add(share.parts());
    }
    Ok(checksum)
}

// A network's first lanes, as a set.
fn first(count: usize) -> anyhow::Result<u32> {
    ensure!(count <= LANES, "at most 18 lanes");
    Ok((1 << count) - 1)
}

fn run(rt: &HostRuntime) -> anyhow::Result<()> {
    let mut words = env::args(rt)?.skip(1);
    let Some(rounds) = words.next() else {
        return Ok(());
    };
    let rounds = rounds.as_str().parse::<usize>()?;
    let lanes = words.next().map(|lanes| lanes.as_str().parse::<usize>());
    let count = lanes.transpose()?.unwrap_or(LANES);
    let set = first(count)?;
    let networks = (0..NETWORKS)
        .map(|number| build(rt.alloc(), number))
        .try_collect::<Vec<Network>>(rt.alloc())?;
    let mut scratch = [Share::zero(); SCRATCH_PLACES];
    let start = Instant::now(rt)?;
    let checksum = sum_up(networks.as_slice(), rounds, set, &mut scratch)?;
    let micros = start.elapsed(rt)?.as_micros();
    println!(rt; "{rounds} {micros} {checksum}")?;
    Ok(())
}

fn main(rt: HostRuntime) -> anyhow::Result<()> {
    run(&rt)
}
