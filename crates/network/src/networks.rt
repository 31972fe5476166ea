// A network that has been checked: its scale, its depots and its lanes.
ghost use Rattle.std.specs.Prelude.{◌≡◌, ◌≤◌, true, vec_len, vec_capacity};
ghost use Rattle.network.specs.Lanes.{all_sound, most_lanes};

mod calls;
mod changes;
mod questions;

use crate::lanes::Lane;
use crate::scales::Scale;
use rooms::Room;

// The most lanes of a network.
pub const MOST_LANES: usize = 20;

// The memory of a network's lanes.
pub type LaneRoom = Room<Lane, MOST_LANES>;

// What every routine over a network needs is a fact of its type.
#[derive(Drop)]
pub struct Network {
    scale: Scale,
    depots: u8,
    lanes: Vec<Lane>,
    ghost two: { 2 ≤ depots },
    ghost ten: { depots ≤ 10 },
    ghost few: { vec_len lanes ≤ most_lanes },
    ghost roomy: { most_lanes ≤ vec_capacity lanes },
    ghost fit: { all_sound scale.parts depots lanes.items ≡ true },
}
