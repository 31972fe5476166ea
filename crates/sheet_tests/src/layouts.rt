// Up to five lanes between some depots, with the answers by all states of a set and all sets; it shares no code with the library.
use network::Lane;
use std::array;

pub const LANES: usize = 5;

pub const SETS: u32 = 32;

// What a lane is worth in a set, by its number.
const WORTHS: [u32; LANES] = [1, 2, 4, 8, 16];

const PARTS: u64 = 10;

// Chances are in parts of ten. Lanes from the sixth on are left out.
#[derive(Clone, Copy)]
pub struct Layout<'a> {
    pub depots: u8,
    pub lanes: &'a [Lane],
}

impl Layout<'_> {
    // The depots that a depot of those reached has a running lane to, in one go over the lanes.
    fn spread(&self, state: u32, reached: u32) -> u32 {
        self.lanes
            .iter()
            .zip(WORTHS)
            .filter(|(_, worth)| state & *worth != 0)
            .map(|(lane, _)| 1u32 << (lane.left % 8) | 1u32 << (lane.right % 8))
            .fold(reached, |reached, ends| {
                if reached & ends == 0 {
                    reached
                } else {
                    reached | ends
                }
            })
    }

    // Every depot is reached from the first.
    pub fn joins(&self, state: u32) -> bool {
        let reached = (1..self.depots).fold(1, |reached, _| self.spread(state, reached));
        reached.count_ones() == u32::from(self.depots)
    }

    // The weight of a state of the set, in parts of ten to the power of the lanes.
    fn weight(&self, set: u32, state: u32) -> u64 {
        self.lanes
            .iter()
            .zip(WORTHS)
            .map(|(lane, worth)| {
                let chance = u64::from(lane.chance);
                if set & worth == 0 {
                    PARTS
                } else if state & worth == 0 {
                    PARTS.saturating_sub(chance)
                } else {
                    chance
                }
            })
            .fold(1, |parts: u64, factor| parts.saturating_mul(factor))
    }

    // In parts of ten to the power of the lanes.
    pub fn chance(&self, set: u32) -> u64 {
        (0..SETS)
            .filter(|state| state & set == *state && self.joins(*state))
            .map(|state| self.weight(set, state))
            .fold(0, |sum: u64, weight| sum.saturating_add(weight))
    }

    // The chance of each set, in parts of ten to the power of five.
    pub fn chances(&self) -> [u64; SETS as usize] {
        let unit = (self.lanes.len()..LANES).fold(1, |unit: u64, _| unit.saturating_mul(PARTS));
        array::from_fn(|set| self.chance(set as u32).saturating_mul(unit))
    }

    pub fn cost(&self, set: u32) -> u32 {
        self.lanes
            .iter()
            .zip(WORTHS)
            .filter(|(_, worth)| set & *worth != 0)
            .fold(0, |cost: u32, (lane, _)| cost.saturating_add(lane.cost))
    }

    // The set of all lanes that stand.
    pub fn standing(&self) -> u32 {
        self.lanes
            .iter()
            .zip(WORTHS)
            .filter(|(lane, _)| lane.mark.stands())
            .fold(0, |set, (_, worth)| set | worth)
    }

    // The least cost of standing lanes that join all depots.
    pub fn joining_cost(&self) -> Option<u32> {
        let standing = self.standing();
        (0..SETS)
            .filter(|set| set & standing == *set && self.joins(*set))
            .map(|set| self.cost(set))
            .min()
    }
}
