// The full scale less the chance that some depot is cut off.
ghost use Rattle.std.specs.Prelude.{◌≡◌, ◌<◌};
ghost use Rattle.network.specs.Networks.{depots_of, most_of, parts_of};
ghost use Rattle.reliability.specs.Questions.{named};
ghost use Rattle.bounds.specs.Depots.{depot_number, least_depot, touches};
ghost use Rattle.bounds.specs.Numbers.{depot_tells};
ghost use Rattle.bounds.specs.Covers.{depot_means};

use crate::Bound;
use crate::questions::Question;
use network::{Lane, Network};

#[derive(Clone, Copy)]
pub struct Depot;

fn has_end(lane: &Lane, depot: u8) -> bool
    ensures { result ≡ touches depot lane.now }
{
    (lane.left == depot) | (lane.right == depot)
}

// What one depot gives, by the set's lanes at it.
fn number_at(network: &Network, set: u32, depot: u8) -> u64
    ensures { result ≡ depot_number (parts_of network.now) (most_of network.now) depot (named network.now set) }
{
    let parts = u64::from(network.scale().parts());
    let most = u32::from(network.scale().most());
    // one loop for both figures, each under its name: a fold would carry them as a pair
    let mut count = 0;
    // the product of the failing parts, which is exact as long as there are at most K of them
    let mut fail: u64 = 1;
    for (i, lane) in network.lanes().iter().enumerate() {
        if ((set >> i) % 2 == 1) & has_end(lane, depot) {
            count += 1;
            fail = fail.saturating_mul(parts.saturating_sub(u64::from(lane.chance)));
        }
    }
    let full = network.scale().full();
    if count > most {
        full
    } else {
        full - fail * parts.pow(most - count)
    }
}

// The least of what the depots give.
fn least_number(network: &Network, set: u32) -> u64
    ensures { result ≡ least_depot (parts_of network.now) (most_of network.now) (depots_of network.now) (named network.now set) }
{
    // a `for` over the depots: tried as map and fold, and the proof did not close
    let mut least = network.scale().full();
    for depot in 0..network.depots() {
        least = least.min(number_at(network, set, depot));
    }
    least
}

impl Bound for Depot {
    ghost tells = { λ _. depot_tells };

    ghost meaning = { λ bound. depot_means };

    fn tell(&self, question: Question) -> u64 {
        let Some(set) = question.candidates() else {
            return question.network.scale().full();
        };
        least_number(question.network, set)
    }
}
