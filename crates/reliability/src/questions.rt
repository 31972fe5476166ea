// Questions about a set of lanes, and the joining cost of a network, each with a scratch of its own.
ghost use Rattle.std.specs.Prelude.{◌≡◌, ◌*◌, ◌^◌, ◌<◌};
ghost use Rattle.std.specs.Mem.{type_size};
ghost use Rattle.network.specs.Answers.{told};
ghost use Rattle.network.specs.Connected.{connects};
ghost use Rattle.network.specs.Networks.{depots_of, lanes_of, parts_of};
ghost use Rattle.network.specs.Sets.{given_refusal, standing_lanes};
ghost use Rattle.reliability.specs.Joining.{CheapestJoining, joining_cost};
ghost use Rattle.reliability.specs.Questions.{Chance, Connects, scratch_places, set_total};

use crate::factoring::SCRATCH_PLACES;
use crate::totals::total;
use network::{Network, Refusal};
use semiring::{Cheapest, Semiring, Share, YesNo};

// The total of a set, worked out in a scratch of its own, which has to fit in memory.
fn total_of_set<V: Semiring>(network: &Network, set: u32) -> Result<V, Refusal>
    requires { scratch_places * type_size V.row < 2 ^ 63 }
    ensures { result ≡ told (given_refusal (lanes_of network.now) set) (set_total V.ops (connects (depots_of network.now)) network.now set) }
{
    let mut scratch = [V::zero(); SCRATCH_PLACES];
    total(network, set, &mut scratch)
}

// The chance that the set's lanes connect all depots, in parts of the full scale.
pub fn chance(network: &Network, set: u32) -> Result<u64, Refusal>
    ensures { Chance network.now set result }
{
    network.check_set(set)?;
    let share = total_of_set::<Share>(network, set)?;
    let scale = network.scale();
    let unused = u32::from(scale.most()) - set.count_ones();
    Ok(share.parts() * u64::from(scale.parts()).pow(unused))
}

// Whether the set's lanes connect all depots.
pub fn connected(network: &Network, set: u32) -> Result<bool, Refusal>
    ensures { Connects network.now set result }
{
    network.check_set(set)?;
    let joined = total_of_set::<YesNo>(network, set)?;
    Ok(joined.yes)
}

// The cheapest cost of standing lanes that connect all depots, or none.
pub fn joining_cost(network: &Network) -> Option<u32>
    ensures value { result ≡ joining_cost (parts_of network.now) (depots_of network.now) (standing_lanes (lanes_of network.now)) }
    ensures meant { CheapestJoining (depots_of network.now) (standing_lanes (lanes_of network.now)) result }
{
    let Ok(cheapest) = total_of_set::<Cheapest>(network, network.standing()) else {
        // standing lanes were given
        unreachable()
    };
    cheapest.present()
}
