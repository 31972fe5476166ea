// The total of a set of lanes in any semiring.
ghost use Rattle.network.specs.Connected.{connects};
ghost use Rattle.network.specs.Networks.{depots_of};
ghost use Rattle.reliability.specs.Questions.{Totalled};
ghost use Rattle.reliability.specs.Totals.{Tells};

use crate::chosen::Chosen;
use crate::factoring::SCRATCH_PLACES;
use crate::named::Named;
use network::{Network, Refusal};
use semiring::Semiring;

// The sum, over the states of the set's lanes that connect all depots, of the product of the weights.
pub fn total<V: Semiring>(network: &Network, set: u32, scratch: &mut [V]) -> Result<V, Refusal>
    ensures totalled { Totalled V.ops network.now set scratch.old result scratch.new }
    ensures tells { Tells (depots_of network.now) (connects (depots_of network.now)) }
{
    network.check_given(set)?;
    if scratch.len() < SCRATCH_PLACES {
        return Err(Refusal::ScratchTooShort);
    }
    let mut lanes = Chosen::none();
    lanes.choose(network.lanes(), set);
    let named = Named {
        lanes: lanes.as_slice(),
        scale: network.scale(),
        depots: network.depots(),
    };
    Ok(named.total(scratch))
}
