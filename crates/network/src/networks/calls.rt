// The way in for a network, and what it tells of itself.
ghost use Rattle.std.specs.Prelude.{◌≡◌, []};
ghost use Rattle.network.specs.Answers.{Told};
ghost use Rattle.network.specs.Lanes.{depots_refusal};
ghost use Rattle.network.specs.Networks.{Added, Made, lanes_of, network_refusal};

use crate::lanes::Lane;
use crate::networks::{LaneRoom, MOST_LANES, Network};
use crate::refusals::Refusal;
use crate::scales::Scale;

impl Network {
    pub const FEWEST_DEPOTS: u8 = 2;

    pub const MOST_DEPOTS: u8 = 10;

    // The network of these lanes, which are checked as one list: scale, depots, then lane by lane.
    pub fn new(
        room: LaneRoom,
        parts: u16,
        most: u8,
        depots: u8,
        lanes: &[Lane],
    ) -> Result<Network, Refusal>
        ensures { Told (network_refusal parts most depots lanes.now) result (λ network. Made network parts most depots lanes.now) }
    {
        let scale = Scale::admit(parts, most)?;
        let mut network = Network::without_lanes(room, scale, depots)?;
        for lane in lanes {
            network.offer(*lane)?;
        }
        Ok(network)
    }

    fn without_lanes(room: LaneRoom, scale: Scale, depots: u8) -> Result<Network, Refusal>
        ensures { Told (depots_refusal depots) result (λ network. (network.scale ≡ scale) × (network.depots ≡ depots) × (lanes_of network ≡ [])) }
    {
        if depots < Self::FEWEST_DEPOTS || depots > Self::MOST_DEPOTS {
            return Err(Refusal::DepotsOutOfRange);
        }
        Ok(Network {
            scale,
            depots,
            lanes: room.into_items(),
        })
    }

    // One lane more, under the next number.
    pub fn offer(&mut self, lane: Lane) -> Result<(), Refusal>
        ensures { Added self.old lane result self.new }
    {
        lane.check(self.scale, self.depots)?;
        if self.lanes.len() >= MOST_LANES {
            return Err(Refusal::LanesFull);
        }
        self.lanes.push_reserved(lane);
        Ok(())
    }

    pub fn scale(&self) -> Scale
        ensures { result ≡ self.now.scale }
    {
        self.scale
    }

    pub fn depots(&self) -> u8
        ensures { result ≡ self.now.depots }
    {
        self.depots
    }

    pub fn lanes(&self) -> &[Lane]
        ensures { result.now ≡ lanes_of self.now }
    {
        self.lanes.as_slice()
    }
}
