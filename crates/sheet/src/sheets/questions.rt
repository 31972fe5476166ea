// Questions about sets of a sheet's lanes, whatever its goal.
ghost use Rattle.std.specs.Prelude.{◌≡◌};
ghost use Rattle.network.specs.Answers.{told};
ghost use Rattle.network.specs.Networks.{depots_of, lanes_of, most_of, parts_of};
ghost use Rattle.network.specs.Sets.{set_cost, set_refusal, standing_lanes};
ghost use Rattle.reliability.specs.Joining.{CheapestJoining, joining_cost};
ghost use Rattle.reliability.specs.Questions.{Chance, Connects, Totalled};
ghost use Rattle.sheet.specs.Goals.{goal_in};

use crate::sheets::Sheet;
use crate::words::Goal;
use network::{Network, Refusal};
use semiring::Semiring;

impl<B> Sheet<B> {
    // Its scale, K, depots and lanes.
    pub fn network(&self) -> &Network
        ensures { result.now ≡ self.now.network }
    {
        &self.network
    }

    pub fn goal(&self) -> Option<Goal>
        ensures { result ≡ goal_in self.now.target }
    {
        self.target.map(|target| target.goal)
    }

    pub fn cost(&self, set: u32) -> Result<u32, Refusal>
        ensures { result ≡ told (set_refusal (most_of self.now.network) (lanes_of self.now.network) set) (set_cost set (lanes_of self.now.network)) }
    {
        self.network.cost(set)
    }

    pub fn chance(&self, set: u32) -> Result<u64, Refusal>
        ensures { Chance self.now.network set result }
    {
        reliability::chance(&self.network, set)
    }

    pub fn connected(&self, set: u32) -> Result<bool, Refusal>
        ensures { Connects self.now.network set result }
    {
        reliability::connected(&self.network, set)
    }

    pub fn joining_cost(&self) -> Option<u32>
        ensures value { result ≡ joining_cost (parts_of self.now.network) (depots_of self.now.network) (standing_lanes (lanes_of self.now.network)) }
        ensures meant { CheapestJoining (depots_of self.now.network) (standing_lanes (lanes_of self.now.network)) result }
    {
        reliability::joining_cost(&self.network)
    }

    // The total in any semiring, worked out in a scratch that the caller lends.
    pub fn total<V: Semiring>(&self, set: u32, scratch: &mut [V]) -> Result<V, Refusal>
        ensures { Totalled V.ops self.now.network set scratch.old result scratch.new }
    {
        reliability::total(&self.network, set, scratch)
    }
}
