// Which sets of lanes may be asked about, and what a set costs.
ghost use Rattle.std.specs.Prelude.{◌≡◌};
ghost use Rattle.network.specs.Answers.{told};
ghost use Rattle.network.specs.Networks.{lanes_of, most_of};
ghost use Rattle.network.specs.Sets.{given_refusal, set_cost, set_refusal, standing_set};

use crate::networks::Network;
use crate::refusals::Refusal;

impl Network {
    // A set names only lanes that were given.
    pub fn check_given(&self, set: u32) -> Result<(), Refusal>
        ensures { result ≡ told (given_refusal (lanes_of self.now) set) tt }
    {
        if set >> self.lanes.len() != 0 {
            return Err(Refusal::LaneNotGiven);
        }
        Ok(())
    }

    // Lanes that were not given are told before too many lanes are.
    pub fn check_set(&self, set: u32) -> Result<(), Refusal>
        ensures { result ≡ told (set_refusal (most_of self.now) (lanes_of self.now) set) tt }
    {
        self.check_given(set)?;
        if set.count_ones() > u32::from(self.scale.most()) {
            return Err(Refusal::TooManyLanesNamed);
        }
        Ok(())
    }

    // The sum of the costs of the set's lanes, those that were not given left out: a loop over the lanes with their index, as asked for.
    pub fn sum_costs(&self, set: u32) -> u32
        ensures { result ≡ set_cost set (lanes_of self.now) }
    {
        let mut cost = 0;
        for (i, lane) in self.lanes.iter().enumerate() {
            if (set >> i) % 2 == 1 {
                cost += lane.cost;
            }
        }
        cost
    }

    pub fn cost(&self, set: u32) -> Result<u32, Refusal>
        ensures { result ≡ told (set_refusal (most_of self.now) (lanes_of self.now) set) (set_cost set (lanes_of self.now)) }
    {
        self.check_set(set)?;
        Ok(self.sum_costs(set))
    }

    // The set of all lanes that stand.
    pub fn standing(&self) -> u32
        ensures { result ≡ standing_set (lanes_of self.now) }
    {
        let mut set = 0;
        for (i, lane) in self.lanes.iter().enumerate() {
            if lane.mark.stands() {
                set += 1 << i;
            }
        }
        set
    }
}
