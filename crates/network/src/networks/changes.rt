// How a lane of a network changes: another mark, another chance and cost.
ghost use Rattle.network.specs.Changes.{mark_refusal, marked_at, reprice_refusal, repriced_at};
ghost use Rattle.network.specs.Networks.{Changed, lanes_of, parts_of};

use crate::lanes::{Lane, Mark};
use crate::networks::Network;
use crate::refusals::Refusal;

impl Network {
    // The lane of this number is struck or stands from now on.
    pub fn set_mark(&mut self, number: u8, mark: Mark) -> Result<(), Refusal>
        ensures { Changed self.old (mark_refusal (lanes_of self.old) number mark) (marked_at (lanes_of self.old) number mark) result self.new }
    {
        let Some(lane) = self.lanes.get_mut(usize::from(number)) else {
            return Err(Refusal::NumberNotGiven);
        };
        if lane.mark == mark {
            return Err(Refusal::MarkedAlready);
        }
        lane.mark = mark;
        Ok(())
    }

    // The lane of this number keeps its ends and its mark.
    pub fn reprice(&mut self, number: u8, chance: u16, cost: u32) -> Result<(), Refusal>
        ensures { Changed self.old (reprice_refusal (parts_of self.old) (lanes_of self.old) number chance cost) (repriced_at (lanes_of self.old) number chance cost) result self.new }
    {
        let Some(old) = self.lanes.get_mut(usize::from(number)) else {
            return Err(Refusal::NumberNotGiven);
        };
        let repriced = Lane {
            chance,
            cost,
            ..*old
        };
        repriced.check_price(self.scale)?;
        *old = repriced;
        Ok(())
    }
}
