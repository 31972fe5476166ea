// The sheet as a machine in place, as asked for: its state, matched together with the call, says what happens.
ghost use Rattle.sheet.specs.Calls.{Stepped};
ghost use Rattle.sheet.specs.Sheets.{model_of};
ghost use Rattle.sheet.specs.declared.words.Call.TheVariants.{Grant, Offer, Reprice, Restore, StateGoal, Strike};

use crate::sheets::Sheet;
use crate::sheets::grants::check_grant;
use crate::words::{Call, Goal, State};
use bounds::Bound;
use network::{Mark, Refusal};

impl<B: Bound> Sheet<B> {
    pub fn call(&mut self, call: Call) -> Result<(), Refusal>
        ensures { Stepped (model_of B.tells self.old) call result (model_of B.tells self.new) }
    {
        match (self.state, call) {
            (
                _,
                Call::Offer {
                    left,
                    right,
                    chance,
                    cost,
                },
            ) => self.take_offer(left, right, chance, cost),
            (_, Call::Strike { lane }) => self.mark_lane(lane, Mark::Struck),
            (_, Call::Restore { lane }) => self.mark_lane(lane, Mark::Standing),
            (_, Call::Reprice { lane, chance, cost }) => self.price_lane(lane, chance, cost),
            (_, Call::StateGoal(goal)) => self.take_goal(goal),
            (State::Drafting, Call::Grant { .. }) => Err(Refusal::NoGoal),
            (State::Working, Call::Grant { openings }) => self.work(openings),
            // an ended sheet has nothing to open; tried in one arm for both, and the proof no longer knew the state
            (State::Found, Call::Grant { openings }) => check_grant(openings),
            (State::NoneFound, Call::Grant { openings }) => check_grant(openings),
        }
    }

    pub fn offer(&mut self, left: u8, right: u8, chance: u16, cost: u32) -> Result<(), Refusal>
        ensures { Stepped (model_of B.tells self.old) (Offer left right chance cost) result (model_of B.tells self.new) }
    {
        self.call(Call::Offer {
            left,
            right,
            chance,
            cost,
        })
    }

    pub fn strike(&mut self, lane: u8) -> Result<(), Refusal>
        ensures { Stepped (model_of B.tells self.old) (Strike lane) result (model_of B.tells self.new) }
    {
        self.call(Call::Strike { lane })
    }

    pub fn restore(&mut self, lane: u8) -> Result<(), Refusal>
        ensures { Stepped (model_of B.tells self.old) (Restore lane) result (model_of B.tells self.new) }
    {
        self.call(Call::Restore { lane })
    }

    pub fn reprice(&mut self, lane: u8, chance: u16, cost: u32) -> Result<(), Refusal>
        ensures { Stepped (model_of B.tells self.old) (Reprice lane chance cost) result (model_of B.tells self.new) }
    {
        self.call(Call::Reprice { lane, chance, cost })
    }

    pub fn state_goal(&mut self, goal: Goal) -> Result<(), Refusal>
        ensures { Stepped (model_of B.tells self.old) (StateGoal goal) result (model_of B.tells self.new) }
    {
        self.call(Call::StateGoal(goal))
    }

    pub fn grant(&mut self, openings: u32) -> Result<(), Refusal>
        ensures { Stepped (model_of B.tells self.old) (Grant openings) result (model_of B.tells self.new) }
    {
        self.call(Call::Grant { openings })
    }
}
