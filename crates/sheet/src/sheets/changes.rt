// The calls that change a sheet.
ghost use Rattle.std.specs.Prelude.{◌≡◌};
ghost use Rattle.std.specs.Fn.{FnOnceReturnsAtMut};
ghost use Rattle.network.specs.Networks.{lanes_of};
ghost use Rattle.sheet.specs.Calls.{Keeps, Stepped, mark_call, renewed};
ghost use Rattle.sheet.specs.Goals.{goal_in};
ghost use Rattle.sheet.specs.Models.{fresh, state_by};
ghost use Rattle.sheet.specs.Sheets.{model_of};
ghost use Rattle.sheet.specs.declared.words.Call.TheVariants.{Offer, Reprice, StateGoal};

use crate::goals::Target;
use crate::sheets::Sheet;
use crate::words::{Goal, State};
use bounds::Bound;
use network::{Lane, Mark, Network, Refusal};
use search::Search;

// The search anew, as a change leaves it, and the state that it is in.
fn begin(seeking: &mut Search, network: &Network, target: Option<Target>) -> State
    ensures progress { seeking.new ≡ fresh (lanes_of network.now) (goal_in target) }
    ensures state { result ≡ state_by (goal_in target) seeking.new }
{
    match target {
        Some(_) => {
            seeking.restart(network);
            State::Working
        }
        None => {
            seeking.clear();
            State::Drafting
        }
    }
}

impl<B: Bound> Sheet<B> {
    // One step on the network and, unless it is refused, the search anew.
    fn change<F: FnOnce(&mut Network) -> Result<(), Refusal>>(
        &mut self,
        step: F,
    ) -> Result<(), Refusal>
        requires callable { F.IsAlwaysCallable step }
        requires keeps { (r : _) (later : _) → FnOnceReturnsAtMut F.FnOnce step self.old.network r later → Keeps self.old.network r later }
        ensures stepped { FnOnceReturnsAtMut F.FnOnce step self.old.network result self.new.network }
        ensures anew { model_of B.tells self.new ≡ renewed result (model_of B.tells self.old) self.new.network }
    {
        step(&mut self.network)?;
        self.state = begin(&mut self.seeking, &self.network, self.target);
        Ok(())
    }

    pub(crate) fn take_offer(
        &mut self,
        left: u8,
        right: u8,
        chance: u16,
        cost: u32,
    ) -> Result<(), Refusal>
        ensures { Stepped (model_of B.tells self.old) (Offer left right chance cost) result (model_of B.tells self.new) }
    {
        let lane = Lane {
            left,
            right,
            chance,
            cost,
            mark: Mark::Standing,
        };
        self.change(|network| network.offer(lane))
    }

    pub(crate) fn mark_lane(&mut self, lane: u8, mark: Mark) -> Result<(), Refusal>
        ensures { Stepped (model_of B.tells self.old) (mark_call mark lane) result (model_of B.tells self.new) }
    {
        self.change(|network| network.set_mark(lane, mark))
    }

    pub(crate) fn price_lane(&mut self, lane: u8, chance: u16, cost: u32) -> Result<(), Refusal>
        ensures { Stepped (model_of B.tells self.old) (Reprice lane chance cost) result (model_of B.tells self.new) }
    {
        self.change(|network| network.reprice(lane, chance, cost))
    }

    pub(crate) fn take_goal(&mut self, goal: Goal) -> Result<(), Refusal>
        ensures { Stepped (model_of B.tells self.old) (StateGoal goal) result (model_of B.tells self.new) }
    {
        self.target = Some(Target::find(goal, self.network.scale())?);
        self.state = begin(&mut self.seeking, &self.network, self.target);
        Ok(())
    }
}
