// Which goals are refused, and the least chance that reaches one.
ghost use Rattle.std.specs.Prelude.{◌≡◌, ◌^◌, ◌≤◌};
ghost use Rattle.network.specs.Answers.{told};
ghost use Rattle.sheet.specs.Goals.{goal_refusal, target_for};

use crate::words::Goal;
use network::{Refusal, Scale};

// S^exponent.
fn power(scale: Scale, exponent: u8) -> u64
    requires { exponent ≤ scale.most }
    ensures { result ≡ scale.parts ^ exponent }
{
    u64::from(scale.parts()).pow(u32::from(exponent))
}

// A goal, and the least chance that reaches it, in parts of the full scale.
#[derive(Clone, Copy)]
pub(crate) struct Target {
    pub goal: Goal,
    pub least: u64,
}

impl Target {
    pub(crate) fn find(goal: Goal, scale: Scale) -> Result<Target, Refusal>
        ensures { result ≡ told (goal_refusal scale.parts scale.most goal) (target_for scale.parts scale.most goal) }
    {
        if goal.places == 0 || goal.places > scale.most() {
            return Err(Refusal::PlacesOutOfRange);
        }
        if goal.parts == 0 || goal.parts > power(scale, goal.places) {
            return Err(Refusal::PartsOutOfRange);
        }
        let least = goal.parts * power(scale, scale.most() - goal.places);
        Ok(Target { goal, least })
    }
}
