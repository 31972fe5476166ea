// Grants of openings.
ghost use Rattle.std.specs.Prelude.{◌≡◌};
ghost use Rattle.network.specs.Answers.{told};
ghost use Rattle.sheet.specs.Calls.{Stepped, size_refusal};
ghost use Rattle.sheet.specs.Models.{searched_state};
ghost use Rattle.sheet.specs.Sheets.{model_of};
ghost use Rattle.sheet.specs.declared.words.Call.TheVariants.{Grant};
ghost use Rattle.sheet.specs.declared.words.State.TheVariants.{Working};

use crate::sheets::Sheet;
use crate::words::{MOST_GRANTED, State};
use bounds::Bound;
use network::Refusal;
use search::{Problem, Search};

pub(crate) fn check_grant(openings: u32) -> Result<(), Refusal>
    ensures { result ≡ told (size_refusal openings) tt }
{
    if openings > MOST_GRANTED {
        return Err(Refusal::GrantTooLarge);
    }
    Ok(())
}

// The state of a sheet with a goal.
fn find_state(seeking: &Search) -> State
    ensures { result ≡ searched_state seeking.now.pending seeking.now.best }
{
    match (seeking.has_ended(), seeking.best()) {
        (false, _) => State::Working,
        (true, Some(_)) => State::Found,
        (true, None) => State::NoneFound,
    }
}

impl<B: Bound> Sheet<B> {
    pub(crate) fn work(&mut self, openings: u32) -> Result<(), Refusal>
        requires { self.old.state ≡ Working }
        ensures { Stepped (model_of B.tells self.old) (Grant openings) result (model_of B.tells self.new) }
    {
        check_grant(openings)?;
        let Some(target) = self.target else {
            // a sheet that works has a goal
            unreachable()
        };
        let problem = Problem {
            network: &self.network,
            bound: &self.bound,
            least: target.least,
        };
        self.seeking.open_many(&problem, openings);
        self.state = find_state(&self.seeking);
        Ok(())
    }
}
