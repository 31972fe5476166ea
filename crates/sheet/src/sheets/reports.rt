// What a sheet tells: its report, and answers about sets of its lanes.
ghost use Rattle.std.specs.Prelude.{◌≡◌};
ghost use Rattle.sheet.specs.Models.{report_of, told_plan};
ghost use Rattle.sheet.specs.Sheets.{contents_of, model_of};
ghost use Rattle.sheet.specs.Statement.{OverEveryRun};

use crate::sheets::Sheet;
use crate::words::{Plan, Report};
use bounds::Bound;
use network::Network;
use reliability::chance;

impl<B: Bound> Sheet<B> {
    // The statement holds over every run that leads to this sheet.
    pub fn report(&self) -> Report
        ensures told { result ≡ report_of (model_of B.tells self.now) }
        ensures stated { OverEveryRun (model_of B.tells self.now) result }
    {
        Report {
            state: self.state,
            best: self.tell_best(),
            openings: self.seeking.openings(),
        }
    }

    fn tell_best(&self) -> Option<Plan>
        ensures { result ≡ told_plan (contents_of self.now.network) (model_of B.tells self.now).progress.best }
    {
        let set = self.seeking.best()?;
        let Ok(chance) = chance(&self.network, set) else {
            // the best set is of given lanes, at most K of them
            unreachable()
        };
        Some(Plan {
            set,
            cost: self.network.sum_costs(set),
            chance,
        })
    }
}
