// Openings, one and many.
ghost use Rattle.std.specs.Prelude.{◌≡◌};
ghost use Rattle.network.specs.Networks.{lanes_of};
ghost use Rattle.search.specs.Deciding.{problem_of};
ghost use Rattle.search.specs.Opening.{open_many, open_one};
ghost use Rattle.search.specs.Searching.{Over};

use crate::branches::Opening;
use crate::deciding::Problem;
use crate::searching::Search;
use bounds::Bound;

impl Search {
    fn open_one<B: Bound>(&mut self, problem: &Problem<B>)
        requires { Over (lanes_of problem.now.network.now) self.old }
        ensures opened { self.new ≡ open_one (problem_of B.tells problem.now) self.old }
        ensures over { Over (lanes_of problem.now.network.now) self.new }
    {
        let Some(branch) = self.pending.pop() else {
            return;
        };
        self.openings += 1;
        match problem.decide(self.best, branch) {
            Opening::Dropped | Opening::Missed => (),
            Opening::Reached => self.best = Some(branch.picked),
            Opening::Split { without, with_lane } => {
                self.pending.push_reserved(with_lane);
                self.pending.push_reserved(without);
            }
        }
    }

    // Openings until so many are made or none is pending.
    pub fn open_many<B: Bound>(&mut self, problem: &Problem<B>, openings: u32)
        requires { Over (lanes_of problem.now.network.now) self.old }
        ensures opened { self.new ≡ open_many (problem_of B.tells problem.now) openings self.old }
        ensures over { Over (lanes_of problem.now.network.now) self.new }
    {
        for _ in 0..openings {
            if self.has_ended() {
                return;
            }
            self.open_one(problem);
        }
    }
}
