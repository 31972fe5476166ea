// What is searched, and the rule of one opening.
ghost use Rattle.std.specs.Prelude.{◌≡◌, ◌+◌, ◌^◌, ◌<◌, ◌≤◌, length, count_ones};
ghost use Rattle.network.specs.Networks.{lanes_of, most_of};
ghost use Rattle.search.specs.Deciding.{decided, problem_of};
ghost use Rattle.search.specs.Opening.{dropped, reaches, too_dear};

use crate::branches::{Branch, Opening};
use bounds::{Bound, Question};
use network::Network;
use reliability::chance;

// A network, the upper bound that is asked, and the least chance that reaches the goal.
#[derive_where(Clone, Copy)]
pub struct Problem<'a, B> {
    pub network: &'a Network,
    pub bound: &'a B,
    pub least: u64,
}

impl<B: Bound> Problem<'_, B> {
    // A set of given lanes, at most K of them, reaches the goal.
    fn reaches(&self, set: u32) -> bool
        requires given { set < 2 ^ length (lanes_of self.now.network.now) }
        requires few { count_ones set ≤ most_of self.now.network.now }
        ensures { result ≡ reaches (problem_of B.tells self.now) set }
    {
        let Ok(parts) = chance(self.network, set) else {
            unreachable()
        };
        parts >= self.least
    }

    // The picked lanes cost as much as the best set or more.
    fn is_too_dear(&self, best: Option<u32>, picked: u32) -> bool
        ensures { result ≡ too_dear (lanes_of self.now.network.now) best picked }
    {
        best.is_some_and(|set| self.network.sum_costs(set) <= self.network.sum_costs(picked))
    }

    // The branch leads nowhere.
    fn is_dropped(&self, best: Option<u32>, branch: Branch) -> bool
        ensures { result ≡ dropped (problem_of B.tells self.now) best branch }
    {
        let question = Question {
            network: self.network,
            picked: branch.picked,
            undecided: branch.undecided,
        };
        self.is_too_dear(best, branch.picked)
            || branch.picked.count_ones() > u32::from(self.network.scale().most())
            || self.bound.tell(question) < self.least
    }

    // What comes of opening a branch of given lanes.
    pub(crate) fn decide(&self, best: Option<u32>, branch: Branch) -> Opening
        requires { branch.picked + branch.undecided < 2 ^ length (lanes_of self.now.network.now) }
        ensures { result ≡ decided (problem_of B.tells self.now) best branch }
    {
        if self.is_dropped(best, branch) {
            return Opening::Dropped;
        }
        if branch.undecided > 0 {
            return branch.split();
        }
        if self.reaches(branch.picked) {
            Opening::Reached
        } else {
            Opening::Missed
        }
    }
}
