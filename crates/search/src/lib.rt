// Branch and bound for the cheapest set that reaches a goal.
// Promise: each opening, and every number of them, is the rule's; what the rule ends with is told by the report of a sheet.
#![tactic(auto)]

mod branches;
mod deciding;
mod searching;

pub use branches::Branch;
pub use deciding::Problem;
pub use searching::{Search, SearchRoom};
