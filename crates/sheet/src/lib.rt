// A sheet: lanes on offer, a goal, and the search for the cheapest set that reaches it.
// Promise: every run of calls, accepted or refused, leaves just the sheet that the rules name, and the report tells of it when a plan is found and which.
#![tactic(auto)]

mod goals;
mod sheets;
mod words;

pub use sheets::{Sheet, SheetRoom};
pub use words::{Call, Goal, MOST_GRANTED, Plan, Report, State};
