// One factoring routine for every semiring, and what it tells of a set of lanes: its chance, whether it connects, and the joining cost.
// Promise: a total is the sum over all states, and a chance is the all-terminal reliability, exactly.
#![tactic(auto)]

mod chosen;
mod factoring;
mod labels;
mod named;
mod questions;
mod totals;

pub use factoring::SCRATCH_PLACES;
pub use questions::{chance, connected, joining_cost};
pub use totals::total;
