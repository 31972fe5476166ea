// The words of the subject: scales, lanes, sets of lanes, refusals, and a network that has been checked.
// Promise: a network exists only with a scale whose full scale is at most 10^18, two to ten depots and at most twenty sound lanes.
#![tactic(auto)]

mod lanes;
mod networks;
mod refusals;
mod scales;

pub use lanes::{Lane, Mark, UnknownMark};
pub use networks::{LaneRoom, MOST_LANES, Network};
pub use refusals::Refusal;
pub use scales::{Scale, limit_at};
