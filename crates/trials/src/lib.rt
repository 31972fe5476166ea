// What tests and benchmarks share: a lane, and numbers drawn from a first one.
// Promise: each number drawn is the one that follows from the number before it.
#![tactic(auto)]

mod draws;
mod lanes;

pub use draws::Draws;
pub use lanes::FIRST;
