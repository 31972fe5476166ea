// Sheet files: reading a sheet from bytes.
// Promise: for every byte string just the sheet that its records' calls would leave, or the one fault that it has.
#![tactic(auto)]

mod bodies;
mod faults;
mod reading;

pub use faults::{Cause, Fault, Layer};
pub use reading::read;
