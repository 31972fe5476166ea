// From the bytes of a sheet file to the answer that the console program prints.
// Promise: the file's fault, or the refusal of one grant of all openings, or what the sheet reports after it; and each as one line.
#![tactic(auto)]

mod answers;
mod lines;

pub use answers::{Failure, MOST_BYTES, Planned, plan};
