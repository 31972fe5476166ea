// Bytes and records: what a record is, and a reader that goes from record to record.
// Promise: a record is handed out exactly as the format says, or the first fault that applies is told and the reader stays where it is.
#![tactic(auto)]

mod faults;
mod kinds;
mod readers;

pub use faults::{Ended, Misfit};
pub use kinds::{Kind, Stage};
pub use readers::{Place, Reader, Record};
