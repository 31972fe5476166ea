// The plan of a sheet file.
ghost use Rattle.std.specs.Prelude.{◌≡◌};
ghost use Rattle.planning.specs.Answers.{answer_to, told_by};
ghost use Rattle.planning.specs.declared.answers.Failure.TheVariants as failures;

use bounds::{Depot, Lesser, Whole};
use network::Refusal;
use sheet::{MOST_GRANTED, Plan, Report, SheetRoom};
use sheet_files::{Fault, read};

// No sheet file is longer, and no later byte can change the answer.
pub const MOST_BYTES: usize = 512;

// After a search that has ended there is a best set exactly if one was found. Its chance is in parts of the full scale.
#[derive(Clone, Copy, PartialEq, Eq, Debug)]
pub struct Planned {
    pub best: Option<Plan>,
    pub full: u64,
    pub openings: u32,
}

// Why there is no search to report.
#[derive(Clone, Copy, PartialEq, Eq, Debug)]
pub enum Failure {
    Faulty(Fault),
    Refused(Refusal),
}

impl From<Fault> for Failure {
    ghost from_gives = { λ fault failure. failure ≡ failures.Faulty fault };

    fn from(fault: Fault) -> Failure {
        Failure::Faulty(fault)
    }
}

impl From<Refusal> for Failure {
    ghost from_gives = { λ refusal failure. failure ≡ failures.Refused refusal };

    fn from(refusal: Refusal) -> Failure {
        Failure::Refused(refusal)
    }
}

fn tell(report: Report, full: u64) -> Planned
    ensures { result ≡ told_by full report }
{
    Planned {
        best: report.best,
        full,
        openings: report.openings,
    }
}

// One grant of all openings, under the lesser of the depot and the whole bound.
pub fn plan(room: SheetRoom, file: &[u8]) -> Result<Planned, Failure>
    ensures { result ≡ answer_to file.now }
{
    let bound = Lesser {
        first: Depot,
        second: Whole,
    };
    let mut sheet = read(room, file, bound)?;
    sheet.grant(MOST_GRANTED)?;
    Ok(tell(sheet.report(), sheet.network().scale().full()))
}
