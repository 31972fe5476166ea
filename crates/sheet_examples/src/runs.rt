// A run of calls, some of them refused, and what the statement over runs says of it.
ghost use Rattle.sheet_examples.specs.Following.{Follows};

use bounds::Plain;
use network::Refusal;
use sheet::{Goal, Report, Sheet, SheetRoom};

// How two refused calls were answered, and the report at the end.
#[derive(Drop)]
pub struct Followed {
    pub granted: Result<(), Refusal>,
    pub struck: Result<(), Refusal>,
    pub report: Report,
}

// Grants before the last offer do not count, and a refused call leaves no trace.
pub fn follow(room: SheetRoom) -> Followed
    ensures { Follows result }
{
    let Ok(mut sheet) = Sheet::open(room, 10, 4, 3, Plain) else {
        unreachable()
    };
    let _ = sheet.offer(0, 1, 9, 4);
    let _ = sheet.offer(1, 2, 9, 5);
    let _ = sheet.state_goal(Goal {
        places: 1,
        parts: 8,
    });
    let _ = sheet.grant(3);
    let granted = sheet.grant(2_097_152);
    let struck = sheet.strike(2);
    let _ = sheet.grant(2);
    let _ = sheet.offer(0, 2, 8, 7);
    let _ = sheet.grant(5);
    let _ = sheet.grant(10);
    Followed {
        granted,
        struck,
        report: sheet.report(),
    }
}
