// The three-depot sheet, opened and searched through its calls.
ghost use Rattle.std.specs.Prelude.{◌≡◌};
ghost use Rattle.sheet.specs.Models.{report_of};
ghost use Rattle.sheet.specs.Runs.{after_run};
ghost use Rattle.sheet.specs.Sheets.{model_of};
ghost use Rattle.sheet_examples.specs.Searches.{search_for, three_sheet};

use bounds::Bound;
use sheet::{Goal, Report, Sheet, SheetRoom};

// As many openings as a search of three lanes can take.
const ENOUGH: u32 = 15;

// Its three lanes are offered, and there is no goal.
pub fn open_three<B: Bound + Drop>(room: SheetRoom, bound: B) -> Sheet<B>
    ensures { model_of B.tells result ≡ three_sheet (B.tells bound) }
{
    let Ok(mut sheet) = Sheet::open(room, 10, 4, 3, bound) else {
        unreachable()
    };
    let _ = sheet.offer(0, 1, 9, 4);
    let _ = sheet.offer(1, 2, 9, 5);
    let _ = sheet.offer(0, 2, 8, 7);
    sheet
}

// States a goal, grants enough openings to end, and tells the report.
pub fn seek<B: Bound>(sheet: &mut Sheet<B>, goal: Goal) -> Report
    ensures report { result ≡ report_of (after_run (model_of B.tells sheet.old) (search_for goal)) }
    ensures model { model_of B.tells sheet.new ≡ after_run (model_of B.tells sheet.old) (search_for goal) }
{
    let _ = sheet.state_goal(goal);
    let _ = sheet.grant(ENOUGH);
    sheet.report()
}

// The report of one search on a sheet of its own.
pub fn seek_in<B: Bound + Drop>(room: SheetRoom, bound: B, goal: Goal) -> Report
    ensures { result ≡ report_of (after_run (three_sheet (B.tells bound)) (search_for goal)) }
{
    let mut sheet = open_three(room, bound);
    seek(&mut sheet, goal)
}
