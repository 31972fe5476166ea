// Reading a sheet file, record by record.
ghost use Rattle.std.specs.Prelude.{◌≡◌, IfOk, Err, MatchResult};
ghost use Rattle.records.specs.Answers.{Gives};
ghost use Rattle.records.specs.Reading.{file_of, left_of};
ghost use Rattle.sheet.specs.Runs.{Fresh};
ghost use Rattle.sheet.specs.Sheets.{model_of};
ghost use Rattle.sheet_files.specs.Applying.{stage_of};
ghost use Rattle.sheet_files.specs.Files.{read_file};
ghost use Rattle.sheet_files.specs.Reading.{Carried, Faulted, Next, Opened, first_at, next_at};

use crate::bodies::{add_lane, open_sheet, state_goal};
use crate::faults::{Cause, Fault};
use bounds::Bound;
use network::MOST_LANES;
use records::{Reader, Record, Stage};
use sheet::{Sheet, SheetRoom};

// Which kinds of records may come next.
fn find_stage<B: Bound>(sheet: &Sheet<B>) -> Stage
    ensures { result ≡ stage_of (model_of B.tells sheet.now) }
{
    match sheet.goal() {
        Some(_) => Stage::Last,
        None if sheet.network().lanes().len() < MOST_LANES => Stage::Lanes,
        None => Stage::Full,
    }
}

fn carry_out_next<B: Bound>(sheet: &mut Sheet<B>, reader: &mut Reader) -> Result<(), Cause>
    ensures { Next (model_of B.tells sheet.old) reader.old result (model_of B.tells sheet.new) reader.new }
{
    let stage = find_stage(sheet);
    match reader.step(stage)? {
        Record::Lane { body, .. } => add_lane(sheet, body),
        Record::Goal { body, .. } => state_goal(sheet, body),
        // only the first record may be the sheet's
        Record::Sheet { .. } => Ok(()),
    }
}

// A fault is told with the place of the record that has it, here and in `read_first`: one function over a step would need a
// contract longer than both.
fn read_next<B: Bound>(sheet: &mut Sheet<B>, reader: &mut Reader) -> Result<(), Fault>
    ensures file { file_of reader.new ≡ file_of reader.old }
    ensures answer { MatchResult result (λ _. Carried (model_of B.tells sheet.old) reader.old (model_of B.tells sheet.new) reader.new) (λ fault. Faulted (next_at (model_of B.tells sheet.old) (left_of reader.old)) reader.old.place fault) }
{
    let place = reader.place();
    carry_out_next(sheet, reader).map_err(|cause| Fault { cause, place })
}

// The first record is the sheet's own.
fn carry_out_first<B: Bound + Drop>(
    room: SheetRoom,
    reader: &mut Reader,
    bound: B,
) -> Result<Sheet<B>, Cause>
    ensures file { file_of reader.new ≡ file_of reader.old }
    ensures answer { MatchResult result (λ sheet. Opened (B.tells bound) reader.old (model_of B.tells sheet) reader.new) (λ cause. first_at (B.tells bound) (left_of reader.old) ≡ Err cause) }
{
    // no other kind may stand first
    let Record::Sheet { body, .. } = reader.step(Stage::First)? else {
        unreachable()
    };
    open_sheet(room, body, bound)
}

fn read_first<B: Bound + Drop>(
    room: SheetRoom,
    reader: &mut Reader,
    bound: B,
) -> Result<Sheet<B>, Fault>
    ensures file { file_of reader.new ≡ file_of reader.old }
    ensures answer { MatchResult result (λ sheet. Opened (B.tells bound) reader.old (model_of B.tells sheet) reader.new) (λ fault. Faulted (first_at (B.tells bound) (left_of reader.old)) reader.old.place fault) }
{
    let place = reader.place();
    carry_out_first(room, reader, bound).map_err(|cause| Fault { cause, place })
}

// The sheet that a file describes, or the one fault that it has. A run of calls may begin there.
pub fn read<B: Bound + Drop>(room: SheetRoom, file: &[u8], bound: B) -> Result<Sheet<B>, Fault>
    ensures told { Gives (read_file (B.tells bound) file.now) (λ sheet. model_of B.tells sheet) result }
    ensures fresh { IfOk result (λ sheet. Fresh (model_of B.tells sheet)) }
{
    let mut reader = Reader::new(file);
    let mut sheet = read_first(room, &mut reader, bound)?;
    while !reader.is_at_end() {
        read_next(&mut sheet, &mut reader)?;
    }
    Ok(sheet)
}
