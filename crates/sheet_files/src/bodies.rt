// The bodies of records, taken apart and carried out on a sheet.
ghost use Rattle.std.specs.Prelude.{◌≡◌, length};
ghost use Rattle.network.specs.Marks.{mark_number};
ghost use Rattle.records.specs.Answers.{Gives};
ghost use Rattle.sheet.specs.Sheets.{model_of};
ghost use Rattle.sheet_files.specs.Applying.{goal_by, lane_by, open_by, struck_by};

use crate::faults::Cause;
use bounds::Bound;
use network::Mark;
use records::Misfit;
use sheet::{Goal, Sheet, SheetRoom};

// Depots, K and S.
pub fn open_sheet<B: Bound + Drop>(
    room: SheetRoom,
    body: &[u8],
    bound: B,
) -> Result<Sheet<B>, Cause>
    requires { length body.now ≡ 4 }
    ensures { Gives (open_by (B.tells bound) body.now) (λ sheet. model_of B.tells sheet) result }
{
    let [depots, most, s0, s1] = body else {
        unreachable()
    };
    let scale = u16::from_le_bytes([*s0, *s1]);
    Ok(Sheet::open(room, scale, *most, *depots, bound)?)
}

// A lane that is offered stands.
fn strike_marked<B: Bound>(sheet: &mut Sheet<B>, mark: Mark, lane: u8)
    ensures { model_of B.tells sheet.new ≡ struck_by (mark_number mark) lane (model_of B.tells sheet.old) }
{
    if mark == Mark::Struck {
        let _ = sheet.strike(lane);
    }
}

// Two ends, the mark, the chance and the cost.
pub fn add_lane<B: Bound>(sheet: &mut Sheet<B>, body: &[u8]) -> Result<(), Cause>
    requires { length body.now ≡ 9 }
    ensures { Gives (lane_by (model_of B.tells sheet.old) body.now) (λ _. model_of B.tells sheet.new) result }
{
    let [left, right, mark, p0, p1, c0, c1, c2, c3] = body else {
        unreachable()
    };
    let mark = Mark::try_from(*mark).map_err(|_| Misfit::BodyUnfit)?;
    let lane = sheet.network().lanes().len() as u8;
    let chance = u16::from_le_bytes([*p0, *p1]);
    let cost = u32::from_le_bytes([*c0, *c1, *c2, *c3]);
    sheet.offer(*left, *right, chance, cost)?;
    strike_marked(sheet, mark, lane);
    Ok(())
}

// r, then g.
pub fn state_goal<B: Bound>(sheet: &mut Sheet<B>, body: &[u8]) -> Result<(), Cause>
    requires { length body.now ≡ 9 }
    ensures { Gives (goal_by (model_of B.tells sheet.old) body.now) (λ _. model_of B.tells sheet.new) result }
{
    let [places, g0, g1, g2, g3, g4, g5, g6, g7] = body else {
        unreachable()
    };
    let parts = u64::from_le_bytes([*g0, *g1, *g2, *g3, *g4, *g5, *g6, *g7]);
    sheet.state_goal(Goal {
        places: *places,
        parts,
    })?;
    Ok(())
}
