// Sheets that the tests open.
use bounds::{Bound, Plain};
use sheet::{Sheet, SheetRoom};
use std::alloc::AllocGlobal;
use std::test::*;

pub const PARTS: u16 = 10;

// Without lanes and without a goal.
pub fn open<B: Bound + Drop>(
    rt: &impl AllocGlobal,
    most: u8,
    depots: u8,
    bound: B,
) -> Result<Sheet<B>, Fail> {
    let room = SheetRoom::reserve(rt.alloc())?;
    Ok(Sheet::open(room, PARTS, most, depots, bound)?)
}

// Three depots, a lane between each two.
pub fn open_three(rt: &impl AllocGlobal) -> Result<Sheet<Plain>, Fail> {
    let room = SheetRoom::reserve(rt.alloc())?;
    Ok(sheet_examples::open_three(room, Plain))
}

// Two depots and twenty equal lanes between them.
pub fn open_twenty(rt: &impl AllocGlobal) -> Result<Sheet<Plain>, Fail> {
    let mut sheet = open(rt, 4, 2, Plain)?;
    for _ in 0..20 {
        sheet.offer(0, 1, 9, 4)?;
    }
    Ok(sheet)
}
