// Grants in uneven pieces end as one grant does, and tell the openings granted so far on the way.
use crate::calls::seek;
use crate::cases::{GOALS, Taken};
use crate::families::{each_way, offered};
use bounds::{Bound, Depot, Lesser, Plain, Whole};
use sheet::{Goal, Report, Sheet, State};
use std::alloc::AllocGlobal;
use std::fmt;
use std::process::Abort;
use std::test::*;

const MOST_LANES: u8 = 5;

// One to eleven openings make 66, and five lanes take 63 at most.
const LARGEST_PIECE: u32 = 11;

// What a failed comparison names: the lanes, and the bound.
#[derive(Clone, Copy)]
struct Place<'a> {
    taken: Taken<'a>,
    bound: &'a str,
}

impl fmt::Display for Place<'_> {
    fn fmt<W: fmt::Write>(&self, f: &mut fmt::Formatter<W>) -> fmt::Result {
        write!(f, "{}, {}", self.taken, self.bound)
    }
}

fn grant_pieces<B: Bound>(
    rt: &impl Abort,
    sheet: &mut Sheet<B>,
    whole: Report,
    place: Place,
) -> Result<(), Fail> {
    let mut granted: u32 = 0;
    for piece in 1..=LARGEST_PIECE {
        sheet.grant(piece)?;
        granted = granted.saturating_add(piece);
        let report = sheet.report();
        assert_eq!(rt; report.openings, granted.min(whole.openings), "{place}");
        let works = report.state == State::Working;
        assert_eq!(rt; works, granted < whole.openings, "{place}");
    }
    assert_eq!(rt; sheet.report(), whole, "{place}");
    Ok(())
}

fn compare_goals<B: Bound>(
    rt: &impl Abort,
    sheet: &mut Sheet<B>,
    place: Place,
) -> Result<(), Fail> {
    for (places, parts, _) in GOALS {
        let goal = Goal { places, parts };
        let whole = seek(sheet, goal)?;
        sheet.state_goal(goal)?;
        grant_pieces(rt, sheet, whole, place)?;
    }
    Ok(())
}

fn compare<B: Bound + Drop>(
    rt: &(impl Abort + AllocGlobal),
    bound: B,
    place: Place,
) -> Result<(), Fail> {
    let mut sheet = offered(rt, MOST_LANES, bound, place.taken.layout)?;
    compare_goals(rt, &mut sheet, place)
}

fn compare_bounds(rt: &(impl Abort + AllocGlobal), taken: Taken) -> Result<(), Fail> {
    let under = |bound| Place { taken, bound };
    let lesser = Lesser {
        first: Depot,
        second: Whole,
    };
    compare(rt, Plain, under("plain"))?;
    compare(rt, Depot, under("depot"))?;
    compare(rt, Whole, under("whole"))?;
    compare(rt, lesser, under("lesser"))
}

#[test]
fn end_as_one_grant(rt: HostRuntime) -> Result<(), Fail> {
    for depots in 2..=4 {
        each_way(&rt, depots, |taken| compare_bounds(&rt, taken))?;
    }
    Ok(())
}
