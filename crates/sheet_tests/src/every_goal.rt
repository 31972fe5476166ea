// Every goal of a sheet with at most two lanes in a set, for every sheet of the families, against the enumeration.
use crate::calls::seek;
use crate::cases::{Case, Taken};
use crate::families::{each_way, offered};
use bounds::{Bound, Depot, Lesser, Plain, Whole};
use sheet::{Goal, Sheet};
use std::alloc::AllocGlobal;
use std::process::Abort;
use std::test::*;

// The lanes in a set, and how many parts of ten to the power of five one part of the full scale is.
const LIMIT: (u8, u64) = (2, 1000);

// The places of a goal, its most parts, and what one of them is in parts of ten to the power of five.
const PLACES: [(u8, u64, u64); 2] = [(1, 10, 10_000), (2, 100, 1000)];

fn compare_parts<B: Bound>(
    rt: &impl Abort,
    sheet: &mut Sheet<B>,
    case: Case,
    place: (u8, u64, u64),
) -> Result<(), Fail> {
    let (places, most, unit) = place;
    for parts in 1..=most {
        let report = seek(sheet, Goal { places, parts })?;
        assert_eq!(rt;
            report,
            case.due(parts.saturating_mul(unit), report.openings),
            "{case}, {parts} parts of {places} places"
        );
    }
    Ok(())
}

fn compare_under<B: Bound + Drop>(
    rt: &(impl Abort + AllocGlobal),
    case: Case,
    bound: B,
) -> Result<(), Fail> {
    let mut sheet = offered(rt, case.most, bound, case.taken.layout)?;
    for place in PLACES {
        compare_parts(rt, &mut sheet, case, place)?;
    }
    Ok(())
}

fn compare(rt: &(impl Abort + AllocGlobal), taken: Taken) -> Result<(), Fail> {
    let (most, unit) = LIMIT;
    let case = Case {
        taken,
        chances: &taken.layout.chances(),
        most,
        unit,
    };
    let lesser = Lesser {
        first: Depot,
        second: Whole,
    };
    compare_under(rt, case, Plain)?;
    compare_under(rt, case, lesser)
}

#[test]
fn two_depots(rt: HostRuntime) -> Result<(), Fail> {
    each_way(&rt, 2, |taken| compare(&rt, taken))
}

#[test]
fn three_depots(rt: HostRuntime) -> Result<(), Fail> {
    each_way(&rt, 3, |taken| compare(&rt, taken))
}

#[test]
fn four_depots(rt: HostRuntime) -> Result<(), Fail> {
    each_way(&rt, 4, |taken| compare(&rt, taken))
}
