// Every sheet of the families under four bounds, whole, against the enumeration.
use crate::calls::seek;
use crate::cases::{Case, GOAL_COUNT, GOALS, LIMITS, Taken};
use crate::families::{each_way, offered};
use bounds::{Bound, Depot, Lesser, Plain, Whole};
use sheet::{Goal, Sheet};
use std::alloc::AllocGlobal;
use std::process::Abort;
use std::test::*;

// The openings that each goal takes.
fn count_openings<B: Bound>(
    rt: &(impl Abort + AllocGlobal),
    sheet: &mut Sheet<B>,
    case: Case,
) -> Result<Vec<u32>, Fail> {
    let mut openings = Vec::new(rt.alloc());
    for (i, (places, parts, least)) in GOALS.into_iter().enumerate() {
        let report = seek(sheet, Goal { places, parts })?;
        assert_eq!(rt;
            report,
            case.due(least, report.openings),
            "{case}, goal {i}"
        );
        openings.push(report.openings)?;
    }
    assert_eq!(rt; openings.len(), GOAL_COUNT);
    Ok(openings)
}

fn openings_under<B: Bound + Drop>(
    rt: &(impl Abort + AllocGlobal),
    case: Case,
    bound: B,
) -> Result<Vec<u32>, Fail> {
    let mut sheet = offered(rt, case.most, bound, case.taken.layout)?;
    count_openings(rt, &mut sheet, case)
}

fn none_is_above(rt: &impl Abort, case: Case, openings: &[u32], limits: &[u32]) {
    for (i, (count, limit)) in openings.iter().zip(limits).enumerate() {
        assert!(rt; count <= limit, "{case}, goal {i}");
    }
}

// All bounds end alike, and none takes more openings than a weaker one.
fn compare(rt: &(impl Abort + AllocGlobal), case: Case) -> Result<(), Fail> {
    let lesser = Lesser {
        first: Depot,
        second: Whole,
    };
    let plain = openings_under(rt, case, Plain)?;
    let depot = openings_under(rt, case, Depot)?;
    let whole = openings_under(rt, case, Whole)?;
    let lesser = openings_under(rt, case, lesser)?;
    // no more than the nodes of a binary tree with a level for each standing lane
    let nodes = (2u32 << case.taken.layout.standing().count_ones() % 8) - 1;
    none_is_above(rt, case, &plain, &[nodes; GOAL_COUNT]);
    none_is_above(rt, case, &depot, &plain);
    none_is_above(rt, case, &whole, &plain);
    none_is_above(rt, case, &lesser, &depot);
    none_is_above(rt, case, &lesser, &whole);
    Ok(())
}

fn compare_limits(rt: &(impl Abort + AllocGlobal), taken: Taken) -> Result<(), Fail> {
    let chances = taken.layout.chances();
    for (most, unit) in LIMITS {
        let case = Case {
            taken,
            chances: &chances,
            most,
            unit,
        };
        compare(rt, case)?;
    }
    Ok(())
}

#[test]
fn two_depots(rt: HostRuntime) -> Result<(), Fail> {
    each_way(&rt, 2, |taken| compare_limits(&rt, taken))
}

#[test]
fn three_depots(rt: HostRuntime) -> Result<(), Fail> {
    each_way(&rt, 3, |taken| compare_limits(&rt, taken))
}

#[test]
fn four_depots(rt: HostRuntime) -> Result<(), Fail> {
    each_way(&rt, 4, |taken| compare_limits(&rt, taken))
}
