// A goal stays over changes of lanes, and a later goal takes its place.
use crate::calls::{
    MOST, drafting, follow, found, goal, grant, holding, none_found, offer, reprice, restore,
    strike, working,
};
use crate::sheets::{open, open_three};
use bounds::Plain;
use std::test::*;

#[test]
fn a_goal_stays_over_changes(rt: HostRuntime) -> Result<(), Fail> {
    let mut sheet = open_three(&rt)?;
    // The fourth lane goes with the first, and at its new price the second with the fourth.
    let steps = [
        (goal(1, 8), working(0)),
        (grant(5), working(5)),
        (offer(0, 2, 10, 3), working(0)),
        (grant(MOST), found(21, 9, 7, 9000)),
        (strike(3), working(0)),
        (grant(MOST), found(13, 3, 9, 8100)),
        (restore(3), working(0)),
        (grant(12), holding(12, 3, 9, 8100)),
        (grant(MOST), found(21, 9, 7, 9000)),
        (reprice(1, 10, 1), working(0)),
        (grant(MOST), found(19, 10, 4, 10_000)),
    ];
    follow(&rt, &mut sheet, &steps)
}

#[test]
fn without_a_goal_it_stays_drafting(rt: HostRuntime) -> Result<(), Fail> {
    let mut sheet = open(&rt, 4, 3, Plain)?;
    let steps = [
        (offer(0, 1, 9, 4), drafting()),
        (strike(0), drafting()),
        (restore(0), drafting()),
        (reprice(0, 8, 3), drafting()),
        (offer(1, 2, 10, 0), drafting()),
    ];
    follow(&rt, &mut sheet, &steps)
}

#[test]
fn a_later_goal_replaces_the_earlier(rt: HostRuntime) -> Result<(), Fail> {
    let mut sheet = open_three(&rt)?;
    let steps = [
        (goal(1, 8), working(0)),
        (grant(8), holding(8, 3, 9, 8100)),
        (goal(3, 954), working(0)),
        (grant(MOST), found(15, 7, 16, 9540)),
        (goal(3, 955), working(0)),
        (grant(MOST), none_found(15)),
        (goal(1, 8), working(0)),
        (grant(MOST), found(13, 3, 9, 8100)),
    ];
    follow(&rt, &mut sheet, &steps)
}
