// Two small sheets, followed by hand opening by opening.
use crate::calls::{drafting, follow, found, goal, grant, holding, offer, working};
use crate::sheets::{open, open_three};
use bounds::Plain;
use std::test::*;

#[test]
fn finds_the_first_two_lanes(rt: HostRuntime) -> Result<(), Fail> {
    let mut sheet = open_three(&rt)?;
    let steps = [
        (goal(1, 8), working(0)),
        (grant(5), working(5)),
        (grant(7), holding(12, 3, 9, 8100)),
        (grant(1), found(13, 3, 9, 8100)),
        (grant(100), found(13, 3, 9, 8100)),
    ];
    follow(&rt, &mut sheet, &steps)
}

#[test]
fn five_single_openings_are_five_at_once(rt: HostRuntime) -> Result<(), Fail> {
    let mut sheet = open_three(&rt)?;
    // The eighth opening reaches the goal, and no opening after it picks a cheaper set.
    let steps = [
        (goal(1, 8), working(0)),
        (grant(0), working(0)),
        (grant(1), working(1)),
        (grant(1), working(2)),
        (grant(1), working(3)),
        (grant(1), working(4)),
        (grant(1), working(5)),
        (grant(2), working(7)),
        (grant(1), holding(8, 3, 9, 8100)),
        (grant(2_097_151), found(13, 3, 9, 8100)),
    ];
    follow(&rt, &mut sheet, &steps)
}

#[test]
fn of_two_equal_lanes_the_first_is_found(rt: HostRuntime) -> Result<(), Fail> {
    let mut sheet = open(&rt, 2, 2, Plain)?;
    // The second lane costs no less, so the branch that picks it is dropped.
    let steps = [
        (offer(0, 1, 9, 5), drafting()),
        (offer(0, 1, 9, 5), drafting()),
        (goal(1, 9), working(0)),
        (grant(7), found(5, 1, 5, 90)),
    ];
    follow(&rt, &mut sheet, &steps)
}
