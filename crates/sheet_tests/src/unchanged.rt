// A refused call in the middle of the work leaves the report and the lanes as they were.
use crate::calls::{
    MOST, answers, drafting, follow, found, goal, grant, holding, offer, perform, reprice, restore,
    strike, working,
};
use crate::sheets::{open_three, open_twenty};
use bounds::Plain;
use network::{Lane, Mark, Refusal};
use sheet::{Call, Sheet};
use std::process::Abort;
use std::test::*;
use trials::FIRST;

const LANES: [Lane; 4] = [
    FIRST,
    Lane {
        left: 1,
        right: 2,
        cost: 5,
        ..FIRST
    },
    Lane {
        right: 2,
        chance: 8,
        cost: 7,
        ..FIRST
    },
    Lane {
        right: 2,
        chance: 10,
        cost: 3,
        mark: Mark::Struck,
        ..FIRST
    },
];

fn to_the_middle(rt: &impl Abort, sheet: &mut Sheet<Plain>) -> Result<(), Fail> {
    let steps = [
        (offer(0, 2, 10, 3), drafting()),
        (strike(3), drafting()),
        (goal(1, 8), working(0)),
        (grant(8), holding(8, 3, 9, 8100)),
    ];
    follow(rt, sheet, &steps)
}

// Four lanes are given, and the last is struck.
fn refused() -> [(Call, Refusal); 16] {
    [
        (offer(0, 3, 10, 1), Refusal::EndsUnfit),
        (offer(1, 1, 10, 1), Refusal::EndsUnfit),
        (offer(0, 1, 11, 1), Refusal::ChanceOutOfRange),
        (offer(0, 1, 10, 1_000_001), Refusal::CostTooHigh),
        (strike(4), Refusal::NumberNotGiven),
        (restore(4), Refusal::NumberNotGiven),
        (reprice(4, 10, 1), Refusal::NumberNotGiven),
        (strike(3), Refusal::MarkedAlready),
        (restore(0), Refusal::MarkedAlready),
        (reprice(0, 0, 1), Refusal::ChanceOutOfRange),
        (reprice(0, 10, 1_000_001), Refusal::CostTooHigh),
        (goal(0, 9), Refusal::PlacesOutOfRange),
        (goal(5, 9), Refusal::PlacesOutOfRange),
        (goal(1, 0), Refusal::PartsOutOfRange),
        (goal(1, 11), Refusal::PartsOutOfRange),
        (grant(MOST + 1), Refusal::GrantTooLarge),
    ]
}

#[test]
fn in_the_middle_of_the_work(rt: HostRuntime) -> Result<(), Fail> {
    let mut sheet = open_three(&rt)?;
    to_the_middle(&rt, &mut sheet)?;
    for (call, refusal) in refused() {
        assert_eq!(rt; perform(&mut sheet, call), Err(refusal), "{call:?}");
        assert_eq!(rt; sheet.report(), holding(8, 3, 9, 8100), "{call:?}");
        assert_eq!(rt; sheet.network().lanes(), &LANES[..], "{call:?}");
    }
    follow(&rt, &mut sheet, &[(grant(5), found(13, 3, 9, 8100))])
}

#[test]
fn a_lane_too_many(rt: HostRuntime) -> Result<(), Fail> {
    let mut sheet = open_twenty(&rt)?;
    // Going down without any lane takes 21 openings, and the next picks the first lane.
    let calls = [
        (goal(1, 9), Ok(())),
        (grant(21), Ok(())),
        (offer(0, 1, 10, 1), Err(Refusal::LanesFull)),
    ];
    answers(&rt, &mut sheet, &calls);
    assert_eq!(rt; sheet.network().lanes().len(), 20);
    let steps = [
        (grant(0), working(21)),
        (grant(MOST), found(41, 1, 4, 9000)),
    ];
    follow(&rt, &mut sheet, &steps)
}

#[test]
fn without_a_goal(rt: HostRuntime) -> Result<(), Fail> {
    let mut sheet = open_three(&rt)?;
    let calls = [
        (grant(1), Err(Refusal::NoGoal)),
        (goal(1, 11), Err(Refusal::PartsOutOfRange)),
    ];
    answers(&rt, &mut sheet, &calls);
    assert_eq!(rt; sheet.report(), drafting());
    assert_eq!(rt; sheet.network().lanes(), &LANES[0..3]);
    Ok(())
}
