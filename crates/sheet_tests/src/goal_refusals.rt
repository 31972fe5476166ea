// Refusals of goals and grants, each at its limit and just inside, and which of two comes first.
use crate::calls::{MOST, answers, goal, grant};
use crate::sheets::{open, open_three};
use bounds::Plain;
use network::Refusal;
use std::test::*;

#[test]
fn goals(rt: HostRuntime) -> Result<(), Fail> {
    let mut sheet = open(&rt, 4, 3, Plain)?;
    let calls = [
        (goal(0, 1), Err(Refusal::PlacesOutOfRange)),
        (goal(5, 1), Err(Refusal::PlacesOutOfRange)),
        (goal(0, 0), Err(Refusal::PlacesOutOfRange)),
        (goal(5, 0), Err(Refusal::PlacesOutOfRange)),
        (goal(1, 0), Err(Refusal::PartsOutOfRange)),
        (goal(1, 1), Ok(())),
        (goal(1, 11), Err(Refusal::PartsOutOfRange)),
        (goal(1, 10), Ok(())),
        (goal(2, 101), Err(Refusal::PartsOutOfRange)),
        (goal(2, 100), Ok(())),
        (goal(4, 0), Err(Refusal::PartsOutOfRange)),
        (goal(4, 10_001), Err(Refusal::PartsOutOfRange)),
        (goal(4, 10_000), Ok(())),
    ];
    answers(&rt, &mut sheet, &calls);
    Ok(())
}

#[test]
fn longest_goals(rt: HostRuntime) -> Result<(), Fail> {
    let mut sheet = open(&rt, 18, 3, Plain)?;
    let calls = [
        (
            goal(18, 1_000_000_000_000_000_001),
            Err(Refusal::PartsOutOfRange),
        ),
        (goal(18, 1_000_000_000_000_000_000), Ok(())),
        (goal(19, 1), Err(Refusal::PlacesOutOfRange)),
    ];
    answers(&rt, &mut sheet, &calls);
    Ok(())
}

#[test]
fn grants(rt: HostRuntime) -> Result<(), Fail> {
    let mut sheet = open_three(&rt)?;
    // Without a goal, while it works, and after it has ended with a set and without one.
    let calls = [
        (grant(0), Err(Refusal::NoGoal)),
        (grant(1), Err(Refusal::NoGoal)),
        (grant(MOST + 1), Err(Refusal::NoGoal)),
        (goal(0, 8), Err(Refusal::PlacesOutOfRange)),
        (grant(1), Err(Refusal::NoGoal)),
        (goal(1, 8), Ok(())),
        (grant(MOST + 1), Err(Refusal::GrantTooLarge)),
        (grant(0xffff_ffff), Err(Refusal::GrantTooLarge)),
        (grant(MOST), Ok(())),
        (grant(MOST + 1), Err(Refusal::GrantTooLarge)),
        (grant(MOST), Ok(())),
        (goal(3, 955), Ok(())),
        (grant(MOST), Ok(())),
        (grant(MOST + 1), Err(Refusal::GrantTooLarge)),
        (grant(0), Ok(())),
    ];
    answers(&rt, &mut sheet, &calls);
    Ok(())
}
