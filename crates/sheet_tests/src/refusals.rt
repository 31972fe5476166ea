// Refusals of offers and of changes of lanes, each at its limit and just inside, and which of two comes first.
use crate::calls::{answers, offer, reprice, restore, strike};
use crate::sheets::{open, open_three, open_twenty};
use bounds::Plain;
use network::Refusal;
use std::test::*;

#[test]
fn offers(rt: HostRuntime) -> Result<(), Fail> {
    let mut sheet = open(&rt, 4, 3, Plain)?;
    let calls = [
        (offer(0, 3, 9, 4), Err(Refusal::EndsUnfit)),
        (offer(3, 0, 9, 4), Err(Refusal::EndsUnfit)),
        (offer(1, 1, 9, 4), Err(Refusal::EndsUnfit)),
        (offer(0, 2, 9, 4), Ok(())),
        (offer(0, 1, 0, 4), Err(Refusal::ChanceOutOfRange)),
        (offer(0, 1, 1, 4), Ok(())),
        (offer(0, 1, 11, 4), Err(Refusal::ChanceOutOfRange)),
        (offer(0, 1, 10, 4), Ok(())),
        (offer(0, 1, 9, 1_000_001), Err(Refusal::CostTooHigh)),
        (offer(0, 1, 9, 1_000_000), Ok(())),
        (offer(3, 0, 11, 1_000_001), Err(Refusal::EndsUnfit)),
        (offer(0, 1, 11, 1_000_001), Err(Refusal::ChanceOutOfRange)),
    ];
    answers(&rt, &mut sheet, &calls);
    Ok(())
}

#[test]
fn twenty_lanes_are_all(rt: HostRuntime) -> Result<(), Fail> {
    let mut sheet = open_twenty(&rt)?;
    // Struck lanes count too.
    let calls = [
        (offer(0, 1, 9, 4), Err(Refusal::LanesFull)),
        (offer(0, 0, 0, 1_000_001), Err(Refusal::EndsUnfit)),
        (offer(0, 1, 0, 1_000_001), Err(Refusal::ChanceOutOfRange)),
        (offer(0, 1, 9, 1_000_001), Err(Refusal::CostTooHigh)),
        (strike(20), Err(Refusal::NumberNotGiven)),
        (strike(19), Ok(())),
        (offer(0, 1, 9, 4), Err(Refusal::LanesFull)),
    ];
    answers(&rt, &mut sheet, &calls);
    Ok(())
}

#[test]
fn changes_of_lanes(rt: HostRuntime) -> Result<(), Fail> {
    let mut sheet = open_three(&rt)?;
    let calls = [
        (strike(3), Err(Refusal::NumberNotGiven)),
        (restore(3), Err(Refusal::NumberNotGiven)),
        (reprice(3, 9, 4), Err(Refusal::NumberNotGiven)),
        (reprice(3, 0, 1_000_001), Err(Refusal::NumberNotGiven)),
        (reprice(3, 9, 1_000_001), Err(Refusal::NumberNotGiven)),
        (strike(255), Err(Refusal::NumberNotGiven)),
        (restore(2), Err(Refusal::MarkedAlready)),
        (strike(2), Ok(())),
        (strike(2), Err(Refusal::MarkedAlready)),
        (reprice(2, 10, 7), Ok(())),
        (strike(2), Err(Refusal::MarkedAlready)),
        (restore(2), Ok(())),
        (restore(2), Err(Refusal::MarkedAlready)),
        (reprice(2, 0, 7), Err(Refusal::ChanceOutOfRange)),
        (reprice(2, 1, 7), Ok(())),
        (reprice(2, 11, 1_000_001), Err(Refusal::ChanceOutOfRange)),
        (reprice(2, 10, 1_000_001), Err(Refusal::CostTooHigh)),
        (reprice(2, 10, 1_000_000), Ok(())),
        (restore(0), Err(Refusal::MarkedAlready)),
    ];
    answers(&rt, &mut sheet, &calls);
    Ok(())
}

#[test]
fn changes_without_lanes(rt: HostRuntime) -> Result<(), Fail> {
    let mut sheet = open(&rt, 4, 3, Plain)?;
    let calls = [
        (strike(0), Err(Refusal::NumberNotGiven)),
        (restore(0), Err(Refusal::NumberNotGiven)),
        (reprice(0, 9, 4), Err(Refusal::NumberNotGiven)),
    ];
    answers(&rt, &mut sheet, &calls);
    Ok(())
}
