// Calls and reports in short, for the tables of the tests.
use bounds::Bound;
use network::Refusal;
use sheet::{Call, Goal, Plan, Report, Sheet, State};
use std::process::Abort;
use std::test::*;

// The most openings of one grant, as the rules have it, and not as the library does.
pub const MOST: u32 = 2_097_151;

pub fn offer(left: u8, right: u8, chance: u16, cost: u32) -> Call {
    Call::Offer {
        left,
        right,
        chance,
        cost,
    }
}

pub fn strike(lane: u8) -> Call {
    Call::Strike { lane }
}

pub fn restore(lane: u8) -> Call {
    Call::Restore { lane }
}

pub fn reprice(lane: u8, chance: u16, cost: u32) -> Call {
    Call::Reprice { lane, chance, cost }
}

pub fn goal(places: u8, parts: u64) -> Call {
    Call::StateGoal(Goal { places, parts })
}

pub fn grant(openings: u32) -> Call {
    Call::Grant { openings }
}

pub fn drafting() -> Report {
    Report {
        state: State::Drafting,
        best: None,
        openings: 0,
    }
}

pub fn working(openings: u32) -> Report {
    Report {
        state: State::Working,
        best: None,
        openings,
    }
}

// Still working, with a best set so far.
pub fn holding(openings: u32, set: u32, cost: u32, chance: u64) -> Report {
    Report {
        best: Some(Plan { set, cost, chance }),
        ..working(openings)
    }
}

pub fn found(openings: u32, set: u32, cost: u32, chance: u64) -> Report {
    Report {
        state: State::Found,
        ..holding(openings, set, cost, chance)
    }
}

pub fn none_found(openings: u32) -> Report {
    Report {
        state: State::NoneFound,
        ..working(openings)
    }
}

// By the call's own method, which hands it to `Sheet::call`.
pub fn perform<B: Bound>(sheet: &mut Sheet<B>, call: Call) -> Result<(), Refusal> {
    match call {
        Call::Offer {
            left,
            right,
            chance,
            cost,
        } => sheet.offer(left, right, chance, cost),
        Call::Strike { lane } => sheet.strike(lane),
        Call::Restore { lane } => sheet.restore(lane),
        Call::Reprice { lane, chance, cost } => sheet.reprice(lane, chance, cost),
        Call::StateGoal(goal) => sheet.state_goal(goal),
        Call::Grant { openings } => sheet.grant(openings),
    }
}

// Every call is answered as it says beside it.
pub fn answers<B: Bound>(
    rt: &impl Abort,
    sheet: &mut Sheet<B>,
    calls: &[(Call, Result<(), Refusal>)],
) {
    for (i, (call, answer)) in calls.iter().enumerate() {
        assert_eq!(rt; perform(sheet, *call), *answer, "call {i}");
    }
}

// Every call is accepted, and leaves the report beside it.
pub fn follow<B: Bound>(
    rt: &impl Abort,
    sheet: &mut Sheet<B>,
    steps: &[(Call, Report)],
) -> Result<(), Fail> {
    for (i, (call, report)) in steps.iter().enumerate() {
        perform(sheet, *call)?;
        assert_eq!(rt; sheet.report(), *report, "step {i}");
    }
    Ok(())
}

// The report of the whole work for a goal. The examples' `seek` grants only what three lanes can take, and tells no refusal.
pub fn seek<B: Bound>(sheet: &mut Sheet<B>, goal: Goal) -> Result<Report, Fail> {
    sheet.state_goal(goal)?;
    sheet.grant(MOST)?;
    Ok(sheet.report())
}
