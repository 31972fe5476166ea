// Times whole searches on sheets of twenty lanes and ten depots: search_bench SHEETS [PARTS].
// Without an argument it does nothing. With one it writes a line: sheets, microseconds, checksum, openings.
#![tactic(auto)]

use anyhow::Context;
use bounds::{Depot, Lesser, Whole};
use network::Refusal;
use sheet::{Goal, MOST_GRANTED, Report, Sheet, SheetRoom};
use std::alloc::Global;
use std::env;
use std::time::Instant;
use trials::Draws;

const DEPOTS: u8 = 10;

const CHORDS: u8 = 10;

type Planner = Sheet<Lesser<Depot, Whole>>;

// A scale with K, the least chance of a lane, and a goal that is hard to reach.
#[derive(Clone, Copy)]
struct Case {
    parts: u16,
    most: u8,
    low: u8,
    goal: Goal,
}

impl Case {
    // The least chance, or one of the four above it.
    fn chance_by(self, number: u32) -> u16 {
        u16::from(self.low) + (number % 5) as u16
    }
}

const TENTHS: Case = Case {
    parts: 10,
    most: 18,
    low: 5,
    goal: Goal {
        places: 2,
        parts: 75,
    },
};

const SIXTEENTHS: Case = Case {
    parts: 16,
    most: 14,
    low: 10,
    goal: Goal {
        places: 2,
        parts: 180,
    },
};

fn find_case(parts: u16) -> anyhow::Result<Case> {
    [TENTHS, SIXTEENTHS]
        .into_iter()
        .find(|case| case.parts == parts)
        .context("the scale is 10 or 16")
}

// A sheet whose lanes are drawn.
#[derive(Drop)]
struct Drawn {
    sheet: Planner,
    case: Case,
    draws: Draws,
}

impl Drawn {
    // A lane from this depot to the one that is so many steps on.
    fn offer(&mut self, left: u8, step: u8) -> Result<(), Refusal> {
        let right = (u32::from(left) + u32::from(step)) % u32::from(DEPOTS);
        let chance = self.case.chance_by(self.draws.draw_high());
        let cost = 1 + self.draws.draw_high() % 1000;
        self.sheet.offer(left, right as u8, chance, cost)
    }
}

// A ring of ten depots, and ten chords.
fn build(heap: Global, case: Case, number: u32) -> anyhow::Result<Planner> {
    let bound = Lesser {
        first: Depot,
        second: Whole,
    };
    let room = SheetRoom::reserve(heap)?;
    let mut drawn = Drawn {
        sheet: Sheet::open(room, case.parts, case.most, DEPOTS, bound)?,
        case,
        draws: Draws { last: number },
    };
    for left in 0..DEPOTS {
        drawn.offer(left, 1)?;
    }
    for _ in 0..CHORDS {
        let left = (drawn.draws.draw_high() % 10) as u8;
        let step = 2 + (drawn.draws.draw_high() % 7) as u8;
        drawn.offer(left, step)?;
    }
    let Drawn { sheet, .. } = drawn;
    Ok(sheet)
}

// What the searches found, in one number, and their openings.
#[derive(Clone, Copy)]
struct Sums {
    checksum: u64,
    openings: u64,
}

impl Sums {
    fn mix(&mut self, number: u64) {
        self.checksum = self.checksum.wrapping_mul(31).wrapping_add(number);
    }

    fn add(&mut self, report: Report) {
        if let Some(plan) = report.best {
            self.mix(u64::from(plan.set));
            self.mix(u64::from(plan.cost));
            self.mix(plan.chance);
        }
        self.mix(u64::from(report.openings));
        self.openings = self.openings.wrapping_add(u64::from(report.openings));
    }
}

fn sum_up(sheets: &mut [Planner], goal: Goal) -> Result<Sums, Refusal> {
    let mut sums = Sums {
        checksum: 0,
        openings: 0,
    };
    for sheet in sheets.iter_mut() {
        sheet.state_goal(goal)?;
        sheet.grant(MOST_GRANTED)?;
        sums.add(sheet.report());
    }
    Ok(sums)
}

fn run(rt: &HostRuntime) -> anyhow::Result<()> {
    let mut words = env::args(rt)?.skip(1);
    let Some(count) = words.next() else {
        return Ok(());
    };
    let count = count.as_str().parse::<u32>()?;
    let parts = words.next().map(|parts| parts.as_str().parse::<u16>());
    let case = find_case(parts.transpose()?.unwrap_or(TENTHS.parts))?;
    let mut sheets = (0..count)
        .map(|number| build(rt.alloc(), case, number))
        .try_collect::<Vec<Planner>>(rt.alloc())?;
    let start = Instant::now(rt)?;
    let sums = sum_up(sheets.as_mut_slice(), case.goal)?;
    let micros = start.elapsed(rt)?.as_micros();
    println!(rt; "{count} {micros} {} {}", sums.checksum, sums.openings)?;
    Ok(())
}

fn main(rt: HostRuntime) -> anyhow::Result<()> {
    run(&rt)
}
