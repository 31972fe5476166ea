// Prints what the three-depot sheet answers about every set of its lanes, and the joining cost; then what four goals find,
// what one goal takes under three bounds, and the worked searches.
#![tactic(auto)]

use bounds::{Bound, Depot, Plain, Whole};
use network::Refusal;
use sheet::{Goal, Report, Sheet, SheetRoom, State};
use sheet_examples::{Rooms, follow, open_three, reports, seek};
use std::fmt;

// What the table tells of a set. The table of lanes asks by other calls: one trait over both would be longer than the two.
#[derive(Drop)]
struct Row {
    cost: u32,
    chance: u64,
    full: u64,
    connected: bool,
}

impl fmt::Display for Row {
    fn fmt<W: fmt::Write>(&self, f: &mut fmt::Formatter<W>) -> fmt::Result {
        let connected = if self.connected { "yes" } else { "no" };
        write!(
            f,
            "cost {} chance {} of {} connected {connected}",
            self.cost, self.chance, self.full
        )
    }
}

fn ask<B>(sheet: &Sheet<B>, set: u32) -> Result<Row, Refusal> {
    Ok(Row {
        cost: sheet.cost(set)?,
        chance: sheet.chance(set)?,
        full: sheet.network().scale().full(),
        connected: sheet.connected(set)?,
    })
}

// A report with the full scale, in parts of which it tells a chance. The console program prints the answer to a file in such a
// line too; this example stands on the sheet alone, and not on files.
#[derive(Drop)]
struct Told {
    report: Report,
    full: u64,
}

impl fmt::Display for Told {
    fn fmt<W: fmt::Write>(&self, f: &mut fmt::Formatter<W>) -> fmt::Result {
        let openings = self.report.openings;
        match (self.report.state, self.report.best) {
            (State::Drafting, _) => write!(f, "drafting"),
            (State::Working, _) => write!(f, "working openings {openings}"),
            (State::Found, Some(plan)) => write!(
                f,
                "found set {} cost {} chance {} of {} openings {openings}",
                plan.set, plan.cost, plan.chance, self.full
            ),
            (State::Found, None) | (State::NoneFound, _) => write!(f, "none openings {openings}"),
        }
    }
}

fn print_search<B: Bound>(
    rt: &HostRuntime,
    sheet: &mut Sheet<B>,
    goal: Goal,
) -> anyhow::Result<()> {
    let report = seek(sheet, goal);
    let full = sheet.network().scale().full();
    println!(rt; "{}", Told { report, full })?;
    Ok(())
}

fn print_table<B>(rt: &HostRuntime, sheet: &Sheet<B>) -> anyhow::Result<()> {
    for set in 0..8 {
        match ask(sheet, set) {
            Ok(row) => println!(rt; "set {set} {row}")?,
            Err(refusal) => println!(rt; "set {set} {refusal}")?,
        }
    }
    // as the table of lanes prints it, which asks a network: see `Row`
    match sheet.joining_cost() {
        Some(cost) => println!(rt; "joining cost {cost}")?,
        None => println!(rt; "joining cost absent")?,
    }
    Ok(())
}

// Four goals on one sheet.
fn print_goals(rt: &HostRuntime, sheet: &mut Sheet<Plain>) -> anyhow::Result<()> {
    let goals = [
        ("8 of 10", 1, 8),
        ("82 of 100", 2, 82),
        ("954 of 1000", 3, 954),
        ("955 of 1000", 3, 955),
    ];
    for (name, places, parts) in goals {
        print!(rt; "goal {name}: ")?;
        print_search(rt, sheet, Goal { places, parts })?;
    }
    Ok(())
}

// One goal, which takes other openings under each bound.
fn print_openings<B: Bound + Drop>(rt: &HostRuntime, name: &str, bound: B) -> anyhow::Result<()> {
    let mut sheet = open_three(SheetRoom::reserve(rt.alloc())?, bound);
    let goal = Goal {
        places: 1,
        parts: 8,
    };
    print!(rt; "goal 8 of 10 under {name}: ")?;
    print_search(rt, &mut sheet, goal)
}

fn print_searches(rt: &HostRuntime, full: u64) -> anyhow::Result<()> {
    println!(rt; "worked searches")?;
    for report in reports(Rooms::reserve(rt.alloc())?) {
        println!(rt; "  {}", Told { report, full })?;
    }
    let followed = follow(SheetRoom::reserve(rt.alloc())?);
    let told = Told {
        report: followed.report,
        full,
    };
    println!(rt; "a run with refused calls: {told}")?;
    Ok(())
}

fn main(rt: HostRuntime) -> anyhow::Result<()> {
    let mut sheet = open_three(SheetRoom::reserve(rt.alloc())?, Plain);
    print_table(&rt, &sheet)?;
    print_goals(&rt, &mut sheet)?;
    print_openings(&rt, "plain", Plain)?;
    print_openings(&rt, "depot", Depot)?;
    print_openings(&rt, "whole", Whole)?;
    print_searches(&rt, sheet.network().scale().full())
}
