// Prints every set of the three-depot network's lanes with its cost, its chance and whether it connects; then the joining cost,
// what the upper bounds tell, and the worked examples.
#![tactic(auto)]

use bounds::{Bound, Depot, Lesser, Plain, Question, Whole};
use network::{LaneRoom, Mark, Network, Refusal};
use reliability::{chance, connected, joining_cost};
use std::alloc::{AllocError, Global};
use std::fmt;
use worked_examples::{Answer, answers, three_depots};

// What the table tells of a set. The table of a sheet asks by other calls: one trait over both would be longer than the two.
#[derive(Drop)]
struct Row {
    cost: u32,
    chance: u64,
    connected: bool,
}

impl fmt::Display for Row {
    fn fmt<W: fmt::Write>(&self, f: &mut fmt::Formatter<W>) -> fmt::Result {
        let connected = if self.connected { "yes" } else { "no" };
        write!(f, "{:>4}  {:>15}  {connected}", self.cost, self.chance)
    }
}

fn ask(network: &Network, set: u32) -> Result<Row, Refusal> {
    Ok(Row {
        cost: network.cost(set)?,
        chance: chance(network, set)?,
        connected: connected(network, set)?,
    })
}

// What joins all depots at the least cost, if anything does.
#[derive(Drop)]
struct JoiningCost(Option<u32>);

impl fmt::Display for JoiningCost {
    fn fmt<W: fmt::Write>(&self, f: &mut fmt::Formatter<W>) -> fmt::Result {
        match self.0 {
            Some(cost) => write!(f, "joining cost {cost}"),
            None => write!(f, "joining cost absent"),
        }
    }
}

// The numbers of the set's lanes, as "0 2".
fn name_lanes(heap: Global, network: &Network, set: u32) -> Result<String, AllocError> {
    let mut names = String::new(heap);
    let given = 0..network.lanes().len();
    for number in given.filter(|number| *number < 32 && (set >> *number) % 2 == 1) {
        if !names.is_empty() {
            names.push(' ')?;
        }
        write!(names, "{number}")?;
    }
    Ok(names)
}

fn print_row(rt: &HostRuntime, network: &Network, set: u32) -> anyhow::Result<()> {
    let lanes = name_lanes(rt.alloc(), network, set)?;
    match ask(network, set) {
        Ok(row) => println!(rt; "{set:>3}  {lanes:<5}  {row}")?,
        Err(refusal) => println!(rt; "{set:>3}  {refusal}")?,
    }
    Ok(())
}

fn print_table(rt: &HostRuntime, network: &Network) -> anyhow::Result<()> {
    let full = network.scale().full();
    println!(rt; "set  lanes  cost  chance of {full}  connected")?;
    for set in 0..8 {
        print_row(rt, network, set)?;
    }
    println!(rt; "{}", JoiningCost(joining_cost(network)))?;
    Ok(())
}

// What each bound tells for nothing picked and all standing lanes undecided.
fn print_bounds(rt: &HostRuntime, network: &Network) -> anyhow::Result<()> {
    let question = Question {
        network,
        picked: 0,
        undecided: network.standing(),
    };
    let lesser = Lesser {
        first: Depot,
        second: Whole,
    };
    println!(rt; "bound plain {}", Plain.tell(question))?;
    println!(rt; "bound depot {}", Depot.tell(question))?;
    println!(rt; "bound whole {}", Whole.tell(question))?;
    println!(rt; "bound lesser of depot and whole {}", lesser.tell(question))?;
    Ok(())
}

fn print_examples(rt: &HostRuntime) -> anyhow::Result<()> {
    let heap = rt.alloc();
    let told = answers(
        LaneRoom::reserve(heap)?,
        LaneRoom::reserve(heap)?,
        LaneRoom::reserve(heap)?,
    );
    println!(rt; "worked examples")?;
    for answer in told {
        match answer {
            Answer::Chance(parts) => println!(rt; "  chance {parts}")?,
            Answer::JoiningCost(cost) => println!(rt; "  {}", JoiningCost(cost))?,
            Answer::Bound(number) => println!(rt; "  depot bound {number}")?,
        }
    }
    Ok(())
}

fn main(rt: HostRuntime) -> anyhow::Result<()> {
    let network = three_depots(LaneRoom::reserve(rt.alloc())?, Mark::Standing);
    print_table(&rt, &network)?;
    print_bounds(&rt, &network)?;
    print_examples(&rt)
}
