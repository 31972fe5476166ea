// The worked examples, asked of the code and proved from the definitions in one check over a list.
// Promise: the code's answers are the expected ones, in the order of the list.
#![tactic(auto)]

ghost use Rattle.std.specs.Prelude.{◌≡◌, None};
ghost use Rattle.network.specs.Connected.{connects};
ghost use Rattle.network.specs.Networks.{Made, depots_of, network_refusal};
ghost use Rattle.reliability.specs.Questions.{chance_by, question_refusal};
ghost use Rattle.worked_examples.specs.Examples.{ExamplesHold, expected_answers, most, parts, ring, three_depots};

use bounds::{Bound, Depot, Question};
use network::{Lane, LaneRoom, Mark, Network};
use reliability::{chance, joining_cost};

#[derive(Clone, Copy, PartialEq, Eq, Debug)]
pub enum Answer {
    Chance(u64),
    JoiningCost(Option<u32>),
    Bound(u64),
}

// The number of examples in the list.
pub const EXAMPLES: usize = 7;

const PARTS: u16 = 10;

const MOST: u8 = 4;

// The network of these lanes, at the scale of all examples.
fn build(room: LaneRoom, depots: u8, lanes: &[Lane]) -> Network
    requires { network_refusal parts most depots lanes.now ≡ None }
    ensures { Made result parts most depots lanes.now }
{
    let Ok(network) = Network::new(room, PARTS, MOST, depots, lanes) else {
        unreachable()
    };
    network
}

// Three depots, where the first two lanes have the mark.
pub fn three_depots(room: LaneRoom, mark: Mark) -> Network
    ensures { Made result parts most 3 (three_depots mark) }
{
    let lanes = [
        Lane {
            left: 0,
            right: 1,
            chance: 9,
            cost: 4,
            mark,
        },
        Lane {
            left: 1,
            right: 2,
            chance: 9,
            cost: 5,
            mark,
        },
        Lane {
            left: 0,
            right: 2,
            chance: 8,
            cost: 7,
            mark: Mark::Standing,
        },
    ];
    build(room, 3, &lanes)
}

// Four depots in a ring.
pub fn ring_of_four(room: LaneRoom) -> Network
    ensures { Made result parts most 4 ring }
{
    let ends = [(0, 1), (1, 2), (2, 3), (3, 0)];
    let lanes = ends.map(|(left, right)| Lane {
        left,
        right,
        chance: 9,
        cost: 1,
        mark: Mark::Standing,
    });
    build(room, 4, &lanes)
}

fn ask_chance(network: &Network, set: u32) -> Answer
    requires { question_refusal network.now set ≡ None }
    ensures { result ≡ Answer.Chance (chance_by (connects (depots_of network.now)) network.now set) }
{
    let Ok(parts) = chance(network, set) else {
        unreachable()
    };
    Answer::Chance(parts)
}

// The code's answers to the questions of the list, over three rooms for their networks.
pub fn answers(first: LaneRoom, second: LaneRoom, third: LaneRoom) -> [Answer; EXAMPLES]
    ensures value { result ≡ expected_answers }
    ensures hold { ExamplesHold }
{
    let three = three_depots(first, Mark::Standing);
    let ring = ring_of_four(second);
    let struck = three_depots(third, Mark::Struck);
    let question = Question {
        network: &ring,
        picked: 0,
        undecided: 15,
    };
    let depot = Depot.tell(question);
    [
        ask_chance(&three, 0),
        ask_chance(&three, 3),
        ask_chance(&three, 7),
        ask_chance(&ring, 15),
        Answer::JoiningCost(joining_cost(&three)),
        Answer::JoiningCost(joining_cost(&struck)),
        Answer::Bound(depot),
    ]
}
