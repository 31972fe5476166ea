// Every question on small networks: no bound is below the best chance of a set that is still possible.
use crate::draws::{DEPOTS, lanes_of, network_of};
use crate::layouts::{Layout, SETS};
use bounds::{Bound, Depot, Lesser, Plain, Question, Whole};
use network::Network;
use reliability::chance;
use std::process::Abort;
use std::test::Fail;

const MOST: u8 = 3;

// The best chance among sets of at most three lanes with all picked lanes and otherwise only undecided ones.
fn best(question: Question) -> u64 {
    let Question {
        network,
        picked,
        undecided,
    } = question;
    (0..SETS)
        .filter(|set| set & picked == picked && set & (picked | undecided) == *set)
        .map(|set| chance(network, set).unwrap_or(0))
        .max()
        .unwrap_or(0)
}

// The sets share no lane and name standing lanes only, and at most three lanes are picked.
fn is_lawful(question: Question, standing: u32) -> bool {
    let named = question.picked | question.undecided;
    question.picked & question.undecided == 0
        && named & standing == named
        && question.picked.count_ones() <= u32::from(MOST)
}

fn compare(rt: &impl Abort, question: Question, standing: u32) {
    let lawful = is_lawful(question, standing);
    assert_eq!(rt; question.is_lawful(), lawful);
    let least = if lawful {
        best(question)
    } else {
        question.network.scale().full()
    };
    let (depot, whole) = (Depot.tell(question), Whole.tell(question));
    assert!(rt; depot >= least && whole >= least && Plain.tell(question) >= least);
    let lesser = Lesser {
        first: Depot,
        second: Whole,
    };
    assert_eq!(rt; lesser.tell(question), depot.min(whole));
    assert!(rt; lawful || depot == least && whole == least);
}

// Every undecided set beside the picked one.
fn compare_all(rt: &impl Abort, network: &Network, picked: u32, standing: u32) {
    for undecided in 0..SETS {
        let question = Question {
            network,
            picked,
            undecided,
        };
        compare(rt, question, standing);
    }
}

fn compare_network(rt: &impl Abort, network: &Network, standing: u32) {
    for picked in 0..SETS {
        compare_all(rt, network, picked, standing);
    }
}

#[test]
fn never_below_a_possible_set(rt: HostRuntime) -> Result<(), Fail> {
    for number in 0..20 {
        let lanes = lanes_of(number);
        let layout = Layout {
            depots: DEPOTS,
            lanes: &lanes,
        };
        compare_network(&rt, &network_of(&rt, MOST, &lanes)?, layout.standing());
    }
    Ok(())
}
