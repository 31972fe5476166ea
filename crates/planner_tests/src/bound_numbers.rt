use bounds::{Bound, Depot, Lesser, Plain, Question, Whole};
use network::{Lane, LaneRoom, Mark, Network};
use std::test::Fail;
use trials::FIRST;

const STANDING: Lane = Lane { cost: 1, ..FIRST };

const STRUCK: Lane = Lane {
    mark: Mark::Struck,
    ..STANDING
};

// Two depots, at most two lanes in a set; the fourth lane is struck.
fn network(rt: &HostRuntime) -> Result<Network, Fail> {
    let lanes = [STANDING, STANDING, STANDING, STRUCK];
    Ok(Network::new(LaneRoom::reserve(rt.alloc())?, 10, 2, 2, &lanes)?)
}

fn number<B: Bound>(bound: &B, network: &Network, picked: u32, undecided: u32) -> u64 {
    bound.tell(Question {
        network,
        picked,
        undecided,
    })
}

#[test]
fn tells_lawful_questions(rt: HostRuntime) -> Result<(), Fail> {
    let network = network(&rt)?;
    assert_eq!(rt; number(&Depot, &network, 0, 0), 0, "no lane at all");
    assert_eq!(rt; number(&Depot, &network, 1, 0), 90);
    assert_eq!(rt;
        number(&Depot, &network, 1, 2),
        99,
        "picked and undecided lanes count"
    );
    assert_eq!(rt;
        number(&Depot, &network, 0, 7),
        100,
        "more lanes at the depot than a set may have"
    );
    assert_eq!(rt; number(&Whole, &network, 0, 0), 0);
    assert_eq!(rt; number(&Whole, &network, 2, 4), 99);
    assert_eq!(rt;
        number(&Whole, &network, 3, 4),
        100,
        "more lanes than a set may have"
    );
    assert_eq!(rt; number(&Plain, &network, 0, 0), 100);
    let lesser = Lesser {
        first: Plain,
        second: Whole,
    };
    assert_eq!(rt; number(&lesser, &network, 1, 0), 90);
    Ok(())
}

#[test]
fn tells_the_full_scale_otherwise(rt: HostRuntime) -> Result<(), Fail> {
    let network = network(&rt)?;
    // overlapping sets, struck lanes, lanes that were not given, too many lanes picked
    for (picked, undecided) in [(1, 1), (8, 0), (0, 8), (16, 0), (0, 0x8000_0000), (7, 0)] {
        assert_eq!(rt; number(&Depot, &network, picked, undecided), 100);
        assert_eq!(rt; number(&Whole, &network, picked, undecided), 100);
    }
    Ok(())
}
