use network::{Lane, LaneRoom, Mark, Network, Refusal};
use reliability::{chance, connected};
use std::test::Fail;
use trials::FIRST;

// The refusal, or none where the network is made.
fn refusal(
    rt: &HostRuntime,
    parts: u16,
    most: u8,
    depots: u8,
    lanes: &[Lane],
) -> Result<Option<Refusal>, Fail> {
    let room = LaneRoom::reserve(rt.alloc())?;
    Ok(Network::new(room, parts, most, depots, lanes).err())
}

// The numbers of the refusal table.
#[test]
fn each_has_its_number(rt: HostRuntime) {
    let numbers = [
        (Refusal::ScaleNotAdmitted, 1),
        (Refusal::SetLimitNotAdmitted, 2),
        (Refusal::DepotsOutOfRange, 3),
        (Refusal::EndsUnfit, 4),
        (Refusal::ChanceOutOfRange, 5),
        (Refusal::CostTooHigh, 6),
        (Refusal::LanesFull, 7),
        (Refusal::NumberNotGiven, 8),
        (Refusal::MarkedAlready, 9),
        (Refusal::PlacesOutOfRange, 10),
        (Refusal::PartsOutOfRange, 11),
        (Refusal::NoGoal, 12),
        (Refusal::GrantTooLarge, 13),
        (Refusal::LaneNotGiven, 14),
        (Refusal::TooManyLanesNamed, 15),
        (Refusal::ScratchTooShort, 16),
    ];
    for (refusal, number) in numbers {
        assert_eq!(rt; u8::from(refusal), number);
    }
}

#[test]
fn admits_scales_up_to_their_limit(rt: HostRuntime) -> Result<(), Fail> {
    let limits = [
        (10, 18),
        (16, 14),
        (20, 13),
        (25, 12),
        (50, 10),
        (100, 9),
        (200, 7),
        (1000, 6),
    ];
    for (parts, limit) in limits {
        assert_eq!(rt; refusal(&rt, parts, limit, 2, &[])?, None);
        assert_eq!(rt;
            refusal(&rt, parts, limit + 1, 2, &[])?,
            Some(Refusal::SetLimitNotAdmitted)
        );
        assert_eq!(rt;
            refusal(&rt, parts, 0, 2, &[])?,
            Some(Refusal::SetLimitNotAdmitted)
        );
        assert_eq!(rt;
            refusal(&rt, parts + 1, 1, 2, &[])?,
            Some(Refusal::ScaleNotAdmitted)
        );
    }
    Ok(())
}

#[test]
fn checks_in_rising_order(rt: HostRuntime) -> Result<(), Fail> {
    // the scale, K and the depots
    let openings = [
        (11, 0, 0, Refusal::ScaleNotAdmitted),
        (10, 0, 0, Refusal::SetLimitNotAdmitted),
        (10, 4, 1, Refusal::DepotsOutOfRange),
        (10, 4, 11, Refusal::DepotsOutOfRange),
    ];
    for (parts, most, depots, refused) in openings {
        assert_eq!(rt; refusal(&rt, parts, most, depots, &[])?, Some(refused));
    }
    Ok(())
}

#[test]
fn checks_lanes_in_rising_order(rt: HostRuntime) -> Result<(), Fail> {
    // the right end, the chance and the cost of a lane between two depots
    let lanes = [
        (0, 0, 1_000_001, Some(Refusal::EndsUnfit)),
        (2, 9, 4, Some(Refusal::EndsUnfit)),
        (1, 11, 1_000_001, Some(Refusal::ChanceOutOfRange)),
        (1, 0, 4, Some(Refusal::ChanceOutOfRange)),
        (1, 10, 1_000_001, Some(Refusal::CostTooHigh)),
        (1, 9, 1_000_000, None),
    ];
    for (right, chance, cost, refused) in lanes {
        let lane = Lane {
            right,
            chance,
            cost,
            ..FIRST
        };
        assert_eq!(rt; refusal(&rt, 10, 4, 2, &[lane])?, refused, "{lane:?}");
    }
    let far = Lane { right: 2, ..FIRST };
    assert_eq!(rt; refusal(&rt, 10, 4, 3, &[far])?, None);
    Ok(())
}

#[test]
fn takes_twenty_lanes(rt: HostRuntime) -> Result<(), Fail> {
    assert_eq!(rt; refusal(&rt, 10, 4, 2, &[FIRST; 20])?, None);
    assert_eq!(rt;
        refusal(&rt, 10, 4, 2, &[FIRST; 21])?,
        Some(Refusal::LanesFull)
    );
    let mut last = [FIRST; 21];
    last[20].chance = 0;
    assert_eq!(rt;
        refusal(&rt, 10, 4, 2, &last)?,
        Some(Refusal::ChanceOutOfRange),
        "the lane's own refusals come first"
    );
    Ok(())
}

#[test]
fn refuses_sets(rt: HostRuntime) -> Result<(), Fail> {
    let struck = Lane {
        mark: Mark::Struck,
        ..FIRST
    };
    let lanes = [FIRST, struck, FIRST];
    let network = Network::new(LaneRoom::reserve(rt.alloc())?, 10, 2, 2, &lanes)?;
    assert_eq!(rt;
        network.cost(15),
        Err(Refusal::LaneNotGiven),
        "before too many lanes"
    );
    assert_eq!(rt; network.cost(7), Err(Refusal::TooManyLanesNamed));
    assert_eq!(rt; network.cost(3), Ok(8), "a struck lane may be named");
    assert_eq!(rt; chance(&network, 8), Err(Refusal::LaneNotGiven));
    assert_eq!(rt; chance(&network, 7), Err(Refusal::TooManyLanesNamed));
    assert_eq!(rt; chance(&network, 3), Ok(99));
    assert_eq!(rt; chance(&network, 0x8000_0000), Err(Refusal::LaneNotGiven));
    assert_eq!(rt; connected(&network, 7), Err(Refusal::TooManyLanesNamed));
    assert_eq!(rt; connected(&network, 2), Ok(true));
    assert_eq!(rt; connected(&network, 0), Ok(false));
    assert_eq!(rt; network.standing(), 5);
    Ok(())
}
