// Chances, connectedness and joining costs, compared with a plain enumeration.
use crate::draws::{DEPOTS, lanes_of, network_of};
use crate::layouts::{Layout, SETS};
use network::Network;
use reliability::{chance, connected, joining_cost};
use std::process::Abort;
use std::test::Fail;

fn compare(rt: &impl Abort, network: &Network, layout: Layout) {
    for set in 0..SETS {
        assert_eq!(rt; chance(network, set), Ok(layout.chance(set)));
        assert_eq!(rt; connected(network, set), Ok(layout.joins(set)));
        assert_eq!(rt; network.cost(set), Ok(layout.cost(set)));
    }
    assert_eq!(rt; joining_cost(network), layout.joining_cost());
}

#[test]
fn agrees_with_enumeration(rt: HostRuntime) -> Result<(), Fail> {
    for number in 0..200 {
        let lanes = lanes_of(number);
        let layout = Layout {
            depots: DEPOTS,
            lanes: &lanes,
        };
        compare(&rt, &network_of(&rt, 5, &lanes)?, layout);
    }
    Ok(())
}
