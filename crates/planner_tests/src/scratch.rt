use network::{LaneRoom, Network, Refusal};
use reliability::{SCRATCH_PLACES, total};
use semiring::{Semiring, Share};
use std::test::Fail;
use trials::FIRST;

fn all_are(places: &[Share], parts: u64) -> bool {
    places.iter().all(|place| place.parts() == parts)
}

#[test]
fn leaves_the_scratch_cleared(rt: HostRuntime) -> Result<(), Fail> {
    let network = Network::new(LaneRoom::reserve(rt.alloc())?, 10, 4, 2, &[FIRST; 20])?;
    let mut scratch = [Share::new(5); 30];
    assert!(rt; total(&network, 3, &mut scratch).is_ok());
    assert!(rt; all_are(&scratch[0..SCRATCH_PLACES], 0));
    assert!(rt; all_are(&scratch[SCRATCH_PLACES..30], 5));
    let mut full = [Share::new(5); SCRATCH_PLACES];
    let share = total(&network, 0xf_ffff, &mut full)?;
    assert_eq!(rt;
        share.parts(),
        Share::MOST,
        "twenty lanes at scale ten stand as the cap"
    );
    Ok(())
}

#[test]
fn refuses_and_leaves_the_scratch(rt: HostRuntime) -> Result<(), Fail> {
    let network = Network::new(LaneRoom::reserve(rt.alloc())?, 10, 4, 2, &[FIRST; 3])?;
    let mut short = [Share::new(5); 20];
    assert!(rt; matches!(total(&network, 8, &mut short), Err(Refusal::LaneNotGiven)));
    assert!(rt;
        matches!(
            total(&network, 7, &mut short),
            Err(Refusal::ScratchTooShort)
        )
    );
    assert!(rt; all_are(&short, 5));
    Ok(())
}
