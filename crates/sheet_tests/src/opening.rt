use bounds::Plain;
use network::Refusal;
use sheet::{Sheet, SheetRoom};
use std::test::*;

// The refusal, or none where the sheet is opened.
fn refusal(rt: &HostRuntime, parts: u16, most: u8, depots: u8) -> Result<Option<Refusal>, Fail> {
    let room = SheetRoom::reserve(rt.alloc())?;
    Ok(Sheet::open(room, parts, most, depots, Plain).err())
}

#[test]
fn reserves_room(rt: HostRuntime) -> Result<(), Fail> {
    assert!(rt; SheetRoom::reserve(rt.alloc()).is_ok());
    Ok(())
}

#[test]
fn opens_up_to_the_limits(rt: HostRuntime) -> Result<(), Fail> {
    let limits = [
        (100, 9, 2, None),
        (100, 10, 2, Some(Refusal::SetLimitNotAdmitted)),
        (100, 1, 2, None),
        (100, 0, 2, Some(Refusal::SetLimitNotAdmitted)),
        (11, 9, 2, Some(Refusal::ScaleNotAdmitted)),
        (10, 4, 1, Some(Refusal::DepotsOutOfRange)),
        (10, 4, 2, None),
        (10, 4, 10, None),
        (10, 4, 11, Some(Refusal::DepotsOutOfRange)),
    ];
    for (parts, most, depots, refused) in limits {
        assert_eq!(rt; refusal(&rt, parts, most, depots)?, refused);
    }
    Ok(())
}

#[test]
fn checks_scale_then_limit_then_depots(rt: HostRuntime) -> Result<(), Fail> {
    for (parts, most, refused) in [
        (11, 0, Refusal::ScaleNotAdmitted),
        (11, 4, Refusal::ScaleNotAdmitted),
        (10, 0, Refusal::SetLimitNotAdmitted),
    ] {
        assert_eq!(rt; refusal(&rt, parts, most, 1)?, Some(refused));
    }
    Ok(())
}
