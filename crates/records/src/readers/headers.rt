// The header of a record, taken apart as named first bytes and the rest.
ghost use Rattle.std.specs.Prelude.{◌≡◌, ◌<◌, ◌≤◌, length, drop, MatchResult};
ghost use Rattle.records.specs.Records.{kind_in, length_in};

use crate::faults::Ended;

pub const HEADER_BYTES: usize = 4;

#[derive(Clone, Copy, PartialEq, Eq, Debug)]
pub struct Header<'a> {
    pub length: u16,
    pub kind: u16,
    pub after: &'a [u8],
}

pub fn split_header<'a>(bytes: &'a [u8]) -> Result<Header<'a>, Ended>
    ensures { MatchResult result (λ h. (4 ≤ length bytes.now) × ((h.length ≡ length_in bytes.now) × ((h.kind ≡ kind_in bytes.now) × (h.after.now ≡ drop 4 bytes.now)))) (λ _. length bytes.now < 4) }
{
    let [l0, l1, k0, k1, after @ ..] = bytes else {
        return Err(Ended);
    };
    Ok(Header {
        length: u16::from_le_bytes([*l0, *l1]),
        kind: u16::from_le_bytes([*k0, *k1]),
        after,
    })
}
