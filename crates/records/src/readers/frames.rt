// One record at the start of some bytes: the checks in their order.
ghost use Rattle.std.specs.Prelude.{◌≡◌, ◌<◌, ◌≤◌, length, take, IfOk, MatchResult};
ghost use Rattle.records.specs.Answers.{Gives};
ghost use Rattle.records.specs.Kinds.{body_length};
ghost use Rattle.records.specs.Reading.{taken_from};
ghost use Rattle.records.specs.Records.{frame_check, take_record};

use crate::faults::{Ended, Misfit};
use crate::kinds::{Kind, Stage};
use crate::readers::headers::split_header;

// The bytes of the kind count in a record's length.
const KIND_BYTES: usize = 2;

#[derive(Clone, Copy, PartialEq, Eq, Debug)]
pub struct Frame<'a> {
    pub kind: Kind,
    pub body: &'a [u8],
}

fn take_body<'a>(after: &'a [u8], count: usize) -> Result<&'a [u8], Ended>
    ensures { MatchResult result (λ b. (count ≤ length after.now) × (b.now ≡ take count after.now)) (λ _. length after.now < count) }
{
    after.get(..count).ok_or(Ended)
}

// The bytes of the body of a kind that may stand here, whose length fits it.
fn check_frame(stage: Stage, length: u16, kind: Kind) -> Result<usize, Misfit>
    ensures check { Gives (frame_check stage length kind) (λ _. tt) result }
    ensures count { IfOk result (λ count. count ≡ body_length kind) }
{
    let count = stage.body_length(kind).ok_or(Misfit::KindNotAllowed)?;
    if usize::from(length) != count + KIND_BYTES {
        return Err(Misfit::BodyUnfit);
    }
    Ok(count)
}

pub fn read_frame<'a>(stage: Stage, bytes: &'a [u8]) -> Result<Frame<'a>, Misfit>
    ensures { Gives (take_record stage bytes.now) (λ frame. taken_from bytes.now frame) result }
{
    let header = split_header(bytes)?;
    let kind = Kind::try_from(header.kind)?;
    let count = check_frame(stage, header.length, kind)?;
    let body = take_body(header.after, count)?;
    Ok(Frame { kind, body })
}
