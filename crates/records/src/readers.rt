// A reader goes through a file's bytes from record to record.
ghost use Rattle.std.specs.Prelude.{◌≤◌, length};

mod frames;
mod headers;
mod steps;

// A record's place: the record counts from 0, and the byte is its first.
#[derive(Clone, Copy, PartialEq, Eq, Debug)]
pub struct Place {
    pub record: usize,
    pub byte: usize,
}

// The caller's file, and the place of the next record.
#[derive(Clone, Copy)]
pub struct Reader<'a> {
    file: &'a [u8],
    place: Place,
    ghost within: { place.byte ≤ length file.now },
    ghost counted: { place.«record» ≤ place.byte },
}

// A record by its kind: its place, and its body as a part of the file.
#[derive(Clone, Copy, PartialEq, Eq, Debug)]
pub enum Record<'a> {
    Sheet { place: Place, body: &'a [u8] },
    Lane { place: Place, body: &'a [u8] },
    Goal { place: Place, body: &'a [u8] },
}
