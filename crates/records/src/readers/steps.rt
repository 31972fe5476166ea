// The steps of a reader.
ghost use Rattle.std.specs.Prelude.{◌≡◌, length, ◌==◌};
ghost use Rattle.records.specs.Reading.{Step, file_of, left_of, start};

use crate::faults::Misfit;
use crate::kinds::{Kind, Stage};
use crate::readers::frames::read_frame;
use crate::readers::headers::HEADER_BYTES;
use crate::readers::{Place, Reader, Record};

impl<'a> Reader<'a> {
    // At the first record.
    pub fn new(file: &'a [u8]) -> Reader<'a>
        ensures file { file_of result ≡ file.now }
        ensures place { result.place ≡ start }
    {
        let place = Place { record: 0, byte: 0 };
        Reader { file, place }
    }

    pub fn place(&self) -> Place
        ensures { result ≡ self.now.place }
    {
        self.place
    }

    pub fn is_at_end(&self) -> bool
        ensures { result ≡ (length (left_of self.now) == 0) }
    {
        self.left().is_empty()
    }

    // The bytes from the reader's place on.
    fn left(&self) -> &'a [u8]
        ensures { result.now ≡ left_of self.now }
    {
        &self.file[self.place.byte..]
    }

    // A step that faults leaves the reader's place.
    pub fn step(&mut self, stage: Stage) -> Result<Record<'a>, Misfit>
        ensures { Step self.old stage result self.new }
    {
        let place = self.place;
        let frame = read_frame(stage, self.left())?;
        let body = frame.body;
        self.place = Place {
            record: place.record + 1,
            byte: place.byte + HEADER_BYTES + body.len(),
        };
        match frame.kind {
            Kind::Sheet => Ok(Record::Sheet { place, body }),
            Kind::Lane => Ok(Record::Lane { place, body }),
            Kind::Goal => Ok(Record::Goal { place, body }),
            // no stage allows a plan
            Kind::Plan | Kind::NoPlan => unreachable(),
        }
    }
}
