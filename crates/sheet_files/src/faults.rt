// What is wrong with a file: the cause, and the record where it was found.
ghost use Rattle.std.specs.Prelude.{◌≡◌, Some};
ghost use Rattle.sheet_files.specs.Faults.{fault_number, fault_text, inner_number, layer_number, layer_of, refusal_in};
ghost use Rattle.sheet_files.specs.declared.faults.Cause.TheVariants as causes;

use network::Refusal;
use records::{Misfit, Place};
use std::error::Error;
use std::fmt;

// Bytes, records, and the sheet that they describe.
#[derive(Clone, Copy, PartialEq, Eq, Debug)]
pub enum Layer {
    Bytes = 1,
    Records = 2,
    Sheet = 3,
}

impl From<Layer> for u8 {
    ghost from_gives = { λ layer number. number ≡ layer_number layer };

    fn from(layer: Layer) -> u8 {
        layer as u8
    }
}

#[derive(Clone, Copy, PartialEq, Eq, Debug)]
pub enum Cause {
    Misfit(Misfit),
    Refused(Refusal),
}

// The fault number of whatever the sheet refuses.
const REFUSED: u8 = 21;

// The fault number.
impl From<Cause> for u8 {
    ghost from_gives = { λ cause number. number ≡ fault_number cause };

    fn from(cause: Cause) -> u8 {
        match cause {
            Cause::Misfit(misfit) => u8::from(misfit),
            Cause::Refused(_) => REFUSED,
        }
    }
}

impl From<Misfit> for Cause {
    ghost from_gives = { λ misfit r. r ≡ causes.Misfit misfit };

    fn from(misfit: Misfit) -> Cause {
        Cause::Misfit(misfit)
    }
}

impl From<Refusal> for Cause {
    ghost from_gives = { λ refusal r. r ≡ causes.Refused refusal };

    fn from(refusal: Refusal) -> Cause {
        Cause::Refused(refusal)
    }
}

#[derive(Clone, Copy, PartialEq, Eq, Debug)]
pub struct Fault {
    pub cause: Cause,
    pub place: Place,
}

impl Fault {
    // A question about a fault, and not another form of it: so a method.
    pub fn layer(self) -> Layer
        ensures { result ≡ layer_of self.cause }
    {
        match self.cause {
            Cause::Misfit(Misfit::FileEnds) => Layer::Bytes,
            Cause::Misfit(_) => Layer::Records,
            Cause::Refused(_) => Layer::Sheet,
        }
    }

    // The sheet's own refusal.
    pub fn refusal(self) -> Option<Refusal>
        ensures { result ≡ refusal_in self.cause }
    {
        match self.cause {
            Cause::Misfit(_) => None,
            Cause::Refused(refusal) => Some(refusal),
        }
    }

    // A line has a 0 where the sheet refuses nothing.
    fn inner_number(self) -> u8
        ensures { result ≡ inner_number self.cause }
    {
        self.refusal().map_or(0, u8::from)
    }
}

impl fmt::Display for Fault {
    ghost output = { λ fault. Some (fault_text fault) };

    fn fmt<W: fmt::Write>(&self, f: &mut fmt::Formatter<W>) -> fmt::Result {
        let number = u8::from(self.cause);
        let layer = u8::from(self.layer());
        let Place { record, byte } = self.place;
        let refusal = self.inner_number();
        write!(
            f,
            "fault {number} layer {layer} record {record} byte {byte} refusal {refusal}"
        )
    }
}

impl Error for Fault {}
