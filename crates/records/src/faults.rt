// What the byte layer and the record layer find wrong.
ghost use Rattle.std.specs.Prelude.{◌≡◌};
ghost use Rattle.records.specs.Faults.{misfit_number};
ghost use Rattle.records.specs.declared.faults.Misfit.TheVariants.{FileEnds};

#[derive(Clone, Copy, PartialEq, Eq, Debug)]
pub struct Ended;

// The first that applies to a record, under its fault number.
#[derive(Clone, Copy, PartialEq, Eq, Debug)]
pub enum Misfit {
    FileEnds = 17,
    KindNotDefined = 18,
    KindNotAllowed = 19,
    BodyUnfit = 20,
}

impl From<Misfit> for u8 {
    ghost from_gives = { λ misfit number. number ≡ misfit_number misfit };

    fn from(misfit: Misfit) -> u8 {
        misfit as u8
    }
}

impl From<Ended> for Misfit {
    ghost from_gives = { λ _ r. r ≡ FileEnds };

    fn from(_: Ended) -> Misfit {
        Misfit::FileEnds
    }
}
