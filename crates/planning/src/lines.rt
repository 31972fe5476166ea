// The one line that the console program prints, without its line feed.
ghost use Rattle.std.specs.Prelude.{Some};
ghost use Rattle.planning.specs.Lines.{failure_line, planned_line};

use crate::answers::{Failure, Planned};
use std::error::Error;
use std::fmt;

impl fmt::Display for Planned {
    ghost output = { λ planned. Some (planned_line planned) };

    fn fmt<W: fmt::Write>(&self, f: &mut fmt::Formatter<W>) -> fmt::Result {
        let Planned {
            best,
            full,
            openings,
        } = *self;
        match best {
            Some(plan) => write!(
                f,
                "found set {} cost {} chance {} of {full} openings {openings}",
                plan.set, plan.cost, plan.chance
            ),
            None => write!(f, "none openings {openings}"),
        }
    }
}

impl fmt::Display for Failure {
    ghost output = { λ failure. Some (failure_line failure) };

    fn fmt<W: fmt::Write>(&self, f: &mut fmt::Formatter<W>) -> fmt::Result {
        match self {
            Failure::Faulty(fault) => write!(f, "{fault}"),
            Failure::Refused(refusal) => write!(f, "{refusal}"),
        }
    }
}

impl Error for Failure {}
