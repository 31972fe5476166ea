// The lanes that a set names, with the scale and the depots of their network.
ghost use Rattle.std.specs.Prelude.{◌≤◌, ◌<◌, length};
ghost use Rattle.network.specs.Connected.{EndsWithin};
ghost use Rattle.reliability.specs.Facts.{EndsWithin-prop};
ghost use Rattle.reliability.specs.Questions.{scratch_places};

use network::{Lane, Scale};

// Every end has a label, and there are fewer lanes than places of scratch.
#[derive(Clone, Copy)]
pub(crate) struct Named<'a> {
    pub(crate) lanes: &'a [Lane],
    pub(crate) scale: Scale,
    pub(crate) depots: u8,
    ghost two: { 2 ≤ depots },
    ghost ends: { EndsWithin 10 lanes.now } by { EndsWithin-prop 10 lanes.now },
    ghost few: { length lanes.now < scratch_places },
}
