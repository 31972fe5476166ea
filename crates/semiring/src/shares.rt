// Fixed-point shares of a full scale, by which a chance is told.
ghost use Rattle.std.specs.Prelude.{◌≤◌};
ghost use Rattle.network.specs.Scales.{full_limit};

mod ops;

// A whole number up to 10^18.
#[derive(Clone, Copy)]
pub struct Share {
    parts: u64,
    ghost within: { parts ≤ full_limit },
}
