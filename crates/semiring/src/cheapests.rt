// The cheapest state that counts.
ghost use Rattle.std.specs.Prelude.{◌≤◌};

mod ops;

// A cost; the greatest 32-bit number means absent, by the subject's definition. An Option would be no plainer: min and
// saturating_add treat that number as absent with no case of its own.
#[derive(Clone, Copy)]
pub struct Cheapest {
    cost: u32,
    ghost within: { cost ≤ 4294967295 },
}
