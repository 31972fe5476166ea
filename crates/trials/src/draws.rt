// Numbers that look drawn, and are the same in each run.
ghost use Rattle.std.specs.Prelude.{◌≡◌, ◌/◌};
ghost use Rattle.trials.specs.Draws.{next_after};

// Each number follows from the one before it.
#[derive(Clone, Copy)]
pub struct Draws {
    pub last: u32,
}

impl Draws {
    pub fn draw(&mut self) -> u32
        ensures value { result ≡ next_after self.old.last }
        ensures kept { self.new.last ≡ result }
    {
        self.last = self.last.wrapping_mul(1_103_515_245).wrapping_add(12_345) % 0x8000_0000;
        self.last
    }

    // The low bits of these numbers repeat soon, so they are left out.
    pub fn draw_high(&mut self) -> u32
        ensures value { result ≡ next_after self.old.last / 65536 }
        ensures kept { self.new.last ≡ next_after self.old.last }
    {
        self.draw() / 65_536
    }
}
