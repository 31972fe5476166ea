// The lanes that a set names, put side by side.
ghost use Rattle.std.specs.Prelude.{◌≡◌, ◌≤◌, length, take};
ghost use Rattle.network.specs.Sets.{chosen};

use network::{Lane, MOST_LANES};

// The first lanes of a table that lies in the value itself: a total allocates nothing, and stands on no library for it.
#[derive(Clone, Copy)]
pub(crate) struct Chosen {
    table: [Lane; MOST_LANES],
    count: usize,
    ghost few: { count ≤ 20 },
}

impl Chosen {
    pub(crate) fn none() -> Chosen {
        Chosen {
            table: [Lane::default(); MOST_LANES],
            count: 0,
        }
    }

    // The set's lanes, in their order. Put in place: handed back by value, the table would be copied for each total.
    pub(crate) fn choose(&mut self, lanes: &[Lane], set: u32)
        requires { length lanes.now ≤ 20 }
        ensures { take self.new.count self.new.table ≡ chosen set lanes.now }
    {
        let mut count = 0;
        for (i, lane) in lanes.iter().enumerate() {
            if (set >> i) % 2 == 1 {
                self.table[count] = *lane;
                count += 1;
            }
        }
        self.count = count;
    }

    pub(crate) fn as_slice(&self) -> &[Lane]
        ensures value { result.now ≡ take self.now.count self.now.table }
        ensures fits { length result.now ≤ 20 }
    {
        &self.table[..self.count]
    }
}
