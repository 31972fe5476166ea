// The factoring routine: what some lanes add up to in a semiring, where the depots are in parts by their labels.
ghost use Rattle.std.specs.Prelude.{◌≡◌, ◌+◌, ◌<◌, ◌≤◌, length, drop, replicate};
ghost use Rattle.std.specs.Coded.{Coded-set};
ghost use Rattle.network.specs.Connected.{connects};
ghost use Rattle.reliability.specs.Facts.{Filled-prop};
ghost use Rattle.reliability.specs.Questions.{cleared, scratch_places};
ghost use Rattle.reliability.specs.Spread.{Filled, both, mixed};
ghost use Rattle.reliability.specs.Totals.{total};

use crate::labels::Labels;
use crate::named::Named;
use network::{Lane, MOST_LANES, Scale};
use semiring::Semiring;

// As many places as there are lanes at most, and one.
pub const SCRATCH_PLACES: usize = MOST_LANES + 1;

// The two weights of a lane together.
fn add_weights<V: Semiring>(lane: &Lane, scale: Scale) -> V
    ensures { result ≡ both V.ops scale.parts lane.now }
{
    V::running(lane, scale).sum(V::failing(lane, scale))
}

// What a lane between two parts gives, by what follows if it runs and if it fails.
fn mix<V: Semiring>(lane: &Lane, scale: Scale, runs: V, fails: V) -> V
    ensures { result ≡ mixed V.ops scale.parts lane.now runs fails }
{
    let runs = V::running(lane, scale).product(runs);
    runs.sum(V::failing(lane, scale).product(fails))
}

// Puts the semiring's zero into each place.
fn clear<V: Semiring>(places: &mut [V])
    ensures { places.new ≡ replicate (length places.old) V.ops.zero }
{
    for place in places.iter_mut() {
        *place = V::zero();
    }
}

// What the routine goes over: the lanes, and for each place what all states of the lanes from there on add up to.
#[derive(Drop)]
struct Task<'a, V: Semiring> {
    named: Named<'a>,
    rest: &'a [V],
    ghost filled: { Filled V.ops named.scale.parts named.lanes.now rest.now } by { Filled-prop V.ops named.scale.parts named.lanes.now rest.now (Coded-set V.code) },
}

impl<V: Semiring> Task<'_, V> {
    ghost use Rattle.reliability.specs.Tasks.{from_lane, lanes_in};

    // Where two parts are left, from the last lane back: a lane between them ends it if it runs, and any other is a factor.
    fn join_two(&self, i: usize, labels: &Labels) -> V
        requires within { i ≤ length (lanes_in self.now.named) }
        ensures { result ≡ from_lane V.ops self.now.named i labels.now 2 }
    {
        let mut value = V::zero();
        // each slice reversed: by `zip(rest).rev()`, a total of 18 lanes takes 12 instructions in 100 more
        let lanes = &self.named.lanes[i..];
        let rest = &self.rest[i + 1..][..lanes.len()];
        for (lane, rest) in lanes.iter().rev().zip(rest.iter().rev()) {
            if labels.meet(lane) {
                value = add_weights::<V>(lane, self.named.scale).product(value);
            } else {
                value = mix(lane, self.named.scale, *rest, value);
            }
        }
        value
    }

    // The total of the lanes from the i-th on, where at least three parts are left and enough lanes to connect them.
    fn factor(&self, i: usize, labels: &Labels, parts: usize) -> V
        requires three { 3 ≤ parts }
        requires enough { i + parts ≤ length (lanes_in self.now.named) + 1 }
        ensures { result ≡ from_lane V.ops self.now.named i labels.now parts }
    {
        let lane = &self.named.lanes[i];
        let hopeless = parts > self.named.lanes.len() - i;
        if labels.meet(lane) {
            if hopeless {
                return V::zero();
            }
            let after = self.factor(i + 1, labels, parts);
            return add_weights::<V>(lane, self.named.scale).product(after);
        }
        let merged = labels.merge(lane);
        let runs = if parts == 3 {
            self.join_two(i + 1, &merged)
        } else {
            self.factor(i + 1, &merged, parts - 1)
        };
        if hopeless {
            return V::running(lane, self.named.scale).product(runs);
        }
        let fails = self.factor(i + 1, labels, parts);
        mix(lane, self.named.scale, runs, fails)
    }

    // The total of all lanes, where each depot is a part of its own.
    fn total(&self) -> V
        ensures { result ≡ total V.ops self.now.named.scale.parts (connects self.now.named.depots) (lanes_in self.now.named) }
    {
        let labels = Labels::own();
        let parts = usize::from(self.named.depots);
        if parts > self.named.lanes.len() + 1 {
            V::zero()
        } else if parts == 2 {
            self.join_two(0, &labels)
        } else {
            self.factor(0, &labels, parts)
        }
    }
}

impl Named<'_> {
    // Puts into each place what all states of the lanes from there on add up to.
    fn fill<V: Semiring>(&self, scratch: &mut [V])
        requires { length self.now.lanes.now < length scratch.old }
        ensures filled { Filled V.ops self.now.scale.parts self.now.lanes.now scratch.new }
        ensures beyond { drop (length self.now.lanes.now + 1) scratch.new ≡ drop (length self.now.lanes.now + 1) scratch.old }
    {
        let mut rest = V::one();
        scratch[self.lanes.len()] = rest;
        for (i, lane) in self.lanes.iter().enumerate().rev() {
            rest = add_weights::<V>(lane, self.scale).product(rest);
            scratch[i] = rest;
        }
    }

    // The total of the lanes, worked out in the scratch, whose first places are cleared after it.
    pub(crate) fn total<V: Semiring>(&self, scratch: &mut [V]) -> V
        requires { scratch_places ≤ length scratch.old }
        ensures value { result ≡ total V.ops self.now.scale.parts (connects self.now.depots) self.now.lanes.now }
        ensures scratch { scratch.new ≡ cleared V.ops scratch.old }
    {
        self.fill(scratch);
        let task = Task {
            named: *self,
            rest: scratch,
        };
        let value = task.total();
        clear(&mut scratch[..SCRATCH_PLACES]);
        value
    }
}
