// Labels of the depots: depots of one part have one label.
ghost use Rattle.std.specs.Prelude.{◌≡◌, ◌<◌, [], ◌∷◌};
ghost use Rattle.network.specs.Connected.{EndsWithin, label_at, meets, merged, own_labels, relabelled};

use network::{Lane, Network};

const DEPOTS: usize = Network::MOST_DEPOTS as usize;

fn replace(label: u8, from: u8, to: u8) -> u8
    ensures { result ≡ relabelled to from label }
{
    if label == from { to } else { label }
}

#[derive(Clone, Copy)]
pub(crate) struct Labels {
    each: [u8; DEPOTS],
}

impl Labels {
    // Each depot is a part of its own.
    pub(crate) fn own() -> Labels
        ensures { result.each ≡ own_labels }
    {
        Labels {
            each: [0, 1, 2, 3, 4, 5, 6, 7, 8, 9],
        }
    }

    fn at(&self, depot: u8) -> u8
        requires { depot < 10 }
        ensures { result ≡ label_at self.now.each depot }
    {
        self.each[usize::from(depot)]
    }

    // Whether the lane's ends are of one part.
    pub(crate) fn meet(&self, lane: &Lane) -> bool
        requires { EndsWithin 10 (lane.now ∷ []) }
        ensures { result ≡ meets self.now.each lane.now }
    {
        self.at(lane.left) == self.at(lane.right)
    }

    // The part of the lane's right end gets the label of its left end.
    pub(crate) fn merge(&self, lane: &Lane) -> Labels
        requires { EndsWithin 10 (lane.now ∷ []) }
        ensures { result.each ≡ merged self.now.each lane.now }
    {
        let kept = self.at(lane.left);
        let gone = self.at(lane.right);
        Labels {
            each: self.each.map(|label| replace(label, gone, kept)),
        }
    }
}
