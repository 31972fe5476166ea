// The question that a bound is asked.
ghost use Rattle.std.specs.Prelude.{◌≡◌, ◌+◌, cond, Some, None, Decides};
ghost use Rattle.bounds.specs.Questions.{Lawful, asked_of, lawful};

use network::Network;

// Over a checked network: the lanes that are picked, and those that are undecided.
#[derive(Clone, Copy)]
pub struct Question<'a> {
    pub network: &'a Network,
    pub picked: u32,
    pub undecided: u32,
}

impl Question<'_> {
    // The two sets share no lane and name standing lanes only, and at most K lanes are picked.
    pub fn is_lawful(&self) -> bool
        ensures value { result ≡ lawful (asked_of self.now) }
        ensures meant { Decides result (Lawful (asked_of self.now)) }
    {
        let standing = self.network.standing();
        let most = u32::from(self.network.scale().most());
        let apart = self.picked & self.undecided == 0;
        let picked_stand = self.picked & standing == self.picked;
        let undecided_stand = self.undecided & standing == self.undecided;
        apart & picked_stand & undecided_stand & (self.picked.count_ones() <= most)
    }

    // The lanes that are picked or undecided, if the question is lawful.
    pub(crate) fn candidates(&self) -> Option<u32>
        ensures { result ≡ cond (lawful (asked_of self.now)) (Some (self.now.picked + self.now.undecided)) None }
    {
        self.is_lawful().then_some(self.picked | self.undecided)
    }
}
