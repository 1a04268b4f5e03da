//! Lieutenants.
ghost use Rattle.std.specs.Prelude.{◌≡◌, ◌≢◌, ◌+◌, ◌<◌, ◌≤◌, ◌⊎◌, Contains};
ghost use Rattle.gen_types.specs.Ascending.{IsListOf};
ghost use Rattle.gen_net.specs.Network.{Network, rounds};
ghost use Rattle.gen_net.specs.Run.{Run, IsRun};
ghost use Rattle.gen_net.specs.Follows.{LieutenantDecides};
ghost use Rattle.gen_core.specs.Loops.Picking.{OrderIn};
ghost use Rattle.gen_core.specs.Seeing.{HasSeen, AreArrivals, AreAdds};

use crate::arrivals::Seen;
use crate::picks::{Adds, pick};
use gen_net::Net;
use gen_types::{Choice, ChoiceKind, GeneralNo, OrderNo, OrderSet};
use std::marker::Model;
/// A lieutenant after some of the rounds: its number, 1 to 15, the number of rounds, and its choice. It keeps
/// the orders that arrived so far, which are the set V of SM(m) (section 4 of the paper of 1982).
#[derive(Clone, Copy, Debug)]
pub struct Lieutenant {
    me: GeneralNo,
    rounds: u8,
    gone: u8,
    known: OrderSet,
    choice: ChoiceKind,
}

impl Model for Lieutenant {
    ghost use Rattle.gen_core.specs.Seeing.{Lieutenant, IsKept};

    ghost Value = { Lieutenant };

    ghost view = { λ l. record {
      me = l.me;
      rounds = l.rounds;
      gone = l.gone;
      known = l.known;
      choice = l.choice;
    } };

    ghost invariant = { λ l. IsKept l.gone l.rounds };

    ghost inverse = { λ state. record {
      me = state.me;
      rounds = state.rounds;
      gone = state.gone;
      known = state.known;
      choice = state.choice;
    } };
}

impl Lieutenant {
    /// Makes the lieutenant of this number in its state before round 1, when nothing has arrived. The number
    /// must be that of a general of the network other than the commander.
    pub fn new(net: &Net, me: GeneralNo) -> Lieutenant
        requires lieutenant { me ≢ 0 }
        requires general { me < net.now.generals }
        ensures me { result.me ≡ me }
        ensures gone { result.gone ≡ 0 }
        ensures rounds { result.rounds ≡ rounds net.now }
        ensures seen { (run : Run) → IsRun net.now run → HasSeen net.now run result }
    {
        // A network has at most 15 orders, which a call of `orders` makes known to the proof.
        let _ = net.orders();
        Lieutenant {
            me,
            rounds: net.rounds(),
            gone: 0,
            known: OrderSet::new(),
            choice: net.choice(),
        }
    }

    /// Returns the number of the lieutenant.
    pub fn me(&self) -> GeneralNo
        ensures { result ≡ self.now.me }
    {
        self.me
    }

    /// Returns the number of rounds that have gone, 0 to m + d.
    pub fn gone(&self) -> u8
        ensures value { result ≡ self.now.gone }
        ensures at_most { result ≤ self.now.rounds }
        ensures limit { self.now.rounds ≤ 16 }
    {
        self.gone
    }

    /// Takes what arrives in the next round (step 2 of SM(m), section 4 of the paper of 1982). Returns the
    /// orders that the lieutenant adds, each with the path of the chain that the least sender sent. Fewer
    /// than all rounds must have gone.
    ///
    /// The contract speaks of each run of which the lieutenant has seen what arrived in the rounds that have
    /// gone, and in whose next round this list is what arrives. For such a run the result is what the
    /// lieutenant adds in this round, and the lieutenant has then seen this round too.
    pub fn round(&mut self, seen: &[Seen]) -> Adds
        requires { self.old.gone < self.old.rounds }
        ensures me { self.new.me ≡ self.old.me }
        ensures gone { self.new.gone ≡ self.old.gone + 1 }
        ensures rounds { self.new.rounds ≡ self.old.rounds }
        ensures adds { (net : Network) (run : Run) →
            HasSeen net run self.old →
            AreArrivals run self.old.me (self.old.gone + 1) seen.now →
            AreAdds run self.old.me (self.old.gone + 1) result }
        ensures seen { (net : Network) (run : Run) →
            HasSeen net run self.old →
            AreArrivals run self.old.me (self.old.gone + 1) seen.now →
            HasSeen net run self.new }
    {
        let adds = pick(&self.known, seen);
        let mut known = self.known;
        // The set's list ascends, which a call of `len` makes known to the proof.
        let _ = known.len();
        for chain in seen {
            known.insert(chain.order);
        }
        self.known = known;
        self.gone += 1;
        adds
    }

    /// Returns the set of orders that the lieutenant accepted and the order that it decides (step 3 of SM(m),
    /// section 4 of the paper of 1982). This holds for each run of which it has seen what arrived. All rounds
    /// must have gone.
    pub fn decide(&self) -> (OrderSet, OrderNo)
        requires { self.now.gone ≡ self.now.rounds }
        ensures { (net : Network) (run : Run) →
            HasSeen net run self.now →
            LieutenantDecides net run self.now.me result.0 result.1 }
    {
        (self.known, self.choice.choose(self.known))
    }
}
