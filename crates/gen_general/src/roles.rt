//! What a general does in a round, which depends on whether it has a script.
ghost use Rattle.std.specs.Prelude.{◌≡◌, Some, option_map, OnOk, OnErr};
ghost use Rattle.gen_general.specs.Following.{AreOthers};
ghost use Rattle.gen_general.specs.Loops.Journals.{chain_with};
ghost use Rattle.gen_general.specs.Loops.Roles.{ring_of, role_chains, IsStart, MayBegin, RoleBegan};

use crate::followers::Follower;
use crate::following::sign_round;
use crate::journal_entries::{find_chain, find_planned};
use crate::scripted::plan_round;
use crate::traitors::Traitor;
use gen_chain::SignedChain;
use gen_scenario::{Heard, Part};
use gen_tree::KeyRing;
use gen_types::{GeneralNo, OrderNo};
use std::alloc::{AllocError, Global};

/// How a general behaves.
pub(crate) enum Role {
    /// The general has no script, and follows the algorithm.
    Loyal(Follower),
    /// The general has a script, and does what the script says.
    Scripted(Traitor),
}

impl Role {
    /// Returns the role of a general before the first round. A general with a ring has no script.
    pub(crate) fn new(alloc: Global, ring: Option<KeyRing>) -> Role
        ensures ring { ring_of result ≡ ring }
        ensures start { IsStart result }
    {
        match ring {
            Some(ring) => Role::Loyal(Follower {
                ring,
                signed: Vec::new(alloc),
            }),
            None => Role::Scripted(Traitor {
                planned: Vec::new(alloc),
            }),
        }
    }

    /// Begins a round: a follower signs what it has to sign, and for a general with a script it is planned what
    /// the script has it send. `heard` is what the general heard in earlier rounds. If memory is refused,
    /// nothing has changed.
    pub(crate) fn begin(
        &mut self,
        alloc: Global,
        part: &Part,
        round: u8,
        heard: &[Heard],
    ) -> Result<(), AllocError>
        requires others { AreOthers part.now.header part.now.me heard.now }
        requires free { MayBegin part.now heard.now round self.old }
        ensures ok { OnOk result (RoleBegan part.now heard.now round self.old self.new) }
        ensures err { OnErr result (self.new ≡ self.old) }
    {
        match self {
            Role::Loyal(follower) => {
                let (header, me, own) = (part.header(), part.me(), part.own());
                let ring = &mut follower.ring;
                let signed = sign_round(alloc, header, ring, me, own, round, heard)?;
                follower.signed = signed;
                Ok(())
            }
            Role::Scripted(traitor) => {
                let (header, me, trees) = (part.header(), part.me(), part.trees());
                let lines = part.lines().unwrap();
                let planned = plan_round(alloc, header, me, trees, lines, heard, round)?;
                traitor.planned = planned;
                Ok(())
            }
        }
    }

    /// Returns the first chain of an order among those that the general sends this neighbour in this round. If
    /// no neighbour is given, it is the first among those that the general signs.
    pub(crate) fn first_chain(&self, to: Option<GeneralNo>, order: OrderNo) -> Option<&SignedChain>
        ensures { option_map (λ c. c.now) result ≡ chain_with order (role_chains self.now to) }
    {
        match self {
            Role::Loyal(follower) => find_chain(to, order, follower.signed.as_slice()),
            Role::Scripted(traitor) => find_planned(to, order, traitor.planned.as_slice()),
        }
    }
}
