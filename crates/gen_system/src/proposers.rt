//! Who proposes in the runs of a system.
ghost use Rattle.std.specs.Prelude.{◌≡◌};
ghost use Rattle.gen_system.specs.Systems.{proposer_number};

/// The node that is the commander of a run.
#[derive(Clone, Copy, Debug, PartialEq, Eq)]
pub enum Proposer {
    /// Node 0 proposes in each run.
    First,
    /// Each node proposes in its turn: in the run with number r, the node with number r modulo the number of nodes.
    Turns,
}

impl Proposer {
    /// Returns the byte that stands for the proposer: 0 for the first node, 1 for turns.
    pub fn number(self) -> u8
        ensures { result ≡ proposer_number self }
    {
        match self {
            Proposer::First => 0,
            Proposer::Turns => 1,
        }
    }
}
