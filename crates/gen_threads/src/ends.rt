//! How generals and runs end.
ghost use Rattle.std.specs.Prelude.{◌≡◌, Some};

use crate::held_rings::HeldRing;
use gen_edge::{PutPass, TakePass};
use gen_log::SealedLog;
use gen_tree::{KeyRing, close_ring};
use std::alloc::AllocError;
use thiserror::Error;

/// Why a run has no logs.
#[derive(Clone, Copy, Debug, PartialEq, Eq, Error)]
pub enum RunFault {
    /// Memory was refused.
    #[error("memory")]
    Memory,
    /// A thread could not be started.
    #[error("a thread could not be started")]
    Thread,
    /// A neighbour ended before its last round.
    #[error("a neighbour ended early")]
    Gone,
}

impl From<AllocError> for RunFault {
    ghost use Rattle.std.specs.Prelude.{◌≡◌};
    ghost use Rattle.gen_threads.specs.declared.ends.RunFault.TheVariants.{Memory};

    ghost from_gives = { λ _ fault. fault ≡ Memory };

    fn from(_refused: AllocError) -> RunFault {
        RunFault::Memory
    }
}

/// What a general gives back when it ends: its logs or why it has none, its ring if it has one, and its
/// passes in the order of its neighbours.
pub struct GeneralEnd {
    /// The general's log, and a second one behind it if its script says so.
    pub logs: Result<Vec<SealedLog>, RunFault>,
    /// The general's ring. If it isn't taken out, it is closed.
    pub ring: Option<KeyRing>,
    /// The passes by which the general put.
    pub puts: Vec<PutPass>,
    /// The passes by which the general took.
    pub takes: Vec<TakePass>,
}

impl GeneralEnd {
    /// Returns the general's logs, or why it has none, and its ring if it has one.
    pub(crate) fn into_logs(self) -> (Result<Vec<SealedLog>, RunFault>, Option<HeldRing>)
        ensures logs { result.0 ≡ self.logs }
        ensures ring { result.1 ≡ self.ring }
    {
        let GeneralEnd {
            logs,
            ring,
            puts: _,
            takes: _,
        } = self;
        match ring {
            Some(ring) => (logs, Some(HeldRing::new(ring))),
            None => (logs, None),
        }
    }

    /// Returns the end with this ring in it. A ring that it had before is closed.
    pub(crate) fn with_ring(self, ring: KeyRing) -> GeneralEnd
        ensures { result ≡ record {
          logs = self.logs;
          ring = Some ring;
          puts = self.puts;
          takes = self.takes;
        } }
    {
        let GeneralEnd {
            logs,
            ring: none,
            puts,
            takes,
        } = self;
        close_ring(none);
        let ring = Some(ring);
        GeneralEnd {
            logs,
            ring,
            puts,
            takes,
        }
    }
}

impl Drop for GeneralEnd {
    fn drop(self) {
        let GeneralEnd {
            logs: _,
            ring,
            puts: _,
            takes: _,
        } = self;
        close_ring(ring);
    }
}
