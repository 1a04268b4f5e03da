//! What a line of a script says.
ghost use Rattle.std.specs.Prelude.{◌≡◌, option_map};
ghost use Rattle.gen_script.specs.NamedPath.{named_path};

use gen_types::{GeneralNo, OrderNo, Path};
use std::alloc::AllocError;
use std::marker::Model;

/// The bytes of a parcel, as a general puts them on an edge. A contract sees the list of them.
#[derive(Debug, Drop)]
pub struct Parcel {
    bytes: Vec<u8>,
}

impl Model for Parcel {
    ghost use Rattle.std.specs.Prelude.{ℕ, List};

    ghost Value = { List ℕ };

    ghost view = { λ parcel. parcel.bytes.items };
}

impl Parcel {
    /// Makes the parcel of these bytes.
    pub fn new(bytes: Vec<u8>) -> Parcel
        ensures { result ≡ bytes.items }
    {
        Parcel { bytes }
    }

    /// Returns the parcel's bytes.
    pub fn bytes(&self) -> &[u8]
        ensures { result.now ≡ self.now }
    {
        &self.bytes
    }
}

/// A copy is equal to its original. Copying fails only if memory was refused.
impl Clone for Parcel {
    ghost is_clone = { λ parcel copy. copy ≡ parcel };

    fn clone(&self) -> Result<Parcel, AllocError> {
        Ok(Parcel {
            bytes: self.bytes.clone()?,
        })
    }
}

/// One thing that a traitor does. Rounds count from 1. Receivers and senders are neighbours of the
/// traitor.
#[derive(Debug, Drop)]
pub enum ScriptLine {
    /// In the round the traitor sends `to` the chain of the order with this path, which all generals of
    /// the path have signed, the traitor last. The path begins with 0, and its length is the round.
    Make {
        /// The round in which the traitor sends.
        round: u8,
        /// The neighbour that receives.
        to: GeneralNo,
        /// The chain's order.
        order: OrderNo,
        /// The chain's path.
        path: Path,
    },
    /// In the round the traitor sends `to` the chain of the order that counted when it came from `from`,
    /// as many rounds earlier as this path is long. The chain is lengthened by the signatures of this
    /// path, which ends with the traitor. Nothing is sent if no such chain counted, or if the longer path
    /// would repeat a general.
    Pass {
        /// The round in which the traitor sends.
        round: u8,
        /// The neighbour that receives.
        to: GeneralNo,
        /// The neighbour from which the chain came.
        from: GeneralNo,
        /// The chain's order.
        order: OrderNo,
        /// The generals that sign the chain then: at least one, never general 0, and fewer than the
        /// round's number.
        path: Path,
    },
    /// Like `Pass` with the traitor alone as the path, but the most significant bit of the first byte of
    /// the last signature is flipped. The round is at least 2.
    Bend {
        /// The round in which the traitor sends.
        round: u8,
        /// The neighbour that receives.
        to: GeneralNo,
        /// The neighbour from which the chain came.
        from: GeneralNo,
        /// The chain's order.
        order: OrderNo,
    },
    /// In the round the traitor sends `to` these bytes as a parcel.
    Raw {
        /// The round in which the traitor sends.
        round: u8,
        /// The neighbour that receives.
        to: GeneralNo,
        /// The parcel, at least one byte.
        parcel: Parcel,
    },
    /// The traitor leaves out of its log that it received the order from `from` in the round.
    Hide {
        /// The round of the entry that is left out.
        round: u8,
        /// The neighbour from which the order came.
        from: GeneralNo,
        /// The order.
        order: OrderNo,
    },
    /// The traitor keeps a second sealed log, without the last order that the first log says it received.
    TwoHeads,
}

/// A copy is equal to its original. Copying fails only if memory was refused.
impl Clone for ScriptLine {
    ghost is_clone = { λ line copy. copy ≡ line };

    fn clone(&self) -> Result<ScriptLine, AllocError> {
        match self {
            ScriptLine::Make {
                round,
                to,
                order,
                path,
            } => Ok(ScriptLine::Make {
                round: *round,
                to: *to,
                order: *order,
                path: *path,
            }),
            ScriptLine::Pass {
                round,
                to,
                from,
                order,
                path,
            } => Ok(ScriptLine::Pass {
                round: *round,
                to: *to,
                from: *from,
                order: *order,
                path: *path,
            }),
            ScriptLine::Bend {
                round,
                to,
                from,
                order,
            } => Ok(ScriptLine::Bend {
                round: *round,
                to: *to,
                from: *from,
                order: *order,
            }),
            ScriptLine::Raw { round, to, parcel } => Ok(ScriptLine::Raw {
                round: *round,
                to: *to,
                parcel: parcel.clone()?,
            }),
            ScriptLine::Hide { round, from, order } => Ok(ScriptLine::Hide {
                round: *round,
                from: *from,
                order: *order,
            }),
            ScriptLine::TwoHeads => Ok(ScriptLine::TwoHeads),
        }
    }
}

impl ScriptLine {
    /// Returns the path of a `make` line or a `pass` line, and None of any other line.
    pub fn path(&self) -> Option<&Path>
        ensures { option_map (λ p. p.now) result ≡ named_path self.now }
    {
        match self {
            ScriptLine::Make { path, .. } => Some(path),
            ScriptLine::Pass { path, .. } => Some(path),
            _ => None,
        }
    }
}
