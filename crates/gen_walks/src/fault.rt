//! Pairs without a short walk, and why no walks were made.
use crate::levels::LevelRow;
use gen_types::GeneralNo;
use std::alloc::{AllocError, AllocFailed};
use thiserror::Error;

/// Two generals a < b of a set for which a walk is missing.
#[derive(Clone, Copy, Debug, PartialEq, Eq, Error)]
#[error("generals {a} and {b} have no short walk")]
pub struct BadPair {
    /// The lesser general.
    pub a: GeneralNo,
    /// The greater general.
    pub b: GeneralNo,
}

/// Why no walks were made. `NoWalk` and `TooLong` tell the least pair that has no walk of at most d edges
/// inside the set, and the distances from the lesser general of this pair. A distance is 255 if no walk
/// leads there, and for each number from n on, which is no general's. `check_levels` is true for these
/// distances.
#[derive(Debug, Drop, Error)]
pub enum WalkFault {
    /// Memory was refused.
    #[error("memory")]
    Memory,
    /// No walk inside the set joins the pair.
    #[error("U1")]
    NoWalk {
        /// The least pair without a short walk.
        pair: BadPair,
        /// The distances from the lesser general of the pair.
        levels: LevelRow,
    },
    /// The shortest walk inside the set that joins the pair has more than d edges.
    #[error("U2")]
    TooLong {
        /// The least pair without a short walk.
        pair: BadPair,
        /// The distances from the lesser general of the pair.
        levels: LevelRow,
        /// How many edges the shortest walk has.
        edges: u8,
    },
}

impl From<AllocError> for WalkFault {
    ghost use Rattle.std.specs.Prelude.{◌≡◌};
    ghost use Rattle.gen_walks.specs.declared.fault.WalkFault.TheVariants.{Memory};

    ghost from_gives = { λ _ e. e ≡ Memory };

    fn from(_e: AllocError) -> WalkFault {
        WalkFault::Memory
    }
}

impl<T: Drop> From<AllocFailed<T>> for WalkFault {
    ghost use Rattle.std.specs.Prelude.{◌≡◌};
    ghost use Rattle.gen_walks.specs.declared.fault.WalkFault.TheVariants.{Memory};

    ghost from_gives = { λ _ e. e ≡ Memory };

    fn from(_e: AllocFailed<T>) -> WalkFault {
        WalkFault::Memory
    }
}
