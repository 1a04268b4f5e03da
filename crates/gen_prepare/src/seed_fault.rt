//! Why bytes are no seed.
use thiserror::Error;

/// The rule that a seed's bytes break.
#[derive(Clone, Copy, Debug, PartialEq, Eq, Error)]
pub enum SeedFault {
    /// There are fewer or more than 32 bytes.
    #[error("G1")]
    SeedLength,
}
