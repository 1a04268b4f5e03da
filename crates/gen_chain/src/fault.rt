//! The rules that bytes of a chain can break.
ghost use Rattle.std.specs.Prelude.{◌≡◌};
ghost use Rattle.gen_chain.specs.FaultNumber.{chain_fault_number};

use thiserror::Error;

/// The rule that the bytes of a chain break. The texts are `C1` to `C5`.
///
/// Bytes are tested in this order: fewer than 2 bytes (`C1`), `C2`, `C3`, fewer bytes than that many
/// signers take (`C1`), `C4`, `C5`.
#[derive(Clone, Copy, Debug, PartialEq, Eq, Error)]
pub enum ChainFault {
    /// The bytes end before the chain does.
    #[error("C1")]
    Truncated,
    /// The order is above 14.
    #[error("C2")]
    OrderRange,
    /// The number of signers is not 1 to 16.
    #[error("C3")]
    SignerCount,
    /// A signer's number is above 15, or stands in the chain twice.
    #[error("C4")]
    BadSigner,
    /// The first signer is not general 0, the commander.
    #[error("C5")]
    NotFromCommander,
}

impl ChainFault {
    /// Returns the number of the rule, 1 to 5.
    pub fn number(self) -> u8
        ensures { result ≡ chain_fault_number self }
    {
        match self {
            ChainFault::Truncated => 1,
            ChainFault::OrderRange => 2,
            ChainFault::SignerCount => 3,
            ChainFault::BadSigner => 4,
            ChainFault::NotFromCommander => 5,
        }
    }
}
