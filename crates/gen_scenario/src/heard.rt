//! What a general heard.

use gen_chain::SignedChain;
use gen_types::GeneralNo;

/// A chain that counted at a general, and the neighbour that sent it.
#[derive(Debug, Drop)]
pub struct Heard {
    /// The general that sent the chain.
    pub from: GeneralNo,
    /// The chain. The round in which it was heard is the number of its signers.
    pub chain: SignedChain,
}
