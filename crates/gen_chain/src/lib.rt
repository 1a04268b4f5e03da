//! Signed chains, and the texts that generals sign.
//!
//! A chain is the message `v:0:j1:..:jk` of the signed message algorithm (section 4 of L. Lamport, R. Shostak and M.
//! Pease, "The Byzantine Generals Problem", ACM TOPLAS 4, 1982). It is an order with the generals that signed it, one
//! after another. Each signer signs the order together with the path up to and with itself, under the leaf of the order
//! in its own tree of keys. A general also signs the head of its log.
//!
//! A store keeps verifications with their answers, so that an answer can be returned again.
//!
//! What is promised: the texts that are signed and the bytes of a chain are exactly those of the definitions, and each
//! chain has one spelling. `chain_verifies` is true if and only if every signature of the chain verifies, with a store
//! and without. A chain that is made with the signers' own keys verifies. No statement is the head of a log.
//!
//! What is not promised: that nobody else can make a signature that verifies.
#![tactic(auto)]

mod chains;
mod fault;
mod kept;
pub mod laws;
mod leaves;
mod making;
mod prefixes;
mod reading;
mod signings;
pub mod sizes;
mod statements;
mod store;
mod verifying;
mod writing;

pub use chains::{SignedChain, Signer};
pub use fault::ChainFault;
pub use leaves::{leaf_of_head, leaf_of_order};
pub use making::{ChainRoom, begin_chain, extend_chain};
pub use reading::{read_chain, read_chain_with};
pub use signings::Signing;
pub use statements::{
    HeadText, Statement, head_digest, head_text, statement_digest, statement_text,
};
pub use store::VerifyStore;
pub use verifying::{chain_verifies, has_signed};
pub use writing::write_chain;
