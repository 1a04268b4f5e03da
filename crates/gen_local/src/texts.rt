//! Texts with their signatures.
use gen_chain::{HeadText, Statement};
use gen_tree::Signature;
use gen_types::GeneralNo;

/// What a general signs in a run.
#[derive(Clone, Copy, Debug, PartialEq, Eq)]
pub enum Text {
    /// A statement.
    OfStatement(Statement),
    /// The head of the general's log.
    OfHead(HeadText),
}

/// A text, and a signature of it.
#[derive(Debug, Drop)]
pub struct SignedText {
    /// The general that is said to have signed the text.
    pub signer: GeneralNo,
    /// The text that was signed.
    pub text: Text,
    /// The signature of the text.
    pub signature: Signature,
}
