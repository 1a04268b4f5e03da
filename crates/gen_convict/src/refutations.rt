//! Answers to evidence.
use gen_local::SignedText;

/// An answer to evidence against a general that followed.
#[derive(Debug, Drop)]
pub enum Refutation {
    /// A text of the evidence that verifies as the general's, and that the general's log doesn't have. Of evidence of two
    /// runs it is the text of the run that the log isn't of. A general that followed didn't sign it.
    Forged(SignedText),
    /// Two different strings of bytes with one SHA-256.
    Collision(Vec<u8>, Vec<u8>),
}
