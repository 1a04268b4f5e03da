//! What the memory of an answer for C holds.

use gen_facts::Fact;

/// The text of an answer and its facts, or the line of a fault and no facts.
#[derive(Drop)]
pub struct Kept {
    /// The bytes of the text.
    pub text: Vec<u8>,
    /// The rows of the facts.
    pub facts: Vec<Fact>,
}
