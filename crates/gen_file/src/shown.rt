//! What a file is, as lines.

/// What a file is, as lines, and whether its bytes spell a file of its kind.
#[derive(Drop)]
pub struct Shown {
    /// The lines.
    pub text: Vec<u8>,
    /// Whether the bytes are a whole bundle, campaign, evidence or header.
    pub whole: bool,
}
