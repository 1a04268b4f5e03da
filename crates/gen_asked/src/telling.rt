//! What is told of an input.

/// What is told of an input.
#[derive(Clone, Copy, Debug, PartialEq, Eq)]
pub enum Telling {
    /// What the file is, line by line: a bundle, a campaign, evidence or a header alone.
    File,
    /// What the name means: a fault, a finding, a kind of conviction, a verdict or a status.
    Name,
    /// The text, with what each of its lines means behind the line.
    Text,
}
