//! Kinds of files.

/// As what a file is read.
#[derive(Clone, Copy, Debug, PartialEq, Eq)]
pub enum FileKind {
    /// As a header alone.
    OfHeader,
    /// As evidence.
    OfEvidence,
    /// As what is shown of a campaign: a bundle, or the bundles of several runs.
    OfCampaign,
}
