//! The form of an answer.

/// The form in which a job gives its answer.
#[derive(Clone, Copy, Debug, PartialEq, Eq)]
pub enum Form {
    /// Lines of text.
    Text,
    /// One line with a JSON object; of what is shown a line for each object.
    Json,
}
