//! Kinds of findings about messages.

/// What is found about a message.
#[derive(Clone, Copy)]
pub enum Kind {
    /// Only one of two logs has the message.
    OneSided,
    /// The message is a chain that derives from nothing that the rest sent.
    Stray,
}
