//! What a program was built of.

/// What a program was built of, as it tells behind its version.
#[derive(Clone, Copy, Debug)]
pub struct Built<'a> {
    /// The commit, or `unknown`.
    pub commit: &'a str,
    /// The kit, or `unknown`.
    pub kit: &'a str,
    /// The digest of the sources, or `unknown`.
    pub sources: &'a str,
}
