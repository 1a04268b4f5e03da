//! What the program was built of. The scripts that prove and build a copy of the sources write it there.

/// The commit, and whether a file was another one than that of the commit.
pub const COMMIT: &str = "unknown";

/// The kit.
pub const KIT: &str = "unknown";

/// The digest of the sources, in which these three texts are left out.
pub const SOURCES: &str = "unknown";
