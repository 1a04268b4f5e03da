//! The sizes of public keys and signatures.
ghost use Rattle.std.specs.Prelude.{◌≡◌, ◌*◌};
ghost use Rattle.gen_lmots.specs.Strings.{hash_length};
ghost use Rattle.gen_lms.specs.Heights.{levels_of};
ghost use Rattle.gen_lms.specs.Signatures.{signature_length};

use crate::heights::LmsHeight;
use gen_lmots::sizes::{HASH_BYTES, OTS_BYTES};

/// The number of bytes of a number of a leaf, and of a type code.
pub const NUMBER_BYTES: usize = 4;

/// The number of bytes of a public key, 56.
pub const KEY_BYTES: usize = 24 + HASH_BYTES;

/// The number of levels of the tallest tree.
pub const MOST_LEVELS: u8 = 25;

/// The number of bytes of a leaf's path in the tallest tree, 800.
pub const MOST_PATH_BYTES: usize = HASH_BYTES * MOST_LEVELS as usize;

/// Returns the number of bytes of a leaf's path in a tree of this height: 32 for each level.
pub fn path_bytes(height: LmsHeight) -> usize
    ensures { result ≡ hash_length * levels_of height }
{
    HASH_BYTES * usize::from(height.levels())
}

/// Returns the number of bytes of a signature by a leaf of a tree of this height, 2,348 to 2,988.
pub fn signature_bytes(height: LmsHeight) -> usize
    ensures { result ≡ signature_length height }
{
    2 * NUMBER_BYTES + OTS_BYTES + path_bytes(height)
}
