//! The sizes of chains in bytes.
ghost use Rattle.std.specs.Prelude.{◌≡◌, ◌*◌};
ghost use Rattle.gen_chain.specs.Chain.{signer_length};

use gen_ots::sizes::OTS_BYTES;
use gen_tree::sizes::{MOST_SIBLING_BYTES, signature_bytes};
use gen_types::TreeHeight;
use gen_types::limits::{MOST_GENERALS, MOST_ORDERS};

/// The greatest order of a chain in any network.
pub const GREATEST_ORDER: u8 = MOST_ORDERS - 1;

/// The most signers of a chain.
pub const MOST_SIGNERS: u8 = MOST_GENERALS;

/// The number of bytes before a chain's signers: the order, and the number of signers.
pub const FRONT_BYTES: usize = 2;

/// The most bytes of a chain: it has the most signers, and their trees are the tallest ones.
pub const MOST_CHAIN_BYTES: usize = FRONT_BYTES
    + MOST_SIGNERS as usize * (1 + OTS_BYTES + MOST_SIBLING_BYTES);

/// Returns the number of bytes of this many signers, each with one byte for its number and its signature by a tree of
/// this height.
pub fn signers_bytes(height: TreeHeight, count: u8) -> usize
    ensures { result ≡ signer_length height * count }
{
    (1 + signature_bytes(height)) * usize::from(count)
}
