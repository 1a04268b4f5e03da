//! The root of a seed's tree of keys, as a text.
ghost use Rattle.std.specs.Prelude.{◌≡◌, IfOk};
ghost use Rattle.gen_types.specs.Reading.{Gives};
ghost use Rattle.gen_types.specs.Spelled.{IsRead};
ghost use Rattle.gen_tree.specs.Rings.{ring_root};
ghost use Rattle.gen_prepare.specs.Roots.{root_line, root_text, seed_of};

use crate::seed_fault::SeedFault;
use gen_tree::KeyTree;
use gen_types::{ReadError, TreeHeight};
use std::alloc::{AllocError, Global};

/// Returns the root of the tree of keys that a seed makes, in 64 hexadecimal digits of lower case, and a line feed. The
/// height of the tree is that of a header's version: 4 in version 1, and 6 in version 2.
///
/// # Errors
///
/// `SeedLength` if and only if there are fewer or more than 32 bytes; Memory if memory was refused.
#[tactic(auto, unfolding(crate::specs::Roots::root_text))]
pub fn root_text(
    alloc: Global,
    seed: &[u8],
    height: TreeHeight,
) -> Result<Vec<u8>, ReadError<SeedFault>>
    ensures { Gives (λ text. text.items) result (root_text height seed.now) }
{
    let Ok(seed) = <[u8; 32]>::try_from(seed) else {
        return Err(ReadError::Fault(SeedFault::SeedLength));
    };
    let root = KeyTree::from_seed(alloc, &seed, height)?.root();
    let digits = hex::encode(alloc, root)?;
    let mut line = digits.as_bytes().to_vec(alloc)?;
    line.push(b'\n')?;
    Ok(line)
}
