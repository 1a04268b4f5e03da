//! Generals of a header that have equal roots.
ghost use Rattle.std.specs.Prelude.{◌≡◌, ◌<◌, ◌++◌, IfOk};
ghost use Rattle.gen_plan.specs.EqualRoots.{share_root, pairs_of, equal_roots, first_pair};

use gen_net::Header;
use gen_types::GeneralNo;
use std::alloc::{AllocError, Global};

/// Returns whether a stands before b and both have the same root. Both must be generals of the header's network.
#[tactic(auto, unfolding(crate::specs::EqualRoots::share_root))]
fn share_root(header: &Header, a: GeneralNo, b: GeneralNo) -> bool
    requires first { a < header.now.network.generals }
    requires second { b < header.now.network.generals }
    ensures { result ≡ share_root header.now a b }
{
    a.get() < b.get() && header.root(a) == header.root(b)
}

/// Returns the pairs a < b of generals of a header that have equal roots, in ascending order. Two generals with equal
/// roots are one owner of keys that is counted as two.
///
/// # Errors
///
/// AllocError if and only if memory was refused.
pub fn equal_roots(
    alloc: Global,
    header: &Header,
) -> Result<Vec<(GeneralNo, GeneralNo)>, AllocError>
    ensures { IfOk result (λ pairs. pairs.items ≡ equal_roots header.now) }
{
    let mut pairs = Vec::new(alloc);
    let generals = header.net().generals();
    for lesser in 0..generals {
        let a = GeneralNo::at(lesser);
        for greater in 0..generals {
            let b = GeneralNo::at(greater);
            if share_root(header, a, b) {
                pairs.push((a, b))?;
            }
        }
    }
    Ok(pairs)
}

/// Returns the least pair a < b of generals of a header that have equal roots, or None if each general has a root of
/// its own. It takes no memory.
pub fn first_equal_roots(header: &Header) -> Option<(GeneralNo, GeneralNo)>
    ensures { result ≡ first_pair (equal_roots header.now) }
{
    let generals = header.net().generals();
    for lesser in 0..generals {
        let a = GeneralNo::at(lesser);
        for greater in 0..generals {
            let b = GeneralNo::at(greater);
            if share_root(header, a, b) {
                return Some((a, b));
            }
        }
    }
    None
}
