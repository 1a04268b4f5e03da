//! Tests whether two runs use the same leaves.
ghost use Rattle.std.specs.Prelude.{◌≡◌};
ghost use Rattle.gen_convict.specs.SharedLeaves as shared;

use gen_net::{Header, Version};

/// Whether two runs with different headers use the same leaves of the same trees: both have version 2, one slot, as
/// many generals and the same roots.
#[tactic(auto, unfolding(crate::specs::SharedLeaves::share_leaves))]
pub fn share_leaves(first: &Header, second: &Header) -> bool
    ensures { result ≡ shared.share_leaves first.now second.now }
{
    match (first.version(), second.version()) {
        (Version::Two { slot }, Version::Two { slot: other }) => {
            slot == other
                && first.net().generals() == second.net().generals()
                && first.roots() == second.roots()
                && first != second
        }
        _ => false,
    }
}
