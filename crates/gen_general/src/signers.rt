//! Finding the tree of a signer's keys.
ghost use Rattle.std.specs.Prelude.{◌≡◌};
ghost use Rattle.gen_net.specs.Header.{RunHeader, height_of};
ghost use Rattle.gen_scenario.specs.SignerTrees.{CanSign, seed_in};

use gen_net::Header;
use gen_scenario::SignerTree;
use gen_tree::KeyTree;
use gen_types::GeneralNo;

/// Returns the tree of a general, whose signatures in the run of this header must be possible with these
/// trees.
pub(crate) fn tree_of<'a>(
    header: &Header,
    trees: &'a [SignerTree],
    general: GeneralNo,
) -> &'a KeyTree
    requires { CanSign header.now trees.now general }
    ensures { result.now
        ≡ record { seed = seed_in trees.now general; height = height_of header.now } }
{
    let _height = header.height();
    let mut rest = trees;
    'rest: while let Some((signer, others)) = rest.split_first() {
        if signer.general == general {
            return &signer.tree;
        }
        rest = others;
    }
    unreachable!()
}
