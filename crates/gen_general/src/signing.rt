//! Signing for several generals. Each signature is made with a ring that is opened anew from its signer's
//! tree.
ghost use Rattle.std.specs.Prelude.{◌≡◌, ◌≢◌, ◌≤◌, ◌∷◌, [], ℕ, AllPairs, Contains, IfOk};
ghost use Rattle.gen_types.specs.Ends.{BeginsWith};
ghost use Rattle.gen_net.specs.Header.{height_of};
ghost use Rattle.gen_chain.specs.Chain.{IsSignedChain, greatest_order, signed_path};
ghost use Rattle.gen_chain.specs.Making.{extended};
ghost use Rattle.gen_scenario.specs.Signing.{lengthened, made, order_key};
ghost use Rattle.gen_scenario.specs.SignerTrees.{CanSign, CanSignAll, keys_with};

use crate::signers::tree_of;
use gen_chain::{ChainRoom, SignedChain, begin_chain, extend_chain, leaf_of_order};
use gen_net::Header;
use gen_ots::SigRoom;
use gen_scenario::SignerTree;
use gen_tree::KeyRing;
use gen_types::{GeneralNo, OrderNo, Path};
use std::alloc::{AllocError, Global};

/// Returns the chain with the signature of one more general.
fn lengthen_by(
    alloc: Global,
    header: &Header,
    trees: &[SignerTree],
    chain: &SignedChain,
    general: GeneralNo,
) -> Result<SignedChain, AllocError>
    requires signer { CanSign header.now trees.now general }
    requires new { Contains (signed_path chain.now.signers) general → ⊥ }
    requires height { IsSignedChain (height_of header.now) chain.now }
    ensures chain { IfOk result (λ c.
        c ≡ extended header.now chain.now general
        (order_key (keys_with header.now trees.now) general chain.now.order)) }
    ensures height { IfOk result (IsSignedChain (height_of header.now)) }
{
    let room = ChainRoom::new(alloc, chain.signers().len() as u8 + 1)?;
    let signature = SigRoom::new(alloc, header.height())?;
    let mut ring = KeyRing::open(tree_of(header, trees, general))?;
    let key = ring.take(leaf_of_order(header, chain.order())).unwrap();
    let longer = extend_chain(header, general, chain, room, signature, key);
    let _leaves = ring.close();
    Ok(longer)
}

/// Returns the chain lengthened by the generals of a path, which sign one after another.
///
/// They must be distinct and not among the chain's signers, and their signatures must be possible with these
/// trees.
///
/// # Errors
///
/// `AllocError` if memory is refused.
pub(crate) fn lengthen_along(
    alloc: Global,
    header: &Header,
    trees: &[SignerTree],
    chain: &SignedChain,
    path: &[GeneralNo],
) -> Result<SignedChain, AllocError>
    requires signers { CanSignAll header.now trees.now path.now }
    requires distinct { AllPairs (λ g h. g ≢ h) path.now }
    requires new { (g : ℕ) → Contains path.now g → Contains (signed_path chain.now.signers) g → ⊥ }
    requires height { IsSignedChain (height_of header.now) chain.now }
    ensures chain { IfOk result (λ c.
        c ≡ lengthened (keys_with header.now trees.now) chain.now path.now) }
    ensures height { IfOk result (IsSignedChain (height_of header.now)) }
{
    let mut longer = chain.clone()?;
    'signers: for general in path {
        longer = lengthen_by(alloc, header, trees, &longer, *general)?;
    }
    Ok(longer)
}

/// Returns the chain of an order that all generals of a path have signed.
///
/// The order must be at most 14, the path must begin with the commander, and the signatures must be possible
/// with these trees.
///
/// # Errors
///
/// `AllocError` if memory is refused.
pub(crate) fn make_along(
    alloc: Global,
    header: &Header,
    trees: &[SignerTree],
    order: OrderNo,
    path: &Path,
) -> Result<SignedChain, AllocError>
    requires order { order ≤ greatest_order }
    requires signers { CanSignAll header.now trees.now path.now }
    requires first { BeginsWith path.now (0 ∷ []) }
    ensures chain { IfOk result (λ c. c ≡ made (keys_with header.now trees.now) order path.now) }
    ensures height { IfOk result (IsSignedChain (height_of header.now)) }
{
    let _distinct = path.len();
    let room = ChainRoom::new(alloc, 1)?;
    let signature = SigRoom::new(alloc, header.height())?;
    let mut ring = KeyRing::open(tree_of(header, trees, GeneralNo::commander()))?;
    let key = ring.take(leaf_of_order(header, order)).unwrap();
    let first = begin_chain(header, order, room, signature, key);
    let _leaves = ring.close();
    lengthen_along(alloc, header, trees, &first, &path.generals()[1..])
}
