//! Verifies the signatures of a chain.
ghost use Rattle.std.specs.Prelude.{IsTrue, ◌↔◌};
ghost use Rattle.gen_chain.specs.Verifying.{HasSigned, ChainVerifies};

use crate::chains::SignedChain;
use crate::leaves::leaf_of_order;
use crate::signings::{four_true, have_signed, next_four};
use crate::statements::{Statement, statement_digest};
use gen_net::Header;
use gen_tree::{Signature, verify};
use gen_types::{GeneralNo, Path};

/// Returns whether a general signed a statement in the run of this header: the general is below n, and the signature of
/// the statement verifies under the general's root and the leaf of the order. It takes no memory.
pub fn has_signed(
    header: &Header,
    general: GeneralNo,
    statement: &Statement,
    signature: &Signature,
) -> bool
    ensures { IsTrue result ↔ HasSigned header.now general statement.now signature.now }
{
    if general.get() >= header.net().generals() {
        return false;
    }
    let digest = statement_digest(header, statement);
    let leaf = leaf_of_order(header, statement.order);
    let root = header.root(general);
    verify(root, header.height(), leaf, &digest, signature)
}

/// Returns whether a chain verifies in the run of this header. Its order is below q, and each signer is below n. Each
/// signer's signature of the order, together with the path up to and with itself, verifies under its own root and the
/// leaf of the order. It takes no memory.
pub fn chain_verifies(header: &Header, chain: &SignedChain) -> bool
    ensures { IsTrue result ↔ ChainVerifies header.now chain.now }
{
    let order = chain.order;
    if order.get() >= header.net().orders() {
        return false;
    }
    let mut path = Path::new();
    let mut rest = chain.signers.as_slice();
    'fours: while rest.len() >= 4 {
        let signings = next_four(order, &mut path, rest);
        let answers = have_signed(header, &signings);
        if !four_true(&answers) {
            return false;
        }
        let (_, others) = rest.split_at(4);
        rest = others;
    }
    'ones: while let Some((signer, others)) = rest.split_first() {
        path.push_new(signer.general);
        let statement = Statement { order, path };
        let signed = has_signed(header, signer.general, &statement, &signer.signature);
        if !signed {
            return false;
        }
        rest = others;
    }
    true
}
