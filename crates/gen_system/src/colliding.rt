//! Two texts with one hash, where two admissions of one system admit two headers for one run.
ghost use Rattle.std.specs.Prelude.{◌≡◌, ◌≢◌, ◌<◌, ◌↔◌, IsTrue, IfOk};
ghost use Rattle.gen_system.specs.Admissions.{root_in};
ghost use Rattle.gen_system.specs.Admitting.{HoldsOf};
ghost use Rattle.gen_system.specs.Colliding.{AdmitTwo, AreTextsOfHeaders};

use crate::admissions::Admission;
use crate::system_writing::text_of_id;
use gen_identity::collide;
use gen_types::GeneralNo;
use std::alloc::{AllocError, Global};

/// Returns whether two strings of bytes are equal.
fn same_bytes(left: &[u8], right: &[u8]) -> bool
    ensures { IsTrue result ↔ (left.now ≡ right.now) }
{
    left == right
}

/// Returns whether two admissions have one root of a node.
fn same_root(first: &Admission, second: &Admission, node: GeneralNo) -> bool
    requires first { node < first.now.system.header.network.generals }
    requires second { node < second.now.system.header.network.generals }
    ensures { IsTrue result ↔ (root_in first.now node ≡ root_in second.now node) }
{
    first.opened_of(node).root == second.opened_of(node).root
}

/// Returns the two texts of a node's tree that its openings of two roots of one set show.
fn collide_at(
    alloc: Global,
    first: &Admission,
    second: &Admission,
    node: GeneralNo,
) -> Result<(Vec<u8>, Vec<u8>), AllocError>
    requires node { node < first.now.system.header.network.generals }
    requires system { first.now.system ≡ second.now.system }
    requires set { first.now.set ≡ second.now.set }
    requires first { HoldsOf first.now node }
    requires second { HoldsOf second.now node }
    requires differ { root_in first.now node ≢ root_in second.now node }
    ensures { IfOk result (λ texts. AreTextsOfHeaders first.now second.now texts.0.items texts.1.items) }
{
    let (one, other) = (first.opened_of(node), second.opened_of(node));
    let found = collide(
        &first.system().identity(node),
        first.set(),
        &one.root,
        &one.opening,
        &other.root,
        &other.opening,
    );
    let text = Vec::from_slice(alloc, found.first())?;
    Ok((text, Vec::from_slice(alloc, found.second())?))
}

/// Returns two different texts with one SHA-256, from two admissions that admit two headers for one run, under one
/// system id.
///
/// They are the texts of both ids if the systems differ. Else a node opened its identity to two roots of one set, and they
/// are the texts of its tree that both openings hash where they first come to one node.
///
/// # Errors
///
/// `AllocError` if memory is refused.
pub fn collide_headers(
    alloc: Global,
    run: u32,
    first: &Admission,
    second: &Admission,
) -> Result<(Vec<u8>, Vec<u8>), AllocError>
    requires { AdmitTwo run first.now second.now }
    ensures { IfOk result (λ texts. AreTextsOfHeaders first.now second.now texts.0.items texts.1.items) }
{
    let text = text_of_id(alloc, first.system())?;
    let other_text = text_of_id(alloc, second.system())?;
    if !same_bytes(&text, &other_text) {
        return Ok((text, other_text));
    }
    'nodes: for number in 0..first.system().header().net().generals() {
        let node = GeneralNo::at(number);
        if !same_root(first, second, node) {
            return collide_at(alloc, first, second, node);
        }
    }
    unreachable!()
}
