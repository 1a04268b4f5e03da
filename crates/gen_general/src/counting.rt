//! Which chains of a frame count at its receiver.
ghost use Rattle.std.specs.Prelude.{IsTrue, Contains, ◌≡◌, ◌↔◌, Ok, Some, None, IfOk};
ghost use Rattle.gen_chain.specs.Chain.{Chain};
ghost use Rattle.gen_chain.specs.Store.{Serves};
ghost use Rattle.gen_scenario.specs.Counting.{MayCount, Carries, AreCounted};
ghost use Rattle.gen_scenario.specs.Counted.{counted_of};

use gen_chain::{SignedChain, VerifyStore, read_chain_with};
use gen_net::Header;
use gen_scenario::Delivery;
use gen_script::Parcel;
use gen_types::{GeneralNo, OrderNo, ReadError};
use std::alloc::{AllocError, Global};

/// Whether a chain of this frame may count: it has as many signers as the round's number, the sender is the
/// last of them, the receiver is none, and the signatures verify. The signatures are checked last.
fn may_count(
    header: &Header,
    store: &mut VerifyStore,
    delivery: &Delivery,
    chain: &SignedChain,
) -> Result<bool, AllocError>
    requires serves { Serves header.now store.old }
    ensures value { IfOk result (λ may. IsTrue may ↔ MayCount header.now delivery.now chain.now) }
    ensures serves { Serves header.now store.new }
{
    let path = chain.path();
    if path.len() != usize::from(delivery.round) {
        return Ok(false);
    }
    if !path.ends_with(delivery.from) {
        return Ok(false);
    }
    if path.contains(delivery.to) {
        return Ok(false);
    }
    store.chain_verifies(header, chain)
}

/// Returns the chain that a parcel holds, if the parcel is exactly one chain and that chain may count.
fn carried(
    alloc: Global,
    header: &Header,
    store: &mut VerifyStore,
    delivery: &Delivery,
    parcel: &[u8],
) -> Result<Option<SignedChain>, AllocError>
    requires serves { Serves header.now store.old }
    ensures serves { Serves header.now store.new }
    ensures some { (c : Chain) → result ≡ Ok (Some c)
        → Carries header.now delivery.now parcel.now c }
    ensures none { result ≡ Ok None
        → (c : Chain) → Carries header.now delivery.now parcel.now c → ⊥ }
{
    match read_chain_with(alloc, header.height(), parcel, store.pool()) {
        Err(ReadError::Memory) => Err(AllocError),
        Err(ReadError::Fault(_)) => Ok(None),
        Ok((chain, taken)) => {
            if taken != parcel.len() {
                return Ok(None);
            }
            if !may_count(header, store, delivery, &chain)? {
                return Ok(None);
            }
            Ok(Some(chain))
        }
    }
}

/// Whether one of the chains has the order.
fn has_order(chains: &[SignedChain], order: OrderNo) -> bool
    ensures { IsTrue result ↔ ((c : Chain) × Contains chains.now c × (c.order ≡ order)) }
{
    chains.iter().any(|chain| chain.order() == order)
}

/// Returns the chains of a frame that count at its receiver, in the order of their parcels. There are none if
/// the frame has more parcels than there are orders. Otherwise a parcel counts if it is exactly one chain
/// that may count, and no parcel before it has such a chain of the same order. A chain may count if it
/// verifies and has as many signers as the round's number, the last of them the sender and none of them the
/// receiver. All other parcels are ignored.
///
/// The signatures are checked through the store, so a check that the store keeps is not made again.
///
/// # Errors
///
/// `AllocError` if memory is refused: the store then keeps the checks that were made before.
pub fn count_frame(
    alloc: Global,
    header: &Header,
    store: &mut VerifyStore,
    delivery: &Delivery,
    frame: &[Parcel],
) -> Result<Vec<SignedChain>, AllocError>
    requires serves { Serves header.now store.old }
    // Which chains count.
    ensures counted { IfOk result (λ chains.
        AreCounted header.now delivery.now frame.now chains.items) }
    // In which order they stand.
    ensures exact { IfOk result (λ chains.
        chains.items ≡ counted_of header.now delivery.now frame.now) }
    ensures serves { Serves header.now store.new }
{
    let mut counted = Vec::new(alloc);
    if frame.len() > usize::from(header.net().orders()) {
        return Ok(counted);
    }
    'parcels: for parcel in frame {
        let Some(chain) = carried(alloc, header, store, delivery, parcel.bytes())? else {
            continue;
        };
        if has_order(counted.as_slice(), chain.order()) {
            continue;
        }
        counted.push(chain)?;
    }
    Ok(counted)
}
