//! What a general without a script signs, and the parcels of the chains that it signed.
ghost use Rattle.std.specs.Prelude.{◌≡◌, ◌≤◌, ◌<◌, ◌+◌, ◌↔◌, ◌⊎◌, ◌++◌, ◌∷◌, [], ℕ, map, Some, None, All, Contains, IfSome, IfOk, OnOk, OnErr, length, option_map, vec_len, vec_capacity};
ghost use Rattle.gen_net.specs.Header.{height_of};
ghost use Rattle.gen_chain.specs.Chain.{IsSignedChain, signed_path, chain_spelling};
ghost use Rattle.gen_chain.specs.Leaves as leaves;
ghost use Rattle.gen_scenario.specs.Heard.{first_of};
ghost use Rattle.gen_scenario.specs.Signing.{lengthened};
ghost use Rattle.gen_scenario.specs.Frames.{relayed, signed_in, outside_of};
ghost use Rattle.gen_general.specs.Following.{round_signed, IsSignedWith, AreOthers};
ghost use Rattle.gen_scenario.specs.Part.{own_keys};
ghost use Rattle.gen_general.specs.Loops.Relays.{IsRoom, due_of, due_count, one_or_none};

use crate::hearing::first_heard;
use gen_chain::{ChainRoom, SignedChain, begin_chain, extend_chain, leaf_of_order, write_chain};
use gen_net::Header;
use gen_ots::SigRoom;
use gen_scenario::Heard;
use gen_script::Parcel;
use gen_tree::KeyRing;
use gen_types::{GeneralNo, OrderNo};
use std::alloc::{AllocError, Global};
use std::marker::Model;

/// Room for signing one chain. A contract sees how many signers it has room for, and the height of the trees
/// by which they sign.
#[derive(Drop)]
struct SignRoom {
    chain: ChainRoom,
    signature: SigRoom,
}

impl Model for SignRoom {
    ghost use Rattle.gen_general.specs.Loops.Relays.{SignRoom};

    ghost Value = { SignRoom };

    ghost view = { λ r. record { signers = r.chain; height = r.signature } };
}

/// Returns the first chain that was heard of an order, if it was heard in the round before this one.
fn due_in(order: OrderNo, round: u8, heard: &[Heard]) -> Option<&Heard>
    ensures { option_map (λ x. x.now) result ≡ due_of round (first_of order heard.now) }
{
    match first_heard(order, heard) {
        Some(x) if x.chain.path().len() + 1 == usize::from(round) => Some(x),
        _ => None,
    }
}

/// Makes room for each chain that a lieutenant signs in this round.
fn rooms_for(
    alloc: Global,
    header: &Header,
    round: u8,
    heard: &[Heard],
) -> Result<Vec<SignRoom>, AllocError>
    ensures count { IfOk result (λ rooms. vec_len rooms
        ≡ due_count round heard.now header.now.network.orders) }
    ensures fit { IfOk result (λ rooms. All (IsRoom header.now round) rooms.items) }
{
    let mut rooms = Vec::new(alloc);
    'orders: for number in 0..header.net().orders() {
        let order = OrderNo::at(number);
        if due_in(order, round, heard).is_none() {
            continue;
        }
        rooms.push(SignRoom {
            chain: ChainRoom::new(alloc, round)?,
            signature: SigRoom::new(alloc, header.height())?,
        })?;
    }
    Ok(rooms)
}

/// Signs a chain with the ring's key of its order, in room that was made before. The general must be a new
/// signer, and the leaf of the order must not be taken.
fn sign_on(
    header: &Header,
    ring: &mut KeyRing,
    me: GeneralNo,
    chain: &SignedChain,
    room: SignRoom,
) -> SignedChain
    requires me { me < header.now.network.generals }
    requires new { Contains (signed_path chain.now.signers) me → ⊥ }
    requires chain { IsSignedChain (height_of header.now) chain.now }
    requires room { length chain.now.signers + 1 ≤ room.signers }
    requires signature { room.height ≡ height_of header.now }
    requires ring { ring.old.height ≡ height_of header.now }
    requires leaf { Contains ring.old.taken (leaves.leaf_of_order header.now chain.now.order) → ⊥ }
    ensures chain { result ≡ lengthened (own_keys header.now ring.old.seed) chain.now (me ∷ []) }
    ensures seed { ring.new.seed ≡ ring.old.seed }
    ensures height { ring.new.height ≡ ring.old.height }
    ensures taken { (leaf : ℕ) → Contains ring.new.taken leaf ↔ (Contains ring.old.taken leaf
        ⊎ (leaf ≡ leaves.leaf_of_order header.now chain.now.order)) }
{
    let SignRoom {
        chain: chain_room,
        signature,
    } = room;
    let key = ring.take(leaf_of_order(header, chain.order())).unwrap();
    extend_chain(header, me, chain, chain_room, signature, key)
}

/// Signs an order, if it has to be signed in this round, in room that was made before.
fn relay_order(
    header: &Header,
    ring: &mut KeyRing,
    me: GeneralNo,
    round: u8,
    order: OrderNo,
    heard: &[Heard],
    rooms: &mut Vec<SignRoom>,
    signed: &mut Vec<SignedChain>,
)
    requires me { me < header.now.network.generals }
    requires others { AreOthers header.now me heard.now }
    requires ring { ring.old.height ≡ height_of header.now }
    requires leaf { round_signed None heard.now order ≡ Some round
        → Contains ring.old.taken (leaves.leaf_of_order header.now order) → ⊥ }
    requires rooms { one_or_none (due_of round (first_of order heard.now)) ≤ vec_len rooms.old }
    requires fit { All (IsRoom header.now round) rooms.old.items }
    requires signed { vec_len signed.old + one_or_none (due_of round (first_of order heard.now))
        ≤ vec_capacity signed.old }
    ensures chain { signed.new.items ≡ signed.old.items
        ++ relayed (own_keys header.now ring.old.seed) me round (first_of order heard.now) }
    ensures signed { vec_len signed.new
        ≡ vec_len signed.old + one_or_none (due_of round (first_of order heard.now)) }
    ensures capacity { vec_capacity signed.old ≤ vec_capacity signed.new }
    ensures rooms { vec_len rooms.old
        ≡ vec_len rooms.new + one_or_none (due_of round (first_of order heard.now)) }
    ensures fit { All (IsRoom header.now round) rooms.new.items }
    ensures seed { ring.new.seed ≡ ring.old.seed }
    ensures height { ring.new.height ≡ ring.old.height }
    ensures taken { (leaf : ℕ) → Contains ring.new.taken leaf ↔ (Contains ring.old.taken leaf
        ⊎ ((leaf ≡ leaves.leaf_of_order header.now order)
        × (round_signed None heard.now order ≡ Some round))) }
{
    if let Some(x) = due_in(order, round, heard) {
        let room = rooms.pop().unwrap();
        signed
            .push(sign_on(header, ring, me, &x.chain, room))
            .unwrap();
    }
}

/// Signs each chain that a lieutenant first heard of its order in the round before, in ascending order of
/// orders. If memory is refused, the ring is as before.
fn sign_relays(
    alloc: Global,
    header: &Header,
    ring: &mut KeyRing,
    me: GeneralNo,
    round: u8,
    heard: &[Heard],
) -> Result<Vec<SignedChain>, AllocError>
    requires me { me < header.now.network.generals }
    requires others { AreOthers header.now me heard.now }
    requires ring { ring.old.height ≡ height_of header.now }
    requires leaf { (leaf : ℕ) → IsSignedWith header.now None heard.now round leaf
        → Contains ring.old.taken leaf → ⊥ }
    ensures chains { IfOk result (λ chains. chains.items
        ≡ signed_in (own_keys header.now ring.old.seed) me None heard.now round) }
    ensures err { OnErr result (ring.new ≡ ring.old) }
    ensures seed { ring.new.seed ≡ ring.old.seed }
    ensures height { ring.new.height ≡ ring.old.height }
    ensures taken { OnOk result ((leaf : ℕ) → Contains ring.new.taken leaf
        ↔ (Contains ring.old.taken leaf ⊎ IsSignedWith header.now None heard.now round leaf)) }
{
    let mut rooms = rooms_for(alloc, header, round, heard)?;
    let mut signed = Vec::with_capacity(alloc, rooms.len())?;
    'orders: for number in 0..header.net().orders() {
        let order = OrderNo::at(number);
        relay_order(
            header,
            ring,
            me,
            round,
            order,
            heard,
            &mut rooms,
            &mut signed,
        );
    }
    Ok(signed)
}

/// Signs the commander's order if this is round 1; in other rounds nothing is signed. If memory is refused,
/// the ring is as before.
fn sign_own(
    alloc: Global,
    header: &Header,
    ring: &mut KeyRing,
    own: OrderNo,
    round: u8,
) -> Result<Vec<SignedChain>, AllocError>
    requires own { own < header.now.network.orders }
    requires ring { ring.old.height ≡ height_of header.now }
    requires leaf { (leaf : ℕ) → IsSignedWith header.now (Some own) [] round leaf
        → Contains ring.old.taken leaf → ⊥ }
    ensures chains { IfOk result (λ chains. chains.items
        ≡ signed_in (own_keys header.now ring.old.seed) 0 (Some own) [] round) }
    ensures err { OnErr result (ring.new ≡ ring.old) }
    ensures seed { ring.new.seed ≡ ring.old.seed }
    ensures height { ring.new.height ≡ ring.old.height }
    ensures taken { OnOk result ((leaf : ℕ) → Contains ring.new.taken leaf
        ↔ (Contains ring.old.taken leaf ⊎ IsSignedWith header.now (Some own) [] round leaf)) }
{
    let _few_orders = header.net().orders();
    if round != 1 {
        return Ok(Vec::new(alloc));
    }
    let mut signed = Vec::with_capacity(alloc, 1)?;
    let room = ChainRoom::new(alloc, 1)?;
    let signature = SigRoom::new(alloc, header.height())?;
    let key = ring.take(leaf_of_order(header, own)).unwrap();
    let chain = begin_chain(header, own, room, signature, key);
    signed.push(chain).unwrap();
    Ok(signed)
}

/// Signs what a general without a script signs in a round: the commander its order in round 1, a lieutenant
/// the chains that it first heard in the round before. If memory is refused, the ring is as before.
pub(crate) fn sign_round(
    alloc: Global,
    header: &Header,
    ring: &mut KeyRing,
    me: GeneralNo,
    own: Option<OrderNo>,
    round: u8,
    heard: &[Heard],
) -> Result<Vec<SignedChain>, AllocError>
    requires me { me < header.now.network.generals }
    requires own { IfSome own (λ order. order < header.now.network.orders) }
    requires others { AreOthers header.now me heard.now }
    requires ring { ring.old.height ≡ height_of header.now }
    requires leaf { (leaf : ℕ) → IsSignedWith header.now own heard.now round leaf
        → Contains ring.old.taken leaf → ⊥ }
    ensures chains { IfOk result (λ chains. chains.items
        ≡ signed_in (own_keys header.now ring.old.seed) me own heard.now round) }
    ensures err { OnErr result (ring.new ≡ ring.old) }
    ensures seed { ring.new.seed ≡ ring.old.seed }
    ensures height { ring.new.height ≡ ring.old.height }
    ensures taken { OnOk result ((leaf : ℕ) → Contains ring.new.taken leaf
        ↔ (Contains ring.old.taken leaf ⊎ IsSignedWith header.now own heard.now round leaf)) }
{
    match own {
        Some(order) => sign_own(alloc, header, ring, order, round),
        None => sign_relays(alloc, header, ring, me, round, heard),
    }
}

/// Returns the parcels of those chains that the receiver has not signed.
pub(crate) fn frame_of_chains(
    alloc: Global,
    chains: &[SignedChain],
    to: GeneralNo,
) -> Result<Vec<Parcel>, AllocError>
    ensures { IfOk result (λ frame. frame.items ≡ map chain_spelling (outside_of to chains.now)) }
{
    let mut frame = Vec::new(alloc);
    'chains: for chain in chains {
        if chain.path().contains(to) {
            continue;
        }
        frame.push(Parcel::new(write_chain(alloc, chain)?))?;
    }
    Ok(frame)
}
