//! Makes chains in memory that was taken before.
ghost use Rattle.std.specs.Prelude.{◌≡◌, ◌≤◌, ◌<◌, ◌+◌, IfOk, ◌∷◌, [], ◌++◌};
ghost use Rattle.std.specs.Prelude.{length, vec_len, vec_capacity, Contains};
ghost use Rattle.gen_net.specs.Header.{height_of};
ghost use Rattle.gen_tree.specs.Sizes.{signature_length};
ghost use Rattle.gen_chain.specs.Chain.{IsSignedChain, signed_path};
ghost use Rattle.gen_chain.specs.Verifying.{HasSigned, ChainVerifies};
ghost use Rattle.gen_chain.specs.Making.{signed_by, begun, extended, IsLeafOf, IsKeyOf};

use crate::chains::{SignedChain, Signer};
use crate::sizes::GREATEST_ORDER;
use crate::statements::{Statement, statement_digest};
use gen_net::Header;
use gen_ots::SigRoom;
use gen_tree::LeafKey;
use gen_types::{GeneralNo, OrderNo, Path, TreeHeight};
use std::alloc::{AllocError, Global};
use std::marker::Model;

/// Room for a chain: all the memory for making it, except that of its last signature. A contract sees the number of
/// signers that it is for.
#[derive(Drop)]
pub struct ChainRoom {
    length: u8,
    signers: Vec<Signer>,
    copies: Vec<SigRoom>,
}

impl Model for ChainRoom {
    ghost use Rattle.std.specs.Prelude.{◌≡◌, ◌≤◌, ◌+◌, ℕ, [], vec_len, vec_capacity};

    ghost Value = { ℕ };

    ghost view = { λ r. r.length };

    ghost invariant = { λ r. record {
      empty : r.signers.items ≡ [];
      signers : r.length ≤ vec_capacity r.signers;
      copies : r.length ≤ vec_len r.copies + 1;
    } };
}

impl ChainRoom {
    /// Returns room for a chain of this many signers. Any number may be asked for, although a chain has 1 to 16
    /// signers.
    ///
    /// # Errors
    ///
    /// `AllocError` where memory is refused.
    pub fn new(alloc: Global, length: u8) -> Result<ChainRoom, AllocError>
        ensures { IfOk result (λ room. room ≡ length) }
    {
        let signers = Vec::with_capacity(alloc, usize::from(length))?;
        let mut copies = Vec::with_capacity(alloc, usize::from(length))?;
        'rooms: for _room in 1..length {
            // Room has one size for both heights, and a copy may be of either height.
            let room = SigRoom::new(alloc, TreeHeight::Six)?;
            copies.push(room)?;
        }
        Ok(ChainRoom {
            length,
            signers,
            copies,
        })
    }
}

/// Signs a statement, and appends the signer, in room that was taken before.
fn sign_behind(
    header: &Header,
    me: GeneralNo,
    statement: &Statement,
    signers: &mut Vec<Signer>,
    room: SigRoom,
    key: LeafKey,
)
    requires room { vec_len signers.old < vec_capacity signers.old }
    requires leaf { IsLeafOf header.now statement.now.order key }
    requires signature { room ≡ height_of header.now }
    requires me { me < header.now.network.generals }
    ensures items { signers.new.items
        ≡ signers.old.items ++ signed_by key header.now statement.now me ∷ [] }
    ensures signed { IsKeyOf header.now me key → HasSigned header.now me statement.now
        (signed_by key header.now statement.now me).signature }
    ensures width { length (signed_by key header.now statement.now me).signature
        ≡ signature_length (height_of header.now) }
{
    let digest = statement_digest(header, statement);
    let signature = key.sign(room, &digest);
    let signer = Signer {
        general: me,
        signature,
    };
    signers.push(signer).unwrap();
}

/// Returns the chain of an order that general 0, the commander, alone signs with this key.
///
/// The order is at most 14, the room is for at least 1 signer, the key and the room for its signature are of the run's
/// height, and the key is of the order's leaf. The key is consumed. It takes no memory beyond the rooms, and can't
/// fail. The chain verifies if the key is of a ring with the commander's root and the order is below q.
pub fn begin_chain(
    header: &Header,
    order: OrderNo,
    room: ChainRoom,
    signature: SigRoom,
    key: LeafKey,
) -> SignedChain
    requires order { order ≤ GREATEST_ORDER }
    requires room { 1 ≤ room }
    requires leaf { IsLeafOf header.now order key }
    requires signature { signature ≡ height_of header.now }
    ensures chain { result ≡ begun header.now order key }
    ensures height { IsSignedChain (height_of header.now) result }
    ensures verifies { IsKeyOf header.now 0 key → order < header.now.network.orders
        → ChainVerifies header.now result }
{
    let _has_generals = header.net();
    let ChainRoom {
        length: _,
        mut signers,
        copies: _,
    } = room;
    let me = GeneralNo::commander();
    let path = Path::commander();
    let statement = Statement { order, path };
    sign_behind(header, me, &statement, &mut signers, signature, key);
    SignedChain {
        order,
        signers,
        height: header.height(),
    }
}

/// Returns the chain that a general relays: the given chain with the general `me` as one more signer, which signs with
/// this key.
///
/// The general is of the network and not in the chain's path. The room is for at least one more signer than the chain
/// has. The chain, the key and the room for its signature are of the run's height, and the key is of the order's leaf.
/// The key is consumed. It takes no memory beyond the rooms, and can't fail. The chain verifies if the key is of a ring
/// with the general's root and the given chain verifies.
pub fn extend_chain(
    header: &Header,
    me: GeneralNo,
    chain: &SignedChain,
    room: ChainRoom,
    signature: SigRoom,
    key: LeafKey,
) -> SignedChain
    requires me { me < header.now.network.generals }
    requires new { Contains (signed_path chain.now.signers) me → ⊥ }
    requires room { length chain.now.signers + 1 ≤ room }
    requires leaf { IsLeafOf header.now chain.now.order key }
    requires signature { signature ≡ height_of header.now }
    requires height { IsSignedChain (height_of header.now) chain.now }
    ensures chain { result ≡ extended header.now chain.now me key }
    ensures height { IsSignedChain (height_of header.now) result }
    ensures verifies { IsKeyOf header.now me key → ChainVerifies header.now chain.now
        → ChainVerifies header.now result }
{
    let _below_16 = me.get();
    let ChainRoom {
        length: _,
        mut signers,
        mut copies,
    } = room;
    let mut path = chain.path();
    path.push_new(me);
    'earlier: for signer in chain.signers() {
        let room = copies.pop().unwrap();
        let copy = Signer {
            general: signer.general,
            signature: signer.signature.copy(room),
        };
        signers.push(copy).unwrap();
    }
    let order = chain.order();
    let statement = Statement { order, path };
    sign_behind(header, me, &statement, &mut signers, signature, key);
    SignedChain {
        order,
        signers,
        height: header.height(),
    }
}
