//! Gives the places of entries as numbers, which ascend as the places do.
ghost use Rattle.std.specs.Prelude.{◌≡◌, ◌+◌, ◌*◌, ◌≤◌, length};
ghost use Rattle.gen_log.specs.Entry.{erase};
ghost use Rattle.gen_local.specs.Keys.{IsSmall, key_of as key_at, sign_key as key_of_sign, send_key as key_of_send};

use gen_chain::SignedChain;
use gen_log::Entry;
use gen_net::Net;

/// Each general's number and each order's number is less than this.
const NUMBER_SPAN: u32 = 16;

/// The number of places that a round has for each kind of entry.
const KIND_STRIDE: u32 = NUMBER_SPAN * NUMBER_SPAN;

/// The first place of a SIGN, counted from its round's first place.
const FIRST_SIGN: u32 = KIND_STRIDE;

/// The first place of a SEND, counted from its round's first place.
const FIRST_SEND: u32 = 2 * KIND_STRIDE;

/// The first place of a RECV, counted from its round's first place.
const FIRST_RECV: u32 = 3 * KIND_STRIDE;

/// The number of places that a round has.
const PLACES_OF_ROUND: u32 = 4 * KIND_STRIDE;

/// Returns the number of the place of a SIGN.
pub fn sign_key(length: usize, order: u8) -> u32
    requires { length ≤ 17 }
    ensures { result ≡ key_of_sign length order }
{
    length as u32 * PLACES_OF_ROUND + FIRST_SIGN + u32::from(order) * NUMBER_SPAN
}

/// Returns the number of the place of a SEND.
pub fn send_key(length: usize, to: u8, order: u8) -> u32
    requires { length ≤ 17 }
    ensures { result ≡ key_of_send length to order }
{
    length as u32 * PLACES_OF_ROUND + FIRST_SEND + u32::from(to) * NUMBER_SPAN + u32::from(order)
}

/// Returns the round in which a chain arrives: the number of its signers.
pub fn round_of(chain: &SignedChain) -> u8
    ensures value { result ≡ length chain.now.signers }
    ensures few { result ≤ 16 }
{
    // Reading the height makes the chain's invariant known: it has at most 16 signers.
    let _height = chain.height();
    chain.signers().len() as u8
}

/// Returns the number of the place of an entry, at most 18432. The orders and generals of the entry are below 16.
pub fn place_key(net: &Net, entry: &Entry) -> u32
    ensures value { result ≡ key_at net.now entry.now }
    ensures few { result ≤ 18432 }
    ensures small { IsSmall (erase entry.now) }
{
    match entry {
        Entry::Start { general: _, own } => {
            // Reading the order makes known that it is below 16.
            if let Some(order) = own {
                let _number = order.get();
            }
            0
        }
        Entry::Sign {
            order,
            path,
            signature: _,
        } => sign_key(path.len(), order.get()),
        Entry::Send { to, order, path } => send_key(path.len(), to.get(), order.get()),
        Entry::Recv { from, chain } => {
            u32::from(round_of(chain)) * PLACES_OF_ROUND
                + FIRST_RECV
                + u32::from(from.get()) * NUMBER_SPAN
                + u32::from(chain.order().get())
        }
        Entry::Decide {
            orders: _,
            order: _,
        } => (u32::from(net.rounds()) + 1) * PLACES_OF_ROUND,
    }
}
