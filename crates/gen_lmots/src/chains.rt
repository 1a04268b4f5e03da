//! The chains of a one-time key, and what is hashed for it (RFC 8554, sections 4.3 and 4.5).
ghost use Rattle.std.specs.Prelude.{◌≡◌, ◌≤◌, ◌-◌, ℕ, List, ◌++◌, take};
ghost use Rattle.sha2.specs.Sha256.{sha256};
ghost use Rattle.sha2.specs.Hashers.{Holds256};
ghost use Rattle.gen_lmots.specs.Chains.{chained, message_hash};
ghost use Rattle.gen_lmots.specs.Keys.{secret};
ghost use Rattle.gen_lmots.specs.Strings.{d_pblc, front, u8str, u16str};

use crate::places::KeyPlace;
use crate::sizes::{HASH_BYTES, IDENTIFIER_BYTES};
use sha2::{Digest, Sha256};

/// Stands before the ends of all chains, in the text whose hash is a public key: D_PBLC.
const PUBLIC_KEY: u16 = 0x8080;

/// Stands before the randomizer and the message, in the text whose hash is signed: D_MESG.
const MESSAGE: u16 = 0x8181;

/// The number of bytes with which each text begins: the identifier and the number of the leaf.
const FRONT_BYTES: usize = IDENTIFIER_BYTES + 4;

/// The number of bytes of the text of a step: so few that it takes one block of SHA-256.
const STEP_TEXT_BYTES: usize = 55;

/// The place of the step's number in the text of a step. The value stands behind it.
const STEP_AT: usize = 22;

/// Stands before the seed, where a step of a chain has its number, in the text whose hash is a secret.
const SECRET: u8 = 0xff;

// Returns a hasher that holds the identifier, the number of the leaf, and a number of two bytes behind them.
fn begun(place: &KeyPlace, behind: u16) -> Sha256
    ensures { Holds256 result (front place.now ++ u16str behind) }
{
    let mut hasher = Sha256::new();
    hasher.update(&place.identifier);
    hasher.update(place.number.to_be_bytes());
    hasher.update(behind.to_be_bytes());
    hasher
}

/// Returns the secret with which a chain starts.
pub fn secret(seed: &[u8; 32], place: &KeyPlace, chain: u16) -> [u8; HASH_BYTES]
    ensures { result ≡ secret seed.now place.now chain }
{
    let mut hasher = begun(place, chain);
    hasher.update([SECRET]);
    hasher.update(seed);
    hasher.finalize()
}

// Returns the identifier, and the number of the leaf behind it.
fn front_of(place: &KeyPlace) -> [u8; FRONT_BYTES]
    ensures { result ≡ front place.now }
{
    let mut bytes = [0; FRONT_BYTES];
    bytes[..IDENTIFIER_BYTES].copy_from_slice(&place.identifier);
    bytes[IDENTIFIER_BYTES..].copy_from_slice(&place.number.to_be_bytes());
    bytes
}

// Returns the text that is hashed in the steps of a chain, with zeros in the place of the step's number and of the
// value.
fn text_of_chain(place: &KeyPlace, chain: u16) -> [u8; STEP_TEXT_BYTES]
    ensures { take STEP_AT result ≡ front place.now ++ u16str chain }
{
    let mut text = [0; STEP_TEXT_BYTES];
    text[..FRONT_BYTES].copy_from_slice(&front_of(place));
    text[FRONT_BYTES..STEP_AT].copy_from_slice(&chain.to_be_bytes());
    text
}

// Returns what stands behind a value that stands `step` steps from the start of the chain that this text is
// of. Only the step's number and the value in the text are written.
fn chain_step(
    text: &mut [u8; STEP_TEXT_BYTES],
    step: u8,
    value: &[u8; HASH_BYTES],
) -> [u8; HASH_BYTES]
    ensures value { result ≡ sha256 (take STEP_AT text.old ++ (u8str step ++ value.now)) }
    ensures kept { take STEP_AT text.new ≡ take STEP_AT text.old }
{
    text[STEP_AT] = step;
    text[STEP_AT + 1..].copy_from_slice(value);
    Sha256::digest(&*text)
}

/// Returns the value that stands `last` steps from the start of a chain, given the one that stands `first`
/// steps from it. A step takes one compression of SHA-256.
pub fn chained(
    place: &KeyPlace,
    chain: u16,
    first: u8,
    last: u8,
    value: &[u8; HASH_BYTES],
) -> [u8; HASH_BYTES]
    requires { first ≤ last }
    ensures { result ≡ chained place.now chain first (last - first) value.now }
{
    let mut text = text_of_chain(place, chain);
    let mut reached = *value;
    'steps: for step in first..last {
        reached = chain_step(&mut text, step, &reached);
    }
    reached
}

/// Returns the hash of a message with a randomizer.
pub fn message_hash(place: &KeyPlace, randomizer: &[u8; 32], message: &[u8]) -> [u8; HASH_BYTES]
    ensures { result ≡ message_hash place.now randomizer.now message.now }
{
    let mut hasher = begun(place, MESSAGE);
    hasher.update(randomizer);
    hasher.update(message);
    hasher.finalize()
}

/// Returns the hasher of a public key, before the ends of the chains are given to it.
pub fn begun_key(place: &KeyPlace) -> Sha256
    ensures { Holds256 result (front place.now ++ u16str d_pblc) }
{
    begun(place, PUBLIC_KEY)
}
