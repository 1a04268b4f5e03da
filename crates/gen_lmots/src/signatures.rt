//! The public keys that signatures stand for (RFC 8554, section 4.6).
ghost use Rattle.std.specs.Prelude.{◌≡◌, ◌<◌, ◌*◌, length};
ghost use Rattle.gen_lmots.specs.Signatures.{candidate, key_led, value_at};

use crate::chains::{begun_key, chained, message_hash};
use crate::coefficients::steps_signed;
use crate::places::KeyPlace;
use crate::sizes::{CHAIN_STEPS, CHAINS, HASH_BYTES, OTS_BYTES, TYPE_CODE_BYTES};
use sha2::Digest;

// Returns the value that a signature shows of a chain.
fn value_at(values: &[u8], i: usize) -> [u8; HASH_BYTES]
    requires values { length values.now ≡ HASH_BYTES * CHAINS }
    requires chain { i < CHAINS }
    ensures { result ≡ value_at values.now i }
{
    let at = HASH_BYTES * i;
    let mut value = [0; HASH_BYTES];
    value.copy_from_slice(&values[at..at + HASH_BYTES]);
    value
}

// Returns the public key that the values of a signature of a hash stand for.
fn key_led(place: &KeyPlace, hash: &[u8; HASH_BYTES], values: &[u8]) -> [u8; HASH_BYTES]
    requires { length values.now ≡ HASH_BYTES * CHAINS }
    ensures { result ≡ key_led place.now hash.now values.now }
{
    let steps = steps_signed(hash);
    let mut hasher = begun_key(place);
    'chains: for i in 0..CHAINS {
        let value = value_at(values, i);
        let end = chained(place, i as u16, steps[i], CHAIN_STEPS, &value);
        hasher.update(&end);
    }
    hasher.finalize()
}

/// Returns the public key that a one-time signature of a message stands for. The signature must have
/// `OTS_BYTES` bytes. Its type code isn't read: whoever calls has compared it.
pub fn candidate(place: &KeyPlace, signature: &[u8], message: &[u8]) -> [u8; HASH_BYTES]
    requires { length signature.now ≡ OTS_BYTES }
    ensures { result ≡ candidate place.now signature.now message.now }
{
    let (_, behind) = signature.split_at(TYPE_CODE_BYTES);
    let (front, values) = behind.split_at(HASH_BYTES);
    let mut randomizer = [0; HASH_BYTES];
    randomizer.copy_from_slice(front);
    let hash = message_hash(place, &randomizer, message);
    key_led(place, &hash, values)
}
