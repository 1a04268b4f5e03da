//! Reads and writes openings.
ghost use Rattle.std.specs.Prelude.{ℕ, ◌≡◌, ◌≢◌, ◌≤◌, ◌<◌, ◌+◌, ◌++◌, List, length, IfOk, IfErr, OnOk, OnErr, Ok};
ghost use Rattle.std.specs.Prelude.{vec_len, vec_capacity};
ghost use Rattle.gen_types.specs.Spelled.{IsRead, IsField, IsReadFrom, StandsInFront, HasOneSpelling, counted};
ghost use Rattle.gen_types.specs.Bytes.{many_at};
ghost use Rattle.gen_identity.specs.Openings.{IsOpening};
ghost use Rattle.gen_identity.specs.OpeningBytes.{sibling_at, opening_at, opening_spelling, opening_length};

use crate::opening_fault::OpeningFault;
use crate::openings::Opening;
use crate::sizes::{MOST_LEVELS, MOST_SIBLINGS};
use gen_ots::sizes::HASH_BYTES;
use gen_types::{ReadError, bytes_at, check, u8_at};
use std::alloc::{AllocError, Global};

/// Reads this many siblings, 32 bytes each.
fn read_siblings(levels: u8, bytes: &[u8]) -> Result<(Opening, &[u8]), ReadError<OpeningFault>>
    requires { levels ≤ MOST_LEVELS }
    ensures exact { IsField result (many_at sibling_at levels bytes.now) }
    ensures fault { IfErr result (λ e. e ≢ ReadError.Memory) }
{
    let mut siblings = [[0; HASH_BYTES]; MOST_SIBLINGS];
    let mut rest = bytes;
    'levels: for level in 0..levels {
        let (front, after) = bytes_at(rest, HASH_BYTES, OpeningFault::Truncated)?;
        let mut sibling = [0; HASH_BYTES];
        sibling.copy_from_slice(front);
        siblings[usize::from(level)] = sibling;
        rest = after;
    }
    Ok((Opening::of(&siblings[..usize::from(levels)]), rest))
}

/// Returns the opening that the bytes begin with, and the bytes after it. No memory is asked for.
///
/// # Errors
///
/// The first rule of `OpeningFault` that the bytes break, in the order that `OpeningFault` states.
#[tactic(auto, unfolding(crate::specs::OpeningBytes::opening_at))]
pub fn opening_in_front(bytes: &[u8]) -> Result<(Opening, &[u8]), ReadError<OpeningFault>>
    ensures exact { IsField result (opening_at bytes.now) }
    ensures fault { IfErr result (λ e. e ≢ ReadError.Memory) }
{
    let (levels, rest) = u8_at(bytes, OpeningFault::Truncated)?;
    check(levels <= MOST_LEVELS, OpeningFault::TooManyLevels)?;
    read_siblings(levels, rest)
}

/// Returns the opening that the bytes begin with, and the number of its bytes; more bytes may follow.
///
/// # Errors
///
/// The first rule of `OpeningFault` that the bytes break, in the order that `OpeningFault` states. No memory is
/// asked for.
pub fn read_opening(bytes: &[u8]) -> Result<(Opening, usize), ReadError<OpeningFault>>
    // The bytes begin with the spelling of the opening that is read, and the number is the length of it.
    ensures found { IfOk result (IsReadFrom IsOpening opening_spelling bytes.now) }
    // If the bytes begin with the spelling of an opening, that opening is read.
    ensures only { (siblings : List (List ℕ))
        → StandsInFront IsOpening opening_spelling bytes.now siblings
        → IsRead result (Ok (siblings, opening_length siblings)) }
    // The result is that of `opening_at`, with the same fault.
    ensures exact { IsRead result (counted opening_at bytes.now) }
    ensures fault { IfErr result (λ e. e ≢ ReadError.Memory) }
{
    let (opening, rest) = opening_in_front(bytes)?;
    Ok((opening, bytes.len() - rest.len()))
}

impl Opening {
    /// Returns the number of bytes of the opening's spelling: one, and 32 for each sibling.
    pub fn byte_count(&self) -> usize
        ensures { result ≡ opening_length self.now }
    {
        1 + HASH_BYTES * self.siblings().len()
    }

    /// Appends the one spelling of the opening: the number of its siblings in one byte, and the siblings from the
    /// bottom up. If the vector has room for it, no memory is asked for.
    ///
    /// # Errors
    ///
    /// `AllocError` if memory is refused. Then the vector is unchanged.
    pub fn append_to(&self, out: &mut Vec<u8>) -> Result<(), AllocError>
        ensures ok { OnOk result (out.new.items ≡ out.old.items ++ opening_spelling self.now) }
        ensures err { OnErr result (out.new.items ≡ out.old.items) }
        ensures full { OnErr result (vec_capacity out.old < vec_len out.old + opening_length self.now) }
        ensures len { OnOk result (vec_len out.new ≡ vec_len out.old + opening_length self.now) }
        ensures capacity { vec_capacity out.old ≤ vec_capacity out.new }
    {
        out.reserve(self.byte_count())?;
        let siblings = self.siblings();
        out.push(siblings.len() as u8).unwrap();
        'siblings: for sibling in siblings {
            out.extend_from_slice(sibling).unwrap();
        }
        Ok(())
    }
}

/// Returns the one spelling of an opening: the number of its siblings in one byte, and the siblings from the
/// bottom up.
///
/// # Errors
///
/// `AllocError` if memory is refused.
pub fn write_opening(alloc: Global, opening: &Opening) -> Result<Vec<u8>, AllocError>
    ensures { IfOk result (λ bytes. bytes.items ≡ opening_spelling opening.now) }
{
    let mut out = Vec::with_capacity(alloc, opening.byte_count())?;
    opening.append_to(&mut out)?;
    Ok(out)
}

/// States that each opening has one spelling, and that no spelling of an opening is the beginning of another one.
pub fn one_opening_spelling()
    ensures { HasOneSpelling IsOpening opening_spelling }
{}
