//! Where an enrolment begins behind bytes of its file.
ghost use Rattle.std.specs.Prelude.{◌≡◌, ◌≤◌, ◌&&◌, ◌+◌, ◌/◌, IfErr, IfOk, drop, nat_eq, take};
ghost use Rattle.std.specs.List.{starts_with};
ghost use Rattle.gen_enrolling.specs.Loops.{IsBegun, IsNotBegun, roots_from};
ghost use Rattle.gen_enrolling.specs.Resuming.{head_length, last_set};

use crate::enroll_error::EnrollError;
use gen_enroll::sizes::HEAD_BYTES;
use gen_enroll::{RootsHead, append_roots, roots_of_next_sets};
use gen_identity::State;
use gen_identity::sizes::MOST_LEVELS;
use gen_ots::sizes::HASH_BYTES;
use gen_types::TreeHeight;
use std::alloc::{AllocError, Global};

/// Where an enrolment begins.
#[derive(Drop)]
pub(crate) struct Begun {
    /// What is written before the roots of the next sets: what is missing of the head, and of a root that was cut.
    pub(crate) text: Vec<u8>,
    /// The state of the next set.
    pub(crate) next: State,
    /// How many sets stand before it.
    pub(crate) made: u32,
}

/// Returns the bytes before a place, or all if there are no more.
fn bytes_before(bytes: &[u8], place: usize) -> &[u8]
    ensures { result.now ≡ take place bytes.now }
{
    &bytes[..place.min(bytes.len())]
}

/// Returns the bytes from a place on, or none if there are no more.
fn bytes_from(bytes: &[u8], place: usize) -> &[u8]
    ensures { result.now ≡ drop place bytes.now }
{
    &bytes[place.min(bytes.len())..]
}

/// Returns the set of the last whole root among so many bytes of a file; 0 if no root is whole.
fn last_set(count: usize) -> usize
    ensures { result ≡ last_set count }
{
    (count.saturating_sub(HEAD_BYTES) / HASH_BYTES).saturating_sub(1)
}

/// Returns of how many sets so many bytes of roots have a part.
fn touched_sets(count: usize) -> usize
    requires { count ≤ 33554432 }
    ensures { result ≡ (count + 31) / 32 }
{
    (count + (HASH_BYTES - 1)) / HASH_BYTES
}

/// Returns whether a head and roots begin with what bytes have of a head, and with a tail.
fn begin_with(head: &[u8], own: &[u8], front: &[u8], tail: &[u8]) -> bool
    ensures { result ≡ (starts_with nat_eq head.now (take head_length front.now)
        && starts_with nat_eq own.now tail.now) }
{
    head.starts_with(bytes_before(front, HEAD_BYTES)) && own.starts_with(tail)
}

/// Returns the bytes of the roots of some sets, that of the state first.
#[tactic(auto, unfolding(crate::specs::Loops::roots_from))]
fn roots_from(
    alloc: Global,
    state: &State,
    height: TreeHeight,
    count: u32,
) -> Result<Vec<u8>, AllocError>
    ensures { IfOk result (λ bytes. bytes.items ≡ roots_from state.now height count) }
{
    let roots = roots_of_next_sets(alloc, State::new(*state.as_bytes()), height, count)?;
    let mut bytes = Vec::new(alloc);
    append_roots(&roots, &mut bytes)?;
    Ok(bytes)
}

/// Returns where the enrolment of a secret begins behind these bytes. It makes the sets anew of which the bytes have a root
/// from the last whole one on: two at most.
///
/// # Errors
///
/// `OtherRoots` if the file does not go on behind the bytes; Memory if memory was refused.
pub(crate) fn begun_behind(
    alloc: Global,
    secret: &[u8; 32],
    height: TreeHeight,
    levels: u8,
    front: &[u8],
) -> Result<Begun, EnrollError>
    requires { levels ≤ MOST_LEVELS }
    ensures begun { IfOk result (IsBegun secret.now height levels front.now) }
    ensures error { IfErr result (IsNotBegun secret.now height levels front.now) }
{
    if HEAD_BYTES + (HASH_BYTES << levels) < front.len() {
        return Err(EnrollError::OtherRoots);
    }
    let first = last_set(front.len());
    let tail = bytes_from(front, HEAD_BYTES + HASH_BYTES * first);
    let touched = touched_sets(tail.len());
    let state = State::new(*secret).advance(first as u32);
    let own = roots_from(alloc, &state, height, touched as u32)?;
    let head = RootsHead { height, levels }.to_bytes();
    if !begin_with(&head, &own, front, tail) {
        return Err(EnrollError::OtherRoots);
    }
    let mut text = Vec::new(alloc);
    text.extend_from_slice(bytes_from(&head, front.len()))?;
    text.extend_from_slice(bytes_from(&own, tail.len()))?;
    Ok(Begun {
        text,
        next: state.advance(touched as u32),
        made: (first + touched) as u32,
    })
}
