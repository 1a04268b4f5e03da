//! Reads chains.
ghost use Rattle.std.specs.Prelude.{◌≡◌, length, IfOk, Ok, not, ◌==◌};
ghost use Rattle.std.specs.List.{list_any};
ghost use Rattle.gen_types.specs.Reading.{Gives};
ghost use Rattle.gen_types.specs.Spelled.{IsRead, IsField, IsReadFrom, StandsInFront, counted};
ghost use Rattle.gen_types.specs.Bytes.{many_at};
ghost use Rattle.gen_chain.specs.Chain.{Chain, IsSignedChain, signed_path, chain_spelling};
ghost use Rattle.gen_chain.specs.ChainReading.{signer_at, signers_at, chain_at};
ghost use Rattle.gen_chain.specs.ChainReading.{repeats};

use crate::chains::{SignedChain, Signer};
use crate::fault::ChainFault;
use crate::sizes::{GREATEST_ORDER, MOST_SIGNERS, signers_bytes};
use gen_tree::SignaturePool;
use gen_tree::sizes::signature_bytes;
use gen_types::limits::MOST_GENERALS;
use gen_types::{GeneralNo, OrderNo, ReadError, TreeHeight, bytes_at, check, u8_at};
use std::alloc::Global;

/// Reads a signer.
#[tactic(auto, unfolding(crate::specs::ChainReading::signer_at))]
fn read_signer<'a>(
    height: TreeHeight,
    bytes: &'a [u8],
    pool: &mut SignaturePool,
) -> Result<(Signer, &'a [u8]), ReadError<ChainFault>>
    ensures { IsField result (signer_at height bytes.now) }
{
    let (number, rest) = u8_at(bytes, ChainFault::Truncated)?;
    let (signature, rest) = bytes_at(rest, signature_bytes(height), ChainFault::Truncated)?;
    check(number < MOST_GENERALS, ChainFault::BadSigner)?;
    let signer = Signer {
        general: GeneralNo::at(number),
        signature: pool.read(height, signature)?,
    };
    Ok((signer, rest))
}

/// Reads `count` signers.
fn read_many<'a>(
    alloc: Global,
    height: TreeHeight,
    count: u8,
    bytes: &'a [u8],
    pool: &mut SignaturePool,
) -> Result<(Vec<Signer>, &'a [u8]), ReadError<ChainFault>>
    ensures { Gives (λ x. (x.0.items, x.1.now)) result (many_at (signer_at height) count bytes.now) }
{
    let mut signers = Vec::with_capacity(alloc, usize::from(count))?;
    let mut rest = bytes;
    for _ in 0..count {
        let (signer, after) = read_signer(height, rest, pool)?;
        signers.push(signer)?;
        rest = after;
    }
    Ok((signers, rest))
}

/// Whether the general is one of these signers.
fn stands_in(general: GeneralNo, signers: &[Signer]) -> bool
    ensures { result ≡ list_any (λ s. s.general == general) signers.now }
{
    signers.iter().any(|s| s.general == general)
}

/// Whether no general is twice among these signers.
fn are_distinct(signers: &[Signer]) -> bool
    ensures { result ≡ not (repeats (signed_path signers.now)) }
{
    let mut rest = signers;
    while let Some((first, others)) = rest.split_first() {
        if stands_in(first.general, others) {
            return false;
        }
        rest = others;
    }
    true
}

/// Reads `count` signers: distinct generals, the commander first.
#[tactic(auto, unfolding(crate::specs::ChainReading::signers_at))]
fn read_signers<'a>(
    alloc: Global,
    height: TreeHeight,
    count: u8,
    bytes: &'a [u8],
    pool: &mut SignaturePool,
) -> Result<(Vec<Signer>, &'a [u8]), ReadError<ChainFault>>
    ensures { Gives (λ x. (x.0.items, x.1.now)) result (signers_at height count bytes.now) }
{
    let (signers, rest) = read_many(alloc, height, count, bytes, pool)?;
    check(are_distinct(&signers), ChainFault::BadSigner)?;
    let from_commander = match signers.as_slice() {
        [] => false,
        [first, ..] => first.general == GeneralNo::commander(),
    };
    check(from_commander, ChainFault::NotFromCommander)?;
    Ok((signers, rest))
}

/// Reads the chain that the bytes begin with.
#[tactic(auto, unfolding(crate::specs::ChainReading::chain_at, crate::specs::ChainReading::chain_front_at))]
fn chain_in_front<'a>(
    alloc: Global,
    height: TreeHeight,
    bytes: &'a [u8],
    pool: &mut SignaturePool,
) -> Result<(SignedChain, &'a [u8]), ReadError<ChainFault>>
    ensures { IsField result (chain_at height bytes.now) }
{
    let (order, rest) = u8_at(bytes, ChainFault::Truncated)?;
    let (count, rest) = u8_at(rest, ChainFault::Truncated)?;
    check(order <= GREATEST_ORDER, ChainFault::OrderRange)?;
    check(1 <= count && count <= MOST_SIGNERS, ChainFault::SignerCount)?;
    let enough = signers_bytes(height, count) <= rest.len();
    check(enough, ChainFault::Truncated)?;
    let (signers, rest) = read_signers(alloc, height, count, rest, pool)?;
    let chain = SignedChain {
        order: OrderNo::at(order),
        signers,
        height,
    };
    Ok((chain, rest))
}

/// Returns the chain that the bytes begin with, and the number of its bytes; more bytes may follow. The chain's
/// signatures are by trees of this height. They are read and not verified.
///
/// # Errors
///
/// The first rule of `ChainFault` that the bytes break, in the order that `ChainFault` states; or `Memory` if memory
/// was refused before that fault.
pub fn read_chain(
    alloc: Global,
    height: TreeHeight,
    bytes: &[u8],
) -> Result<(SignedChain, usize), ReadError<ChainFault>>
    // The bytes begin with the spelling of the chain that is read, and the number is the length of that spelling.
    ensures found { IfOk result (IsReadFrom (IsSignedChain height) chain_spelling bytes.now) }
    // If the bytes begin with the spelling of a chain, that chain is read, unless memory is refused.
    ensures only { (c : Chain) → StandsInFront (IsSignedChain height) chain_spelling bytes.now c
        → IsRead result (Ok (c, length (chain_spelling c))) }
    // Unless memory is refused, the result is that of `chain_at`, with the same fault.
    ensures exact { IsRead result (counted (chain_at height) bytes.now) }
{
    read_chain_with(alloc, height, bytes, &mut SignaturePool::new(alloc))
}

/// Returns what `read_chain` returns. The chain's signatures are read into the pool, and share their memory with equal
/// signatures of the pool.
///
/// # Errors
///
/// Those of `read_chain`.
pub fn read_chain_with(
    alloc: Global,
    height: TreeHeight,
    bytes: &[u8],
    pool: &mut SignaturePool,
) -> Result<(SignedChain, usize), ReadError<ChainFault>>
    ensures found { IfOk result (IsReadFrom (IsSignedChain height) chain_spelling bytes.now) }
    ensures only { (c : Chain) → StandsInFront (IsSignedChain height) chain_spelling bytes.now c
        → IsRead result (Ok (c, length (chain_spelling c))) }
    ensures exact { IsRead result (counted (chain_at height) bytes.now) }
{
    let (chain, rest) = chain_in_front(alloc, height, bytes, pool)?;
    Ok((chain, bytes.len() - rest.len()))
}
