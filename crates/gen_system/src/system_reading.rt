//! Reads systems.
ghost use Rattle.std.specs.Prelude.{◌≡◌, length, IfOk, Ok};
ghost use Rattle.gen_types.specs.Spelled.{IsRead, IsField, IsReadFrom, StandsInFront, Spells, counted};
ghost use Rattle.gen_system.specs.SystemReading as reading;
ghost use Rattle.gen_system.specs.SystemReading.{system_at, whole_system};
ghost use Rattle.gen_system.specs.Systems.{RunSystem, IsSystem, system_spelling};

use crate::proposers::Proposer;
use crate::system_fault::SystemFault;
use crate::systems::{CONTEXT_BYTES, System, fit};
use gen_identity::sizes::MOST_LEVELS;
use gen_net::{Header, HeaderFault, read_header};
use gen_types::{ReadError, bytes_at, check, u8_at, u32_at};
use std::alloc::Global;

/// The first four bytes of a system, `SMS1`.
pub const SYSTEM_MARK: u32 = 0x534d_5331;

/// Returns the fault of a system for a fault of its header.
fn header_fault(fault: HeaderFault) -> SystemFault
    ensures { result ≡ reading.header_fault fault }
{
    match fault {
        HeaderFault::Truncated => SystemFault::Truncated,
        rule => SystemFault::BadHeader(rule),
    }
}

/// Reads a header. Returns it, and the bytes after it.
fn read_any_header(alloc: Global, bytes: &[u8]) -> Result<(Header, &[u8]), ReadError<SystemFault>>
    ensures { IsField result (reading.any_header_at bytes.now) }
{
    match read_header(alloc, bytes) {
        Ok((header, count)) => Ok((header, bytes.split_at(count).1)),
        Err(ReadError::Memory) => Err(ReadError::Memory),
        Err(ReadError::Fault(fault)) => Err(ReadError::Fault(header_fault(fault))),
    }
}

/// Reads a mark and a header that can be a system's. Returns the header, and the bytes after it.
#[tactic(auto, unfolding(crate::specs::SystemReading::marked_header_at, crate::specs::Systems::fit_header))]
fn read_marked_header(
    alloc: Global,
    bytes: &[u8],
) -> Result<(Header, &[u8]), ReadError<SystemFault>>
    ensures { IsField result (reading.marked_header_at bytes.now) }
{
    let (mark, rest) = u32_at(bytes, SystemFault::Truncated)?;
    check(mark == SYSTEM_MARK, SystemFault::UnknownMark)?;
    let (header, rest) = read_any_header(alloc, rest)?;
    Ok((fit(header)?, rest))
}

/// Reads a proposer.
#[tactic(auto, unfolding(crate::specs::SystemReading::proposer_at))]
fn read_proposer(bytes: &[u8]) -> Result<(Proposer, &[u8]), ReadError<SystemFault>>
    ensures { IsField result (reading.proposer_at bytes.now) }
{
    let (number, rest) = u8_at(bytes, SystemFault::Truncated)?;
    match number {
        0 => Ok((Proposer::First, rest)),
        1 => Ok((Proposer::Turns, rest)),
        _ => Err(ReadError::Fault(SystemFault::UnknownProposer)),
    }
}

/// Reads the number of levels.
#[tactic(auto, unfolding(crate::specs::SystemReading::levels_at))]
fn read_levels(bytes: &[u8]) -> Result<(u8, &[u8]), ReadError<SystemFault>>
    ensures { IsField result (reading.levels_at bytes.now) }
{
    let (levels, rest) = u8_at(bytes, SystemFault::Truncated)?;
    check(levels <= MOST_LEVELS, SystemFault::TooManyLevels)?;
    Ok((levels, rest))
}

/// Returns the system in front of the bytes, and the bytes after it.
///
/// # Errors
///
/// The first fault of `SystemFault` from left to right; Memory if memory was refused before.
#[tactic(auto, unfolding(crate::specs::SystemReading::system_at))]
pub fn system_in_front(
    alloc: Global,
    bytes: &[u8],
) -> Result<(System, &[u8]), ReadError<SystemFault>>
    ensures { IsField result (system_at bytes.now) }
{
    let (header, rest) = read_marked_header(alloc, bytes)?;
    let (proposer, rest) = read_proposer(rest)?;
    let (levels, rest) = read_levels(rest)?;
    let (chosen, rest) = bytes_at(rest, CONTEXT_BYTES, SystemFault::Truncated)?;
    let mut context = [0; CONTEXT_BYTES];
    context.copy_from_slice(chosen);
    let system = System {
        header,
        proposer,
        levels,
        context,
    };
    Ok((system, rest))
}

/// Returns the system in front of the bytes, and its number of bytes; more bytes may follow it. It begins with `SMS1` and
/// a header. Then come a byte for the proposer, a byte for the levels, and the context in 32 bytes.
///
/// # Errors
///
/// The first fault of `SystemFault` from left to right; Memory if memory was refused before.
pub fn read_system(alloc: Global, bytes: &[u8]) -> Result<(System, usize), ReadError<SystemFault>>
    // If a system is read, its spelling begins the bytes.
    ensures found { IfOk result (IsReadFrom IsSystem system_spelling bytes.now) }
    // If the spelling of a system begins the bytes, that system is read, unless memory is refused.
    ensures only { (s : RunSystem) → StandsInFront IsSystem system_spelling bytes.now s
        → IsRead result (Ok (s, length (system_spelling s))) }
    // The answer, and so the fault, is that of `system_at`.
    ensures exact { IsRead result (counted system_at bytes.now) }
{
    let (system, rest) = system_in_front(alloc, bytes)?;
    Ok((system, bytes.len() - rest.len()))
}

/// Reads the system that all the bytes are.
#[tactic(auto, unfolding(crate::specs::SystemReading::whole_system))]
fn read_whole(alloc: Global, bytes: &[u8]) -> Result<System, ReadError<SystemFault>>
    ensures { IsRead result (whole_system bytes.now) }
{
    let (system, rest) = system_in_front(alloc, bytes)?;
    check(rest.is_empty(), SystemFault::LeftOver)?;
    Ok(system)
}

/// Returns the system that all the bytes are.
///
/// # Errors
///
/// Those of `read_system`; then LeftOver if bytes follow the system.
pub fn system_alone(alloc: Global, bytes: &[u8]) -> Result<System, ReadError<SystemFault>>
    // The bytes are the spelling of the system that is read.
    ensures found { IfOk result (Spells IsSystem system_spelling bytes.now) }
    // If the bytes are the spelling of a system, that system is read, unless memory is refused.
    ensures only { (s : RunSystem) → Spells IsSystem system_spelling bytes.now s
        → IsRead result (Ok s) }
    // The answer, and so the fault, is that of `whole_system`.
    ensures exact { IsRead result (whole_system bytes.now) }
{
    read_whole(alloc, bytes)
}
