//! Reads admissions.
ghost use Rattle.std.specs.Prelude.{◌≡◌, ◌≤◌, length, IfOk, Ok};
ghost use Rattle.gen_types.specs.Bytes.{many_at};
ghost use Rattle.gen_types.specs.Reading.{Gives};
ghost use Rattle.gen_types.specs.Spelled.{IsRead, IsField, IsReadFrom, StandsInFront, Spells, counted};
ghost use Rattle.gen_system.specs.AdmissionReading as reading;
ghost use Rattle.gen_system.specs.AdmissionReading.{admission_at, whole_admission};
ghost use Rattle.gen_system.specs.Admissions.{SetAdmission, IsAdmission, admission_spelling};

use crate::admission_fault::AdmissionFault;
use crate::admissions::Admission;
use crate::opened_roots::OpenedRoot;
use crate::system_fault::SystemFault;
use crate::system_reading::system_in_front;
use crate::systems::System;
use gen_identity::{Opening, OpeningFault, opening_in_front};
use gen_types::{ReadError, bytes_at, check, u8_at, u32_at};
use std::alloc::Global;

/// The first four bytes of an admission, `SMA1`.
pub const ADMISSION_MARK: u32 = 0x534d_4131;

/// The number of bytes of a root.
const ROOT_BYTES: usize = 32;

/// Returns the fault of an admission for a fault of its system.
fn system_fault(fault: SystemFault) -> AdmissionFault
    ensures { result ≡ reading.system_fault fault }
{
    match fault {
        SystemFault::Truncated => AdmissionFault::Truncated,
        rule => AdmissionFault::BadSystem(rule),
    }
}

/// Returns the fault of an admission for a fault of an opening.
fn opening_fault(fault: OpeningFault) -> AdmissionFault
    ensures { result ≡ reading.opening_fault fault }
{
    match fault {
        OpeningFault::Truncated => AdmissionFault::Truncated,
        OpeningFault::TooManyLevels => AdmissionFault::OtherLevels,
    }
}

/// Reads an opening that must have this many siblings.
#[tactic(auto, unfolding(crate::specs::AdmissionReading::opening_with))]
fn read_opening_of(levels: u8, bytes: &[u8]) -> Result<(Opening, &[u8]), ReadError<AdmissionFault>>
    ensures { IsField result (reading.opening_with levels bytes.now) }
{
    let (count, _) = u8_at(bytes, AdmissionFault::Truncated)?;
    check(count == levels, AdmissionFault::OtherLevels)?;
    match opening_in_front(bytes) {
        Ok(found) => Ok(found),
        Err(ReadError::Memory) => Err(ReadError::Memory),
        Err(ReadError::Fault(fault)) => Err(ReadError::Fault(opening_fault(fault))),
    }
}

/// Reads a root and its opening.
#[tactic(auto, unfolding(crate::specs::AdmissionReading::opened_at))]
fn read_opened(levels: u8, bytes: &[u8]) -> Result<(OpenedRoot, &[u8]), ReadError<AdmissionFault>>
    ensures { IsField result (reading.opened_at levels bytes.now) }
{
    let (front, rest) = bytes_at(bytes, ROOT_BYTES, AdmissionFault::Truncated)?;
    let mut root = [0; ROOT_BYTES];
    root.copy_from_slice(front);
    match read_opening_of(levels, rest) {
        Ok((opening, rest)) => Ok((OpenedRoot { root, opening }, rest)),
        Err(error) => Err(error),
    }
}

/// Reads this many roots with their openings.
fn read_each(
    alloc: Global,
    levels: u8,
    count: u8,
    bytes: &[u8],
) -> Result<(Vec<OpenedRoot>, &[u8]), ReadError<AdmissionFault>>
    ensures { Gives (λ x. (x.0.items, x.1.now)) result
        (many_at (reading.opened_at levels) count bytes.now) }
{
    let mut opened = Vec::new(alloc);
    let mut rest = bytes;
    for _ in 0..count {
        let (one, after) = read_opened(levels, rest)?;
        opened.push(one)?;
        rest = after;
    }
    Ok((opened, rest))
}

/// Reads a mark and a system. Returns the system, and the bytes after it.
#[tactic(auto, unfolding(crate::specs::AdmissionReading::marked_system_at))]
fn read_marked_system(
    alloc: Global,
    bytes: &[u8],
) -> Result<(System, &[u8]), ReadError<AdmissionFault>>
    ensures { IsField result (reading.marked_system_at bytes.now) }
{
    let (mark, rest) = u32_at(bytes, AdmissionFault::Truncated)?;
    check(mark == ADMISSION_MARK, AdmissionFault::UnknownMark)?;
    match system_in_front(alloc, rest) {
        Ok(found) => Ok(found),
        Err(ReadError::Memory) => Err(ReadError::Memory),
        Err(ReadError::Fault(fault)) => Err(ReadError::Fault(system_fault(fault))),
    }
}

/// Reads the number of a set, of identities with this many levels.
#[tactic(auto, unfolding(crate::specs::AdmissionReading::set_at))]
fn read_set(levels: u8, bytes: &[u8]) -> Result<(u32, &[u8]), ReadError<AdmissionFault>>
    requires { levels ≤ 20 }
    ensures { IsField result (reading.set_at levels bytes.now) }
{
    let (set, rest) = u32_at(bytes, AdmissionFault::Truncated)?;
    check(set < 1 << levels, AdmissionFault::SetRange)?;
    Ok((set, rest))
}

/// Returns the admission in front of the bytes, and the bytes after it.
///
/// # Errors
///
/// The first fault of `AdmissionFault` from left to right; Memory if memory was refused before.
#[tactic(auto, unfolding(crate::specs::AdmissionReading::admission_at))]
pub fn admission_in_front(
    alloc: Global,
    bytes: &[u8],
) -> Result<(Admission, &[u8]), ReadError<AdmissionFault>>
    ensures { IsField result (admission_at bytes.now) }
{
    let (system, rest) = read_marked_system(alloc, bytes)?;
    let levels = system.levels();
    let nodes = system.header().net().generals();
    let (set, rest) = read_set(levels, rest)?;
    let (opened, rest) = read_each(alloc, levels, nodes, rest)?;
    let admission = Admission {
        system,
        set,
        opened,
    };
    Ok((admission, rest))
}

/// Returns the admission in front of the bytes, and its number of bytes; more bytes may follow it. It begins with `SMA1`
/// and a system. Then come the number of the set in four bytes, and for each node its root in 32 bytes with the opening.
/// It is not tested whether it holds.
///
/// # Errors
///
/// The first fault of `AdmissionFault` from left to right; Memory if memory was refused before.
pub fn read_admission(
    alloc: Global,
    bytes: &[u8],
) -> Result<(Admission, usize), ReadError<AdmissionFault>>
    // If an admission is read, its spelling begins the bytes.
    ensures found { IfOk result (IsReadFrom IsAdmission admission_spelling bytes.now) }
    // If the spelling of an admission begins the bytes, that admission is read, unless memory is refused.
    ensures only { (a : SetAdmission) → StandsInFront IsAdmission admission_spelling bytes.now a
        → IsRead result (Ok (a, length (admission_spelling a))) }
    // The answer, and so the fault, is that of `admission_at`.
    ensures exact { IsRead result (counted admission_at bytes.now) }
{
    let (admission, rest) = admission_in_front(alloc, bytes)?;
    Ok((admission, bytes.len() - rest.len()))
}

/// Reads the admission that all the bytes are.
#[tactic(auto, unfolding(crate::specs::AdmissionReading::whole_admission))]
fn read_whole(alloc: Global, bytes: &[u8]) -> Result<Admission, ReadError<AdmissionFault>>
    ensures { IsRead result (whole_admission bytes.now) }
{
    let (admission, rest) = admission_in_front(alloc, bytes)?;
    check(rest.is_empty(), AdmissionFault::LeftOver)?;
    Ok(admission)
}

/// Returns the admission that all the bytes are.
///
/// # Errors
///
/// Those of `read_admission`; then LeftOver if bytes follow the admission.
pub fn admission_alone(alloc: Global, bytes: &[u8]) -> Result<Admission, ReadError<AdmissionFault>>
    // The bytes are the spelling of the admission that is read.
    ensures found { IfOk result (Spells IsAdmission admission_spelling bytes.now) }
    // If the bytes are the spelling of an admission, that admission is read, unless memory is refused.
    ensures only { (a : SetAdmission) → Spells IsAdmission admission_spelling bytes.now a
        → IsRead result (Ok a) }
    // The answer, and so the fault, is that of `whole_admission`.
    ensures exact { IsRead result (whole_admission bytes.now) }
{
    read_whole(alloc, bytes)
}
