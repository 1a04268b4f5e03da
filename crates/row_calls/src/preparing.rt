//! Calls that prepare a run and a dispute: roots and headers as texts, bundles of parts, and bundles with another list.
ghost use Rattle.std.specs.Prelude.{◌≤◌, IfOk};
ghost use Rattle.gen_net.specs.Version.{greatest_slot, slot_in};

use crate::judging_bundles::tell_bundle_bytes;
use crate::names::{Refused, numbered};
use crate::rows::Row;
use crate::texts::Answer;
use crate::values_headers;
use gen_audit::{Bundle, BundleFault, read_bundle, write_bundle};
use gen_local::Exhibit;
use gen_net::{Header, Version, header_bytes};
use gen_prepare::{HeaderTextFault, bundle_of_parts, hold, read_header_text, root_text};
use gen_types::{GeneralSet, ReadError, TreeHeight};
use std::alloc::Global;

/// Answers a call of this module, and returns whether it is one.
pub(crate) fn tell(
    alloc: Global,
    call: &str,
    row: Row<'_>,
    answer: &mut Answer,
) -> Result<bool, Refused> {
    match call {
        "root_text" => tell_root(alloc, row, answer)?,
        "header_text" => tell_header(alloc, row, answer)?,
        "bundle_of" => tell_parts(alloc, row, answer)?,
        "held" => tell_held(alloc, row, answer)?,
        _ => return Ok(false),
    }
    Ok(true)
}

/// Returns the height of a tree that a word says.
fn height_in(word: &str) -> Result<TreeHeight, Refused> {
    match word {
        "4" => Ok(TreeHeight::Four),
        "6" => Ok(TreeHeight::Six),
        _ => Err(Refused),
    }
}

/// Tells the line of the root of a seed, or the fault.
fn tell_root(alloc: Global, mut row: Row<'_>, answer: &mut Answer) -> Result<(), Refused> {
    let height = height_in(row.word()?)?;
    match root_text(alloc, row.rest()?, height) {
        Ok(text) => answer.output(&text),
        Err(fault) => answer.show(fault),
    }
    Ok(())
}

/// Returns the version with the slot that a word says; `-` is version 1.
fn version_in(word: &str) -> Result<Version, Refused>
    ensures { IfOk result (λ version. slot_in version ≤ greatest_slot) }
{
    match word {
        "-" => Ok(Version::One),
        "0" => Ok(Version::Two { slot: 0 }),
        "1" => Ok(Version::Two { slot: 1 }),
        "2" => Ok(Version::Two { slot: 2 }),
        "3" => Ok(Version::Two { slot: 3 }),
        _ => Err(Refused),
    }
}

/// Tells the fault of a text that gives no header.
fn tell_header_fault(fault: HeaderTextFault, answer: &mut Answer) {
    match fault {
        HeaderTextFault::Text(inner) => {
            answer.show(inner.kind);
            answer.field("line", inner.line);
        }
        HeaderTextFault::EqualRoots { a, b } => {
            answer.word("G2");
            answer.field("generals", a);
            answer.show(b);
        }
    }
}

/// Tells what the header says that a text spells, or the fault.
fn tell_header(alloc: Global, mut row: Row<'_>, answer: &mut Answer) -> Result<(), Refused> {
    let version = version_in(row.word()?)?;
    match read_header_text(alloc, version, row.rest()?) {
        Ok(header) => tell_made_header(alloc, &header, answer),
        Err(ReadError::Fault(fault)) => Ok(tell_header_fault(fault, answer)),
        Err(ReadError::Memory) => Err(Refused),
    }
}

/// Tells what a header says once it was written.
fn tell_made_header(alloc: Global, header: &Header, answer: &mut Answer) -> Result<(), Refused> {
    let bytes = header_bytes(alloc, header)?;
    values_headers::tell_header(alloc, &bytes, answer)
}

/// Returns the logs of the generals that a word says, with commas between them, each of which is a piece.
fn logs_in(alloc: Global, generals: &str, row: &mut Row<'_>) -> Result<Vec<Exhibit>, Refused> {
    let mut logs = Vec::new(alloc);
    if generals == "-" {
        return Ok(logs);
    }
    for number in generals.split(',') {
        let general = numbered(number).ok_or(Refused)?;
        logs.push(Exhibit::new(general, row.piece()?.to_vec(alloc)?)?)?;
    }
    Ok(logs)
}

/// Tells what a bundle of parts says, or the fault.
fn tell_parts(alloc: Global, mut row: Row<'_>, answer: &mut Answer) -> Result<(), Refused> {
    let faulty = row.set()?;
    let generals = row.word()?;
    let header = row.piece()?;
    let logs = logs_in(alloc, generals, &mut row)?;
    match bundle_of_parts(alloc, header, faulty, logs.as_slice()) {
        Ok(bytes) => tell_bundle_bytes(alloc, &bytes, answer),
        Err(fault) => Ok(answer.show(fault)),
    }
}

/// Returns the bytes of a bundle with another list.
fn held_bytes(alloc: Global, mut row: Row<'_>) -> Result<Vec<u8>, ReadError<BundleFault>> {
    let (Ok(faulty), Ok(bytes)) = (row.set(), row.rest()) else {
        return Err(ReadError::Memory);
    };
    let bundle = read_bundle(alloc, bytes)?;
    held_by(alloc, &bundle, faulty)
}

/// Returns the bytes of a bundle with this list.
fn held_by(
    alloc: Global,
    bundle: &Bundle,
    faulty: GeneralSet,
) -> Result<Vec<u8>, ReadError<BundleFault>> {
    let other = hold(alloc, bundle, faulty)?;
    Ok(write_bundle(alloc, &other)?)
}

/// Tells what a bundle says with another list, or the fault.
fn tell_held(alloc: Global, row: Row<'_>, answer: &mut Answer) -> Result<(), Refused> {
    match held_bytes(alloc, row) {
        Ok(bytes) => tell_bundle_bytes(alloc, &bytes, answer),
        Err(ReadError::Memory) => Err(Refused),
        Err(fault) => Ok(answer.show(fault)),
    }
}
