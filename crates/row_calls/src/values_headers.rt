//! Calls of headers, and of marks before headers.
use crate::names::Refused;
use crate::rows::Row;
use crate::texts::Answer;
use crate::values_parts::tell_net;
use gen_net::{
    FrontFault, Header, Marks, Version, front_bytes, header_bytes, read_front, read_header,
};
use gen_types::ReadError;
use std::alloc::Global;

/// Returns the mark of four letters that is the next word.
fn mark_in(row: &mut Row<'_>) -> Result<u32, Refused> {
    match row.word()?.as_bytes() {
        [a, b, c, d] => Ok(u32::from_be_bytes([*a, *b, *c, *d])),
        _ => Err(Refused),
    }
}

/// Tells what a header in front of these bytes says, or its fault.
pub(crate) fn tell_header(alloc: Global, bytes: &[u8], answer: &mut Answer) -> Result<(), Refused> {
    match read_header(alloc, bytes) {
        Ok((header, taken)) => tell_read(alloc, &header, bytes, taken, answer),
        Err(fault) => Ok(answer.show(fault)),
    }
}

/// Tells what a header says that is the first of these bytes.
fn tell_read(
    alloc: Global,
    header: &Header,
    bytes: &[u8],
    taken: usize,
    answer: &mut Answer,
) -> Result<(), Refused> {
    let written = header_bytes(alloc, header)?;
    let behind = bytes.len().saturating_sub(taken);
    tell_written(header, written.as_slice(), bytes, behind, answer);
    Ok(())
}

/// Tells what a header behind a mark in front of bytes says, or the fault.
pub(crate) fn tell_front(
    alloc: Global,
    mut row: Row<'_>,
    answer: &mut Answer,
) -> Result<(), Refused> {
    let one = mark_in(&mut row)?;
    let two = mark_in(&mut row)?;
    let marks = Marks { one, two };
    let bytes = row.rest()?;
    match read_front(alloc, marks, bytes) {
        Ok((header, rest)) => tell_behind(alloc, marks, &header, bytes, rest.len(), answer),
        Err(ReadError::Fault(fault)) => Ok(tell_front_fault(fault, answer)),
        Err(ReadError::Memory) => Err(Refused),
    }
}

/// Tells the fault of bytes that are no mark with a header.
fn tell_front_fault(fault: FrontFault, answer: &mut Answer) {
    match fault {
        FrontFault::Truncated => answer.word("truncated"),
        FrontFault::UnknownMark => answer.word("unknown mark"),
        FrontFault::BadHeader(fault) => answer.field("header", fault),
    }
}

/// Tells what a header says that stands behind its mark in front of these bytes.
fn tell_behind(
    alloc: Global,
    marks: Marks,
    header: &Header,
    bytes: &[u8],
    behind: usize,
    answer: &mut Answer,
) -> Result<(), Refused> {
    let written = front_bytes(alloc, marks, header)?;
    tell_written(header, written.as_slice(), bytes, behind, answer);
    Ok(())
}

/// Tells what a header says and how many bytes are behind it, where the bytes begin with what is written of it.
fn tell_written(header: &Header, written: &[u8], bytes: &[u8], behind: usize, answer: &mut Answer) {
    if !bytes.starts_with(written) || written.len().saturating_add(behind) != bytes.len() {
        return answer.word("written otherwise");
    }
    let version = match header.version() {
        Version::One => 1u8,
        Version::Two { slot: _ } => 2u8,
    };
    answer.field("version", version);
    answer.field("slot", header.slot());
    answer.field("leaves", header.height().leaves());
    tell_net(header.net(), answer);
    answer.word("run");
    answer.hex(header.run_id());
    answer.field("behind", behind);
}
