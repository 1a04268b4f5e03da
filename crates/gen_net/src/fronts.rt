//! Fronts: a mark and a header, with which the bytes of several formats begin.
ghost use Rattle.std.specs.Prelude.{◌≡◌, IfOk};
ghost use Rattle.gen_types.specs.Spelled.{IsField};
ghost use Rattle.gen_net.specs.Front.{front_spelling};
ghost use Rattle.gen_net.specs.FrontReading as front;

use crate::fault::HeaderFault;
use crate::format::{VERSION_ONE, VERSION_TWO};
use crate::headers::Header;
use crate::marks::{FrontFault, Marks};
use crate::reading::header_in_front;
use crate::version::Version;
use crate::writing::header_bytes;
use gen_types::{ReadError, check, u8_at, u32_at};
use std::alloc::{AllocError, Global};

/// Returns the header in front of the bytes, whose first byte must be the number of this version, and the bytes after
/// it.
///
/// # Errors
///
/// Truncated if there is no first byte; BadHeader(UnknownVersion) if it is another number; then the first fault of the
/// header, as in `read_front`. Memory if memory was refused before.
#[tactic(auto, unfolding(crate::specs::FrontReading::header_behind))]
pub fn read_header_of(
    alloc: Global,
    version: u8,
    bytes: &[u8],
) -> Result<(Header, &[u8]), ReadError<FrontFault>>
    ensures { IsField result (front.header_behind version bytes.now) }
{
    let (number, _) = u8_at(bytes, FrontFault::Truncated)?;
    check(
        number == version,
        FrontFault::BadHeader(HeaderFault::UnknownVersion),
    )?;
    match header_in_front(alloc, bytes) {
        Ok((header, rest)) => Ok((header, rest)),
        Err(ReadError::Memory) => Err(ReadError::Memory),
        Err(ReadError::Fault(HeaderFault::Truncated)) => {
            Err(ReadError::Fault(FrontFault::Truncated))
        }
        Err(ReadError::Fault(fault)) => Err(ReadError::Fault(FrontFault::BadHeader(fault))),
    }
}

/// Returns the header in front of the bytes, which stands behind the mark of its version, and the bytes after the
/// header.
///
/// # Errors
///
/// The first fault of `FrontFault` from left to right; Memory if memory was refused before.
#[tactic(auto, unfolding(crate::specs::FrontReading::front_at, crate::specs::FrontReading::mark_at))]
pub fn read_front(
    alloc: Global,
    marks: Marks,
    bytes: &[u8],
) -> Result<(Header, &[u8]), ReadError<FrontFault>>
    ensures { IsField result (front.front_at marks bytes.now) }
{
    let (mark, rest) = u32_at(bytes, FrontFault::Truncated)?;
    if mark == marks.one {
        read_header_of(alloc, VERSION_ONE, rest)
    } else if mark == marks.two {
        read_header_of(alloc, VERSION_TWO, rest)
    } else {
        Err(ReadError::Fault(FrontFault::UnknownMark))
    }
}

/// Returns the mark of a header's version, in four bytes, big-endian, and then the header's bytes. It fails only if
/// memory was refused.
pub fn front_bytes(alloc: Global, marks: Marks, header: &Header) -> Result<Vec<u8>, AllocError>
    ensures { IfOk result (λ bytes. bytes.items ≡ front_spelling marks header.now) }
{
    let mark = match header.version() {
        Version::One => marks.one,
        Version::Two { .. } => marks.two,
    };
    let mut out = Vec::new(alloc);
    out.extend_from_slice(&mark.to_be_bytes())?;
    out.extend_from_slice(&header_bytes(alloc, header)?)?;
    Ok(out)
}
