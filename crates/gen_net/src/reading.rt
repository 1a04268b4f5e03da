//! Reads headers from bytes.
ghost use Rattle.std.specs.Prelude.{List, ℕ, length, IfOk, Ok};
ghost use Rattle.gen_types.specs.Reading.{Gives};
ghost use Rattle.gen_types.specs.Spelled.{StandsInFront, IsReadFrom, counted, IsRead, IsField};
ghost use Rattle.gen_types.specs.Bytes.{many_at};
ghost use Rattle.gen_net.specs.Header.{RunHeader, IsHeader, header_spelling};
ghost use Rattle.gen_net.specs.HeaderReading.{root_at, header_at};
ghost use Rattle.gen_net.specs.NetworkReading.{numbers_at, edges_at};
ghost use Rattle.gen_net.specs.VersionReading.{version_at};

use crate::fault::HeaderFault;
use crate::format::{ROOT_LENGTH, VERSION_ONE, VERSION_TWO};
use crate::headers::Header;
use crate::net::Net;
use crate::numbers::NetNumbers;
use crate::version::Version;
use gen_types::{ReadError, bytes_at, u8_at};
use std::alloc::Global;

/// Reads the version, with the slot in version 2, and returns it and the bytes after it.
#[tactic(auto, unfolding(crate::specs::VersionReading::version_at, crate::specs::VersionReading::slot_at))]
fn read_version(bytes: &[u8]) -> Result<(Version, &[u8]), ReadError<HeaderFault>>
    ensures { IsField result (version_at bytes.now) }
{
    let (number, rest) = u8_at(bytes, HeaderFault::Truncated)?;
    match number {
        VERSION_ONE => Ok((Version::One, rest)),
        VERSION_TWO => {
            let (slot, rest) = u8_at(rest, HeaderFault::Truncated)?;
            Ok((Version::Two { slot }, rest))
        }
        _ => Err(ReadError::Fault(HeaderFault::UnknownVersion)),
    }
}

/// Reads the numbers of a network, a byte each, and returns them and the bytes after them.
#[tactic(auto, unfolding(crate::specs::NetworkReading::numbers_at))]
fn read_numbers(bytes: &[u8]) -> Result<(NetNumbers, &[u8]), ReadError<HeaderFault>>
    ensures { IsField result (numbers_at bytes.now) }
{
    let (generals, rest) = u8_at(bytes, HeaderFault::Truncated)?;
    let (traitors, rest) = u8_at(rest, HeaderFault::Truncated)?;
    let (diameter, rest) = u8_at(rest, HeaderFault::Truncated)?;
    let (orders, rest) = u8_at(rest, HeaderFault::Truncated)?;
    let (choice, rest) = u8_at(rest, HeaderFault::Truncated)?;
    let numbers = NetNumbers {
        generals,
        traitors,
        diameter,
        orders,
        choice,
    };
    Ok((numbers, rest))
}

/// Reads the edges behind their number, two bytes each as they stand, and returns them and the bytes after them.
#[tactic(auto, unfolding(crate::specs::NetworkReading::edges_at))]
fn read_edges(alloc: Global, bytes: &[u8]) -> Result<(Vec<(u8, u8)>, &[u8]), ReadError<HeaderFault>>
    ensures { Gives (λ x. (x.0.items, x.1.now)) result (edges_at bytes.now) }
{
    let (count, mut rest) = u8_at(bytes, HeaderFault::Truncated)?;
    let mut edges = Vec::new(alloc);
    for _ in 0..count {
        let (low, after) = u8_at(rest, HeaderFault::Truncated)?;
        let (high, after) = u8_at(after, HeaderFault::Truncated)?;
        edges.push((low, high))?;
        rest = after;
    }
    Ok((edges, rest))
}

/// Reads this many roots, 32 bytes each, and returns them and the bytes after them.
fn read_roots(
    alloc: Global,
    count: u8,
    bytes: &[u8],
) -> Result<(Vec<[u8; 32]>, &[u8]), ReadError<HeaderFault>>
    ensures { Gives (λ x. (x.0.items, x.1.now)) result (many_at root_at count bytes.now) }
{
    let mut roots = Vec::new(alloc);
    let mut rest = bytes;
    for _ in 0..count {
        let (front, after) = bytes_at(rest, ROOT_LENGTH, HeaderFault::Truncated)?;
        let mut root = [0; ROOT_LENGTH];
        root.copy_from_slice(front);
        roots.push(root)?;
        rest = after;
    }
    Ok((roots, rest))
}

/// Reads the header in front of the bytes, and returns it and the bytes after it.
#[tactic(auto, unfolding(crate::specs::HeaderReading::header_at, crate::specs::HeaderReading::parts_at))]
pub fn header_in_front(
    alloc: Global,
    bytes: &[u8],
) -> Result<(Header, &[u8]), ReadError<HeaderFault>>
    ensures { IsField result (header_at bytes.now) }
{
    let (version, rest) = read_version(bytes)?;
    let (numbers, rest) = read_numbers(rest)?;
    let (edges, rest) = read_edges(alloc, rest)?;
    let (roots, rest) = read_roots(alloc, numbers.generals, rest)?;
    let net = Net::in_place(alloc, numbers, edges.as_slice())?;
    match Header::of_version(version, net, roots) {
        Ok(header) => Ok((header, rest)),
        Err(fault) => Err(ReadError::Fault(fault)),
    }
}

/// Returns the header in front of the bytes, and its number of bytes; more bytes may follow it.
///
/// # Errors
///
/// UnknownVersion if there is a first byte and it is neither 1 nor 2; then Truncated if the bytes end before the header
/// does. Then comes the first rule of `HeaderFault` that its network breaks, and then SlotRange if it is of version 2
/// with a slot above 3. Memory if memory was refused before.
pub fn read_header(alloc: Global, bytes: &[u8]) -> Result<(Header, usize), ReadError<HeaderFault>>
    // If a header is read, its spelling begins the bytes.
    ensures found { IfOk result (IsReadFrom IsHeader header_spelling bytes.now) }
    // If the spelling of a header begins the bytes, that header is read, unless memory runs out.
    ensures only { (h : RunHeader) → StandsInFront IsHeader header_spelling bytes.now h
        → IsRead result (Ok (h, length (header_spelling h))) }
    // The answer, and so the fault, is that of `header_at`.
    ensures exact { IsRead result (counted header_at bytes.now) }
{
    let (header, rest) = header_in_front(alloc, bytes)?;
    Ok((header, bytes.len() - rest.len()))
}
