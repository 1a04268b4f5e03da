//! Headers as bytes that are handed in, and as they are made from numbers, edges and roots.
ghost use Rattle.std.specs.Prelude.{◌≡◌};
ghost use Rattle.gen_types.specs.Spelled.{IsRead};
ghost use Rattle.gen_plan.specs.EqualRoots.{equal_roots, first_pair};
ghost use Rattle.sm_node.specs.Headers as headers;

use crate::faults::{BytesFault, MakingFault, NO_PAIR, SmPair};
use crate::handing::put;
use crate::told::NodeReply;
use gen_net::{Header, HeaderFault, Net, header_bytes, read_header};
use gen_plan::first_equal_roots;
use gen_types::{ReadError, check};
use std::alloc::Global;

/// The numbers that a header is made from besides its edges and roots. They may have any values, which are checked.
#[repr(C)]
#[derive(Clone, Copy)]
pub struct SmNumbers {
    /// The number of the version, 1 or 2.
    pub version: u8,
    /// The slot, 0 to 3; it counts in version 2 alone.
    pub slot: u8,
    /// The number of generals.
    pub generals: u8,
    /// The number of traitors that the run is planned for.
    pub traitors: u8,
    /// The diameter that the run is planned for.
    pub diameter: u8,
    /// The number of orders.
    pub orders: u8,
    /// The number of the choice.
    pub choice: u8,
}

/// Returns the header that all the bytes are.
#[tactic(auto, unfolding(crate::specs::Headers::header_in))]
pub(crate) fn header_in(alloc: Global, bytes: &[u8]) -> Result<Header, ReadError<BytesFault>>
    ensures { IsRead result (headers.header_in bytes.now) }
{
    let (header, count) = match read_header(alloc, bytes) {
        Ok(found) => found,
        Err(ReadError::Memory) => return Err(ReadError::Memory),
        Err(ReadError::Fault(fault)) => return Err(ReadError::Fault(BytesFault::BadHeader(fault))),
    };
    check(count == bytes.len(), BytesFault::LeftOver)?;
    Ok(header)
}

/// Returns the header of these numbers, edges and roots, or the first rule that they break.
#[tactic(auto, unfolding(crate::specs::Headers::header_made))]
fn header_of(
    alloc: Global,
    numbers: &SmNumbers,
    edges: &[[u8; 2]],
    roots: &[[u8; 32]],
) -> Result<Header, ReadError<HeaderFault>>
    ensures { IsRead result (headers.header_made numbers.now edges.now roots.now) }
{
    let mut pairs = Vec::with_capacity(alloc, edges.len())?;
    'pairing: for edge in edges {
        pairs.push((edge[0], edge[1]))?;
    }
    let net = Net::new(
        alloc,
        numbers.generals,
        pairs.as_slice(),
        numbers.traitors,
        numbers.diameter,
        numbers.orders,
        numbers.choice,
    )?;
    let roots = Vec::from_slice(alloc, roots)?;
    let made = match numbers.version {
        1 => Header::new(net, roots),
        2 => Header::new_in_slot(net, numbers.slot, roots),
        _ => Err(HeaderFault::UnknownVersion),
    };
    match made {
        Ok(header) => Ok(header),
        Err(fault) => Err(ReadError::Fault(fault)),
    }
}

/// Returns the header, unless two of its generals have the same root.
fn unless_shared(header: Header) -> Result<Header, MakingFault>
    ensures { result ≡ headers.unless_shared header (first_pair (equal_roots header)) }
{
    match first_equal_roots(&header) {
        Some((a, b)) => Err(MakingFault::EqualRoots { a, b }),
        None => Ok(header),
    }
}

/// Returns the header of these numbers, edges and roots, each of whose generals has a root of its own; or the first rule
/// that they break, or the least pair of generals that have the same root.
#[tactic(auto, unfolding(crate::specs::Headers::header_given))]
fn header_given(
    alloc: Global,
    numbers: &SmNumbers,
    edges: &[[u8; 2]],
    roots: &[[u8; 32]],
) -> Result<Header, ReadError<MakingFault>>
    ensures { IsRead result (headers.header_given numbers.now edges.now roots.now) }
{
    match header_of(alloc, numbers, edges, roots) {
        Ok(header) => unless_shared(header).map_err(ReadError::Fault),
        Err(ReadError::Memory) => Err(ReadError::Memory),
        Err(ReadError::Fault(fault)) => Err(ReadError::Fault(MakingFault::Broken(fault))),
    }
}

/// Hands out the bytes of the header of these numbers, edges and roots.
pub(crate) fn make_header(
    alloc: Global,
    numbers: &SmNumbers,
    edges: &[[u8; 2]],
    roots: &[[u8; 32]],
    room: &mut [u8],
    count: &mut usize,
    fault: &mut u32,
    equal: &mut SmPair,
) -> NodeReply
    ensures { headers.MakesHeader (headers.header_given numbers.now edges.now roots.now)
        room.old room.new count.new fault.new equal.new result }
{
    *count = 0;
    *fault = 0;
    *equal = NO_PAIR;
    match header_given(alloc, numbers, edges, roots) {
        Ok(header) => match header_bytes(alloc, &header) {
            Ok(bytes) => put(bytes.as_slice(), room, count),
            Err(_) => NodeReply::Memory,
        },
        Err(ReadError::Memory) => NodeReply::Memory,
        Err(ReadError::Fault(broken)) => {
            *fault = broken.number();
            *equal = broken.pair();
            NodeReply::Fault
        }
    }
}
