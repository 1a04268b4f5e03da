//! Systems from the texts of headers.
ghost use Rattle.std.specs.Prelude.{◌≡◌};
ghost use Rattle.gen_types.specs.Reading.{Gives};
ghost use Rattle.gen_types.specs.Spelled.{IsRead};
ghost use Rattle.gen_enrolling.specs.Systems.{header_read, made_system, system_given, version_of};

use crate::enroll_fault::EnrollFault;
use gen_net::{Header, Version};
use gen_prepare::read_header_text;
use gen_system::{Proposer, System, write_system};
use gen_types::{ReadError, TreeHeight};
use std::alloc::{AllocError, Global};

/// The bytes that a command writes, and the id of the system that they are of.
#[derive(Debug, Drop)]
pub struct Made {
    /// The bytes: those of a system, an admission or a header.
    pub bytes: Vec<u8>,
    /// The id of the system.
    pub system: [u8; 32],
}

/// Returns the version of headers whose trees of keys have this height; in version 2 its slot is 0.
fn version_of(height: TreeHeight) -> Version
    ensures { result ≡ version_of height }
{
    match height {
        TreeHeight::Four => Version::One,
        TreeHeight::Six => Version::Two { slot: 0 },
    }
}

/// Returns the header that a text spells, whose trees of keys have this height.
fn header_read(
    alloc: Global,
    height: TreeHeight,
    text: &[u8],
) -> Result<Header, ReadError<EnrollFault>>
    ensures { IsRead result (header_read height text.now) }
{
    match read_header_text(alloc, version_of(height), text) {
        Ok(header) => Ok(header),
        Err(ReadError::Memory) => Err(ReadError::Memory),
        Err(ReadError::Fault(fault)) => Err(ReadError::Fault(EnrollFault::Text(fault))),
    }
}

/// Returns the system of these parts.
fn system_made(
    header: Header,
    proposer: Proposer,
    levels: u8,
    context: [u8; 32],
) -> Result<System, ReadError<EnrollFault>>
    ensures { IsRead result (made_system header proposer levels context) }
{
    match System::new(header, proposer, levels, context) {
        Ok(system) => Ok(system),
        Err(fault) => Err(ReadError::Fault(EnrollFault::System(fault))),
    }
}

/// Returns the system whose network is that of the text of a header, and whose identities have the text's roots as tops and
/// this many levels. Sets of trees of height 4 serve runs of version 1, and those of height 6 four runs each, of version 2.
///
/// # Errors
///
/// `Text` with the first fault of the text, or the least pair of nodes with one identity; else `System` if there are more
/// than 20 levels; Memory if memory was refused.
#[tactic(auto, unfolding(crate::specs::Systems::system_given))]
pub fn system_of_text(
    alloc: Global,
    height: TreeHeight,
    proposer: Proposer,
    levels: u8,
    context: [u8; 32],
    text: &[u8],
) -> Result<Made, ReadError<EnrollFault>>
    ensures { Gives (λ made. (made.bytes.items, made.system)) result
        (system_given height proposer levels context text.now) }
{
    let header = header_read(alloc, height, text)?;
    let system = system_made(header, proposer, levels, context)?;
    Ok(Made {
        bytes: write_system(alloc, &system)?,
        system: system.id(alloc)?,
    })
}
