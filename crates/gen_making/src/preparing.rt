//! The jobs `root` and `header`: write the root of a seed's keys, and the header that a text spells.
ghost use Rattle.std.specs.Prelude.{◌≡◌, ◌≤◌, IfErr, IfOk};
ghost use Rattle.gen_net.specs.Version.{greatest_slot, slot_in};
ghost use Rattle.gen_making.specs.Preparing.{IsHeaderFault, IsHeaderOf, IsRoot, IsRootFault};

use gen_ends::{JobFault, Output};
use gen_net::{Version, header_bytes};
use gen_prepare::{read_header_text, root_text};
use gen_types::TreeHeight;
use std::alloc::Global;

/// Returns the line of the root of the tree of this height that a seed makes. The output never says no.
///
/// # Errors
///
/// `Seed` if the input has not 32 bytes; `Memory` if memory is refused.
pub fn root(alloc: Global, height: TreeHeight, input: &[u8]) -> Result<Output, JobFault>
    ensures answer { IfOk result (λ o. IsRoot height input.now o.text.items o.negative) }
    ensures fault { IfErr result (IsRootFault height input.now) }
{
    let text = root_text(alloc, input, height)?;
    Ok(Output {
        text,
        negative: false,
    })
}

/// Returns the bytes of the header of this version that a text spells, if each of its generals has a root of its own.
/// The slot of version 2 must be 0 to 3. The output never says no.
///
/// # Errors
///
/// `Scenario` with the first fault of an input that spells no header; `EqualRoots` with the least pair of generals that
/// have the same root, if the input spells one; `Memory` if memory is refused.
pub fn header(alloc: Global, version: Version, input: &[u8]) -> Result<Output, JobFault>
    requires { slot_in version ≤ greatest_slot }
    ensures answer { IfOk result (λ o. IsHeaderOf version input.now o.text.items o.negative) }
    ensures fault { IfErr result (IsHeaderFault version input.now) }
{
    let header = read_header_text(alloc, version, input)?;
    let text = header_bytes(alloc, &header)?;
    Ok(Output {
        text,
        negative: false,
    })
}
