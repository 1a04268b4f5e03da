//! Writes headers as bytes.
ghost use Rattle.std.specs.Prelude.{◌≡◌, ◌++◌, IfOk, OnOk};
ghost use Rattle.gen_net.specs.Header.{header_spelling, IsHeader};
ghost use Rattle.gen_net.specs.Version.{version_bytes};

use crate::format::{
    EDGE_LENGTH, NUMBERS_LENGTH, ROOT_LENGTH, VERSION_LENGTH, VERSION_ONE, VERSION_TWO,
    number_bytes_of,
};
use crate::headers::Header;
use crate::version::Version;
use std::alloc::{AllocError, Global};

/// Appends the bytes of a version: its number, and in version 2 the slot.
fn put_version(out: &mut Vec<u8>, version: Version) -> Result<(), AllocError>
    ensures { OnOk result (out.new.items ≡ out.old.items ++ version_bytes version) }
{
    match version {
        Version::One => out.extend_from_slice(&[VERSION_ONE]),
        Version::Two { slot } => out.extend_from_slice(&[VERSION_TWO, slot]),
    }
}

/// Returns the one spelling of a header. It begins with 1 in version 1, or with 2 and the slot in version 2. Then come
/// n, m, d, q, the choice and the number of edges, a byte each, two bytes for each edge, and 32 bytes for each root. It
/// fails only if memory was refused.
pub fn header_bytes(alloc: Global, header: &Header) -> Result<Vec<u8>, AllocError>
    ensures spelled { IfOk result (λ bytes. bytes.items ≡ header_spelling header.now) }
    ensures header { IsHeader header.now }
{
    let edges = header.net().edges();
    let roots = header.roots();
    let lists = EDGE_LENGTH * edges.len() + ROOT_LENGTH * roots.len();
    let mut out = Vec::with_capacity(alloc, VERSION_LENGTH + NUMBERS_LENGTH + lists)?;
    put_version(&mut out, header.version())?;
    out.extend_from_slice(&number_bytes_of(header.net()))?;
    'edges: for edge in edges {
        out.extend_from_slice(&[edge.0.get(), edge.1.get()])?;
    }
    'roots: for root in roots {
        out.extend_from_slice(root)?;
    }
    Ok(out)
}
