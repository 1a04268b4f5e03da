//! Reads files of roots.
ghost use Rattle.std.specs.Prelude.{◌≡◌, ◌≤◌, ◌^◌, length, IfOk, Ok};
ghost use Rattle.gen_types.specs.Reading.{Gives};
ghost use Rattle.gen_types.specs.Spelled.{IsRead, Spells};
ghost use Rattle.gen_types.specs.Bytes.{many_at};
ghost use Rattle.gen_enroll.specs.RootFiles.{RootFile, IsRootFile, file_spelling};
ghost use Rattle.gen_enroll.specs.RootReading.{root_at, whole_file};

use crate::heads::{head_in_front, sets_on};
use crate::root_files::Roots;
use crate::roots_fault::RootsFault;
use gen_ots::sizes::HASH_BYTES;
use gen_types::{ReadError, bytes_at, check};
use std::alloc::Global;

/// Reads this many roots, 32 bytes each. Returns them, and the bytes after them.
fn roots_in_front(
    alloc: Global,
    count: u32,
    bytes: &[u8],
) -> Result<(Vec<[u8; 32]>, &[u8]), ReadError<RootsFault>>
    ensures exact { Gives (λ x. (x.0.items, x.1.now)) result (many_at root_at count bytes.now) }
    ensures count { IfOk result (λ x. length x.0.items ≡ count) }
{
    let mut roots = Vec::with_capacity(alloc, bytes.len() / HASH_BYTES)?;
    let mut rest = bytes;
    'roots: for _ in 0..count {
        let (front, after) = bytes_at(rest, HASH_BYTES, RootsFault::Truncated)?;
        let mut root = [0; HASH_BYTES];
        root.copy_from_slice(front);
        roots.push(root)?;
        rest = after;
    }
    Ok((roots, rest))
}

/// Reads the file of roots that all the bytes are.
#[tactic(auto, unfolding(crate::specs::RootReading::whole_file, crate::specs::RootReading::file_at))]
fn roots_alone(alloc: Global, bytes: &[u8]) -> Result<Roots, ReadError<RootsFault>>
    ensures { IsRead result (whole_file bytes.now) }
{
    let (head, rest) = head_in_front(bytes)?;
    let (roots, rest) = roots_in_front(alloc, sets_on(head.levels), rest)?;
    check(rest.is_empty(), RootsFault::LeftOver)?;
    Ok(Roots::new(head.height, head.levels, roots))
}

/// Returns the file of roots that all the bytes are. They begin with `SMI1` if the trees have height 4, and with `SMI2`
/// if they have height 6. Then stand the number of levels in one byte, and the roots, 32 bytes each, set 0 first.
///
/// # Errors
///
/// The first fault of `RootsFault` in the order that it states, or `Memory` if memory was refused before that fault.
pub fn read_roots(alloc: Global, bytes: &[u8]) -> Result<Roots, ReadError<RootsFault>>
    // What is read is a file of roots, and the bytes are its spelling.
    ensures found { IfOk result (Spells IsRootFile file_spelling bytes.now) }
    // A file of roots that the bytes spell is read, unless memory is refused.
    ensures only { (file : RootFile) → Spells IsRootFile file_spelling bytes.now file
        → IsRead result (Ok file) }
    // Unless memory is refused, the result is that of `whole_file`, with the same fault.
    ensures exact { IsRead result (whole_file bytes.now) }
{
    roots_alone(alloc, bytes)
}
