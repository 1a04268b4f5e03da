//! Reads headers from text.
ghost use Rattle.std.specs.Prelude.{◌≡◌, ◌≤◌, IfOk, Ok};
ghost use Rattle.gen_types.specs.Reading.{Gives};
ghost use Rattle.gen_types.specs.Spelled.{IsRead};
ghost use Rattle.gen_net.specs.Header.{RunHeader, header_with};
ghost use Rattle.gen_net.specs.Version.{greatest_slot, slot_in};
ghost use Rattle.gen_prepare.specs.HeaderText.{SpellsHeader};
ghost use Rattle.gen_prepare.specs.HeaderTextReading.{header_given, header_of_text, last_at, root_at, roots_at, unless_shared};
ghost use Rattle.gen_plan.specs.EqualRoots.{HasOwnRoots, equal_roots, first_pair};

use crate::header_fault::HeaderTextFault;
use gen_net::{Header, HeaderFault, Net, Version};
use gen_plan::first_equal_roots;
use gen_text::{Cursor, LineFault, ScenarioFault, first_opening, net_behind};
use gen_types::ReadError;
use hex::FromHex;
use std::alloc::Global;

/// Returns the root of the line that begins here, and the cursor after the line.
#[tactic(auto, unfolding(crate::specs::HeaderTextReading::root_at, crate::specs::HeaderTextReading::root_in))]
fn read_root<'a>(
    alloc: Global,
    start: &Cursor<'a>,
) -> Result<([u8; 32], Cursor<'a>), ReadError<ScenarioFault>>
    ensures { IsRead result (root_at start.now) }
{
    let (line, after) = start.next_line(alloc)?;
    match line.fields.as_slice() {
        [word, digits] if *word == b"root".as_slice() => {
            match <[u8; 32] as FromHex>::from_hex(*digits) {
                Ok(root) => Ok((root, after)),
                Err(_) => Err(LineFault::BadSeed.refused(line.number)),
            }
        }
        _ => Err(LineFault::Shape.refused(line.number)),
    }
}

/// Returns the roots of this many lines from here on, and the cursor after them.
fn read_roots<'a>(
    alloc: Global,
    count: u8,
    start: Cursor<'a>,
) -> Result<(Vec<[u8; 32]>, Cursor<'a>), ReadError<ScenarioFault>>
    ensures { Gives (λ x. (x.0.items, x.1)) result (roots_at count start.entry) }
{
    let mut roots = Vec::new(alloc);
    let mut cursor = start;
    for _place in 0..count {
        let (root, after) = read_root(alloc, &cursor)?;
        roots.push(root)?;
        cursor = after;
    }
    Ok((roots, cursor))
}

/// Returns the cursor after the last line of a text, which begins here.
#[tactic(auto, unfolding(crate::specs::HeaderTextReading::last_at, crate::specs::HeaderTextReading::last_in))]
fn read_last<'a>(alloc: Global, start: &Cursor<'a>) -> Result<Cursor<'a>, ReadError<ScenarioFault>>
    ensures { IsRead result (last_at start.now) }
{
    let (line, after) = start.next_line(alloc)?;
    match line.fields.as_slice() {
        [word] if *word == b"end".as_slice() => Ok(after),
        _ => Err(LineFault::Shape.refused(line.number)),
    }
}

/// Returns the header of this version, this network and these roots.
fn header_with(version: Version, net: Net, roots: Vec<[u8; 32]>) -> Result<Header, HeaderFault>
    ensures { result ≡ header_with version net roots.items }
{
    match version {
        Version::One => Header::new(net, roots),
        Version::Two { slot } => Header::new_in_slot(net, slot, roots),
    }
}

/// Reads a whole text line by line, and returns the header of this version that it is.
#[tactic(auto, unfolding(crate::specs::HeaderTextReading::header_of_text, crate::specs::NetText::net_at))]
fn whole(alloc: Global, version: Version, text: &[u8]) -> Result<Header, ReadError<ScenarioFault>>
    requires { slot_in version ≤ greatest_slot }
    ensures { IsRead result (header_of_text version text.now) }
{
    let (net, rest) = net_behind(alloc, first_opening(alloc, text)?)?;
    let (roots, rest) = read_roots(alloc, net.generals(), rest)?;
    let rest = read_last(alloc, &rest)?;
    if !rest.is_over() {
        return Err(LineFault::Extra.refused(rest.line()));
    }
    Ok(header_with(version, net, roots).unwrap())
}

/// Returns the header, unless two of its generals have the same root.
fn unless_shared(header: Header) -> Result<Header, HeaderTextFault>
    ensures { result ≡ unless_shared header (first_pair (equal_roots header)) }
{
    match first_equal_roots(&header) {
        Some((a, b)) => Err(HeaderTextFault::EqualRoots { a, b }),
        None => Ok(header),
    }
}

/// Reads a whole text, and returns the header of this version that it gives.
#[tactic(auto, unfolding(crate::specs::HeaderTextReading::header_given))]
fn given(alloc: Global, version: Version, text: &[u8]) -> Result<Header, ReadError<HeaderTextFault>>
    requires { slot_in version ≤ greatest_slot }
    ensures { IsRead result (header_given version text.now) }
{
    match whole(alloc, version, text) {
        Ok(header) => unless_shared(header).map_err(ReadError::Fault),
        Err(ReadError::Memory) => Err(ReadError::Memory),
        Err(ReadError::Fault(fault)) => Err(ReadError::Fault(HeaderTextFault::Text(fault))),
    }
}

/// Returns the header of this version that a text spells, if each of its generals has a root of its own. The text has
/// the lines of a network as a scenario text has them, from that of the generals to that of the choice. Then comes a
/// line `root HEX` for each general, in their order, with the root of the general's keys in 64 hexadecimal digits, and
/// then the line `end`. The slot of version 2 must be 0 to 3.
///
/// Two generals with the same root are one owner of keys that is counted as two. If both sign, each leaf signs twice,
/// which gives its key away.
///
/// # Errors
///
/// `Text` with the text's first fault, and its line, as `read_scenario` has it. `BadSeed` stands for a root that isn't
/// 64 hexadecimal digits, and `Extra` for bytes that follow the last line. `EqualRoots` with the least pair of generals
/// that have the same root, if the text spells a header. Memory if memory was refused before a fault was met.
pub fn read_header_text(
    alloc: Global,
    version: Version,
    text: &[u8],
) -> Result<Header, ReadError<HeaderTextFault>>
    requires { slot_in version ≤ greatest_slot }
    // If a header is read, the text spells it.
    ensures found { IfOk result (SpellsHeader version text.now) }
    // If a header is read, each of its generals has a root of its own.
    ensures own { IfOk result HasOwnRoots }
    // If the text spells a header whose generals have roots of their own, that header is read, unless memory runs out.
    ensures only { (h : RunHeader) → SpellsHeader version text.now h → HasOwnRoots h → IsRead result (Ok h) }
    // The answer, and so the first fault and its line, is that of `header_given`.
    ensures exact { IsRead result (header_given version text.now) }
{
    given(alloc, version, text)
}
