//! Reading a line of a script.
ghost use Rattle.std.specs.Prelude.{◌≡◌, ◌<◌, map, IfOk, Ok};
ghost use Rattle.gen_types.specs.Spelled.{IsRead};
ghost use Rattle.gen_script.specs.LineReading.{make_in, pass_in, bend_in, raw_in, hide_in, line_in, script_line_of};
ghost use Rattle.gen_script.specs.Line.{SpellsLine, OneScriptLine};
ghost use Rattle.gen_script.specs.declared.lines.ScriptLine.{ScriptLine as Said};

use crate::fault::ScriptFault;
use crate::line_fields::{Reader, neighbour_in, order_in, round_in};
use crate::lines::{Parcel, ScriptLine};
use crate::path_fields::{PathKind, path_in};
use gen_net::Net;
use gen_types::{GeneralNo, ReadError, check, split_fields};
use hex::FromHexError;
use std::alloc::Global;

/// Returns the `make` line of these fields: round, receiver, order and path.
#[tactic(auto, unfolding(crate::specs::LineReading::make_in))]
fn make_in(
    reader: &Reader<'_>,
    round: &[u8],
    to: &[u8],
    order: &[u8],
    path: &[u8],
) -> Result<ScriptLine, ReadError<ScriptFault>>
    ensures { IsRead result
        (make_in reader.now.net.now reader.now.me round.now to.now order.now path.now) }
{
    let round = round_in(reader, 1, round)?;
    let to = neighbour_in(reader, to)?;
    let order = order_in(reader, order)?;
    let path = path_in(reader, PathKind::Whole, round, path)?;
    Ok(ScriptLine::Make {
        round,
        to,
        order,
        path,
    })
}

/// Returns the `pass` line of these fields: round, receiver, sender, order and path.
#[tactic(auto, unfolding(crate::specs::LineReading::pass_in))]
fn pass_in(
    reader: &Reader<'_>,
    round: &[u8],
    to: &[u8],
    from: &[u8],
    order: &[u8],
    path: &[u8],
) -> Result<ScriptLine, ReadError<ScriptFault>>
    ensures { IsRead result
        (pass_in reader.now.net.now reader.now.me round.now to.now from.now order.now path.now) }
{
    let round = round_in(reader, 1, round)?;
    let to = neighbour_in(reader, to)?;
    let from = neighbour_in(reader, from)?;
    let order = order_in(reader, order)?;
    let path = path_in(reader, PathKind::Added, round, path)?;
    Ok(ScriptLine::Pass {
        round,
        to,
        from,
        order,
        path,
    })
}

/// Returns the `bend` line of these fields: round, receiver, sender and order.
#[tactic(auto, unfolding(crate::specs::LineReading::bend_in))]
fn bend_in(
    reader: &Reader<'_>,
    round: &[u8],
    to: &[u8],
    from: &[u8],
    order: &[u8],
) -> Result<ScriptLine, ReadError<ScriptFault>>
    ensures { IsRead result
        (bend_in reader.now.net.now reader.now.me round.now to.now from.now order.now) }
{
    let round = round_in(reader, 2, round)?;
    let to = neighbour_in(reader, to)?;
    let from = neighbour_in(reader, from)?;
    let order = order_in(reader, order)?;
    Ok(ScriptLine::Bend {
        round,
        to,
        from,
        order,
    })
}

/// Returns the `raw` line of these fields: round, receiver and the parcel's bytes, at least one, in hexadecimal
/// digits.
#[tactic(auto, unfolding(crate::specs::LineReading::raw_in))]
fn raw_in(
    reader: &Reader<'_>,
    round: &[u8],
    to: &[u8],
    parcel: &[u8],
) -> Result<ScriptLine, ReadError<ScriptFault>>
    ensures { IsRead result (raw_in reader.now.net.now reader.now.me round.now to.now parcel.now) }
{
    let round = round_in(reader, 1, round)?;
    let to = neighbour_in(reader, to)?;
    match hex::decode(reader.alloc, parcel) {
        Ok(bytes) => {
            check(!bytes.is_empty(), ScriptFault::Number)?;
            let parcel = Parcel::new(bytes);
            Ok(ScriptLine::Raw { round, to, parcel })
        }
        Err(FromHexError::OutOfMemory) => Err(ReadError::Memory),
        Err(_) => Err(ReadError::Fault(ScriptFault::Number)),
    }
}

/// Returns the `hide` line of these fields: round, sender and order.
#[tactic(auto, unfolding(crate::specs::LineReading::hide_in))]
fn hide_in(
    reader: &Reader<'_>,
    round: &[u8],
    from: &[u8],
    order: &[u8],
) -> Result<ScriptLine, ReadError<ScriptFault>>
    ensures { IsRead result (hide_in reader.now.net.now reader.now.me round.now from.now order.now) }
{
    let round = round_in(reader, 1, round)?;
    let from = neighbour_in(reader, from)?;
    let order = order_in(reader, order)?;
    Ok(ScriptLine::Hide { round, from, order })
}

/// Returns the script line of these fields, the first of which is its word. The fault is `Shape` if no
/// script line has this word and this number of fields, and else the first fault of a field.
#[tactic(auto, unfolding(crate::specs::LineReading::line_in))]
fn line_in(reader: &Reader<'_>, fields: &[&[u8]]) -> Result<ScriptLine, ReadError<ScriptFault>>
    ensures { IsRead result (line_in reader.now.net.now reader.now.me (map (λ x. x.now) fields.now)) }
{
    match fields {
        [word, round, to, order, path] if *word == b"make".as_slice() => {
            make_in(reader, round, to, order, path)
        }
        [word, round, to, from, order, path] if *word == b"pass".as_slice() => {
            pass_in(reader, round, to, from, order, path)
        }
        [word, round, to, from, order] if *word == b"bend".as_slice() => {
            bend_in(reader, round, to, from, order)
        }
        [word, round, to, parcel] if *word == b"raw".as_slice() => {
            raw_in(reader, round, to, parcel)
        }
        [word, round, from, order] if *word == b"hide".as_slice() => {
            hide_in(reader, round, from, order)
        }
        [word] if *word == b"twohead".as_slice() => Ok(ScriptLine::TwoHeads),
        _ => Err(ReadError::Fault(ScriptFault::Shape)),
    }
}

/// Returns what a line says in the script of the general `me`, which must be a general of the network. The
/// line is given without its line feed.
///
/// Whether each general of a path has a script is not tested: the line alone does not tell.
///
/// # Errors
///
/// The line's first fault from left to right. The word and the number of fields come first, and then each
/// field. Of a field it comes first that the field does not read, and then its own rule. A path is read
/// number by number, and the rules for the whole path come after its last number. Memory if memory was
/// refused before a fault was met.
pub fn read_script_line(
    alloc: Global,
    net: &Net,
    me: GeneralNo,
    line: &str,
) -> Result<ScriptLine, ReadError<ScriptFault>>
    requires { me < net.now.generals }
    // What is returned is what the line spells.
    ensures found { IfOk result (SpellsLine net.now me line.now) }
    // If the line spells a script line, this script line is returned, unless memory runs out.
    ensures only { (said : Said) → SpellsLine net.now me line.now said → IsRead result (Ok said) }
    // The script line or the fault is that of the definition, unless memory runs out.
    ensures exact { IsRead result (script_line_of net.now me line.now) }
{
    read_script_bytes(alloc, net, me, line.as_bytes())
}

/// Returns what a line of bytes says in the script of the general `me`, as `read_script_line` does for a
/// string. Bytes that are no script line are refused with their first fault, whether they are UTF-8 or
/// not.
///
/// # Errors
///
/// Those of `read_script_line`.
pub fn read_script_bytes(
    alloc: Global,
    net: &Net,
    me: GeneralNo,
    line: &[u8],
) -> Result<ScriptLine, ReadError<ScriptFault>>
    requires { me < net.now.generals }
    ensures found { IfOk result (SpellsLine net.now me line.now) }
    ensures only { (said : Said) → SpellsLine net.now me line.now said → IsRead result (Ok said) }
    ensures exact { IsRead result (script_line_of net.now me line.now) }
{
    // The laws need what holds of each network. This read of the network makes it known to the proof.
    let _generals = net.generals();
    let fields = split_fields(alloc, line)?;
    line_in(&Reader { alloc, net, me }, &fields)
}

/// States that a line says at most one thing in the script of a general.
///
/// A law: a function with an empty body, whose caller knows what it ensures.
pub fn one_script_line()
    ensures { OneScriptLine }
{}
