//! What a line after those of the keys is.
ghost use Rattle.std.specs.Prelude.{◌≡◌, ◌<◌, map, IfOk, IfSome};
ghost use Rattle.gen_types.specs.Spelled.{IsRead};
ghost use Rattle.gen_text.specs.ItemReading.{begins_with, ascends, general_in, said_in, item_in};
ghost use Rattle.gen_text.specs.BlocksReading.{block_after};

use crate::cursor::Line;
use crate::fault::{LineFault, ScenarioFault};
use crate::lines::number_behind;
use gen_net::Net;
use gen_script::{ScriptLine, read_script_bytes};
use gen_types::{GeneralNo, Path, ReadError};
use std::alloc::Global;

/// What a line after those of the keys is.
#[derive(Drop)]
pub enum Item {
    /// The first line of the script of this general.
    Begin(GeneralNo),
    /// A line of a script.
    Say(ScriptLine),
    /// The last line of the text.
    End,
}

/// A path that a line names, and the line's number, counted from 1.
#[derive(Clone, Copy)]
pub struct PathLine {
    /// The line's number.
    pub line: usize,
    /// The path.
    pub path: Path,
}

/// Returns whether the first field of a line is this word.
fn begins_with(word: &[u8], fields: &[&[u8]]) -> bool
    ensures { result ≡ begins_with word.now (map (λ f. f.now) fields.now) }
{
    match fields {
        [] => false,
        [first, ..] => *first == word,
    }
}

/// Returns the general with whose script the line begins, after the block of `last`.
#[tactic(auto, unfolding(crate::specs::ItemReading::general_in))]
fn general_in(
    net: &Net,
    last: Option<GeneralNo>,
    fields: &[&[u8]],
    line: usize,
) -> Result<GeneralNo, ReadError<ScenarioFault>>
    ensures exact { IsRead result (general_in net.now last line (map (λ f. f.now) fields.now)) }
    ensures known { IfOk result (λ g. g < net.now.generals) }
{
    let number = number_behind(fields, b"script", line)?;
    if number >= net.generals() {
        return Err(LineFault::BadTraitor.refused(line));
    }
    match last {
        Some(last) if number <= last.get() => Err(LineFault::BadTraitor.refused(line)),
        _ => Ok(GeneralNo::at(number)),
    }
}

/// Returns the script line that these bytes are, in the block of this general.
fn said_in(
    alloc: Global,
    net: &Net,
    block: Option<GeneralNo>,
    bytes: &[u8],
    line: usize,
) -> Result<ScriptLine, ReadError<ScenarioFault>>
    requires { IfSome block (λ g. g < net.now.generals) }
    ensures { IsRead result (said_in net.now block line bytes.now) }
{
    let Some(general) = block else {
        return Err(LineFault::Shape.refused(line));
    };
    match read_script_bytes(alloc, net, general, bytes) {
        Ok(said) => Ok(said),
        Err(ReadError::Memory) => Err(ReadError::Memory),
        Err(ReadError::Fault(fault)) => Err(LineFault::Script(fault).refused(line)),
    }
}

/// Returns what the line is, in the block of the general `block`, or before the first block.
#[tactic(auto, unfolding(crate::specs::ItemReading::item_in))]
pub fn item_in(
    alloc: Global,
    net: &Net,
    block: Option<GeneralNo>,
    line: &Line<'_>,
) -> Result<Item, ReadError<ScenarioFault>>
    requires { IfSome block (λ g. g < net.now.generals) }
    ensures exact { IsRead result (item_in net.now block (record {
      number = line.now.number;
      bytes = line.now.bytes.now;
      fields = map (λ f. f.now) line.now.fields.items;
    })) }
    ensures known { IfOk result (λ item. IfSome (block_after block item) (λ g. g < net.now.generals)) }
{
    if begins_with(b"end", &line.fields) {
        if line.fields.len() != 1 {
            return Err(LineFault::Shape.refused(line.number));
        }
        return Ok(Item::End);
    }
    if begins_with(b"script", &line.fields) {
        let general = general_in(net, block, &line.fields, line.number)?;
        return Ok(Item::Begin(general));
    }
    let said = said_in(alloc, net, block, line.bytes, line.number)?;
    Ok(Item::Say(said))
}
