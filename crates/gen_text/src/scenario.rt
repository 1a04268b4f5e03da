//! Reads scenarios from text.
ghost use Rattle.std.specs.Prelude.{◌≡◌, ◌<◌, map, IfOk, Ok};
ghost use Rattle.gen_types.specs.Spelled.{IsRead};
ghost use Rattle.gen_net.specs.Network.{IsNetwork};
ghost use Rattle.gen_text.specs.Told.{net_of};
ghost use Rattle.gen_text.specs.ScenarioReading.{end_in, signed_at, told_at, scenario_of};
ghost use Rattle.gen_text.specs.Scenario.{OneScenario, SpellsScenario};
ghost use Rattle.gen_text.specs.declared.scenario_text.ScenarioText.{ScenarioText as Told};

use crate::blocks::{check_paths, read_blocks};
use crate::cursor::Cursor;
use crate::fault::{LineFault, ScenarioFault};
use crate::keys::{read_seed, read_slot, version_with};
use crate::numbers::read_plain;
use crate::scenario_text::ScenarioText;
use gen_scenario::{PlainScenario, SignedPlan};
use gen_types::ReadError;
use std::alloc::Global;

/// Checks that the line is the last one of a text without a seed.
#[tactic(auto, unfolding(crate::specs::ScenarioReading::end_in))]
fn end_in(fields: &[&[u8]], line: usize) -> Result<(), ReadError<ScenarioFault>>
    ensures { IsRead result (end_in line (map (λ f. f.now) fields.now)) }
{
    match fields {
        [word] if *word == b"end".as_slice() => Ok(()),
        [word, _] if *word == b"script".as_slice() => Err(LineFault::Unseeded.refused(line)),
        _ => Err(LineFault::Shape.refused(line)),
    }
}

/// Returns the scenario with this network, this order and this seed whose other lines begin here, from that of its slot
/// on, and the cursor after its last line.
///
/// # Errors
///
/// The first fault of these lines, with its line, as `read_scenario` has it; Memory if memory was refused before.
#[tactic(auto, unfolding(crate::specs::ScenarioReading::signed_at))]
pub fn read_signed<'a>(
    alloc: Global,
    plain: PlainScenario,
    master: [u8; 32],
    start: Cursor<'a>,
) -> Result<(SignedPlan, Cursor<'a>), ReadError<ScenarioFault>>
    ensures { IsRead result (signed_at plain master start.entry) }
{
    let (slot, rest) = read_slot(alloc, start)?;
    let blocks = read_blocks(alloc, plain.net(), rest)?;
    check_paths(&blocks.scripts, &blocks.paths)?;
    // That the scenario is lawful needs what every network keeps, which this read tells.
    let _generals = plain.net().generals();
    let (net, order) = plain.into_parts();
    let signed = SignedPlan::new(version_with(slot), net, order, &master, blocks.scripts);
    Ok((signed, blocks.after))
}

/// Returns what a text with or without this seed says from here on, and the cursor after its last line.
#[tactic(auto, unfolding(crate::specs::ScenarioReading::told_at, crate::specs::ScenarioReading::end_at))]
fn read_told<'a>(
    alloc: Global,
    plain: PlainScenario,
    seed: Option<[u8; 32]>,
    start: Cursor<'a>,
) -> Result<(ScenarioText, Cursor<'a>), ReadError<ScenarioFault>>
    ensures { IsRead result (told_at plain seed start.entry) }
{
    match seed {
        None => {
            let (line, after) = start.next_line(alloc)?;
            end_in(&line.fields, line.number)?;
            Ok((ScenarioText::Plain(plain), after))
        }
        Some(master) => {
            let (signed, after) = read_signed(alloc, plain, master, start)?;
            Ok((ScenarioText::Signed(signed), after))
        }
    }
}

/// Reads a whole text line by line, and returns what it says.
#[tactic(auto, unfolding(crate::specs::ScenarioReading::scenario_of))]
fn whole(alloc: Global, text: &[u8]) -> Result<ScenarioText, ReadError<ScenarioFault>>
    ensures exact { IsRead result (scenario_of text.now) }
    ensures network { IfOk result (λ told. IsNetwork (net_of told)) }
{
    let (plain, rest) = read_plain(alloc, &Cursor::start(text))?;
    let (seed, rest) = read_seed(alloc, rest)?;
    let (told, rest) = read_told(alloc, plain, seed, rest)?;
    if !rest.is_over() {
        return Err(LineFault::Extra.refused(rest.line()));
    }
    // The laws of spellings need what every network keeps, which this read tells.
    let _generals = told.net().generals();
    Ok(told)
}

/// Returns the scenario that a text spells.
///
/// # Errors
///
/// The text's first fault, with its line. In one line a foreign byte comes first, then more than 600,000 bytes, then no
/// line feed before the text ends, then another shape. After these come a script without a seed, and then the others
/// from left to right. That a path names a general without a script is told after the line `end` was read, for the
/// first such line. Memory if memory was refused before a fault was met.
pub fn read_scenario(alloc: Global, text: &[u8]) -> Result<ScenarioText, ReadError<ScenarioFault>>
    // If a scenario is read, the text spells it.
    ensures found { IfOk result (SpellsScenario text.now) }
    // If the text spells a scenario, that scenario is read, unless memory runs out.
    ensures only { (told : Told) → SpellsScenario text.now told → IsRead result (Ok told) }
    // The answer, and so the first fault and its line, is that of `scenario_of`.
    ensures exact { IsRead result (scenario_of text.now) }
{
    whole(alloc, text)
}

/// A text spells at most one scenario.
///
/// This is a law: a function with an empty body, whose caller knows what it ensures.
pub fn one_scenario()
    ensures { OneScenario }
{}
