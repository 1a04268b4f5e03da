//! Reads the scripts of a text.
ghost use Rattle.std.specs.Prelude.{◌≡◌, ◌==◌, ◌++◌, [], None, OnOk, IfErr};
ghost use Rattle.std.specs.List.{list_all, list_any};
ghost use Rattle.gen_types.specs.Ends.{is_among};
ghost use Rattle.gen_types.specs.Reading.{Gives};
ghost use Rattle.gen_types.specs.Spelled.{IsRead};
ghost use Rattle.gen_types.specs.declared.reading.ReadError.TheVariants.{Memory};
ghost use Rattle.gen_script.specs.NamedPath.{named_path};
ghost use Rattle.gen_scenario.specs.Scenario.{scripted};
ghost use Rattle.gen_text.specs.BlocksReading.{path_at, closed, blocks_at, all_scripted};

use crate::cursor::Cursor;
use crate::fault::{LineFault, ScenarioFault};
use crate::items::{Item, PathLine, item_in};
use gen_net::Net;
use gen_script::{Script, ScriptFault, ScriptLine};
use gen_types::{GeneralNo, ReadError};
use std::alloc::Global;
use std::mem;

/// The scripts of a text, the paths that their lines name, and the cursor after the last line.
#[derive(Drop)]
pub struct Blocks<'a> {
    /// The scripts, in ascending order of their generals.
    pub scripts: Vec<Script>,
    /// The paths that lines name, in the order of the lines.
    pub paths: Vec<PathLine>,
    /// The cursor after the last line of the text.
    pub after: Cursor<'a>,
}

/// Appends the script of the block that ends, if one was open, and empties the list of its lines.
fn close(
    alloc: Global,
    scripts: &mut Vec<Script>,
    block: Option<GeneralNo>,
    lines: &mut Vec<ScriptLine>,
) -> Result<(), ReadError<ScenarioFault>>
    ensures ok { OnOk result
        (scripts.new.items ≡ scripts.old.items ++ closed block lines.old.items) }
    ensures taken { lines.new.items ≡ [] }
    ensures err { IfErr result (λ e. e ≡ Memory) }
{
    let whole = mem::replace(lines, Vec::new(alloc));
    if let Some(general) = block {
        scripts.push(Script::new(general, whole))?;
    }
    Ok(())
}

/// Appends the path that the line names, if it names one.
fn note_path(
    paths: &mut Vec<PathLine>,
    line: usize,
    said: &ScriptLine,
) -> Result<(), ReadError<ScenarioFault>>
    ensures ok { OnOk result (paths.new.items ≡ paths.old.items ++ path_at line (named_path said.now)) }
    ensures err { IfErr result (λ e. e ≡ Memory) }
{
    if let Some(path) = said.path() {
        paths.push(PathLine { line, path: *path })?;
    }
    Ok(())
}

/// Reads the scripts whose lines begin here, up to the line `end`, which is read too.
pub fn read_blocks<'a>(
    alloc: Global,
    net: &Net,
    start: Cursor<'a>,
) -> Result<Blocks<'a>, ReadError<ScenarioFault>>
    ensures { Gives (λ b. record {
      lines = [];
      scripts = b.scripts.items;
      paths = b.paths.items;
      after = b.after;
    }) result (blocks_at net.now None start.entry.line start.entry.parts) }
{
    let mut scripts = Vec::new(alloc);
    let mut paths = Vec::new(alloc);
    let mut block = None;
    let mut lines = Vec::new(alloc);
    let mut cursor = start;
    'lines: loop {
        let (line, after) = cursor.next_line(alloc)?;
        let current = block;
        match item_in(alloc, net, current, &line)? {
            Item::End => {
                close(alloc, &mut scripts, block, &mut lines)?;
                return Ok(Blocks {
                    scripts,
                    paths,
                    after,
                });
            }
            Item::Begin(general) => {
                close(alloc, &mut scripts, block, &mut lines)?;
                block = Some(general);
            }
            Item::Say(said) => {
                note_path(&mut paths, line.number, &said)?;
                lines.push(said)?;
            }
        }
        cursor = after;
    }
}

/// Returns whether one of the scripts is the general's.
fn has_script(scripts: &[Script], general: GeneralNo) -> bool
    ensures { result ≡ list_any (λ s. s.general == general) scripts.now }
{
    scripts.iter().any(|script| script.general() == general)
}

/// Returns whether the general is among those that have scripts.
#[tactic(auto, using(crate::proofs::Traitors::any_map))]
fn is_scripted(scripts: &[Script], general: GeneralNo) -> bool
    ensures { result ≡ is_among (scripted scripts.now) general }
{
    has_script(scripts, general)
}

/// Returns whether all of these generals have scripts.
fn are_scripted(scripts: &[Script], generals: &[GeneralNo]) -> bool
    ensures { result ≡ list_all (is_among (scripted scripts.now)) generals.now }
{
    generals
        .iter()
        .all(|general| is_scripted(scripts, *general))
}

/// Refuses the first line that names a path with a general that has no script.
#[tactic(auto, unfolding(crate::specs::BlocksReading::all_scripted))]
pub fn check_paths(scripts: &[Script], paths: &[PathLine]) -> Result<(), ReadError<ScenarioFault>>
    ensures { IsRead result (all_scripted (scripted scripts.now) paths.now) }
{
    let mut rest = paths;
    while let [first, others @ ..] = rest {
        if !are_scripted(scripts, first.path.generals()) {
            return Err(LineFault::Script(ScriptFault::BadPath).refused(first.line));
        }
        rest = others;
    }
    Ok(())
}
