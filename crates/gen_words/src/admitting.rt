//! The words of the options `--admission` and `--system`, by which the runs of an input are asked for.
ghost use Rattle.std.specs.Prelude.{◌≡◌, IfErr, IfOk, None, Some, map, option_map};
ghost use Rattle.clap.specs.Words.{found_of, rows_of};
ghost use Rattle.gen_words.specs.Admitting.{AsksByAdmission, IsAdmittingFault, IsAdmittingFaultOf, IsSystemFault, IsSystemIn, SaysAdmitting, input_word};

use crate::several::{read_once, text_of};
use crate::systems::{SystemsFault, context_of};
use crate::words::{WordsFault, matches_of};
use clap::ArgMatches;
use std::alloc::Global;

/// The word for standard input in the place of a file.
const STANDARD: &str = "-";

/// The admission by which the runs of an input are asked for.
#[derive(Clone, Copy, Debug)]
pub struct Admitting<'a> {
    /// The word for the file of the admission. A minus stands for standard input.
    pub admission: &'a str,
    /// The id of the system that it must be of, if one is asked for.
    pub system: Option<[u8; 32]>,
}

/// Returns the word for the first file that is read beside the admission: that of the input, or else of a list of names. It
/// is a minus where no word names either.
fn input_word<'a>(inner: &ArgMatches<'a>) -> &'a str
    ensures { result.now ≡ input_word (rows_of (found_of inner.now)) }
{
    match (text_of(inner, "file"), text_of(inner, "files-from")) {
        (Some(file), _) => file,
        (None, Some(list)) => list,
        (None, None) => STANDARD,
    }
}

/// Returns the id of the system that is asked for, if one is.
fn system_in(inner: &ArgMatches<'_>) -> Result<Option<[u8; 32]>, WordsFault>
    ensures said { IfOk result (IsSystemIn (rows_of (found_of inner.now))) }
    ensures fault { IfErr result (IsSystemFault (rows_of (found_of inner.now))) }
{
    match text_of(inner, "system") {
        None => Ok(None),
        Some(text) => match context_of(Some(text)) {
            Some(id) => Ok(Some(id)),
            None => Err(WordsFault::Systems(SystemsFault::BadSystem)),
        },
    }
}

/// Returns what the arguments of a command say of an admission, if they name one.
fn admitting_said<'a>(inner: &ArgMatches<'a>) -> Result<Option<Admitting<'a>>, WordsFault>
    ensures said { IfOk result (SaysAdmitting (rows_of (found_of inner.now))) }
    ensures fault { IfErr result (IsAdmittingFault (rows_of (found_of inner.now))) }
{
    let Some(admission) = text_of(inner, "admission") else {
        return match text_of(inner, "system") {
            None => Ok(None),
            Some(_) => Err(WordsFault::Systems(SystemsFault::SystemAlone)),
        };
    };
    if text_of(inner, "run").is_some() {
        return Err(WordsFault::Systems(SystemsFault::AlsoRun));
    }
    let system = system_in(inner)?;
    if !read_once(admission, &[input_word(inner)]) {
        return Err(WordsFault::TwoStandard);
    }
    Ok(Some(Admitting { admission, system }))
}

/// Returns the admission by which words ask for the runs of an input; the first word is the program's name. None if they
/// name no admission, or no command.
///
/// # Errors
///
/// `Systems` with `SystemAlone` if `--system` stands without `--admission`; else with `AlsoRun` if `--run` stands beside
/// `--admission`; else with `BadSystem` if the text behind `--system` has not 64 hexadecimal digits. Else `TwoStandard` if
/// the admission and the input are both standard input. `Memory` if memory was refused. A mistake that the command line
/// finds is told by `read_request`.
pub fn read_admitting<'a>(
    alloc: Global,
    words: &'a [&'a str],
) -> Result<Option<Admitting<'a>>, WordsFault>
    ensures said { IfOk result (AsksByAdmission (map (λ w. w.now) words.now)) }
    ensures fault { IfErr result (IsAdmittingFaultOf (map (λ w. w.now) words.now)) }
{
    let matches = match matches_of(alloc, words) {
        Ok(matches) => matches,
        Err(WordsFault::Memory) => return Err(WordsFault::Memory),
        // What else the command line finds is told where one file is named.
        Err(_) => return Ok(None),
    };
    let Some((_, inner)) = matches.subcommand() else {
        return Ok(None);
    };
    admitting_said(inner)
}
