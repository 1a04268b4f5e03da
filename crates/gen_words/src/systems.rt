//! The words of the commands of identities and systems: `enroll`, `identity`, `system`, `admission` and `admit`.
ghost use Rattle.std.specs.Prelude.{◌≡◌, codes, IfErr, IfOk, map, option_map};
ghost use Rattle.clap.specs.Words.{found_of, rows_of};
ghost use Rattle.gen_words.specs.Systems.{AsksForSystems, IsAdmissionFault, IsAdmitFault, IsEnrollFault, IsForSystems, IsNumberOf, IsSystemFault, IsSystemsFaultOf, context_asked, read_both};
ghost use Rattle.gen_words.specs.Jobs.{height_asked};

use crate::several::{STANDARD, named_in, read_once, text_of};
use crate::words::{WordsFault, is_set, matches_of, number_between, workers_of};
use clap::ArgMatches;
use gen_audit::WorkerCount;
use gen_types::{GeneralNo, TreeHeight};
use hex::FromHex;
use std::alloc::Global;
use thiserror::Error;

/// The most levels of the tree of an identity.
const MOST_LEVELS: u8 = 20;

/// Which option of the commands of identities and systems has a bad value, or stands where it may not.
#[derive(Clone, Copy, Debug, PartialEq, Eq, Error)]
pub enum SystemsFault {
    /// The text behind `--levels` is no decimal number from 0 to 20, without leading zeros or a sign.
    #[error("error: --levels takes a number from 0 to 20")]
    BadLevels,
    /// The text behind `--context` has not 64 hexadecimal digits.
    #[error("error: --context takes 64 hexadecimal digits")]
    BadContext,
    /// The text behind `--number` is no decimal number below 2 to the power of 32, without leading zeros or a sign.
    #[error("error: --number takes the number of a run")]
    BadNumber,
    /// An id stands behind `--system`, and no admission behind `--admission`.
    #[error("error: --system stands beside --admission alone")]
    SystemAlone,
    /// Runs are asked for both by their ids and by an admission.
    #[error("error: --run and --admission do not stand together")]
    AlsoRun,
    /// The text behind `--system` has not 64 hexadecimal digits.
    #[error("error: --system takes 64 hexadecimal digits")]
    BadSystem,
}

/// What words ask for that name a command of identities and systems. A file of None is standard input, as a minus is.
#[derive(Debug, Drop)]
pub enum Systems<'a> {
    /// Makes the roots of the sets of keys of a secret.
    Enroll {
        /// How many levels the tree over the sets has, 0 to 20.
        levels: u8,
        /// The height of the trees of keys.
        height: TreeHeight,
        /// How many workers make trees.
        workers: WorkerCount,
        /// The word for the file that the roots begin with, if only those behind it are made.
        resume: Option<&'a str>,
        /// The word for the file of the secret.
        secret: Option<&'a str>,
    },
    /// Tells the identity over roots.
    Identity {
        /// The word for the file of the roots.
        roots: Option<&'a str>,
    },
    /// Makes a system from the text of a header.
    System {
        /// How many levels the trees of the identities have, 0 to 20.
        levels: u8,
        /// What the users of the system agree on.
        context: [u8; 32],
        /// Whether each node proposes in its turn.
        turns: bool,
        /// The height of the trees of keys.
        height: TreeHeight,
        /// Whether the id of the system is printed.
        prints_id: bool,
        /// The word for the file of the text.
        text: Option<&'a str>,
    },
    /// Makes the admission of a set from a system and the roots of all nodes.
    Admission {
        /// The number of a run of the set.
        run: u32,
        /// Whether the id of the system is printed.
        prints_id: bool,
        /// The word for the file of the system.
        system: &'a str,
        /// The node of each file of roots, in the order of the words.
        nodes: Vec<GeneralNo>,
        /// The word for each file of roots, in the same order.
        roots: Vec<&'a str>,
    },
    /// Makes the header of a run from an admission.
    Admit {
        /// The number of the run.
        run: u32,
        /// Whether the id of the system is printed.
        prints_id: bool,
        /// The word for the file of the admission.
        admission: Option<&'a str>,
    },
}

/// Returns the number below 2 to the power of 32 that a text spells in decimal digits, without leading zeros or a sign.
fn run_number(text: Option<&str>) -> Option<u32>
    ensures { IsNumberOf (option_map (λ t. t.now) text.entry) result }
{
    let text = text?;
    match text.as_bytes() {
        [b'0'] | [b'1'..=b'9', ..] => text.parse::<u32>().ok(),
        _ => None,
    }
}

/// Returns the 32 bytes that 64 hexadecimal digits spell.
#[tactic(auto, unfolding(crate::specs::Systems::context_asked))]
pub(crate) fn context_of(text: Option<&str>) -> Option<[u8; 32]>
    ensures { result ≡ context_asked (option_map (λ t. t.now) text.entry) }
{
    match <[u8; 32] as FromHex>::from_hex(text?.as_bytes()) {
        Ok(context) => Some(context),
        Err(_) => None,
    }
}

/// Returns the height of the trees of keys, by the text that the command line gives for `--tall`.
fn height_of(text: Option<&str>) -> TreeHeight
    ensures { result ≡ height_asked (option_map (λ t. t.now) text.entry) }
{
    if is_set(text) {
        TreeHeight::Six
    } else {
        TreeHeight::Four
    }
}

/// Returns whether two inputs are standard input: a minus stands for the first one, and a minus or no word for the second
/// one.
fn read_both(first: Option<&str>, second: Option<&str>) -> bool
    ensures { result ≡ read_both (option_map (λ t. t.now) first.entry) (option_map (λ t. t.now) second.entry) }
{
    match (first, second) {
        (None, _) => false,
        (Some(first), None) => first == STANDARD,
        (Some(first), Some(second)) => first == STANDARD && second == STANDARD,
    }
}

/// Returns what the arguments of the command `enroll` say.
fn enroll_said<'a>(inner: &ArgMatches<'a>) -> Result<Systems<'a>, WordsFault>
    ensures said { IfOk result (λ s. IsForSystems (codes "enroll", rows_of (found_of inner.now)) s) }
    ensures fault { IfErr result (IsEnrollFault (rows_of (found_of inner.now))) }
{
    let Some(levels) = number_between(text_of(inner, "levels"), 0, MOST_LEVELS) else {
        return Err(WordsFault::Systems(SystemsFault::BadLevels));
    };
    let Some(workers) = workers_of(text_of(inner, "workers")) else {
        return Err(WordsFault::BadWorkers);
    };
    let resume = text_of(inner, "resume");
    let secret = text_of(inner, "file");
    if read_both(resume, secret) {
        return Err(WordsFault::TwoStandard);
    }
    Ok(Systems::Enroll {
        levels,
        height: height_of(text_of(inner, "tall")),
        workers,
        resume,
        secret,
    })
}

/// Returns what the arguments of the command `system` say.
fn system_said<'a>(inner: &ArgMatches<'a>) -> Result<Systems<'a>, WordsFault>
    ensures said { IfOk result (λ s. IsForSystems (codes "system", rows_of (found_of inner.now)) s) }
    ensures fault { IfErr result (IsSystemFault (rows_of (found_of inner.now))) }
{
    let Some(levels) = number_between(text_of(inner, "levels"), 0, MOST_LEVELS) else {
        return Err(WordsFault::Systems(SystemsFault::BadLevels));
    };
    let Some(context) = context_of(text_of(inner, "context")) else {
        return Err(WordsFault::Systems(SystemsFault::BadContext));
    };
    Ok(Systems::System {
        levels,
        context,
        turns: is_set(text_of(inner, "turns")),
        height: height_of(text_of(inner, "tall")),
        prints_id: is_set(text_of(inner, "print-id")),
        text: text_of(inner, "file"),
    })
}

/// Returns what the arguments of the command `admission` say.
fn admission_said<'a>(alloc: Global, inner: &ArgMatches<'a>) -> Result<Systems<'a>, WordsFault>
    ensures said { IfOk result (λ s. IsForSystems (codes "admission", rows_of (found_of inner.now)) s) }
    ensures fault { IfErr result (IsAdmissionFault (rows_of (found_of inner.now))) }
{
    let Some(run) = run_number(text_of(inner, "number")) else {
        return Err(WordsFault::Systems(SystemsFault::BadNumber));
    };
    let Some(system) = text_of(inner, "file") else {
        return Err(WordsFault::NoCommand);
    };
    let Some(named) = named_in(alloc, inner)? else {
        return Err(WordsFault::BadLog);
    };
    if !read_once(system, &named.files) {
        return Err(WordsFault::TwoStandard);
    }
    Ok(Systems::Admission {
        run,
        prints_id: is_set(text_of(inner, "print-id")),
        system,
        nodes: named.generals,
        roots: named.files,
    })
}

/// Returns what the arguments of the command `admit` say.
fn admit_said<'a>(inner: &ArgMatches<'a>) -> Result<Systems<'a>, WordsFault>
    ensures said { IfOk result (λ s. IsForSystems (codes "admit", rows_of (found_of inner.now)) s) }
    ensures fault { IfErr result (IsAdmitFault (rows_of (found_of inner.now))) }
{
    let Some(run) = run_number(text_of(inner, "number")) else {
        return Err(WordsFault::Systems(SystemsFault::BadNumber));
    };
    Ok(Systems::Admit {
        run,
        prints_id: is_set(text_of(inner, "print-id")),
        admission: text_of(inner, "file"),
    })
}

/// Returns what words ask for that name a command of identities and systems; the first word is the program's name. None if
/// they name another command, or none.
///
/// # Errors
///
/// `Systems` if the command takes `--levels`, `--context` or `--number`, and its text is none of those that the option
/// takes: the first of these three. Else `BadWorkers` if the command is `enroll`, and the text behind `--workers` is no
/// number from 1 to 16. Else `BadLog` if a word behind the system is not `G=ROOTS`, with a number from 0 to 15. Else
/// `TwoStandard` if standard input stands for several files. `Memory` if memory was refused. A mistake that the command line finds
/// is told by `read_request`.
pub fn read_systems<'a>(
    alloc: Global,
    words: &'a [&'a str],
) -> Result<Option<Systems<'a>>, WordsFault>
    ensures said { IfOk result (AsksForSystems (map (λ w. w.now) words.now)) }
    ensures fault { IfErr result (IsSystemsFaultOf (map (λ w. w.now) words.now)) }
{
    let matches = match matches_of(alloc, words) {
        Ok(matches) => matches,
        Err(WordsFault::Memory) => return Err(WordsFault::Memory),
        // What else the command line finds is told where one file is named.
        Err(_) => return Ok(None),
    };
    let Some((name, inner)) = matches.subcommand() else {
        return Ok(None);
    };
    match name {
        "enroll" => Ok(Some(enroll_said(inner)?)),
        "identity" => Ok(Some(Systems::Identity {
            roots: text_of(inner, "file"),
        })),
        "system" => Ok(Some(system_said(inner)?)),
        "admission" => Ok(Some(admission_said(alloc, inner)?)),
        "admit" => Ok(Some(admit_said(inner)?)),
        _ => Ok(None),
    }
}
