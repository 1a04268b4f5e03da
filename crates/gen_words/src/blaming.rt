//! What is said of words that ask for no job.
ghost use Rattle.std.specs.Prelude.{IfOk, string_bytes};
ghost use Rattle.gen_words.specs.FaultLine.{PointsAtHelp};

use crate::words::{WordsFault, given_in, read_request};
use std::alloc::{AllocError, Global};

/// Returns the value of the option that is bad, if one is.
pub fn given_value(alloc: Global, words: &[&str], fault: &WordsFault) -> Option<String> {
    let given = given_in(alloc, words).ok()?;
    let value = match fault {
        WordsFault::BadCapacity => given.capacity,
        WordsFault::BadWorkers => given.workers,
        WordsFault::BadGeneral => given.general,
        WordsFault::BadSlot => given.slot,
        WordsFault::BadRun => given.asked,
        WordsFault::BadFaulty => given.faulty,
        _ => None,
    };
    String::from_str(alloc, value?).ok()
}

/// Writes the help to standard error.
pub fn show_usage<R: AllocGlobal + Eprint>(rt: &R) {
    if let Err(WordsFault::Words(help)) = read_request(rt.alloc(), &["sm_tool", "--help"]) {
        let _ = eprint!(rt; "{help}");
    }
}

/// Returns what stands between a line and this one, where they are joined: each tip is a part of its own.
fn joint_before(part: &str) -> &'static str {
    if part.starts_with("tip:") { "; " } else { " " }
}

/// Returns the lines of a text as one, with a semicolon before each tip and a space before other lines, up to the one
/// that says how the program is used.
fn parts_of(alloc: Global, text: &str) -> Result<String, AllocError> {
    let mut line = String::new(alloc);
    for part in text.lines() {
        let part = part.trim();
        if part.starts_with("Usage:") || part.starts_with("For more information") {
            return Ok(line);
        }
        if !line.is_empty() && !part.is_empty() {
            line.push_str(joint_before(part))?;
        }
        line.push_str(part)?;
    }
    Ok(line)
}

/// Returns one line that says what is wrong with the words, with the value that is bad, if there is one, and at its end
/// how to ask for help.
pub fn fault_line(
    alloc: Global,
    fault: &WordsFault,
    value: Option<String>,
) -> Result<String, AllocError>
    ensures { IfOk result (λ line. PointsAtHelp (string_bytes line)) }
{
    let text = fault.to_string(alloc)?;
    let mut first = parts_of(alloc, text.as_str())?;
    if let Some(value) = value {
        write!(first, ", and not '{value}'")?;
    }
    let first = first.as_str();
    format!(in alloc; "{first}; for more, try '--help'")
}
