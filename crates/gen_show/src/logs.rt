//! Logs as lines.
ghost use Rattle.std.specs.Prelude.{◌≡◌, ◌+◌, ◌<◌, ◌^◌, ◌++◌, Ok, Err, OnOk, length, string_bytes};
ghost use Rattle.gen_log.specs.Texts.{IsTextOf};
ghost use Rattle.gen_show.specs.LogText.{log_lines, reading_lines, says_line, unreadable_line};

use crate::entries::push_entries;
use gen_file::{LOG_FRONT, push_log_fault};
use gen_log::{Log, LogFault, read_log};
use gen_net::Header;
use gen_types::{GeneralNo, ReadError};
use std::alloc::{AllocError, Global};

/// Appends the line of a log that reads.
#[tactic(auto, unfolding(crate::specs::LogText::says_line))]
fn push_says(
    alloc: Global,
    out: &mut String,
    general: GeneralNo,
    log: &Log,
) -> Result<(), AllocError>
    ensures { OnOk result
        (string_bytes out.new ≡ string_bytes out.old ++ says_line general log.now) }
{
    let of = general.get();
    let run = hex::encode(alloc, *log.run_id())?;
    let count = log.entries().len();
    write!(out, "says of {of} run {run} entries {count}\n")
}

/// Appends the line of bytes that are no log.
#[tactic(auto, unfolding(crate::specs::LogText::unreadable_line))]
fn push_unreadable(out: &mut String, general: GeneralNo, fault: LogFault) -> Result<(), AllocError>
    ensures { OnOk result
        (string_bytes out.new ≡ string_bytes out.old ++ unreadable_line general fault) }
{
    let of = general.get();
    write!(out, "unreadable of {of} fault ")?;
    push_log_fault(out, fault)?;
    out.push_str("\n")
}

/// Appends the lines of a log that was read from these bytes, which begin at this byte of a file.
#[tactic(auto, using(gen_file::proofs::Lengths::entries_within), unfolding(crate::specs::LogText::head_line))]
fn push_read(
    alloc: Global,
    out: &mut String,
    general: GeneralNo,
    at: usize,
    log: &Log,
    bytes: &[u8],
) -> Result<(), AllocError>
    requires text { IsTextOf log.now bytes.now }
    requires room { at + length bytes.now < 2 ^ 64 }
    ensures { OnOk result
        (string_bytes out.new ≡ string_bytes out.old ++ reading_lines general at (Ok log.now)) }
{
    // The entries end within the bytes.
    let _count = bytes.len();
    push_says(alloc, out, general, log)?;
    let end = push_entries(out, general, at + LOG_FRONT, log.entries())?;
    let of = general.get();
    write!(out, "head of {of} byte {end}\n")
}

/// Appends the lines of bytes that begin at this byte of a file and are shown as the log of a general in the run of a
/// header: a line with their length, and then, if they are a log, what the log says, or else their fault.
///
/// # Errors
///
/// `AllocError` where memory is refused; then what stands in `out` isn't said.
#[tactic(auto, unfolding(crate::specs::LogText::log_lines, crate::specs::LogText::log_line))]
pub fn push_log(
    alloc: Global,
    out: &mut String,
    header: &Header,
    general: GeneralNo,
    at: usize,
    bytes: &[u8],
) -> Result<(), AllocError>
    requires { at + length bytes.now < 2 ^ 64 }
    ensures { OnOk result (string_bytes out.new
        ≡ string_bytes out.old ++ log_lines header.now general at bytes.now) }
{
    let of = general.get();
    let size = bytes.len();
    write!(out, "log of {of} byte {at} length {size}\n")?;
    match read_log(alloc, header, bytes) {
        Ok(log) => push_read(alloc, out, general, at, &log, bytes),
        Err(ReadError::Memory) => Err(AllocError),
        Err(ReadError::Fault(fault)) => push_unreadable(out, general, fault),
    }
}
