//! What calls answer, and how it is written.
use gen_audit::{AuditFault, Judgement};
use gen_net::Header;
use gen_report::print_verdict;
use gen_types::ReadError;
use std::alloc::{AllocError, Global};
use std::io::{self, Write};

/// Why a call gave nothing.
#[derive(Drop)]
pub(crate) enum Failure {
    /// Memory was refused.
    Memory,
    /// A thread was refused.
    Thread,
    /// Another fault, which no refusal makes.
    Fault,
}

/// What a call gave, as bytes, or why it gave nothing.
pub(crate) type Answer = Result<Vec<u8>, Failure>;

impl From<AllocError> for Failure {
    fn from(_refused: AllocError) -> Failure {
        Failure::Memory
    }
}

impl<F: Drop> From<ReadError<F>> for Failure {
    fn from(fault: ReadError<F>) -> Failure {
        match fault {
            ReadError::Memory => Failure::Memory,
            ReadError::Fault(_) => Failure::Fault,
        }
    }
}

impl From<AuditFault> for Failure {
    fn from(fault: AuditFault) -> Failure {
        match fault {
            AuditFault::Memory => Failure::Memory,
            AuditFault::Thread => Failure::Thread,
        }
    }
}

/// Returns the text of a verdict.
pub(crate) fn verdict_text(alloc: Global, header: &Header, judgement: &Judgement) -> Answer {
    Ok(print_verdict(alloc, header, judgement)?)
}

/// Writes a line to standard output.
pub(crate) fn say<R: Print>(rt: &R, line: &str) -> io::Result<()> {
    io::writer(rt).write_all(line.as_bytes())
}

/// Returns a checksum of these bytes: FNV-1a of 64 bits.
fn checksum(bytes: &[u8]) -> u64 {
    let mut sum: u64 = 0xCBF2_9CE4_8422_2325;
    for byte in bytes {
        sum = (sum ^ u64::from(*byte)).wrapping_mul(0x0100_0000_01B3);
    }
    sum
}

/// Writes that a call gave these bytes, and their checksum.
fn say_given<R: Print>(rt: &R, given: &[u8]) -> io::Result<()> {
    say(rt, "gave\n")?;
    println!(rt; "{}", checksum(given))
}

/// Writes what a call answered, with the checksum of what it gave. Returns whether the call gave nothing.
pub(crate) fn say_answer<R: Print>(rt: &R, answer: &Answer) -> io::Result<bool> {
    let line = match answer {
        Ok(given) => {
            say_given(rt, given.as_slice())?;
            return Ok(false);
        }
        Err(Failure::Memory) => "memory\n",
        Err(Failure::Thread) => "thread\n",
        Err(Failure::Fault) => "fault\n",
    };
    say(rt, line)?;
    Ok(true)
}
