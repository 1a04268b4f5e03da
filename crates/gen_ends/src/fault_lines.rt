//! The line of the fault of a job.
ghost use Rattle.std.specs.Prelude.{◌≡◌, ◌++◌, IfOk, OnOk, string_bytes};
ghost use Rattle.gen_ends.specs.FaultLines.{equal_roots_fault_line, job_fault_line, line_fault_name, receipt_fault_name};

use crate::ends::JobFault;
use gen_campaign::push_campaign_fault;
use gen_file::{push_evidence_fault, push_header_fault, push_log_fault};
use gen_receipt::ReceiptFault;
use gen_script::ScriptFault;
use gen_text::LineFault;
use std::alloc::{AllocError, Global};

/// Appends the name of the fault of a line of a text, and, if that is a header's fault or a script's, the name of this
/// one behind it.
fn push_line_fault(out: &mut String, fault: LineFault) -> Result<(), AllocError>
    ensures { OnOk result
        (string_bytes out.new ≡ string_bytes out.old ++ line_fault_name fault) }
{
    match fault {
        LineFault::Unfinished => out.push_str("P1"),
        LineFault::Shape => out.push_str("P2"),
        LineFault::Number => out.push_str("P3"),
        LineFault::Network(inner) => {
            out.push_str("P4 ")?;
            push_header_fault(out, inner)
        }
        LineFault::UnknownOrder => out.push_str("P5"),
        LineFault::BadSeed => out.push_str("P6"),
        LineFault::Unseeded => out.push_str("P7"),
        LineFault::BadTraitor => out.push_str("P8"),
        LineFault::Script(ScriptFault::Shape) => out.push_str("P9 S1"),
        LineFault::Script(ScriptFault::Number) => out.push_str("P9 S2"),
        LineFault::Script(ScriptFault::BadRound) => out.push_str("P9 S3"),
        LineFault::Script(ScriptFault::NoNeighbour) => out.push_str("P9 S4"),
        LineFault::Script(ScriptFault::BadOrder) => out.push_str("P9 S5"),
        LineFault::Script(ScriptFault::BadPath) => out.push_str("P9 S6"),
        LineFault::Extra => out.push_str("P10"),
        LineFault::TooLong => out.push_str("P11"),
        LineFault::Foreign => out.push_str("P12"),
        LineFault::SlotRange => out.push_str("P13"),
        LineFault::RunCount => out.push_str("P14"),
        LineFault::Unlike => out.push_str("P15"),
    }
}

/// Appends the name of the fault of receipts, and, if that is a header's fault, the name of this one behind it.
fn push_receipt_fault(out: &mut String, fault: ReceiptFault) -> Result<(), AllocError>
    ensures { OnOk result
        (string_bytes out.new ≡ string_bytes out.old ++ receipt_fault_name fault) }
{
    match fault {
        ReceiptFault::Truncated => out.push_str("Q1"),
        ReceiptFault::UnknownMark => out.push_str("Q2"),
        ReceiptFault::BadHeader(inner) => {
            out.push_str("Q3 ")?;
            push_header_fault(out, inner)
        }
        ReceiptFault::OutOfRange => out.push_str("Q4"),
        ReceiptFault::OtherRun => out.push_str("Q5"),
    }
}

/// Appends the line of the fault that two generals have the same root.
#[tactic(auto, unfolding(crate::specs::FaultLines::equal_roots_fault_line))]
fn push_equal_roots(out: &mut String, a: u8, b: u8) -> Result<(), AllocError>
    ensures { OnOk result
        (string_bytes out.new ≡ string_bytes out.old ++ equal_roots_fault_line a b) }
{
    write!(out, "fault G2 generals {a} {b}")
}

/// Appends the line of a fault.
#[tactic(auto, unfolding(crate::specs::FaultLines::text_fault_line))]
fn push_job_fault(out: &mut String, fault: JobFault) -> Result<(), AllocError>
    ensures { OnOk result
        (string_bytes out.new ≡ string_bytes out.old ++ job_fault_line fault) }
{
    match fault {
        JobFault::Scenario(inner) => {
            out.push_str("fault ")?;
            push_line_fault(out, inner.kind)?;
            let line = inner.line;
            write!(out, " line {line}")
        }
        JobFault::Campaign(inner) => {
            out.push_str("fault ")?;
            push_campaign_fault(out, inner)
        }
        JobFault::Evidence(inner) => {
            out.push_str("fault ")?;
            push_evidence_fault(out, inner)
        }
        JobFault::Receipt(inner) => {
            out.push_str("fault ")?;
            push_receipt_fault(out, inner)
        }
        JobFault::Log(inner) => {
            out.push_str("fault ")?;
            push_log_fault(out, inner)
        }
        JobFault::Seed(_) => out.push_str("fault G1"),
        JobFault::EqualRoots { a, b } => push_equal_roots(out, a, b),
        JobFault::OtherRun => out.push_str("fault R1"),
        JobFault::Memory => out.push_str("memory"),
        JobFault::Thread => out.push_str("thread"),
        JobFault::Open => out.push_str("open failed"),
        JobFault::Read => out.push_str("read failed"),
        JobFault::Write => out.push_str("write failed"),
    }
}

/// Returns the line of a fault, without a line feed. It is the text of the fault, which the program writes to standard
/// error.
///
/// # Errors
///
/// `AllocError` where memory is refused.
pub fn job_fault_line(alloc: Global, fault: JobFault) -> Result<String, AllocError>
    ensures { IfOk result (λ line. string_bytes line ≡ job_fault_line fault) }
{
    let mut line = String::new(alloc);
    push_job_fault(&mut line, fault)?;
    Ok(line)
}
