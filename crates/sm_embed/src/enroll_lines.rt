//! The lines of the faults of identities, systems and admissions.
ghost use Rattle.std.specs.Prelude.{◌≡◌, ◌++◌, IfOk, OnOk, string_bytes};
ghost use Rattle.sm_embed.specs.EnrollLines.{admission_fault_name, enroll_fault_line, enroll_number, name_of, system_fault_name};

use crate::numbers::{FAULT, OTHER_RUN};
use gen_enrolling::EnrollFault;
use gen_file::push_header_fault;
use gen_jobs::{JobFault, job_fault_line};
use gen_system::{AdmissionFault, SystemFault};
use gen_types::ReadError;
use std::alloc::{AllocError, Global};

/// Appends the name of a fault: its letter and its number. So it does with other words before a number.
#[tactic(auto, unfolding(crate::specs::EnrollLines::name_of))]
fn push_name(out: &mut String, letter: &str, number: u8) -> Result<(), AllocError>
    ensures { OnOk result (string_bytes out.new ≡ string_bytes out.old ++ name_of letter.now number) }
{
    write!(out, "{letter}{number}")
}

/// Appends the name of the fault of a system, and, if that is a header's fault, the name of this one behind it.
fn push_system_fault(out: &mut String, fault: SystemFault) -> Result<(), AllocError>
    ensures { OnOk result (string_bytes out.new ≡ string_bytes out.old ++ system_fault_name fault) }
{
    match fault {
        SystemFault::BadHeader(inner) => {
            out.push_str("U3 ")?;
            push_header_fault(out, inner)
        }
        other => push_name(out, "U", other.number()),
    }
}

/// Appends the name of the fault of an admission, and, if that is a system's fault, the name of this one behind it.
fn push_admission_fault(out: &mut String, fault: AdmissionFault) -> Result<(), AllocError>
    ensures { OnOk result
        (string_bytes out.new ≡ string_bytes out.old ++ admission_fault_name fault) }
{
    match fault {
        AdmissionFault::BadSystem(inner) => {
            out.push_str("A3 ")?;
            push_system_fault(out, inner)
        }
        other => push_name(out, "A", other.number()),
    }
}

/// Appends the line of a fault.
fn push_enroll_fault(alloc: Global, out: &mut String, fault: EnrollFault) -> Result<(), AllocError>
    ensures { OnOk result (string_bytes out.new ≡ string_bytes out.old ++ enroll_fault_line fault) }
{
    match fault {
        EnrollFault::Secret(_) => out.push_str("fault G1"),
        EnrollFault::Roots(inner) => {
            out.push_str("fault ")?;
            push_name(out, "I", inner.number())
        }
        EnrollFault::Text(inner) => {
            let line = job_fault_line(alloc, JobFault::from(ReadError::Fault(inner)))?;
            out.push_str(line.as_str())
        }
        EnrollFault::System(inner) => {
            out.push_str("fault ")?;
            push_system_fault(out, inner)
        }
        EnrollFault::Admission(inner) => {
            out.push_str("fault ")?;
            push_admission_fault(out, inner)
        }
        EnrollFault::Fails => out.push_str("fault A7"),
        EnrollFault::OtherSet => out.push_str("fault A8"),
        EnrollFault::FileCount => out.push_str("fault A9"),
        EnrollFault::OtherIdentity(node) => push_name(out, "fault A10 node ", node.get()),
        EnrollFault::OtherSystem => out.push_str("fault A11"),
    }
}

/// Returns the line of a fault, without a line feed, as the program writes it.
///
/// # Errors
///
/// `AllocError` where memory is refused.
pub(crate) fn enroll_fault_line(alloc: Global, fault: EnrollFault) -> Result<String, AllocError>
    ensures { IfOk result (λ line. string_bytes line ≡ enroll_fault_line fault) }
{
    let mut line = String::new(alloc);
    push_enroll_fault(alloc, &mut line, fault)?;
    Ok(line)
}

/// Returns the number for the line of a fault.
pub(crate) fn enroll_number(fault: &EnrollFault) -> u32
    ensures { result ≡ enroll_number fault.now }
{
    match fault {
        EnrollFault::OtherSystem => OTHER_RUN,
        _ => FAULT,
    }
}
