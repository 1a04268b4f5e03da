//! The names of faults of headers and logs.
ghost use Rattle.std.specs.Prelude.{◌≡◌, ◌++◌, OnOk, string_bytes};
ghost use Rattle.gen_file.specs.FaultText.{header_fault_name, log_fault_name};

use gen_log::LogFault;
use gen_net::HeaderFault;
use std::alloc::AllocError;

/// Appends the name of a header's fault, as `H9`.
///
/// # Errors
///
/// `AllocError` if memory is refused; then what stands in `out` isn't said.
#[tactic(auto, unfolding(crate::specs::FaultText::header_fault_name))]
pub fn push_header_fault(out: &mut String, fault: HeaderFault) -> Result<(), AllocError>
    ensures { OnOk result
        (string_bytes out.new ≡ string_bytes out.old ++ header_fault_name fault) }
{
    let rule = fault.number();
    write!(out, "H{rule}")
}

/// Appends the name of a log's fault, and, if that is a chain's fault, the name of the chain's fault behind it.
///
/// # Errors
///
/// `AllocError` if memory is refused; then what stands in `out` isn't said.
pub fn push_log_fault(out: &mut String, fault: LogFault) -> Result<(), AllocError>
    ensures { OnOk result (string_bytes out.new ≡ string_bytes out.old ++ log_fault_name fault) }
{
    let (of_log, of_chain) = fault.numbers();
    match fault {
        LogFault::Chain(_) => write!(out, "L{of_log} C{of_chain}"),
        _ => write!(out, "L{of_log}"),
    }
}
