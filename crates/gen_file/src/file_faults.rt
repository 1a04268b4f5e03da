//! The names of faults of bundles and of evidence.
ghost use Rattle.std.specs.Prelude.{◌≡◌, ◌++◌, OnOk, string_bytes};
ghost use Rattle.gen_file.specs.FileFaultText.{bundle_fault_name, evidence_fault_name};

use crate::faults::push_header_fault;
use gen_audit::BundleFault;
use gen_convict::EvidenceFault;
use std::alloc::AllocError;

/// Appends the name of a bundle's fault, as `B3 H9`.
///
/// # Errors
///
/// `AllocError` if memory is refused; then what stands in `out` isn't said.
pub fn push_bundle_fault(out: &mut String, fault: BundleFault) -> Result<(), AllocError>
    ensures { OnOk result
        (string_bytes out.new ≡ string_bytes out.old ++ bundle_fault_name fault) }
{
    match fault {
        BundleFault::Truncated => out.push_str("B1"),
        BundleFault::UnknownMark => out.push_str("B2"),
        BundleFault::BadHeader(inner) => {
            out.push_str("B3 ")?;
            push_header_fault(out, inner)
        }
        BundleFault::FaultyRange => out.push_str("B4"),
        BundleFault::WalkCount => out.push_str("B5"),
        BundleFault::BadWalk => out.push_str("B6"),
        BundleFault::BadExhibit => out.push_str("B7"),
        BundleFault::LeftOver => out.push_str("B8"),
        BundleFault::OutOfOrder => out.push_str("B9"),
        BundleFault::LongLog => out.push_str("a log is too long"),
    }
}

/// Appends the name of the fault of evidence, as `V3 H9`.
///
/// # Errors
///
/// `AllocError` if memory is refused; then what stands in `out` isn't said.
pub fn push_evidence_fault(out: &mut String, fault: EvidenceFault) -> Result<(), AllocError>
    ensures { OnOk result
        (string_bytes out.new ≡ string_bytes out.old ++ evidence_fault_name fault) }
{
    match fault {
        EvidenceFault::Truncated => out.push_str("V1"),
        EvidenceFault::UnknownMark => out.push_str("V2"),
        EvidenceFault::BadHeader(inner) => {
            out.push_str("V3 ")?;
            push_header_fault(out, inner)
        }
        EvidenceFault::OutOfRange => out.push_str("V4"),
        EvidenceFault::LeftOver => out.push_str("V5"),
        EvidenceFault::OtherLeaves => out.push_str("V6"),
    }
}
