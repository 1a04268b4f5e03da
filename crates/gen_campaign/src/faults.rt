//! The name of a campaign's fault.
ghost use Rattle.std.specs.Prelude.{◌≡◌, ◌++◌, OnOk, string_bytes};
ghost use Rattle.gen_campaign.specs.FaultText.{campaign_fault_name};

use crate::campaign_fault::CampaignFault;
use gen_file::push_bundle_fault;
use std::alloc::AllocError;

/// Appends the name of a campaign's fault, as `M3 run 1 B7`; that of a bundle that stands alone is the bundle's.
///
/// # Errors
///
/// `AllocError` if memory is refused; then what stands in `out` isn't said.
pub fn push_campaign_fault(out: &mut String, fault: CampaignFault) -> Result<(), AllocError>
    ensures { OnOk result
        (string_bytes out.new ≡ string_bytes out.old ++ campaign_fault_name fault) }
{
    match fault {
        CampaignFault::NoCount => out.push_str("M1"),
        CampaignFault::RunCount => out.push_str("M2"),
        CampaignFault::BadRun(place, inner) => {
            write!(out, "M3 run {place} ")?;
            push_bundle_fault(out, inner)
        }
        CampaignFault::Unjoined => out.push_str("M4"),
        CampaignFault::LeftOver => out.push_str("M5"),
        CampaignFault::Alone(inner) => push_bundle_fault(out, inner),
    }
}
