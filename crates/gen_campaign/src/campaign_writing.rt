//! Writing what is shown of campaigns as bytes.
ghost use Rattle.std.specs.Prelude.{◌≡◌, ◌++◌, IfOk, OnOk};
ghost use Rattle.std.specs.List.{flat_map};
ghost use Rattle.gen_audit.specs.BundleSpelling.{bundle_spelling};
ghost use Rattle.gen_campaign.specs.CampaignSpelling.{campaign_spelling};

use crate::campaigns::CampaignBundle;
use crate::fronts::several_front;
use gen_audit::{Bundle, write_bundle};
use std::alloc::{AllocError, Global};

/// Appends the bytes of the bundles, one after another.
///
/// # Errors
///
/// `AllocError` if memory is refused; then nothing is promised of what stands in `out`.
pub fn put_bundles(alloc: Global, out: &mut Vec<u8>, bundles: &[Bundle]) -> Result<(), AllocError>
    ensures { OnOk result (out.new.items ≡ out.old.items ++ flat_map bundle_spelling bundles.now) }
{
    'bundles: for bundle in bundles {
        let bytes = write_bundle(alloc, bundle)?;
        out.extend_from_slice(bytes.as_slice())?;
    }
    Ok(())
}

/// Returns the one spelling of what is shown of a campaign, as `read_campaign` reads it. It fails only if
/// memory was refused.
pub fn write_campaign(alloc: Global, campaign: &CampaignBundle) -> Result<Vec<u8>, AllocError>
    ensures { IfOk result (λ bytes. bytes.items ≡ campaign_spelling campaign.now) }
{
    let mut out = Vec::new(alloc);
    if !campaign.is_alone() {
        out.extend_from_slice(&several_front(campaign.bundles().len() as u8))?;
    }
    put_bundles(alloc, &mut out, campaign.bundles())?;
    Ok(out)
}
