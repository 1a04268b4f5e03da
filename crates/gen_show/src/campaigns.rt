//! What is shown of a campaign, as lines.
ghost use Rattle.std.specs.Prelude.{◌≡◌, ◌++◌, OnOk, string_bytes};
ghost use Rattle.gen_campaign.specs.CampaignParts.{HaveRoom};
ghost use Rattle.gen_show.specs.CampaignText.{campaign_lines};

use crate::bundles::{push_bundle, push_runs};
use gen_campaign::{CAMPAIGN_FRONT, CampaignBundle};
use std::alloc::{AllocError, Global};

/// Appends the lines of what is shown of a campaign: of a bundle that stands alone, or of several runs.
#[tactic(auto, unfolding(crate::specs::CampaignText::campaign_line))]
pub fn push_campaign(
    alloc: Global,
    out: &mut String,
    campaign: &CampaignBundle,
) -> Result<(), AllocError>
    requires { HaveRoom campaign.now.alone campaign.now.bundles }
    ensures { OnOk result
        (string_bytes out.new ≡ string_bytes out.old ++ campaign_lines campaign.now) }
{
    let bundles = campaign.bundles();
    if campaign.is_alone() {
        match bundles.split_first() {
            Some((bundle, _)) => {
                push_bundle(alloc, out, 0, bundle)?;
                Ok(())
            }
            None => Ok(()),
        }
    } else {
        let count = bundles.len();
        write!(out, "format campaign version 2 runs {count}\n")?;
        push_runs(alloc, out, CAMPAIGN_FRONT, bundles)?;
        out.push_str("end campaign\n")
    }
}
