//! What is shown of a campaign, as JSON.
ghost use Rattle.std.specs.Prelude.{◌≡◌, ◌++◌, IfOk, OnOk};
ghost use Rattle.serde_json.specs.View.{view};
ghost use Rattle.gen_campaign.specs.CampaignParts.{HaveRoom};
ghost use Rattle.gen_json_files.specs.CampaignLines.{campaign_data, campaign_lines};

use gen_campaign::{CAMPAIGN_FRONT, CampaignBundle};
use gen_json::{JSON_VERSION, ObjectBuilder, push_value};
use gen_json_parts::{push_bundle, push_end, push_runs};
use serde_json::Value;
use std::alloc::{AllocError, Global};

/// Returns the version of the format of several runs, and their number.
#[tactic(auto, unfolding(crate::specs::CampaignLines::campaign_data))]
fn campaign_value(alloc: Global, count: usize) -> Result<Value, AllocError>
    ensures { IfOk result (λ v. view v ≡ campaign_data count) }
{
    let mut object = ObjectBuilder::new(alloc);
    object.put_text("format", "shown campaign");
    object.put("run_version", Value::from(2u8));
    object.put("runs", Value::from(count));
    object.put("version", Value::from(JSON_VERSION));
    object.finish()
}

/// Appends the lines of what is shown of a campaign: of a bundle that stands alone, or of several runs.
#[tactic(auto, using(crate::proofs::PlainSeveral::campaign_plain), unfolding(crate::specs::CampaignLines::several_lines))]
pub fn push_campaign(
    alloc: Global,
    out: &mut Vec<u8>,
    campaign: &CampaignBundle,
) -> Result<(), AllocError>
    requires { HaveRoom campaign.now.alone campaign.now.bundles }
    ensures { OnOk result (out.new.items ≡ out.old.items ++ campaign_lines campaign.now) }
{
    let bundles = campaign.bundles();
    if campaign.is_alone() {
        match bundles.split_first() {
            Some((bundle, _)) => {
                push_bundle(alloc, out, 0, bundle)?;
                Ok(())
            }
            None => Ok(()),
        }
    } else {
        let value = campaign_value(alloc, bundles.len())?;
        push_value(alloc, out, &value)?;
        push_runs(alloc, out, CAMPAIGN_FRONT, bundles)?;
        push_end(alloc, out, "shown campaign end")
    }
}
