//! Verdicts on campaigns as JSON.
ghost use Rattle.std.specs.Prelude.{◌≡◌, IfOk, map};
ghost use Rattle.serde_json.specs.Data.{array};
ghost use Rattle.serde_json.specs.View.{items_of, view};
ghost use Rattle.gen_convict.specs.Evidence.{told_of};
ghost use Rattle.gen_campaign.specs.CampaignPlaces.{place_of};
ghost use Rattle.gen_json_files.specs.CampaignData.{across_data, campaign_data, runs_data};
ghost use Rattle.gen_json.specs.Line.{ReadsAs, json_line};

use gen_audit::{Bundle, Judgement};
use gen_campaign::{CampaignBundle, CampaignVerdict, place_of};
use gen_convict::{Claim, Evidence};
use gen_json::{JSON_VERSION, ObjectBuilder, Origin, conviction_value, finish_from, value_line};
use gen_json_parts::judgement_value;
use serde_json::Value;
use std::alloc::{AllocError, Global};

/// Returns the list of the judgements on runs, in their order. A run without a judgement has none.
fn runs_value(
    alloc: Global,
    bundles: &[Bundle],
    judgements: &[Judgement],
) -> Result<Value, AllocError>
    ensures { IfOk result (λ v. view v ≡ array (items_of (runs_data bundles.now judgements.now))) }
{
    let mut list = Vec::new(alloc);
    let mut runs = bundles;
    let mut rest = judgements;
    'runs: while let Some((bundle, others)) = runs.split_first() {
        let Some((judgement, more)) = rest.split_first() else {
            return Ok(Value::Array(list));
        };
        let value = judgement_value(alloc, None, bundle, judgement)?;
        serde_json::push(&mut list, value)?;
        runs = others;
        rest = more;
    }
    Ok(Value::Array(list))
}

/// Returns a conviction across two runs, with the places of the two among these bundles. Evidence of one run alone has
/// its kind in place of the runs.
fn across_value(alloc: Global, bundles: &[Bundle], evidence: &Evidence) -> Result<Value, AllocError>
    ensures { IfOk result (λ v. view v ≡ across_data bundles.now (told_of evidence.now)) }
{
    match &evidence.claim {
        Claim::Across { first, second } => {
            let mut object = ObjectBuilder::new(alloc);
            object.put("first", Value::from(place_of(bundles, &first.header)));
            object.put("general", Value::from(evidence.accused.get()));
            object.put_text("id", "K1");
            object.put("second", Value::from(place_of(bundles, &second.header)));
            object.finish()
        }
        _ => conviction_value(alloc, evidence),
    }
}

/// Returns the verdict on what is shown of a campaign, with where the answer comes from. If that is a bundle that stands
/// alone, it is the judgement on it, and null if there is none.
fn campaign_value(
    alloc: Global,
    origin: &Origin,
    campaign: &CampaignBundle,
    verdict: &CampaignVerdict,
) -> Result<Value, AllocError>
    ensures { IfOk result (λ v. view v ≡ campaign_data origin.now campaign.now
        verdict.now.judgements.items (map told_of verdict.now.across.items)) }
{
    let bundles = campaign.bundles();
    let judgements = verdict.judgements.as_slice();
    if campaign.is_alone() {
        let Some((bundle, _)) = bundles.split_first() else {
            return Ok(Value::Null);
        };
        let Some((judgement, _)) = judgements.split_first() else {
            return Ok(Value::Null);
        };
        judgement_value(alloc, Some(origin), bundle, judgement)
    } else {
        let across = verdict.across.as_slice();
        let mut list = Vec::new(alloc);
        for evidence in across {
            let value = across_value(alloc, bundles, evidence)?;
            serde_json::push(&mut list, value)?;
        }
        let mut object = ObjectBuilder::new(alloc);
        object.put("across", Value::Array(list));
        object.put_text("format", "campaign verdict");
        object.put_made("runs", runs_value(alloc, bundles, judgements));
        object.put("version", Value::from(JSON_VERSION));
        finish_from(alloc, object, origin)
    }
}

/// Returns the line of JSON of the verdict on a campaign. It has the judgement on each run, as `print_verdict_json`
/// gives it, and for each conviction across two runs the general and the places of the two runs in the campaign,
/// counted from 0. It says once where the answer comes from. For a bundle that stands alone it is the line of
/// `print_verdict_json`.
///
/// The verdict is meant to be that of `audit_campaign` on the same campaign, with a judgement for each run. A run
/// without a judgement is left out, and a bundle that stands alone without one is `null`.
///
/// # Errors
///
/// `AllocError` if memory is refused.
pub fn print_campaign_json(
    alloc: Global,
    origin: &Origin,
    campaign: &CampaignBundle,
    verdict: &CampaignVerdict,
) -> Result<Vec<u8>, AllocError>
    // It is the line of this value, byte for byte.
    ensures text { IfOk result (λ line. line.items ≡ json_line (campaign_data origin.now campaign.now
        verdict.now.judgements.items (map told_of verdict.now.across.items))) }
    // A reader of JSON finds this value in it.
    ensures reads { IfOk result (λ line. ReadsAs line.items (campaign_data origin.now campaign.now
        verdict.now.judgements.items (map told_of verdict.now.across.items))) }
{
    let value = campaign_value(alloc, origin, campaign, verdict)?;
    value_line(alloc, &value)
}
