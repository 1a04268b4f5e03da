//! The verdict on a campaign from the reports on its exhibits, whoever made them.
ghost use Rattle.std.specs.Prelude.{◌≡◌, [], true, IfOk, map};
ghost use Rattle.std.specs.List.{AllZip};
ghost use Rattle.gen_convict.specs.AcrossLaws.{AreConvictedAcross, AreEvidenceAcross, ConvictsAcrossWhereHeld};
ghost use Rattle.gen_convict.specs.Evidence.{told_of};
ghost use Rattle.gen_audit.specs.Telling.{AreReports};
ghost use Rattle.gen_campaign.specs.Judged.{AreJudged, shown_bundles};

use crate::campaigns::CampaignBundle;
use crate::laws::other_slots_convict_nobody;
use crate::verdicts::CampaignVerdict;
use gen_audit::judge_reports;
use gen_convict::find_across;
use gen_local::LocalReport;
use std::alloc::{AllocError, Global};

/// Returns the verdict on a campaign, with these reports on the exhibits of its bundles. The clauses are
/// those of `audit_campaign`.
pub fn judge_campaign(
    alloc: Global,
    campaign: &CampaignBundle,
    seen: &[Vec<LocalReport>],
) -> Result<CampaignVerdict, AllocError>
    requires { AllZip AreReports campaign.now.bundles (map (λ v. v.items) seen.now) }
    ensures judged { IfOk result (λ v. AreJudged campaign.now.bundles v.judgements.items) }
    ensures across { IfOk result (λ v.
        AreConvictedAcross (shown_bundles campaign.now.bundles) (map told_of v.across.items)) }
    ensures held { IfOk result (λ v.
        ConvictsAcrossWhereHeld (shown_bundles campaign.now.bundles) (map told_of v.across.items)) }
    ensures lawful { IfOk result (λ v. AreEvidenceAcross (map told_of v.across.items)) }
    ensures alone { IfOk result (λ v. campaign.now.alone ≡ true → v.across.items ≡ []) }
{
    other_slots_convict_nobody();
    let bundles = campaign.bundles();
    let mut judgements = Vec::with_capacity(alloc, bundles.len())?;
    'runs: for place in 0..bundles.len() {
        let judgement = judge_reports(alloc, &bundles[place], seen[place].as_slice())?;
        judgements.push(judgement)?;
    }
    let mut headers = Vec::new(alloc);
    for bundle in bundles {
        headers.push(bundle.header().clone()?)?;
    }
    let across = find_across(alloc, headers.as_slice(), seen)?;
    Ok(CampaignVerdict { judgements, across })
}
