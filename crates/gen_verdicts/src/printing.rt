//! Verdicts on campaigns as text.
ghost use Rattle.std.specs.Prelude.{◌≡◌, ◌++◌, OnOk, IfOk, map, string_bytes};
ghost use Rattle.gen_convict.specs.Evidence.{told_of};
ghost use Rattle.gen_verdicts.specs.CampaignVerdictText.{across_line, campaign_text, verdict_texts};

use gen_audit::{Bundle, Judgement};
use gen_campaign::{CampaignBundle, CampaignVerdict, place_of};
use gen_convict::{Claim, Evidence};
use gen_report::print_verdict;
use std::alloc::{AllocError, Global};

/// Appends the line of a conviction across two runs: the general that is convicted, and the places of the
/// two runs among these bundles. If the evidence is of one run alone, the line has its kind, K1 to K4, in
/// place of the runs.
///
/// # Errors
///
/// `AllocError` if memory is refused; then nothing is promised of what stands in `out`.
fn push_across(out: &mut String, bundles: &[Bundle], evidence: &Evidence) -> Result<(), AllocError>
    ensures { OnOk result (string_bytes out.new
        ≡ string_bytes out.old ++ across_line bundles.now (told_of evidence.now)) }
{
    let general = evidence.accused.get();
    match &evidence.claim {
        Claim::Across { first, second } => {
            let one = place_of(bundles, &first.header);
            let other = place_of(bundles, &second.header);
            write!(out, "convicted {general} by K1 across {one} {other}\n")
        }
        claim => {
            let kind = claim.kind();
            write!(out, "convicted {general} by K{kind}\n")
        }
    }
}

/// Appends the texts of the verdicts on the runs, in their order. A run without a judgement has no text.
fn put_verdicts(
    alloc: Global,
    out: &mut Vec<u8>,
    bundles: &[Bundle],
    judgements: &[Judgement],
) -> Result<(), AllocError>
    ensures { OnOk result
        (out.new.items ≡ out.old.items ++ verdict_texts bundles.now judgements.now) }
{
    let mut runs = bundles;
    let mut rest = judgements;
    'runs: while let Some((run, others)) = runs.split_first() {
        let Some((judgement, more)) = rest.split_first() else {
            return Ok(());
        };
        let text = print_verdict(alloc, run.header(), judgement)?;
        out.extend_from_slice(text.as_slice())?;
        runs = others;
        rest = more;
    }
    Ok(())
}

/// Returns the text of the verdict on a campaign. It begins with a line `campaign N`. For each run follows
/// the text that `print_verdict` of `gen_report` gives for its judgement. For each conviction across two
/// runs follows a line `convicted G by K1 across I J`, with the places of the two runs in the campaign,
/// counted from 0. The last line is `end campaign`.
///
/// For a bundle that stands alone the text is that of `print_verdict` alone. The verdict is meant to be
/// that of `audit_campaign` on the same campaign, with a judgement for each run.
///
/// # Errors
///
/// `AllocError` if memory is refused.
pub fn print_campaign(
    alloc: Global,
    campaign: &CampaignBundle,
    verdict: &CampaignVerdict,
) -> Result<Vec<u8>, AllocError>
    ensures { IfOk result (λ v. v.items ≡ campaign_text campaign.now verdict.now.judgements.items
        (map told_of verdict.now.across.items)) }
{
    let (bundles, judgements) = (campaign.bundles(), verdict.judgements.as_slice());
    if campaign.is_alone() {
        let mut out = Vec::new(alloc);
        put_verdicts(alloc, &mut out, bundles, judgements)?;
        return Ok(out);
    }
    let across = verdict.across.as_slice();
    let runs = bundles.len();
    let mut out = format!(in alloc; "campaign {runs}\n")?.into_bytes();
    put_verdicts(alloc, &mut out, bundles, judgements)?;
    let mut last = String::new(alloc);
    for evidence in across {
        push_across(&mut last, bundles, evidence)?;
    }
    last.push_str("end campaign\n")?;
    out.extend_from_slice(last.as_bytes())?;
    Ok(out)
}
