//! Calls of reports, evidence, bundles and campaigns.
use crate::names::Refused;
use crate::rows::Row;
use crate::texts::Answer;
use crate::{judging_bundles, judging_evidence, judging_reports, judging_texts};
use gen_net::Header;
use std::alloc::Global;

/// Answers a call of this module, and returns whether it is one.
pub(crate) fn tell(
    alloc: Global,
    call: &str,
    row: Row<'_>,
    answer: &mut Answer,
) -> Result<bool, Refused> {
    match call {
        "evidence" => judging_evidence::tell_evidence(alloc, row, answer)?,
        "refute" => judging_evidence::tell_refuted(alloc, row, answer)?,
        "bundle" => judging_bundles::tell_bundle(alloc, row, answer)?,
        "campaign" => judging_bundles::tell_campaign(alloc, row, answer)?,
        "convictions" => judging_bundles::tell_convictions(alloc, row, answer)?,
        "scenario_text" => judging_texts::tell_scenario(alloc, row, answer)?,
        "campaign_text" => judging_texts::tell_series(alloc, row, answer)?,
        _ => return Ok(false),
    }
    Ok(true)
}

/// Answers a call of this module on a header, and returns whether it is one.
pub(crate) fn tell_under(
    alloc: Global,
    call: &str,
    header: &Header,
    row: Row<'_>,
    answer: &mut Answer,
) -> Result<bool, Refused> {
    match call {
        "report" => judging_reports::tell_report(alloc, header, row, answer)?,
        "departs" => judging_reports::tell_departure(alloc, header, row, answer)?,
        _ => return Ok(false),
    }
    Ok(true)
}
