//! A campaign that is read, audited and written.
use crate::again_answers::Answer;
use gen_campaign::{CampaignBundle, audit_campaign_in_place, read_campaign, write_campaign};
use std::alloc::Global;

/// Returns the bytes of a campaign, and behind them a byte: 1 if it convicts nobody across its runs, else
/// 0.
fn audited(alloc: Global, campaign: &CampaignBundle) -> Answer {
    let verdict = audit_campaign_in_place(alloc, campaign)?;
    let mut given = write_campaign(alloc, campaign)?;
    given.extend_from_slice(&[u8::from(verdict.across.is_empty())])?;
    Ok(given)
}

/// Calls `read_campaign`, `audit_campaign_in_place` and `write_campaign`. Returns the bytes, and whether
/// nobody is convicted across runs.
pub(crate) fn call(alloc: Global, input: &[u8]) -> Answer {
    let campaign = read_campaign(alloc, input)?;
    audited(alloc, &campaign)
}
