//! Jobs in the caller's thread: no thread is started, and none is waited for.
//!
//! They serve callers that have no threads to give, such as a library for C.
ghost use Rattle.std.specs.Prelude.{IfErr, IfOk, OnOk, option_map};
ghost use Rattle.gen_judging.specs.Asking.{IsAccusedOf, IsAuditedBy, IsDrawnBy, IsHeldFault, IsShowFault};
ghost use Rattle.gen_judging.specs.Audit.{ByWorkers};
ghost use Rattle.gen_judging.specs.AuditFacts.{HeldFacts};

use crate::accusing::evidence_by;
use crate::auditing::output_by;
use crate::counting::{counted, have_few, shared_roots};
use crate::drawing::picture_by;
use crate::facts::campaign_facts;
use crate::holding::held_as;
use crate::origins::origin_in;
use crate::run_ids::check_runs;
use gen_asked::{Asked, AskedRuns, Form};
use gen_campaign::{audit_campaign_in_place, read_campaign};
use gen_ends::{JobFault, Output};
use gen_facts::Fact;
use gen_types::GeneralNo;
use std::alloc::Global;

/// Returns what `audit` returns for the input, but works in the caller's thread. `facts` then holds what the judgement
/// says.
///
/// # Errors
///
/// Those of `audit`, but never `Thread`.
#[tactic(auto, using(crate::proofs::AskedFaults::held_faults))]
pub fn audit_in_place(
    alloc: Global,
    asked: &Asked,
    form: Form,
    strict: bool,
    name: Option<&str>,
    input: &[u8],
    facts: &mut Vec<Fact>,
) -> Result<Output, JobFault>
    ensures answer { IfOk result (λ o. IsAuditedBy asked.now form strict (option_map (λ t. t.now) name.entry)
        input.now o.text.items o.negative) }
    ensures fault { IfErr result (ByWorkers 1 (IsHeldFault asked.now input.now)) }
    ensures facts { OnOk result (HeldFacts asked.now input.now facts.new.items) }
{
    let origin = origin_in(alloc, form, name, asked, input)?;
    let campaign = read_campaign(alloc, input)?;
    check_runs(alloc, asked.runs, campaign.bundles())?;
    let held = held_as(alloc, asked.faulty, campaign)?;
    let verdict = audit_campaign_in_place(alloc, &held)?;
    let output = output_by(alloc, &origin, &held, &verdict)?;
    *facts = campaign_facts(alloc, &held, &verdict)?;
    let few = have_few(held.bundles());
    let shared = shared_roots(alloc, held.bundles())?;
    Ok(counted(alloc, output, &origin, strict, few, &shared)?)
}

/// Returns what `draw` returns for the input, but works in the caller's thread.
///
/// # Errors
///
/// Those of `draw`, but never `Thread`.
#[tactic(auto, using(crate::proofs::AskedFaults::held_faults))]
pub fn draw_in_place(alloc: Global, asked: &Asked, input: &[u8]) -> Result<Output, JobFault>
    ensures answer { IfOk result (λ o. IsDrawnBy asked.now input.now o.text.items o.negative) }
    ensures fault { IfErr result (ByWorkers 1 (IsHeldFault asked.now input.now)) }
{
    let campaign = read_campaign(alloc, input)?;
    check_runs(alloc, asked.runs, campaign.bundles())?;
    let held = held_as(alloc, asked.faulty, campaign)?;
    let verdict = audit_campaign_in_place(alloc, &held)?;
    Ok(picture_by(alloc, &held, &verdict)?)
}

/// Returns what `accuse` returns for the input, but works in the caller's thread.
///
/// # Errors
///
/// Those of `accuse`, but never `Thread`.
#[tactic(auto, using(crate::proofs::AskedFaults::show_faults))]
pub fn accuse_in_place(
    alloc: Global,
    asked: AskedRuns,
    general: GeneralNo,
    input: &[u8],
) -> Result<Output, JobFault>
    ensures answer { IfOk result (λ o. IsAccusedOf asked general input.now o.text.items o.negative) }
    ensures fault { IfErr result (ByWorkers 1 (IsShowFault asked input.now)) }
{
    let campaign = read_campaign(alloc, input)?;
    check_runs(alloc, asked, campaign.bundles())?;
    let verdict = audit_campaign_in_place(alloc, &campaign)?;
    Ok(evidence_by(alloc, general, &campaign, &verdict)?)
}
