//! The facts of a run.
ghost use Rattle.std.specs.Prelude.{◌≡◌, ◌++◌, OnOk, map};
ghost use Rattle.gen_convict.specs.Evidence.{told_of};
ghost use Rattle.gen_facts.specs.Facts.{agreed_order, decisions_in, run_facts, verdict_number};

use crate::fact::{Fact, NO_FACT, RUN, STATUS, about, conviction_fact, decision_fact};
use crate::findings::finding_fact;
use crate::statuses::status_of;
use gen_audit::{Bundle, Judgement, Verdict};
use gen_scenario::Decision;
use gen_types::GeneralNo;
use std::alloc::AllocError;

/// Returns the number of a verdict; the order that was agreed on, and 0 if the verdict is another; and the decisions of a
/// verdict that all is explained, and none of another.
fn parts(verdict: &Verdict) -> (u32, u32, &[Decision])
    ensures number { result.0 ≡ verdict_number verdict.now }
    ensures order { result.1 ≡ agreed_order verdict.now }
    ensures decisions { result.2.now ≡ decisions_in verdict.now }
{
    match verdict {
        Verdict::Agreed(order) => (1, u32::from(order.get()), &[]),
        Verdict::Explained(decisions) => (2, 0, decisions.as_slice()),
        Verdict::No(_) => (3, 0, &[]),
    }
}

/// Appends the facts of the judgement on a bundle, which is that of the run at this place of a campaign. First stands
/// the run as a whole, then the status of each general in ascending order. Behind them stand the decisions that
/// explain, or the findings, and last the convictions.
///
/// # Errors
///
/// `AllocError` if memory is refused; what `facts` then holds is not specified.
pub fn push_run_facts(
    facts: &mut Vec<Fact>,
    run: u32,
    bundle: &Bundle,
    judgement: &Judgement,
) -> Result<(), AllocError>
    ensures { OnOk result (facts.new.items ≡ facts.old.items ++ run_facts run bundle.now
        judgement.now.verdict (map told_of judgement.now.convictions.items)) }
{
    let (header, faulty) = (bundle.header(), bundle.faulty());
    let (number, order, decisions) = parts(&judgement.verdict);
    let findings = judgement.verdict.findings();
    let convictions = judgement.convictions.as_slice();
    facts.push(Fact {
        kind: RUN,
        run,
        number,
        order,
        generals: u32::from(header.net().generals()),
        traitors: u32::from(header.net().traitors()),
        set: u32::from(faulty.bits()),
        run_id: *header.run_id(),
        ..NO_FACT
    })?;
    for number in 0..header.net().generals() {
        let general = GeneralNo::at(number);
        let status = status_of(faulty, findings, convictions, general);
        facts.push(about(STATUS, run, general, status.number()))?;
    }
    for decision in decisions {
        facts.push(decision_fact(run, decision))?;
    }
    for finding in findings {
        facts.push(finding_fact(run, finding))?;
    }
    for evidence in convictions {
        facts.push(conviction_fact(run, evidence))?;
    }
    Ok(())
}
