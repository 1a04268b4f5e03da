//! The job `accuse`: writes the evidence against a general.
ghost use Rattle.std.specs.Prelude.{◌≡◌, ◌==◌, IfOk, IfErr, IfSome, find, map, option_map};
ghost use Rattle.gen_convict.specs.Evidence.{told_of};
ghost use Rattle.gen_convict.specs.AcrossLaws.{AreConvictedAcross, AreEvidenceAcross, ConvictsAcrossWhereHeld};
ghost use Rattle.gen_campaign.specs.Judged.{AreJudged, shown_bundles};
ghost use Rattle.gen_judging.specs.Accusing.{AccusesRuns, AccusesWithin, AreOfRuns, TellsAcross};
ghost use Rattle.gen_ends.specs.Answering.{Answers};
ghost use Rattle.gen_judging.specs.Asking.{IsAccusedOf, IsShowFault};
ghost use Rattle.gen_judging.specs.Audit.{ByWorkers};
ghost use Rattle.gen_ends.specs.Ends.{IsTaken, KeepsUntilWhole};

use crate::run_ids::check_runs;
use gen_asked::AskedRuns;
use gen_audit::{Bundle, Judgement, WorkerCount};
use gen_campaign::{CampaignBundle, CampaignVerdict, audit_campaign, read_taken_campaign};
use gen_convict::{Claim, Evidence, write_evidence};
use gen_ends::{JobEnd, JobFault, Open, Output, deliver, read_all};
use gen_types::GeneralNo;
use std::alloc::{AllocError, Global};
use std::io::{Read, Write};
use std::sync::Wait;
use std::thread::Threads;

/// Returns the first conviction of a general among these, if there is one.
fn conviction_of(convictions: &[Evidence], general: GeneralNo) -> Option<&Evidence>
    ensures { option_map (λ e. e.now) result ≡ find (λ e. e.accused == general) convictions.now }
{
    convictions
        .iter()
        .find(|evidence| evidence.accused == general)
}

/// Returns the bytes of the evidence of the first run that convicts a general. If no run does, there are no bytes, and
/// the output says no.
fn accusation_within(
    alloc: Global,
    bundles: &[Bundle],
    judgements: &[Judgement],
    general: GeneralNo,
) -> Result<Output, AllocError>
    requires { AreJudged bundles.now judgements.now }
    ensures { IfOk result (λ o. AccusesWithin bundles.now general o.text.items o.negative) }
{
    'runs: for place in 0..bundles.len() {
        let bundle = &bundles[place];
        let convictions = judgements[place].convictions.as_slice();
        if let Some(evidence) = conviction_of(convictions, general) {
            return Ok(Output {
                text: write_evidence(alloc, bundle.header(), evidence)?,
                negative: false,
            });
        }
    }
    Ok(Output {
        text: Vec::new(alloc),
        negative: true,
    })
}

/// Returns the bytes of the evidence of a general's conviction across runs. If there is none, there are no bytes, and
/// the output says no.
fn accusation_across(
    alloc: Global,
    across: &[Evidence],
    general: GeneralNo,
) -> Result<Output, AllocError>
    requires evidence { AreEvidenceAcross (map told_of across.now) }
    requires claims { AreOfRuns (map told_of across.now) }
    ensures { IfOk result (λ o. TellsAcross (map told_of across.now) general o.text.items o.negative) }
{
    match conviction_of(across, general) {
        Some(evidence) => match &evidence.claim {
            Claim::Across { first, second: _ } => Ok(Output {
                text: write_evidence(alloc, &first.header, evidence)?,
                negative: false,
            }),
            _ => unreachable!(),
        },
        None => Ok(Output {
            text: Vec::new(alloc),
            negative: true,
        }),
    }
}

/// Returns the bytes of the evidence against a general, by the verdict on a bundle or a campaign. If there is none,
/// there are no bytes, and the output says no.
pub(crate) fn evidence_by(
    alloc: Global,
    general: GeneralNo,
    campaign: &CampaignBundle,
    verdict: &CampaignVerdict,
) -> Result<Output, AllocError>
    requires judged { AreJudged campaign.now.bundles verdict.now.judgements.items }
    requires across { AreConvictedAcross (shown_bundles campaign.now.bundles)
        (map told_of verdict.now.across.items) }
    requires held { ConvictsAcrossWhereHeld (shown_bundles campaign.now.bundles)
        (map told_of verdict.now.across.items) }
    requires lawful { AreEvidenceAcross (map told_of verdict.now.across.items) }
    ensures { IfOk result (λ o. AccusesRuns campaign.now.bundles general o.text.items o.negative) }
{
    let judgements = verdict.judgements.as_slice();
    let within = accusation_within(alloc, campaign.bundles(), judgements, general)?;
    if !within.negative {
        return Ok(within);
    }
    accusation_across(alloc, verdict.across.as_slice(), general)
}

/// Returns the bytes of the evidence against a general that the bundle or campaign in the input holds, whose runs must be
/// the ones that are asked for. For a bundle it is of the first claim that its exhibits hold against the general. For a
/// campaign it is that of the first run that holds any, else of the first claim across two runs. If there is no claim,
/// or the number is no general of the network, there are no bytes, and the output says no. The answer does not depend on
/// the number of workers. The input is taken, and its bytes are not copied.
///
/// # Errors
///
/// `Campaign` with the first fault of an input that spells neither; else `OtherRun` if the runs are others. `Memory` if
/// memory is refused; `Thread` if a worker's thread can't be started, so never for one worker.
#[tactic(auto, using(crate::proofs::AskedFaults::show_faults))]
pub fn accuse<T: Threads + Wait + Sync>(
    rt: &T,
    alloc: Global,
    workers: WorkerCount,
    asked: AskedRuns,
    general: GeneralNo,
    input: Vec<u8>,
) -> Result<Output, JobFault>
    ensures answer { IfOk result (λ o. IsAccusedOf asked general input.items o.text.items o.negative) }
    ensures fault { IfErr result (ByWorkers workers (IsShowFault asked input.items)) }
{
    let campaign = read_taken_campaign(alloc, input)?;
    check_runs(alloc, asked, campaign.bundles())?;
    let verdict = audit_campaign(rt, alloc, &campaign, workers, &Open)?;
    Ok(evidence_by(alloc, general, &campaign, &verdict)?)
}

/// Reads the bytes of a bundle or of a campaign to their end, and writes the bytes of the evidence against the general
/// that they hold. If there is none, nothing is written, and the end is negative. Nothing is written either if the runs
/// are others than those that are asked for.
///
/// A fault of the input is looked for after the whole input was read, and nothing is written before the output is
/// whole. If a read, a write, memory or a thread fails, the job ends with that fault.
#[tactic(auto, using(gen_ends::proofs::Delivering::output_engine))]
pub fn accuse_engine<T: Threads + Wait + Sync, R: Read, W: Write>(
    rt: &T,
    alloc: Global,
    workers: WorkerCount,
    asked: AskedRuns,
    general: GeneralNo,
    reader: &mut R,
    writer: &mut W,
) -> JobEnd
    // What is written is the evidence that what was read holds against the general.
    ensures answers { IfSome (R.remaining reader.old) (λ input.
        Answers (IsAccusedOf asked general input) (ByWorkers workers (IsShowFault asked input))
        (W.contents writer.old) (W.contents writer.new) result) }
    // What was read is within the limit.
    ensures taken { IfSome (R.remaining reader.old) (λ input. IsTaken input result) }
    // Nothing is written before the output is whole.
    ensures late { KeepsUntilWhole (W.contents writer.old) (W.contents writer.new) result }
{
    match read_all(alloc, reader) {
        Ok(input) => deliver(writer, accuse(rt, alloc, workers, asked, general, input)),
        Err(fault) => JobEnd::Failed(fault),
    }
}
