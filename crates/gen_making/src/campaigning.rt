//! The job `campaign`: runs the scenarios of a campaign, and writes the bundles of their runs.
ghost use Rattle.std.specs.Prelude.{◌≡◌, ◌<◌, IfErr, IfOk, IfSome, false, map};
ghost use Rattle.gen_scenario.specs.Rows.{logs_of_all};
ghost use Rattle.gen_ends.specs.Answering.{Answers};
ghost use Rattle.gen_making.specs.Campaigning.{AreTextsOf, IsCampaignFault, IsCampaignRun};
ghost use Rattle.gen_ends.specs.Ends.{IsTaken, KeepsUntilWhole};

use crate::bundle_text::BundleText;
use crate::campaign_text::{CampaignText, deliver_campaign};
use crate::running::bundle_with_logs;
use gen_campaign::{make_campaign, read_campaign_text, run_campaign, texts_make_campaigns};
use gen_ends::{JobEnd, JobFault, Open, Output, read_all};
use gen_log::SealedLog;
use gen_scenario::Scenario;
use std::alloc::{AllocError, Global};
use std::io::{Read, Write};
use std::sync::Wait;
use std::thread::Threads;

/// Returns the texts of the bundles of the runs of these scenarios with these logs.
fn texts_of_runs(
    alloc: Global,
    scenarios: &[Scenario],
    logs: Vec<Vec<SealedLog>>,
) -> Result<Vec<BundleText>, AllocError>
    requires { map (λ logs. logs.items) logs.items ≡ map logs_of_all scenarios.now }
    ensures { IfOk result (λ texts. AreTextsOf scenarios.now texts.items) }
{
    let mut texts = Vec::with_capacity(alloc, scenarios.len())?;
    let mut rest = scenarios;
    for logs in logs {
        let Some((scenario, others)) = rest.split_first() else {
            unreachable!()
        };
        let bundle = bundle_with_logs(alloc, scenario, logs)?;
        texts.push(BundleText::new(alloc, bundle)?)?;
        rest = others;
    }
    Ok(texts)
}

/// Returns what `campaign` returns, kept in pieces so that the logs need no copy.
fn campaign_in_pieces<T: Threads + Wait + Sync>(
    rt: &T,
    alloc: Global,
    capacity: u8,
    input: &[u8],
) -> Result<CampaignText, JobFault>
    requires { 0 < capacity }
    ensures answer { IfOk result (λ text. IsCampaignRun input.now text false) }
    ensures fault { IfErr result (IsCampaignFault input.now) }
{
    texts_make_campaigns();
    let plans = read_campaign_text(alloc, input)?;
    let campaign = make_campaign(rt, alloc, plans)?;
    let (logs, _leaves) = run_campaign(rt, alloc, &campaign, usize::from(capacity), &Open)?;
    let texts = texts_of_runs(alloc, campaign.scenarios(), logs)?;
    Ok(CampaignText::new(texts))
}

/// Returns the bytes of the campaign that the input spells. The output never says no. The trees of keys are made by
/// threads, once for all runs. Each general signs with one ring in all runs in which it has no script. The runs follow
/// one another, each with the bundle that the job `run` makes of it; the edges hold `capacity` frames each, at least one.
///
/// # Errors
///
/// `Scenario` with the first fault of an input that spells no campaign; `Memory` if memory is refused; `Thread` if a
/// thread can't be started.
pub fn campaign<T: Threads + Wait + Sync>(
    rt: &T,
    alloc: Global,
    capacity: u8,
    input: &[u8],
) -> Result<Output, JobFault>
    requires { 0 < capacity }
    ensures answer { IfOk result (λ o. IsCampaignRun input.now o.text.items o.negative) }
    ensures fault { IfErr result (IsCampaignFault input.now) }
{
    let pieces = campaign_in_pieces(rt, alloc, capacity, input)?;
    let mut text = Vec::new(alloc);
    match pieces.write_to(&mut text) {
        Ok(()) => Ok(Output {
            text,
            negative: false,
        }),
        // Only memory can be refused to what is written into memory.
        Err(_) => Err(JobFault::Memory),
    }
}

/// Reads the text of a campaign to its end, runs its scenarios one after another, and writes the campaign: the bundles
/// of all runs. Each general runs in a thread of its own; the edges hold `capacity` frames each, at least one.
///
/// A fault of the input is looked for after the whole input was read, and nothing is written before the output is
/// whole. If a read, a write, memory or a thread fails, the job ends with that fault.
#[tactic(auto, using(gen_ends::proofs::Delivering::text_engine))]
pub fn campaign_engine<T: Threads + Wait + Sync, R: Read, W: Write>(
    rt: &T,
    alloc: Global,
    capacity: u8,
    reader: &mut R,
    writer: &mut W,
) -> JobEnd
    requires { 0 < capacity }
    // What is written are the bundles of the runs of the campaign that was read.
    ensures answers { IfSome (R.remaining reader.old) (λ input.
        Answers (IsCampaignRun input) (IsCampaignFault input)
        (W.contents writer.old) (W.contents writer.new) result) }
    // What was read is within the limit.
    ensures taken { IfSome (R.remaining reader.old) (λ input. IsTaken input result) }
    // Nothing is written before the output is whole.
    ensures late { KeepsUntilWhole (W.contents writer.old) (W.contents writer.new) result }
{
    match read_all(alloc, reader) {
        Ok(input) => deliver_campaign(writer, campaign_in_pieces(rt, alloc, capacity, &input)),
        Err(fault) => JobEnd::Failed(fault),
    }
}
