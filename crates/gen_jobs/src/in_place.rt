//! Jobs in the caller's thread: no thread is started, and none is waited for.
//!
//! They serve callers that have no threads to give, such as a library for C.
ghost use Rattle.std.specs.Prelude.{◌≡◌, [], IfErr, IfOk, OnOk, option_map};
ghost use Rattle.gen_asked.specs.Ranges.{IsInRange};
ghost use Rattle.gen_jobs.specs.Facts.{JobFacts};
ghost use Rattle.gen_jobs.specs.Jobs.{JobAnswers, JobFails};

use gen_asked::Job;
use gen_ends::{JobFault, Output};
use gen_facts::Fact;
use gen_judging::{accuse_in_place, audit_in_place, draw_in_place, evidence};
use gen_making::{header, root};
use gen_receipting::{accuse_by_receipts, receipt, receipts};
use gen_telling::{decide, plan, show, tell};
use std::alloc::Global;

/// The answer of a job, and what it found as rows of numbers.
#[derive(Debug, Drop)]
pub struct Answered {
    /// The text, and whether it says no.
    pub output: Output,
    /// What was judged, decided or shown; nothing if the job neither judges nor decides, nor tells what receipts show.
    pub facts: Vec<Fact>,
}

/// Returns the answer of a job to an input, as `answer_in_place` does. `facts`, which is empty before, then holds what the
/// job found.
pub(crate) fn output_in_place(
    alloc: Global,
    job: Job,
    name: Option<&str>,
    input: &[u8],
    facts: &mut Vec<Fact>,
) -> Result<Output, JobFault>
    requires range { IsInRange job }
    requires empty { facts.old.items ≡ [] }
    ensures answer { IfOk result (λ o. JobAnswers job (option_map (λ t. t.now) name.entry) input.now
        o.text.items o.negative) }
    ensures fault { IfErr result (JobFails job input.now) }
    ensures facts { OnOk result (JobFacts job input.now facts.new.items) }
{
    match job {
        Job::Decide { form } => decide(alloc, form, input, facts),
        Job::Run { .. } | Job::Judge { .. } | Job::Campaign { .. } => Err(JobFault::Thread),
        Job::Audit {
            workers: _,
            asked,
            strict,
            form,
        } => audit_in_place(alloc, &asked, form, strict, name, input, facts),
        Job::Draw { workers: _, asked } => draw_in_place(alloc, &asked, input),
        Job::Accuse { general, asked } => accuse_in_place(alloc, asked, general, input),
        Job::AccuseReceipts { general, asked } => accuse_by_receipts(alloc, asked, general, input),
        Job::Evidence { asked, form } => evidence(alloc, form, asked, input),
        Job::Receipt { general, asked } => receipt(alloc, asked, general, input),
        Job::Receipts { asked, form } => receipts(alloc, form, asked, input, facts),
        Job::Show { asked, form } => show(alloc, form, asked, input),
        Job::Root { height } => root(alloc, height, input),
        Job::Header { version } => header(alloc, version, input),
        Job::Plan { version } => plan(alloc, version, input),
        Job::Tell { what } => tell(alloc, what, input),
    }
}

/// Returns the answer of a job to an input in the caller's thread, as `answer` does by threads, and what the job found as
/// facts. The jobs `run`, `judge` and `campaign` have none, for they need threads. A verdict as JSON tells the input's
/// name, if it has one.
///
/// `audit` tells the facts of the judgement on each run, of the convictions across two runs, and of the pairs of generals
/// that have the same root. `decide` tells the facts of the decisions, and `receipts` those of what receipts show. Every
/// other job tells none. The form and what counts as a no change no fact.
///
/// # Errors
///
/// The first fault of an input that the job doesn't take; `Memory` if memory is refused; `Thread` for `run`, `judge` and
/// `campaign`, and else never by one worker.
pub fn answer_in_place(
    alloc: Global,
    job: Job,
    name: Option<&str>,
    input: &[u8],
) -> Result<Answered, JobFault>
    requires { IsInRange job }
    ensures answer { IfOk result (λ a. JobAnswers job (option_map (λ t. t.now) name.entry) input.now
        a.output.text.items a.output.negative) }
    ensures fault { IfErr result (JobFails job input.now) }
    ensures facts { IfOk result (λ a. JobFacts job input.now a.facts.items) }
{
    let mut facts = Vec::new(alloc);
    let output = output_in_place(alloc, job, name, input, &mut facts)?;
    Ok(Answered { output, facts })
}
