//! A job from its reader to its writer.
ghost use Rattle.std.specs.Prelude.{IfSome, option_map};
ghost use Rattle.gen_ends.specs.Answering.{Answers};
ghost use Rattle.gen_ends.specs.Ends.{IsTaken, KeepsUntilWhole};
ghost use Rattle.gen_jobs.specs.Jobs.{JobAnswers, JobFails};
ghost use Rattle.gen_asked.specs.Ranges.{IsInRange};

use crate::answering::answer;
use gen_asked::Job;
use gen_ends::{JobEnd, deliver, read_all};
use gen_making::{campaign_engine, run_engine};
use std::alloc::Global;
use std::io::{Read, Write};
use std::sync::Wait;
use std::thread::Threads;

/// Does a job: reads its input to its end and writes the answer; nothing if the input has a fault. A verdict
/// as JSON tells the input's name, if it has one.
///
/// A fault of the input is looked for after the whole input was read, and nothing is written before the output is
/// whole. If a read, a write, memory or a thread fails, the job ends with that fault.
#[tactic(auto, using(gen_ends::proofs::Delivering::output_engine))]
pub fn do_job<T: Threads + Wait + Sync, R: Read, W: Write>(
    rt: &T,
    alloc: Global,
    job: Job,
    name: Option<&str>,
    reader: &mut R,
    writer: &mut W,
) -> JobEnd
    requires { IsInRange job }
    // What is written is what this job makes of what was read.
    ensures answers { IfSome (R.remaining reader.old) (λ input.
        Answers (JobAnswers job (option_map (λ t. t.now) name.entry) input) (JobFails job input)
        (W.contents writer.old) (W.contents writer.new) result) }
    // What was read is within the limit.
    ensures taken { IfSome (R.remaining reader.old) (λ input. IsTaken input result) }
    // Nothing is written before the output is whole.
    ensures late { KeepsUntilWhole (W.contents writer.old) (W.contents writer.new) result }
{
    match job {
        // The logs of a run are written in pieces, so that they need no copy.
        Job::Run { capacity } => run_engine(rt, alloc, capacity, reader, writer),
        Job::Campaign { capacity } => campaign_engine(rt, alloc, capacity, reader, writer),
        _ => match read_all(alloc, reader) {
            Ok(input) => deliver(writer, answer(rt, alloc, job, name, input)),
            Err(fault) => JobEnd::Failed(fault),
        },
    }
}
