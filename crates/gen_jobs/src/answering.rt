//! The answer of a job to an input.
ghost use Rattle.std.specs.Prelude.{◌≡◌, IfErr, IfOk, option_map};
ghost use Rattle.gen_asked.specs.Ranges.{IsInRange};
ghost use Rattle.gen_jobs.specs.Jobs.{JobAnswers, JobFails};

use crate::in_place::output_in_place;
use crate::judging::judge;
use gen_asked::Job;
use gen_audit::WorkerCount;
use gen_ends::{JobFault, Output};
use gen_judging::{accuse, audit, draw};
use gen_making::{campaign, run};
use std::alloc::Global;
use std::sync::Wait;
use std::thread::Threads;

/// Returns the answer of a job to an input: the text that the program writes, and whether it says no. A verdict as JSON
/// tells the input's name, if it has one. The answer does not depend on the number of workers. The input is taken, and
/// `audit`, `draw` and `accuse` don't copy its bytes unless generals are asked for.
///
/// # Errors
///
/// The first fault of an input that the job doesn't take; `Memory` if memory is refused; `Thread` if a thread can't be
/// started.
pub fn answer<T: Threads + Wait + Sync>(
    rt: &T,
    alloc: Global,
    job: Job,
    name: Option<&str>,
    input: Vec<u8>,
) -> Result<Output, JobFault>
    requires { IsInRange job }
    // The answer is what this job makes of the input.
    ensures answer { IfOk result (λ o. JobAnswers job (option_map (λ t. t.now) name.entry) input.items
        o.text.items o.negative) }
    // The fault is one that this job has at the input.
    ensures fault { IfErr result (JobFails job input.items) }
{
    match job {
        Job::Run { capacity } => run(rt, alloc, capacity, &input),
        Job::Judge {
            capacity,
            workers,
            strict,
            form,
        } => judge(rt, alloc, capacity, workers, form, strict, name, &input),
        Job::Campaign { capacity } => campaign(rt, alloc, capacity, &input),
        Job::Audit {
            workers,
            asked,
            strict,
            form,
        } => audit(rt, alloc, workers, &asked, form, strict, name, input),
        Job::Draw { workers, asked } => draw(rt, alloc, workers, &asked, input),
        Job::Accuse { general, asked } => {
            accuse(rt, alloc, WorkerCount::one(), asked, general, input)
        }
        _ => {
            let mut facts = Vec::new(alloc);
            output_in_place(alloc, job, name, &input, &mut facts)
        }
    }
}
