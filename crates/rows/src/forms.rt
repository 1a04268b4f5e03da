//! The forms of jobs: over a reader and a writer, over bytes, in the thread that calls, and over a writer that fails.
ghost use Rattle.gen_asked.specs.Ranges.{IsInRange};

use gen_asked::Job;
use gen_audit::WorkerCount;
use gen_jobs::{
    JobEnd, JobFault, Output, accuse_engine, answer, answer_in_place, audit_engine, decide_engine,
    deliver, do_job, draw_engine, evidence_engine, judge_engine,
};
use std::alloc::Global;
use std::io::{self, ErrorKind, Write};
use std::sync::Wait;
use std::thread::Threads;

/// How a job is called.
#[derive(Clone, Copy)]
pub(crate) enum Form {
    /// By the call that does any job, over a reader and a writer.
    Engine,
    /// By its engine, or by the call over bytes.
    Bytes,
    /// By the call over bytes that starts no thread, if the job needs none.
    InPlace,
    /// By the call that does any job, over a writer that takes all bytes and loses them.
    Lost,
}

/// Takes all bytes, and says where it is flushed that they are lost.
#[derive(Drop)]
struct Lossy;

impl Write for Lossy {
    fn write(&mut self, buf: &[u8]) -> io::Result<usize> {
        Ok(buf.len())
    }

    fn flush(&mut self) -> io::Result<()> {
        Err(io::Error::from(ErrorKind::Interrupted))
    }
}

/// Returns the answer of a job to bytes.
fn answered<R: Threads + Wait + Sync>(
    rt: &R,
    alloc: Global,
    job: Job,
    input: &[u8],
) -> Result<Output, JobFault>
    requires { IsInRange job }
{
    answer(rt, alloc, job, None, input.to_vec(alloc)?)
}

/// Returns the answer of a job to bytes in the thread that calls, or by threads if the job needs them.
fn answered_in_place<R: Threads + Wait + Sync>(
    rt: &R,
    alloc: Global,
    job: Job,
    input: &[u8],
) -> Result<Output, JobFault>
    requires { IsInRange job }
{
    match job {
        Job::Run { .. } | Job::Judge { .. } | Job::Campaign { .. } => answered(
            rt, alloc, job, input,
        ),
        _ => Ok(answer_in_place(alloc, job, None, input)?.output),
    }
}

/// Does `judge` or `audit` by its engine, and any other job by the call over bytes.
fn judged<R: Threads + Wait + Sync>(
    rt: &R,
    alloc: Global,
    job: Job,
    input: &[u8],
    written: &mut Vec<u8>,
) -> JobEnd
    requires { IsInRange job }
{
    let mut reader = input;
    match job {
        Job::Judge {
            capacity,
            workers,
            strict,
            form,
        } => judge_engine(
            rt,
            alloc,
            capacity,
            workers,
            form,
            strict,
            None,
            &mut reader,
            written,
        ),
        Job::Audit {
            workers,
            asked,
            strict,
            form,
        } => audit_engine(
            rt,
            alloc,
            workers,
            &asked,
            form,
            strict,
            None,
            &mut reader,
            written,
        ),
        _ => deliver(written, answered(rt, alloc, job, input)),
    }
}

/// Does a job by its engine, `accuse` with three workers. `run`, `campaign` and jobs without an engine are done by the
/// call over bytes.
fn over_bytes<R: Threads + Wait + Sync>(
    rt: &R,
    alloc: Global,
    job: Job,
    input: &[u8],
    written: &mut Vec<u8>,
) -> JobEnd
    requires { IsInRange job }
{
    let mut reader = input;
    match job {
        Job::Decide { form } => decide_engine(alloc, form, &mut reader, written),
        Job::Draw { workers, asked } => {
            draw_engine(rt, alloc, workers, &asked, &mut reader, written)
        }
        Job::Accuse { general, asked } => {
            let three = WorkerCount::new(3).unwrap_or(WorkerCount::one());
            accuse_engine(rt, alloc, three, asked, general, &mut reader, written)
        }
        Job::Evidence { asked, form } => evidence_engine(alloc, form, asked, &mut reader, written),
        _ => judged(rt, alloc, job, input, written),
    }
}

/// Returns how a job ends in this form, and what it writes.
pub(crate) fn done<R: Threads + Wait + Sync>(
    rt: &R,
    alloc: Global,
    form: Form,
    job: Job,
    input: &[u8],
) -> (JobEnd, Vec<u8>)
    requires { IsInRange job }
{
    let mut reader = input;
    let mut written = Vec::new(alloc);
    let end = match form {
        Form::Engine => do_job(rt, alloc, job, None, &mut reader, &mut written),
        Form::Bytes => over_bytes(rt, alloc, job, input, &mut written),
        Form::InPlace => deliver(&mut written, answered_in_place(rt, alloc, job, input)),
        Form::Lost => do_job(rt, alloc, job, None, &mut reader, &mut Lossy),
    };
    (end, written)
}
