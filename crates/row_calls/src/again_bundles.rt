//! Calls that are made with a bundle.
use crate::again_answers::{Answer, Failure, verdict_text};
use crate::again_scenarios::Open;
use crate::{again_campaigns, again_chains, again_logs, again_refuting, again_stores};
use gen_audit::{Bundle, WorkerCount, audit, read_bundle, write_bundle};
use std::alloc::Global;
use std::sync::Wait;
use std::thread::Threads;

/// Makes the call of this name.
pub(crate) fn call<R: Threads + Wait + Sync>(
    rt: &R,
    alloc: Global,
    name: &str,
    bundle: &Bundle,
    input: &[u8],
) -> Answer {
    match name {
        "audit" => verdict(rt, alloc, bundle),
        "refute" => again_refuting::call(rt, alloc, bundle),
        "read_bundle" => read_again(alloc, input),
        "write_campaign" => again_campaigns::call(alloc, input),
        _ => call_alone(alloc, name, bundle),
    }
}

/// Makes the call of this name, one of those that start no thread.
fn call_alone(alloc: Global, name: &str, bundle: &Bundle) -> Answer {
    match name {
        "read_chain" => again_chains::call(alloc, bundle),
        "LogWriter::append" => again_logs::call(alloc, bundle),
        "local_reports" => again_stores::call(alloc, bundle),
        _ => Err(Failure::Fault),
    }
}

/// Calls `read_bundle`, and `write_bundle` with what was read. Returns the bytes.
fn read_again(alloc: Global, input: &[u8]) -> Answer {
    let bundle = read_bundle(alloc, input)?;
    Ok(write_bundle(alloc, &bundle)?)
}

/// Calls `audit` with two workers. Returns the text of the verdict.
fn verdict<R: Threads + Wait + Sync>(rt: &R, alloc: Global, bundle: &Bundle) -> Answer {
    let two = WorkerCount::new(2).unwrap_or(WorkerCount::one());
    let judgement = audit(rt, alloc, bundle, two, &Open)?;
    verdict_text(alloc, bundle.header(), &judgement)
}
