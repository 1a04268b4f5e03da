//! Evidence that is refuted.
ghost use Rattle.std.specs.Prelude.{IfOk};
ghost use Rattle.gen_log.specs.Log.{IsLog};

use crate::again_answers::{Answer, Failure};
use crate::again_scenarios::Open;
use gen_audit::{Bundle, WorkerCount, audit};
use gen_convict::{Evidence, Refutation, check_evidence, is_own_log, refute};
use gen_log::{Log, read_log};
use gen_net::Header;
use gen_types::GeneralNo;
use std::alloc::Global;
use std::sync::Wait;
use std::thread::Threads;

/// Returns the first log that a bundle shows for a general.
fn log_of(alloc: Global, bundle: &Bundle, general: GeneralNo) -> Result<Log, Failure>
    ensures { IfOk result (λ log. IsLog bundle.now.header log) }
{
    for exhibit in bundle.exhibits() {
        if exhibit.general() == general {
            return Ok(read_log(alloc, bundle.header(), exhibit.log())?);
        }
    }
    Err(Failure::Fault)
}

/// Refutes evidence by the log of the accused. It is a fault if the evidence does not hold, or if the log
/// is not the accused general's own log.
fn answer_to(
    alloc: Global,
    header: &Header,
    evidence: &Evidence,
    own: &Log,
) -> Result<Refutation, Failure>
    requires { IsLog header.now own.now }
{
    if evidence.accused.get() >= header.net().generals() {
        return Err(Failure::Fault);
    }
    if !check_evidence(alloc, header, evidence)? || !is_own_log(header, evidence.accused, own) {
        return Err(Failure::Fault);
    }
    Ok(refute(alloc, header, evidence, own)?)
}

/// Returns the signature of the text that the refutation says is forged.
fn signature_in(alloc: Global, refutation: &Refutation) -> Answer {
    let Refutation::Forged(text) = refutation else {
        return Err(Failure::Fault);
    };
    let mut given = Vec::new(alloc);
    text.signature.append_to(&mut given)?;
    Ok(given)
}

/// Refutes evidence by the log that the bundle shows for the accused. Returns the signature of the text
/// that is said to be forged.
fn refuted(alloc: Global, bundle: &Bundle, evidence: &Evidence) -> Answer {
    let own = log_of(alloc, bundle, evidence.accused)?;
    let refutation = answer_to(alloc, bundle.header(), evidence, &own)?;
    signature_in(alloc, &refutation)
}

/// Calls `audit` with one worker, and then `check_evidence` and `refute` for the evidence against the
/// first general that it convicts. Returns the signature of the text that is said to be forged.
pub(crate) fn call<R: Threads + Wait + Sync>(rt: &R, alloc: Global, bundle: &Bundle) -> Answer {
    let judgement = audit(rt, alloc, bundle, WorkerCount::one(), &Open)?;
    match judgement.convictions.first() {
        Some(evidence) => refuted(alloc, bundle, evidence),
        None => Err(Failure::Fault),
    }
}
