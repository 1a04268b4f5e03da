//! A machine that is run act by act.
use crate::again_answers::{Answer, Failure};
use crate::again_scenarios::with_logs;
use gen_async::{Machine, Moved};
use gen_log::SealedLog;
use gen_scenario::Scenario;
use gen_types::GeneralNo;
use std::alloc::{AllocError, Global};

/// A number of acts that no run that is tried reaches.
const MOST_ACTS: u32 = 100_000;

/// Returns a checksum of these acts and of one more: the general that acted, and what became of the act.
fn noted(acts: u64, me: GeneralNo, moved: Moved) -> u64 {
    let number = match moved {
        Moved::Put => 0,
        Moved::Took => 16,
        Moved::Blocked => 32,
        Moved::Done => 48,
    };
    acts.wrapping_mul(67)
        .wrapping_add(number)
        .wrapping_add(u64::from(me.get()))
}

/// Makes act after act, each of the general that the machine names as its mover, until no general can act
/// or an act is refused.
fn act_on(alloc: Global, machine: &mut Machine, acts: &mut u64) -> Result<(), AllocError> {
    for _ in 0..MOST_ACTS {
        match machine.mover() {
            Some(me) if me.get() < machine.generals() => {
                *acts = noted(*acts, me, machine.act(alloc, me)?);
            }
            _ => break,
        }
    }
    Ok(())
}

/// Returns the logs of a machine that has ended, and no logs if a general can still act.
fn logs_of(alloc: Global, machine: Machine) -> Result<Vec<SealedLog>, AllocError> {
    if machine.capacity() == 0 || machine.mover().is_some() {
        machine.close();
        return Ok(Vec::new(alloc));
    }
    machine.finish(alloc)
}

/// Calls `Machine::new`, `Machine::act` for each act of a run, and `Machine::finish`. Returns a checksum
/// of the acts, and the logs. If an act is refused, the same act is made again on the same machine, and
/// then the others.
pub(crate) fn call(alloc: Global, scenario: &Scenario) -> Answer {
    let mut machine = Machine::new(alloc, scenario, 1)?;
    let mut acts = 1;
    if act_on(alloc, &mut machine, &mut acts).is_err()
        && act_on(alloc, &mut machine, &mut acts).is_err()
    {
        machine.close();
        return Err(Failure::Fault);
    }
    let logs = logs_of(alloc, machine)?;
    with_logs(alloc, &acts.to_be_bytes(), logs.as_slice())
}
