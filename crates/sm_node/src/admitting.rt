//! Tells the run that an admission admits, for a caller that knows its system by the id alone.
ghost use Rattle.std.specs.Prelude.{◌≡◌, ◌↔◌, IfErr, IfOk, IsTrue};
ghost use Rattle.gen_system.specs.Systems.{system_id_of};
ghost use Rattle.sm_node.specs.Admitting.{IsFor, LacksAdmission, TellsAdmitted, admit_status, told_of};

use crate::faults::AdmitFault;
use crate::told::OTHER;
use gen_system::{Admission, admission_alone, header_of, set_of_run};
use gen_types::{GeneralNo, ReadError};
use std::alloc::{AllocError, Global};

/// What an admission tells of a run.
#[repr(C)]
#[derive(Clone, Copy)]
pub struct SmAdmitted {
    /// The run id.
    pub run_id: [u8; 32],
    /// The number of traitors that the run is planned for.
    pub traitors: u32,
    /// The number of the node that is the commander.
    pub proposer: u32,
}

/// What a call answers that tells the run that an admission admits. The call returns its number.
#[derive(Clone, Copy, Debug, PartialEq, Eq)]
pub enum AdmitReply {
    /// The admission admits the run in the system, and the run is told.
    Admitted,
    /// The bytes are no admission that holds of the run's set: the number of their fault is told.
    Fault,
    /// Memory was refused.
    Memory,
    /// The admission is of another system.
    OtherSystem,
}

impl AdmitReply {
    /// Returns the number that the call returns.
    pub fn status(self) -> u32
        ensures { result ≡ admit_status self }
    {
        match self {
            AdmitReply::Admitted => 0,
            AdmitReply::Fault => 3,
            AdmitReply::Memory => 4,
            AdmitReply::OtherSystem => OTHER,
        }
    }
}

/// Returns the admission that the bytes are, if it holds and the run is of its set.
fn admission_for(alloc: Global, run: u32, bytes: &[u8]) -> Result<Admission, ReadError<AdmitFault>>
    ensures admission { IfOk result (IsFor run bytes.now) }
    ensures fault { IfErr result (LacksAdmission run bytes.now) }
{
    let admission = match admission_alone(alloc, bytes) {
        Ok(admission) => admission,
        Err(ReadError::Memory) => return Err(ReadError::Memory),
        Err(ReadError::Fault(broken)) => return Err(ReadError::Fault(AdmitFault::Bytes(broken))),
    };
    if !admission.holds() {
        return Err(ReadError::Fault(AdmitFault::Fails));
    }
    if set_of_run(admission.system().header().version(), run) != admission.set() {
        return Err(ReadError::Fault(AdmitFault::OtherSet));
    }
    Ok(admission)
}

/// Returns whether an admission is of the system with this id.
fn is_of_system(alloc: Global, admission: &Admission, system: &[u8; 32]) -> Result<bool, AllocError>
    ensures { IfOk result (λ said. IsTrue said ↔ (system_id_of admission.now.system ≡ system.now)) }
{
    let id = admission.system().id(alloc)?;
    Ok(id == *system)
}

/// Returns what an admission tells of a run.
fn run_of(alloc: Global, admission: &Admission, run: u32) -> Result<SmAdmitted, AllocError>
    ensures { IfOk result (λ told. told ≡ told_of admission.now run) }
{
    let header = header_of(alloc, admission, run)?;
    // A network has two generals at least, so general 0 is one.
    let _generals = admission.system().header().net().generals();
    let proposer = admission.system().node_of(run, GeneralNo::at(0));
    Ok(SmAdmitted {
        run_id: *header.run_id(),
        traitors: u32::from(header.net().traitors()),
        proposer: u32::from(proposer.get()),
    })
}

/// Tells the run with this number that an admission admits in a system, or why none is told.
pub(crate) fn tell_admitted(
    alloc: Global,
    system: &[u8; 32],
    run: u32,
    bytes: &[u8],
    admitted: &mut SmAdmitted,
    fault: &mut u32,
) -> AdmitReply
    ensures { TellsAdmitted system.now run bytes.now admitted.old admitted.new fault.new result }
{
    *fault = 0;
    let admission = match admission_for(alloc, run, bytes) {
        Ok(admission) => admission,
        Err(ReadError::Memory) => return AdmitReply::Memory,
        Err(ReadError::Fault(broken)) => {
            *fault = broken.number();
            return AdmitReply::Fault;
        }
    };
    match is_of_system(alloc, &admission, system) {
        Ok(true) => {}
        Ok(false) => return AdmitReply::OtherSystem,
        Err(_) => return AdmitReply::Memory,
    }
    match run_of(alloc, &admission, run) {
        Ok(told) => {
            *admitted = told;
            AdmitReply::Admitted
        }
        Err(_) => AdmitReply::Memory,
    }
}
