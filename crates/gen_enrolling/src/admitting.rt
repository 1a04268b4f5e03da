//! Headers of runs from admissions.
ghost use Rattle.std.specs.Prelude.{◌≡◌, IfOk, IfErr};
ghost use Rattle.gen_types.specs.Spelled.{IsRead};
ghost use Rattle.gen_enrolling.specs.Admitting.{IsAdmittedHeader, LacksHeader, admission_read, is_of_set};

use crate::enroll_fault::EnrollFault;
use crate::systems::Made;
use gen_net::{Version, header_bytes};
use gen_system::{Admission, admission_alone, header_of, set_of_run};
use gen_types::ReadError;
use std::alloc::Global;

/// Returns the admission that the bytes are.
pub(crate) fn admission_read(
    alloc: Global,
    bytes: &[u8],
) -> Result<Admission, ReadError<EnrollFault>>
    ensures { IsRead result (admission_read bytes.now) }
{
    match admission_alone(alloc, bytes) {
        Ok(admission) => Ok(admission),
        Err(ReadError::Memory) => Err(ReadError::Memory),
        Err(ReadError::Fault(fault)) => Err(ReadError::Fault(EnrollFault::Admission(fault))),
    }
}

/// Returns whether a run is of the set with this number.
pub(crate) fn is_of_set(version: Version, set: u32, run: u32) -> bool
    ensures { result ≡ is_of_set version set run }
{
    set_of_run(version, run) == set
}

/// Returns the header of the run with this number, which an admission admits.
///
/// # Errors
///
/// `Admission` with the first fault of the bytes; else `Fails` if the admission does not hold; else `OtherSet` if the run is
/// not of its set; Memory if memory was refused.
pub fn header_admitted(
    alloc: Global,
    run: u32,
    bytes: &[u8],
) -> Result<Made, ReadError<EnrollFault>>
    // The bytes are an admission, which admits the header for the run in the system that is named.
    ensures made { IfOk result (IsAdmittedHeader run bytes.now) }
    // A fault says why there is no such header.
    ensures fault { IfErr result (LacksHeader run bytes.now) }
{
    let admission = admission_read(alloc, bytes)?;
    if !admission.holds() {
        return Err(ReadError::Fault(EnrollFault::Fails));
    }
    let system = admission.system();
    if !is_of_set(system.header().version(), admission.set(), run) {
        return Err(ReadError::Fault(EnrollFault::OtherSet));
    }
    let header = header_of(alloc, &admission, run)?;
    Ok(Made {
        bytes: header_bytes(alloc, &header)?,
        system: system.id(alloc)?,
    })
}
