//! The runs that an admission admits: their numbers, their ids, and which node each general is.
ghost use Rattle.std.specs.Prelude.{◌≡◌, IfErr, IfOk, map, option_map};
ghost use Rattle.std.specs.Bool.{Decides};
ghost use Rattle.gen_system.specs.Runs.{runs_of_set};
ghost use Rattle.gen_enrolling.specs.Admitted.{AreAdmitted, IsWanted, LacksRuns, nodes_of_run, run_in, runs_in_set, told_run};

use crate::admitting::admission_read;
use crate::enroll_fault::EnrollFault;
use gen_net::Version;
use gen_system::{Admission, System, header_of, run_by};
use gen_types::{GeneralNo, ReadError};
use std::alloc::{AllocError, Global};

/// A run of a system that an admission admits.
#[derive(Debug, Drop)]
pub struct AdmittedRun {
    /// The number of the run in the system.
    pub number: u32,
    /// The run id.
    pub id: [u8; 32],
    /// The node that each general of the run is, general by general.
    pub nodes: Vec<GeneralNo>,
}

/// The runs of the set of an admission that holds.
#[derive(Debug, Drop)]
pub struct AdmittedRuns {
    /// The id of the system.
    pub system: [u8; 32],
    /// The runs, ascending by number: one in version 1, and four in version 2, or those of them that were kept.
    pub runs: Vec<AdmittedRun>,
}

/// Returns the node that each general of the run with this number is, general by general.
///
/// # Errors
///
/// `AllocError` if memory is refused.
pub fn nodes_of_run(alloc: Global, system: &System, run: u32) -> Result<Vec<GeneralNo>, AllocError>
    ensures { IfOk result (λ nodes. nodes.items ≡ nodes_of_run system.now run) }
{
    let mut nodes = Vec::new(alloc);
    'generals: for general in 0..system.header().net().generals() {
        nodes.push(system.node_of(run, GeneralNo::at(general)))?;
    }
    Ok(nodes)
}

/// Returns the run with this number, which must be of the set of the admission to be admitted.
fn run_told(alloc: Global, admission: &Admission, run: u32) -> Result<AdmittedRun, AllocError>
    ensures { IfOk result (λ told. told_run told ≡ run_in admission.now run) }
{
    let header = header_of(alloc, admission, run)?;
    Ok(AdmittedRun {
        number: run,
        id: *header.run_id(),
        nodes: nodes_of_run(alloc, admission.system(), run)?,
    })
}

/// Returns how many runs a set of keys serves.
fn runs_of_set(version: Version) -> u8
    ensures { result ≡ runs_of_set version }
{
    match version {
        Version::One => 1,
        Version::Two { .. } => 4,
    }
}

/// Returns the runs of the set of an admission, ascending by number.
fn runs_in_set(alloc: Global, admission: &Admission) -> Result<Vec<AdmittedRun>, AllocError>
    ensures { IfOk result (λ runs. map told_run runs.items ≡ runs_in_set admission.now) }
{
    let version = admission.system().header().version();
    let mut runs = Vec::new(alloc);
    'slots: for slot in 0..runs_of_set(version) {
        let run = run_by(version, admission.set(), slot);
        runs.push(run_told(alloc, admission, run)?)?;
    }
    Ok(runs)
}

/// Returns whether the id of a system is the one that is asked for, if one is.
fn is_wanted(wanted: Option<&[u8; 32]>, id: &[u8; 32]) -> bool
    ensures { Decides result (IsWanted (option_map (λ w. w.now) wanted.entry) id.now) }
{
    match wanted {
        Some(wanted) => id == wanted,
        None => true,
    }
}

/// Returns the runs that an admission admits, and the id of its system, which must be this one, if one is given.
///
/// # Errors
///
/// `Admission` with the first fault of the bytes; else `Fails` if the admission does not hold; else `OtherSystem` if an id
/// is given, and the admission is of another system. Memory if memory was refused.
pub fn runs_admitted(
    alloc: Global,
    system: Option<&[u8; 32]>,
    bytes: &[u8],
) -> Result<AdmittedRuns, ReadError<EnrollFault>>
    // The bytes are an admission that holds, of the system that is told, and these are the runs of its set.
    ensures admitted { IfOk result (AreAdmitted (option_map (λ w. w.now) system.entry) bytes.now) }
    // A fault says why there are no such runs.
    ensures fault { IfErr result (LacksRuns (option_map (λ w. w.now) system.entry) bytes.now) }
{
    let admission = admission_read(alloc, bytes)?;
    if !admission.holds() {
        return Err(ReadError::Fault(EnrollFault::Fails));
    }
    let id = admission.system().id(alloc)?;
    if !is_wanted(system, &id) {
        return Err(ReadError::Fault(EnrollFault::OtherSystem));
    }
    Ok(AdmittedRuns {
        system: id,
        runs: runs_in_set(alloc, &admission)?,
    })
}
