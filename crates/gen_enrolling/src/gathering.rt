//! Admissions from files of roots.
ghost use Rattle.std.specs.Prelude.{◌≡◌, ◌<◌, ◌^◌, IfOk, length};
ghost use Rattle.gen_types.specs.Reading.{Gives};
ghost use Rattle.gen_types.specs.Spelled.{IsRead};
ghost use Rattle.gen_enrolling.specs.Gathering.{admission_given, admission_made, file_is_own, opened_all, opened_each, opened_from, set_asked, system_read};

use crate::enroll_fault::EnrollFault;
use crate::enrolling::roots_read;
use crate::systems::Made;
use gen_enroll::Roots;
use gen_net::Version;
use gen_system::{Admission, OpenedRoot, System, set_of_run, system_alone, write_admission};
use gen_types::{GeneralNo, ReadError, TreeHeight, check};
use std::alloc::Global;

/// The file of roots of a node.
#[derive(Debug, Drop)]
pub struct NodeRoots {
    /// The node.
    pub node: GeneralNo,
    /// The bytes of the file.
    pub bytes: Vec<u8>,
}

/// Returns the system that the bytes are.
fn system_read(alloc: Global, bytes: &[u8]) -> Result<System, ReadError<EnrollFault>>
    ensures { IsRead result (system_read bytes.now) }
{
    match system_alone(alloc, bytes) {
        Ok(system) => Ok(system),
        Err(ReadError::Memory) => Err(ReadError::Memory),
        Err(ReadError::Fault(fault)) => Err(ReadError::Fault(EnrollFault::System(fault))),
    }
}

/// Returns whether a file of roots is that of a node's identity in a system.
fn file_is_own(system: &System, node: GeneralNo, roots: &Roots) -> bool
    requires { node < system.now.header.network.generals }
    ensures { result ≡ file_is_own system.now node roots.now }
{
    let head = roots.head();
    let is_high = match system.header().version() {
        Version::One => head.height == TreeHeight::Four,
        Version::Two { .. } => head.height == TreeHeight::Six,
    };
    is_high && head.levels == system.levels() && roots.identity().top == *system.header().root(node)
}

/// Returns the root of a set of a node, with its opening, from the node's file of roots.
#[tactic(auto, unfolding(crate::specs::Gathering::opened_from))]
fn opened_from(
    alloc: Global,
    system: &System,
    set: u32,
    node: GeneralNo,
    file: &NodeRoots,
) -> Result<OpenedRoot, ReadError<EnrollFault>>
    requires node { node < system.now.header.network.generals }
    requires set { set < 2 ^ system.now.levels }
    ensures { IsRead result (opened_from system.now set node file.now) }
{
    check(file.node == node, EnrollFault::FileCount)?;
    let roots = roots_read(alloc, &file.bytes)?;
    check(
        file_is_own(system, node, &roots),
        EnrollFault::OtherIdentity(node),
    )?;
    Ok(OpenedRoot {
        root: roots.roots()[set as usize],
        opening: roots.opening(set),
    })
}

/// Returns the roots of a set of all nodes, with their openings, from their files.
fn opened_all(
    alloc: Global,
    system: &System,
    set: u32,
    files: &[NodeRoots],
) -> Result<Vec<OpenedRoot>, ReadError<EnrollFault>>
    requires nodes { length files.now ≡ system.now.header.network.generals }
    requires set { set < 2 ^ system.now.levels }
    ensures value { Gives (λ opened. opened.items) result (opened_all system.now set 0 files.now) }
    ensures count { IfOk result (λ opened. length opened.items ≡ length files.now) }
{
    let mut opened = Vec::new(alloc);
    'files: for place in 0..system.header().net().generals() {
        let file = &files[usize::from(place)];
        opened.push(opened_from(alloc, system, set, GeneralNo::at(place), file)?)?;
    }
    Ok(opened)
}

/// Returns the roots of a set of all nodes, with their openings, if there is one file for each node.
#[tactic(auto, unfolding(crate::specs::Gathering::opened_each))]
fn opened_each(
    alloc: Global,
    system: &System,
    set: u32,
    files: &[NodeRoots],
) -> Result<Vec<OpenedRoot>, ReadError<EnrollFault>>
    requires set { set < 2 ^ system.now.levels }
    ensures value { Gives (λ opened. opened.items) result (opened_each system.now set files.now) }
    ensures count { IfOk result (λ opened. length opened.items ≡ system.now.header.network.generals) }
{
    let nodes = usize::from(system.header().net().generals());
    check(files.len() == nodes, EnrollFault::FileCount)?;
    opened_all(alloc, system, set, files)
}

/// Returns the set of the run with this number, if the system has the run.
#[tactic(auto, unfolding(crate::specs::Gathering::set_asked))]
fn set_asked(system: &System, run: u32) -> Result<u32, ReadError<EnrollFault>>
    ensures value { IsRead result (set_asked system.now run) }
    ensures below { IfOk result (λ set. set < 2 ^ system.now.levels) }
{
    let set = set_of_run(system.header().version(), run);
    if set < 1 << system.levels() {
        Ok(set)
    } else {
        Err(ReadError::Fault(EnrollFault::OtherSet))
    }
}

/// Returns the admission of these parts.
fn admission_made(
    system: System,
    set: u32,
    opened: Vec<OpenedRoot>,
) -> Result<Admission, ReadError<EnrollFault>>
    requires { length opened.items ≡ system.header.network.generals }
    ensures { IsRead result (admission_made system set opened.items) }
{
    match Admission::new(system, set, opened) {
        Ok(admission) => Ok(admission),
        Err(fault) => Err(ReadError::Fault(EnrollFault::Admission(fault))),
    }
}

/// Returns the admission of the set of the run with this number, from a system and the file of roots of each node, node 0
/// first.
///
/// # Errors
///
/// `System` with the first fault of the system's bytes; else `OtherSet` if the system has no such run; else `FileCount` if
/// there is not one file for each node; else the first fault of a file, node by node: `FileCount` if it is another node's,
/// `Roots` with the first fault of its bytes, or `OtherIdentity`. Memory if memory was refused.
#[tactic(auto, unfolding(crate::specs::Gathering::admission_given))]
pub fn admission_of_files(
    alloc: Global,
    run: u32,
    system: &[u8],
    files: &[NodeRoots],
) -> Result<Made, ReadError<EnrollFault>>
    ensures { Gives (λ made. (made.bytes.items, made.system)) result
        (admission_given run system.now files.now) }
{
    let system = system_read(alloc, system)?;
    let set = set_asked(&system, run)?;
    let opened = opened_each(alloc, &system, set, files)?;
    let admission = admission_made(system, set, opened)?;
    Ok(Made {
        bytes: write_admission(alloc, &admission)?,
        system: admission.system().id(alloc)?,
    })
}
