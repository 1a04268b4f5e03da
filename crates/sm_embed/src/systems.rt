//! Makes what the calls for identities, systems and admissions answer.
ghost use Rattle.std.specs.Prelude.{◌≡◌, ◌≤◌, ◌^◌, [], ◌∷◌, IfErr, IfOk, IsSome, None, OnOk, map, true};
ghost use Rattle.gen_types.specs.Reading.{Gives};
ghost use Rattle.sm_embed.specs.Loops.Keeping.{HasFault, KeepsMade};
ghost use Rattle.sm_embed.specs.RunFacts.{system_fact};
ghost use Rattle.sm_embed.specs.Systems as answers;

use crate::enroll_lines::{enroll_fault_line, enroll_number};
use crate::kept::Kept;
use crate::making::hold;
use crate::numbers::{DONE, MEMORY};
use crate::opaque::SmAnswer;
use crate::run_facts::{push_runs, system_fact};
use gen_enroll::{Roots, RootsFault, roots_of_next_sets, write_roots};
use gen_enrolling::{
    EnrollFault, Made, NodeRoots, admission_of_files, header_admitted, identity_text,
    runs_admitted, system_of_text,
};
use gen_identity::State;
use gen_identity::sizes::MOST_LEVELS;
use gen_prepare::SeedFault;
use gen_system::Proposer;
use gen_types::limits::MOST_GENERALS;
use gen_types::{GeneralNo, ReadError, TreeHeight, check};
use std::alloc::{AllocError, Global};

/// The numbers of nodes are below this.
const NODES: u32 = MOST_GENERALS as u32;

/// The file of roots of a node, as a caller hands it in.
#[repr(C)]
pub struct SmRoots<'a> {
    /// The number of the node.
    pub node: u32,
    /// The bytes of the file.
    pub roots: &'a [u8],
}

/// Returns the height of the trees of sets that serve runs of this version. None for a version that is none, and for more
/// than 20 levels.
pub(crate) fn height_in(version: u32, levels: u32) -> Option<TreeHeight>
    ensures height { result ≡ answers.height_in version levels }
    ensures few { IsSome result → levels ≤ MOST_LEVELS }
{
    if levels > u32::from(MOST_LEVELS) {
        return None;
    }
    match version {
        1 => Some(TreeHeight::Four),
        2 => Some(TreeHeight::Six),
        _ => None,
    }
}

/// Returns who proposes: each node in its turn, unless the number is 0.
pub(crate) fn proposer_in(turns: u32) -> Proposer
    ensures { result ≡ answers.proposer_in turns }
{
    if turns == 0 {
        Proposer::First
    } else {
        Proposer::Turns
    }
}

/// Returns the number of sets of an identity with so many levels: 2 to the power of the levels.
fn sets_on(levels: u8) -> u32
    requires { levels ≤ MOST_LEVELS }
    ensures { result ≡ 2 ^ levels }
{
    1 << levels
}

/// Returns the file of the roots of all sets of a secret, whose trees are made in this thread.
#[tactic(auto, unfolding(crate::specs::Systems::file_made, gen_enrolling::specs::Enrolling::enrolled))]
pub(crate) fn file_made(
    alloc: Global,
    height: TreeHeight,
    levels: u8,
    secret: &[u8],
) -> Result<Kept, ReadError<EnrollFault>>
    ensures { Gives answers.parts_of result (answers.file_made height levels secret.now) }
{
    let Ok(secret) = <[u8; 32]>::try_from(secret) else {
        return Err(ReadError::Fault(EnrollFault::Secret(SeedFault::SeedLength)));
    };
    check(
        levels <= MOST_LEVELS,
        EnrollFault::Roots(RootsFault::TooManyLevels),
    )?;
    let roots = roots_of_next_sets(alloc, State::new(secret), height, sets_on(levels))?;
    let file = Roots::new(height, levels, roots);
    Ok(Kept {
        text: write_roots(alloc, &file)?,
        facts: Vec::new(alloc),
    })
}

/// Returns the line of the identity over the roots of a file.
#[tactic(auto, unfolding(crate::specs::Systems::identity_made))]
pub(crate) fn identity_made(alloc: Global, roots: &[u8]) -> Result<Kept, ReadError<EnrollFault>>
    ensures { Gives answers.parts_of result (answers.identity_made roots.now) }
{
    Ok(Kept {
        text: identity_text(alloc, roots)?,
        facts: Vec::new(alloc),
    })
}

/// Returns the bytes of a system with the fact of a run of it.
fn with_system(alloc: Global, number: u32, made: Made) -> Result<Kept, AllocError>
    ensures { IfOk result (λ kept.
        answers.parts_of kept ≡ (made.bytes.items, system_fact 0 number made.system ∷ [])) }
{
    let Made { bytes, system } = made;
    let mut facts = Vec::new(alloc);
    facts.push(system_fact(0, number, &system))?;
    Ok(Kept { text: bytes, facts })
}

/// Returns the system of the text of a header and these choices, with its id.
#[tactic(auto, unfolding(crate::specs::Systems::system_made))]
pub(crate) fn system_made(
    alloc: Global,
    height: TreeHeight,
    proposer: Proposer,
    levels: u8,
    context: [u8; 32],
    text: &[u8],
) -> Result<Kept, ReadError<EnrollFault>>
    ensures { Gives answers.parts_of result
        (answers.system_made height proposer levels context text.now) }
{
    let made = system_of_text(alloc, height, proposer, levels, context, text)?;
    Ok(with_system(alloc, 0, made)?)
}

/// Returns whether the number of each file's node is below 16.
pub(crate) fn are_nodes(files: &[SmRoots<'_>]) -> bool
    ensures { result ≡ answers.are_nodes files.now }
{
    files.iter().all(|file| file.node < NODES)
}

/// Returns the files of nodes as they are read.
fn files_of(alloc: Global, files: &[SmRoots<'_>]) -> Result<Vec<NodeRoots>, AllocError>
    requires { answers.are_nodes files.now ≡ true }
    ensures { IfOk result (λ read.
        map answers.read_file read.items ≡ map answers.given_file files.now) }
{
    let mut read = Vec::new(alloc);
    for file in files {
        read.push(NodeRoots {
            node: GeneralNo::at((file.node % NODES) as u8),
            bytes: Vec::from_slice(alloc, file.roots)?,
        })?;
    }
    Ok(read)
}

/// Returns the admission of the set of a run, from a system and the files of its nodes, with the run's number and the id
/// of the system.
#[tactic(auto, unfolding(crate::specs::Systems::admission_made))]
pub(crate) fn admission_made(
    alloc: Global,
    run: u32,
    system: &[u8],
    files: &[SmRoots<'_>],
) -> Result<Kept, ReadError<EnrollFault>>
    requires { answers.are_nodes files.now ≡ true }
    ensures made { IfOk result (answers.IsAdmission run system.now files.now) }
    ensures fault { IfErr result (HasFault (answers.IsAdmissionFault run system.now files.now)) }
{
    let read = files_of(alloc, files)?;
    let made = admission_of_files(alloc, run, system, &read)?;
    Ok(with_system(alloc, run, made)?)
}

/// Returns the header of the run with this number, which the admission that the bytes are admits in the system that is asked
/// for, and the facts of the run.
pub(crate) fn header_made(
    alloc: Global,
    run: u32,
    wanted: Option<[u8; 32]>,
    bytes: &[u8],
) -> Result<Kept, ReadError<EnrollFault>>
    ensures made { IfOk result (answers.IsAdmitted run wanted bytes.now) }
    ensures fault { IfErr result (HasFault (answers.IsAdmitFault run wanted bytes.now)) }
{
    let made = header_admitted(alloc, run, bytes)?;
    let mut admitted = runs_admitted(alloc, wanted.as_ref(), bytes)?;
    admitted.runs.retain(|told| told.number == run);
    let mut facts = Vec::new(alloc);
    push_runs(&mut facts, &admitted.system, &admitted.runs)?;
    Ok(Kept {
        text: made.bytes,
        facts,
    })
}

/// Keeps what is made, or the line of the fault in its place, and returns the number that says what is held.
pub(crate) fn keep_made(
    alloc: Global,
    made: Result<Kept, ReadError<EnrollFault>>,
    answer: &mut SmAnswer,
) -> u32
    requires { answer.old.held ≡ None }
    ensures { KeepsMade made answer.new.held result }
{
    match made {
        Ok(kept) => hold(alloc, kept, DONE, answer),
        Err(ReadError::Memory) => MEMORY,
        Err(ReadError::Fault(fault)) => {
            let number = enroll_number(&fault);
            match enroll_fault_line(alloc, fault) {
                Ok(line) => {
                    let text = line.into_bytes();
                    let facts = Vec::new(alloc);
                    hold(alloc, Kept { text, facts }, number, answer)
                }
                Err(_) => MEMORY,
            }
        }
    }
}
