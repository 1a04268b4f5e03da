//! The commands of identities and systems: from what their words ask for to the exit status.
ghost use Rattle.std.specs.Prelude.{◌≡◌};
ghost use Rattle.gen_enrolling.specs.Resuming.{error_of};
ghost use Rattle.gen_program.specs.Ends.{enroll_status};
ghost use Rattle.gen_program.specs.Refusal.{IsStatus};

use crate::details::Detail;
use crate::ends::{end_written, fail_with};
use crate::program::refuse_terminal;
use crate::progress::ProgressLine;
use crate::reading::{Failure, read_file};
use crate::terminals::Terminals;
use crate::watching::WatchedWriter;
use gen_audit::WorkerCount;
use gen_enrolling::{
    EnrollError, EnrollFault, Enrolment, Made, NodeRoots, admission_of_files, enroll,
    header_admitted, identity_text, system_of_text,
};
use gen_jobs::{JobEnd, JobFault, Output, deliver};
use gen_system::Proposer;
use gen_types::{GeneralNo, ReadError, TreeHeight};
use gen_words::Systems;
use std::io;
use std::rt::Files;
use std::thread::Threads;

/// The exit status for a fault of an input.
const FAULT_STATUS: u8 = 3;

/// The word for standard input in the place of a file.
const STANDARD: &str = "-";

/// Returns the bytes of the file that a word names, or of standard input without a word.
fn read_input<'a, R: Files + Terminals + AllocGlobal + Input + Eprint>(
    rt: &R,
    word: Option<&'a str>,
) -> Result<Vec<u8>, Failure<'a>> {
    read_file(rt, word.unwrap_or(STANDARD))
}

/// Returns the file of roots of each node, in the order of the words.
fn read_roots_of<'a, R: Files + Terminals + AllocGlobal + Input + Eprint>(
    rt: &R,
    nodes: &[GeneralNo],
    files: &[&'a str],
) -> Result<Vec<NodeRoots>, Failure<'a>> {
    let mut all = Vec::new(rt.alloc());
    for (node, file) in nodes.iter().zip(files) {
        let bytes = read_file(rt, *file)?;
        if all.push(NodeRoots { node: *node, bytes }).is_err() {
            return Err(Failure::of_fault(JobFault::Memory));
        }
    }
    Ok(all)
}

/// What a command writes behind what it wrote as it worked, and the id of the system that it prints, if it does.
#[derive(Drop)]
struct Told {
    bytes: Vec<u8>,
    id: Option<[u8; 32]>,
}

/// Returns who proposes: each node in its turn, or node 0.
fn proposer_of(turns: bool) -> Proposer {
    if turns {
        Proposer::Turns
    } else {
        Proposer::First
    }
}

/// What a command writes, or the rule that an input breaks.
type Answer = Result<Told, EnrollError>;

/// Returns the answer of a command that tells no system.
fn told_alone(bytes: Result<Vec<u8>, ReadError<EnrollFault>>) -> Answer {
    Ok(Told {
        bytes: bytes?,
        id: None,
    })
}

/// Returns the answer of a command that writes bytes of a system, whose id is printed or not.
fn told_of_system(made: Result<Made, ReadError<EnrollFault>>, prints_id: bool) -> Answer {
    let Made { bytes, system } = made?;
    let id = if prints_id { Some(system) } else { None };
    Ok(Told { bytes, id })
}

/// What is asked of `enroll`, beside the files.
#[derive(Drop)]
struct Sets {
    levels: u8,
    height: TreeHeight,
    workers: WorkerCount,
}

/// Writes the roots of a secret, or what is missing behind those of a file, and tells a terminal how far it has come. Returns
/// the answer, which has nothing more to write, or why a file was not read, or the roots were not written.
fn enroll_files<'a, R: Files + Terminals + AllocGlobal + Input + Print + Eprint + Threads + Sync>(
    rt: &R,
    sets: &Sets,
    resume: Option<&'a str>,
    secret: Option<&'a str>,
) -> Result<Answer, Failure<'a>> {
    let secret = read_input(rt, secret)?;
    let front = match resume {
        Some(file) => read_file(rt, file)?,
        None => Vec::new(rt.alloc()),
    };
    let asked = Enrolment {
        secret: &secret,
        height: sets.height,
        levels: sets.levels,
        workers: sets.workers,
        front: &front,
    };
    let mut output = io::writer(rt);
    let mut writer = WatchedWriter::new(&mut output);
    let mut line = ProgressLine::new(rt, rt.tells_terminal());
    let end = enroll(rt, rt.alloc(), &asked, &mut writer, &mut line);
    line.end();
    match end {
        Ok(()) => Ok(told_alone(Ok(Vec::new(rt.alloc())))),
        Err(EnrollError::Write) => Err(Failure {
            fault: JobFault::Write,
            detail: Some(Detail::of_write(writer.failure)),
        }),
        Err(error) => Ok(Err(error)),
    }
}

/// Returns the answer of a command, or why a file was not read or not written.
fn answer_of<'a, R: Files + Terminals + AllocGlobal + Input + Print + Eprint + Threads + Sync>(
    rt: &R,
    systems: &Systems<'a>,
) -> Result<Answer, Failure<'a>> {
    let alloc = rt.alloc();
    match systems {
        Systems::Enroll {
            levels,
            height,
            workers,
            resume,
            secret,
        } => {
            let sets = Sets {
                levels: *levels,
                height: *height,
                workers: *workers,
            };
            enroll_files(rt, &sets, *resume, *secret)
        }
        Systems::Identity { roots } => {
            let roots = read_input(rt, *roots)?;
            Ok(told_alone(identity_text(alloc, &roots)))
        }
        Systems::System {
            levels,
            context,
            turns,
            height,
            prints_id,
            text,
        } => {
            let text = read_input(rt, *text)?;
            let proposer = proposer_of(*turns);
            let made = system_of_text(alloc, *height, proposer, *levels, *context, &text);
            Ok(told_of_system(made, *prints_id))
        }
        Systems::Admission {
            run,
            prints_id,
            system,
            nodes,
            roots,
        } => {
            let system = read_file(rt, *system)?;
            let files = read_roots_of(rt, nodes, roots)?;
            let made = admission_of_files(alloc, *run, &system, &files);
            Ok(told_of_system(made, *prints_id))
        }
        Systems::Admit {
            run,
            prints_id,
            admission,
        } => {
            let admission = read_input(rt, *admission)?;
            let made = header_admitted(alloc, *run, &admission);
            Ok(told_of_system(made, *prints_id))
        }
    }
}

/// Says the id of a system on standard error.
fn say_id<R: AllocGlobal + Eprint>(rt: &R, id: &[u8; 32]) {
    if let Ok(digits) = hex::encode(rt.alloc(), id) {
        let _ = eprintln!(rt; "{digits}");
    }
}

/// Tells why a command has no answer, and returns the exit status.
pub(crate) fn fail_enrolling<R: Eprint>(rt: &R, error: EnrollError) -> u8
    ensures value { result ≡ enroll_status error }
    ensures status { IsStatus result }
{
    match error {
        EnrollError::Memory => fail_with(rt, &Failure::of_fault(JobFault::Memory)),
        EnrollError::Write => fail_with(rt, &Failure::of_fault(JobFault::Write)),
        EnrollError::Fault(fault) => {
            let _ = eprintln!(rt; "{fault}");
            FAULT_STATUS
        }
        EnrollError::OtherRoots => {
            let _ = eprintln!(rt; "{error}");
            FAULT_STATUS
        }
    }
}

/// Tells why bytes are not the admission that is asked for, and returns the exit status.
pub(crate) fn fail_admission<R: Eprint>(rt: &R, error: ReadError<EnrollFault>) -> u8
    ensures { result ≡ enroll_status (error_of error) }
{
    match error {
        ReadError::Memory => fail_enrolling(rt, EnrollError::Memory),
        ReadError::Fault(fault) => fail_enrolling(rt, EnrollError::Fault(fault)),
    }
}

/// Writes what a command of identities and systems tells, and returns the exit status. If bytes would go to a terminal, it
/// is that for words.
pub(crate) fn finish_systems<
    R: Files + Terminals + AllocGlobal + Input + Print + Eprint + Threads + Sync,
>(rt: &R, systems: &Systems<'_>) -> u8
    ensures { IsStatus result }
{
    if !matches!(systems, Systems::Identity { roots: _ }) && rt.writes_terminal() {
        return refuse_terminal(rt);
    }
    match answer_of(rt, systems) {
        Ok(Ok(told)) => {
            let mut output = io::writer(rt);
            let mut writer = WatchedWriter::new(&mut output);
            let text = told.bytes;
            let negative = false;
            let end = deliver(&mut writer, Ok(Output { text, negative }));
            if let (JobEnd::Done, Some(id)) = (end, told.id) {
                say_id(rt, &id);
            }
            end_written(rt, end, writer.failure)
        }
        Ok(Err(error)) => fail_enrolling(rt, error),
        Err(failure) => fail_with(rt, &failure),
    }
}
