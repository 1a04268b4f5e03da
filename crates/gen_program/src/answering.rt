//! Jobs from an input to standard output.
ghost use Rattle.gen_asked.specs.Ranges.{IsInRange};
ghost use Rattle.gen_program.specs.Ends.{IsEnd};

use crate::admitting::finish_admitted;
use crate::asking::Asking;
use crate::details::{STANDARD_INPUT, Seen};
use crate::ends::{Ended, finish_seen, finish_unopened};
use crate::naming::do_and_tell;
use crate::reading::tell_waiting;
use crate::sources::Source;
use crate::terminals::Terminals;
use crate::watching::{WatchedReader, WatchedWriter};
use gen_asked::Job;
use gen_jobs::do_job;
use std::fs::File;
use std::io;
use std::io::Read;
use std::rt::Files;
use std::sync::Wait;
use std::thread::Threads;

/// Does a job from a reader to standard output, and returns how it ended. The reader's file has this name, if it has one.
pub(crate) fn finish_over<R: AllocGlobal + Print + Eprint + Threads + Wait + Sync, S: Read>(
    rt: &R,
    asking: &Asking<'_>,
    name: Option<&str>,
    reader: &mut S,
) -> Ended
    requires { IsInRange asking.now.job.now }
    ensures { IsEnd result }
{
    let (job, prints_runs) = (asking.job, asking.prints_runs);
    let mut output = io::writer(rt);
    let mut reader = WatchedReader::new(reader);
    let mut writer = WatchedWriter::new(&mut output);
    let end = if prints_runs || matches!(job, Job::Header { version: _ }) {
        do_and_tell(rt, job, prints_runs, &mut reader, &mut writer)
    } else {
        do_job(rt, rt.alloc(), *job, name, &mut reader, &mut writer)
    };
    let seen = Seen {
        file: name.unwrap_or(STANDARD_INPUT),
        front: reader.front.as_slice(),
        read: reader.failure,
        write: writer.failure,
    };
    finish_seen(rt, asking, name, end, &seen)
}

/// Does what is asked from a reader to standard output, and returns how it ended. The reader's file has this name, if it has
/// one.
fn finish_reader<R: AllocGlobal + Print + Eprint + Threads + Wait + Sync, S: Read>(
    rt: &R,
    asking: &Asking<'_>,
    name: Option<&str>,
    reader: &mut S,
) -> Ended
    requires { IsInRange asking.now.job.now }
    ensures { IsEnd result }
{
    match &asking.admission {
        Some(admission) => finish_admitted(rt, asking, admission, name, reader),
        None => finish_over(rt, asking, name, reader),
    }
}

/// Does what is asked of an input, and returns how it ended.
pub(crate) fn finish_source<
    R: Files + Terminals + AllocGlobal + Input + Print + Eprint + Threads + Wait + Sync,
>(rt: &R, asking: &Asking<'_>, source: Source<'_>) -> Ended
    requires { IsInRange asking.now.job.now }
    ensures { IsEnd result }
{
    match source {
        Source::Standard => {
            tell_waiting(rt);
            finish_reader(rt, asking, None, &mut rt.reader())
        }
        Source::Named(name) => match File::open(rt, name) {
            Ok(mut file) => finish_reader(rt, asking, Some(name), &mut file),
            Err(error) => finish_unopened(rt, asking.job, name, error),
        },
    }
}
