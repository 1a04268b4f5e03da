//! Roots that are written piece by piece.
ghost use Rattle.std.specs.Prelude.{◌≡◌, ◌≤◌, ◌<◌, ◌-◌, IfOk};
ghost use Rattle.gen_enrolling.specs.Loops.{WritesWhole, roots_from};
ghost use Rattle.gen_enrolling.specs.Resuming.{Writes};

use crate::enroll_error::EnrollError;
use crate::progress::Progress;
use gen_audit::WorkerCount;
use gen_enroll::{append_roots, roots_of_sets};
use gen_identity::State;
use gen_types::TreeHeight;
use std::alloc::{AllocError, Global};
use std::io::Write;
use std::thread::Threads;

/// The most sets whose roots are made before they are written.
const SETS_A_PIECE: u32 = 256;

/// Writes a text, and flushes the writer.
pub(crate) fn write_whole<W: Write>(writer: &mut W, text: &[u8]) -> Result<(), EnrollError>
    ensures { WritesWhole text.now (W.contents writer.old) (W.contents writer.new) result }
{
    if writer.write_all(text).is_err() || writer.flush().is_err() {
        Err(EnrollError::Write)
    } else {
        Ok(())
    }
}

/// Returns the bytes of the roots of some sets, that of the state first, which the workers make side by side.
#[tactic(auto, unfolding(crate::specs::Loops::roots_from))]
fn piece_from<R: Threads + Sync>(
    rt: &R,
    alloc: Global,
    state: &State,
    height: TreeHeight,
    count: u32,
    workers: WorkerCount,
) -> Result<Vec<u8>, AllocError>
    ensures { IfOk result (λ bytes. bytes.items ≡ roots_from state.now height count) }
{
    let roots = roots_of_sets(rt, alloc, state, height, count, workers.get() as u8)?;
    let mut bytes = Vec::new(alloc);
    append_roots(&roots, &mut bytes)?;
    Ok(bytes)
}

/// Writes the roots of the sets from a state on, before which so many of all sets stand, piece by piece. Each piece is written
/// and told as soon as it is made.
///
/// # Errors
///
/// Memory if memory was refused, Write if a write failed.
pub(crate) fn write_sets<R: Threads + Sync, W: Write, P: Progress>(
    rt: &R,
    alloc: Global,
    state: State,
    height: TreeHeight,
    workers: WorkerCount,
    made: u32,
    all: u32,
    writer: &mut W,
    progress: &mut P,
) -> Result<(), EnrollError>
    requires { made ≤ all }
    ensures { Writes (roots_from state height (all - made))
        (W.contents writer.old) (W.contents writer.new) result }
{
    let mut next = state;
    let mut done = made;
    'pieces: while done < all {
        let count = SETS_A_PIECE.min(all - done);
        let piece = piece_from(rt, alloc, &next, height, count, workers)?;
        write_whole(writer, &piece)?;
        next = next.advance(count);
        done += count;
        progress.tell(done, all);
    }
    Ok(())
}
