//! Makes the roots of sets, by several workers.
ghost use Rattle.std.specs.Prelude.{◌≡◌, ◌≤◌, ◌<◌, ◌++◌, IfOk, OnOk};
ghost use Rattle.gen_identity.specs.Sets.{set_roots, identity_over, identity_of_secret};
ghost use Rattle.gen_enroll.specs.RootFiles.{file_of_secret};
ghost use Rattle.gen_enroll.specs.Loops.{set_states};

use crate::heads::sets_on;
use crate::root_files::Roots;
use crate::taking::append_roots_of_states;
use gen_identity::State;
use gen_identity::sizes::MOST_LEVELS;
use gen_types::TreeHeight;
use std::alloc::{AllocError, Global};
use std::thread::Threads;

/// The most sets whose roots are made before the workers are joined.
const SETS_A_TURN: u32 = 4096;

/// Returns the roots of `count` sets, that of the state first, whose trees have this height. It makes the tree of each
/// set, one after another, and keeps its root alone.
///
/// # Errors
///
/// `AllocError` if memory is refused.
pub fn roots_of_next_sets(
    alloc: Global,
    state: State,
    height: TreeHeight,
    count: u32,
) -> Result<Vec<[u8; 32]>, AllocError>
    ensures { IfOk result (λ roots. roots.items ≡ set_roots state height count) }
{
    let mut roots = Vec::with_capacity(alloc, count as usize)?;
    let mut state = state;
    'sets: for _ in 0..count {
        roots.push(state.root(alloc, height)?)?;
        state = state.next();
    }
    Ok(roots)
}

/// Returns the states of `count` sets, this one first.
fn states_of(alloc: Global, state: &[u8; 32], count: u32) -> Result<Vec<[u8; 32]>, AllocError>
    ensures { IfOk result (λ states. states.items ≡ set_states state.now count) }
{
    let mut states = Vec::with_capacity(alloc, count as usize)?;
    let mut next = State::new(*state);
    'sets: for _ in 0..count {
        states.push(*next.as_bytes())?;
        next = next.next();
    }
    Ok(states)
}

/// Appends the roots of `count` sets, that of the state first, which are made by the workers side by side.
fn append_turn<R: Threads + Sync>(
    rt: &R,
    alloc: Global,
    state: &[u8; 32],
    height: TreeHeight,
    count: u32,
    workers: u8,
    roots: &mut Vec<[u8; 32]>,
) -> Result<(), AllocError>
    ensures { OnOk result (roots.new.items ≡ roots.old.items ++ set_roots state.now height count) }
{
    let states = states_of(alloc, state, count)?;
    append_roots_of_states(rt, alloc, &states, height, workers, roots)
}

/// Returns the roots of `count` sets, that of the state first, whose trees have this height. They are the same whatever
/// the number of workers. The workers make trees side by side: each takes the next set that none took, of up to 4,096 at
/// a time, so none waits for a slower one but for its last tree. One of them works in the calling thread, each other in a
/// thread of its own where one can be started, and one alone starts none. Beside the roots less than a megabyte is held,
/// and one tree for each worker.
///
/// So a long run can be made in pieces: the next piece begins at the state that stands `count` steps behind this one.
///
/// # Errors
///
/// `AllocError` if memory is refused to any worker.
pub fn roots_of_sets<R: Threads + Sync>(
    rt: &R,
    alloc: Global,
    state: &State,
    height: TreeHeight,
    count: u32,
    workers: u8,
) -> Result<Vec<[u8; 32]>, AllocError>
    requires { 0 < workers }
    ensures { IfOk result (λ roots. roots.items ≡ set_roots state.now height count) }
{
    let mut roots = Vec::with_capacity(alloc, count as usize)?;
    let mut next = State::new(*state.as_bytes());
    let mut left = count;
    'turns: while left > 0 {
        let turn = left.min(SETS_A_TURN);
        append_turn(
            rt,
            alloc,
            next.as_bytes(),
            height,
            turn,
            workers,
            &mut roots,
        )?;
        next = next.advance(turn);
        left -= turn;
    }
    Ok(roots)
}

/// Returns the file of the roots of all sets of a secret, 2 to the power of the levels, set 0 first. The workers are
/// those of `roots_of_sets`. The identity over the file is that of the secret, `identity_of_sets`.
///
/// # Errors
///
/// `AllocError` if memory is refused to any worker.
pub fn roots_of_secret<R: Threads + Sync>(
    rt: &R,
    alloc: Global,
    secret: &[u8; 32],
    height: TreeHeight,
    levels: u8,
    workers: u8,
) -> Result<Roots, AllocError>
    requires levels { levels ≤ MOST_LEVELS }
    requires workers { 0 < workers }
    ensures file { IfOk result (λ file. file ≡ file_of_secret secret.now height levels) }
    // The identity over the file's roots is the secret's.
    ensures identity { IfOk result (λ file.
        identity_over file.roots file.levels ≡ identity_of_secret secret.now height levels) }
{
    let state = State::new(*secret);
    let roots = roots_of_sets(rt, alloc, &state, height, sets_on(levels), workers)?;
    Ok(Roots::new(height, levels, roots))
}
