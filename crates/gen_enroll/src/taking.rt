//! Makes the roots of the sets of states, which several workers take one after another.
ghost use Rattle.std.specs.Prelude.{◌≡◌, ◌<◌, ◌++◌, ℕ, List, Err, IfOk, IfSome, MatchResult, OnOk, length, map};
ghost use Rattle.std.specs.List.{All};
ghost use Rattle.gen_types.specs.declared.heights.TreeHeight.{TreeHeight as Height};
ghost use Rattle.gen_tree.specs.Rings.{ring_root};
ghost use Rattle.gen_identity.specs.States.{set_seed};
ghost use Rattle.gen_enroll.specs.Taking.{AreFound, AreMade, AreMadeByAll, AreThere};

use gen_identity::State;
use gen_types::TreeHeight;
use std::alloc::{AllocError, Global};
use std::sync::atomic::{AtomicUsize, Ordering};
use std::thread;
use std::thread::Threads;

/// A root that a worker made, and the place of its state.
#[derive(Clone, Copy)]
pub(crate) struct MadeRoot {
    pub(crate) place: usize,
    pub(crate) root: [u8; 32],
}

/// Returns the root of the set of a state.
fn root_of_state(
    alloc: Global,
    state: &[u8; 32],
    height: TreeHeight,
) -> Result<[u8; 32], AllocError>
    ensures { IfOk result (λ root. root ≡ ring_root (set_seed state.now) height) }
{
    State::new(*state).root(alloc, height)
}

/// Makes the roots of the states that one worker takes. Each time it takes that at the next place, which no other takes then.
fn made_by_one(
    alloc: Global,
    states: &[[u8; 32]],
    height: TreeHeight,
    next: &AtomicUsize,
) -> Result<Vec<MadeRoot>, AllocError>
    ensures { IfOk result (λ made. AreMade states.now height made.items) }
{
    let mut made = Vec::new(alloc);
    'states: for _ in 0..states.len() {
        let place = next.fetch_add(1, Ordering::SeqCst);
        if place >= states.len() {
            break;
        }
        let root = root_of_state(alloc, &states[place], height)?;
        made.push(MadeRoot { place, root })?;
    }
    Ok(made)
}

/// Returns what each worker made, side by side with the others.
fn made_by_all<R: Threads + Sync>(
    rt: &R,
    alloc: Global,
    states: &[[u8; 32]],
    height: TreeHeight,
    workers: u8,
) -> Result<Vec<Result<Vec<MadeRoot>, AllocError>>, AllocError>
    ensures { IfOk result (λ all. AreMadeByAll states.now height workers all.items) }
{
    let next = AtomicUsize::new(0);
    let next = &next;
    thread::map_indices(
        rt,
        alloc,
        usize::from(workers),
        &move |_worker: usize| -> Result<Vec<MadeRoot>, AllocError>
            ensures { IfOk result (λ made. AreMade states.entry.now height made.items) }
        { made_by_one(alloc, states, height, next) },
    )
}

/// Puts roots at the places of their states.
fn put_roots(made: &[MadeRoot], found: &mut [Option<[u8; 32]>])
    requires { All (λ m. m.place < length found.old) made.now }
    ensures there { AreThere made.now found.new }
    ensures found { (states : List (List ℕ)) (height : Height) → AreMade states height made.now
        → AreFound states height found.old → AreFound states height found.new }
{
    'roots: for it in made {
        found[it.place] = Some(it.root);
    }
}

/// Puts the roots that one worker made at the places of their states.
fn put_share(
    share: &Result<Vec<MadeRoot>, AllocError>,
    found: &mut [Option<[u8; 32]>],
) -> Result<(), AllocError>
    requires { IfOk share.now (λ made. All (λ m. m.place < length found.old) made.items) }
    ensures there { MatchResult share.now
        (λ made. AreThere made.items found.new) (λ refused. result ≡ Err refused) }
    ensures found { (states : List (List ℕ)) (height : Height) → IfOk share.now (λ made. AreMade states height made.items)
        → AreFound states height found.old → AreFound states height found.new }
{
    match share {
        Ok(made) => put_roots(made.as_slice(), found),
        Err(refused) => return Err(*refused),
    }
    Ok(())
}

/// Returns for each state the root that a worker made of it. A worker takes each state, though no clause says so.
fn found_roots<R: Threads + Sync>(
    rt: &R,
    alloc: Global,
    states: &[[u8; 32]],
    height: TreeHeight,
    workers: u8,
) -> Result<Vec<Option<[u8; 32]>>, AllocError>
    ensures { IfOk result (λ found. AreFound states.now height found.items) }
{
    let all = made_by_all(rt, alloc, states, height, workers)?;
    let mut found = vec![in alloc; None; states.len()]?;
    'workers: for worker in 0..usize::from(workers) {
        put_share(&all[worker], &mut found)?;
    }
    Ok(found)
}

/// Returns the root of a state, which is made here if it wasn't found.
fn found_or_made(
    alloc: Global,
    state: &[u8; 32],
    height: TreeHeight,
    found: Option<[u8; 32]>,
) -> Result<[u8; 32], AllocError>
    requires { IfSome found (λ root. root ≡ ring_root (set_seed state.now) height) }
    ensures { IfOk result (λ root. root ≡ ring_root (set_seed state.now) height) }
{
    match found {
        Some(root) => Ok(root),
        None => root_of_state(alloc, state, height),
    }
}

/// Appends the roots of states, in their order. The workers make them side by side: each takes the next state that none
/// took, so none waits for a slower one but for its last tree.
///
/// # Errors
///
/// `AllocError` if memory is refused to any worker.
pub(crate) fn append_roots_of_states<R: Threads + Sync>(
    rt: &R,
    alloc: Global,
    states: &[[u8; 32]],
    height: TreeHeight,
    workers: u8,
    roots: &mut Vec<[u8; 32]>,
) -> Result<(), AllocError>
    ensures { OnOk result (roots.new.items ≡ roots.old.items ++ map (λ state. ring_root (set_seed state) height) states.now) }
{
    let found = found_roots(rt, alloc, states, height, workers)?;
    'states: for place in 0..states.len() {
        roots.push(found_or_made(alloc, &states[place], height, found[place])?)?;
    }
    Ok(())
}
