//! The trees of the keys of all generals, made by threads.
ghost use Rattle.std.specs.Prelude.{◌≡◌, ◌<◌, ◌≤◌, IfOk, map};
ghost use Rattle.std.specs.List.{range_with_len};
ghost use Rattle.gen_scenario.specs.Trees.{general_tree};

use gen_tree::{KeyTree, general_seed};
use gen_types::{GeneralNo, TreeHeight};
use rayon::prelude::*;
use std::alloc::{AllocError, Global};
use std::thread::Threads;

/// Makes the trees of the first `count` generals under a master seed, at most 16, in ascending order: the
/// trees of a scenario with that many generals. The work is shared among as many threads as there are
/// processors. If no more threads can be started, those that were do all of it, and at least this one.
///
/// # Errors
///
/// `AllocError` if memory is refused to any of the threads.
pub fn make_trees<R: Threads + Sync>(
    rt: &R,
    alloc: Global,
    master: &[u8; 32],
    height: TreeHeight,
    count: u8,
) -> Result<Vec<KeyTree>, AllocError>
    requires { count ≤ 16 }
    ensures { IfOk result (λ trees.
        trees.items ≡ map (general_tree master.now height) (range_with_len 0 count)) }
{
    (0..count)
        .into_par_iter()
        .with_min_len(1)
        .map(
            move |number: u8| -> Result<KeyTree, AllocError>
                requires { number < 16 }
                ensures { IfOk result (λ tree. tree ≡ general_tree master.entry.now height number) }
            {
                let seed = general_seed(master, GeneralNo::at(number));
                KeyTree::from_seed(alloc, &seed, height)
            },
        )
        .collect::<Result<Vec<KeyTree>, AllocError>>(rt, alloc)?
}
