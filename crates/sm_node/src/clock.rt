//! Marks, and the next run, as they are told.
ghost use Rattle.std.specs.Prelude.{◌≡◌};
ghost use Rattle.sm_node.specs.Clock as clock;

use gen_identity::sizes::MOST_SETS;
use gen_node::MOST_RUNS;

/// In place of a run: there is none.
pub(crate) const NO_RUN: u32 = u32::MAX;

// A set of keys serves four runs at most.
const _: () = prove!(MOST_RUNS == 4 * MOST_SETS);

/// Returns the mark that a number says.
pub(crate) fn mark_of(mark: u32) -> Option<u32>
    ensures { result ≡ clock.mark_of mark }
{
    if mark == NO_RUN { None } else { Some(mark) }
}
