//! Deals pieces to workers.
ghost use Rattle.std.specs.Prelude.{◌≡◌, ◌++◌, IfOk, OnOk};
ghost use Rattle.gen_audit.specs.Loops.Dealing.{dealt, gets, turn_after};

use gen_local::Exhibit;
use std::alloc::{AllocError, Global};

/// Appends an exhibit to a worker's pieces if `turn` is 0. `turn` is the number of workers whose turn comes first, and
/// the result is that number after this exhibit. There are `last` + 1 workers.
fn deal(
    exhibit: &Exhibit,
    last: usize,
    turn: usize,
    pieces: &mut Vec<Exhibit>,
) -> Result<usize, AllocError>
    ensures turn { IfOk result (λ next. next ≡ turn_after last turn) }
    ensures pieces { OnOk result (pieces.new.items ≡ pieces.old.items ++ gets turn exhibit.now) }
{
    if turn > 0 {
        return Ok(turn - 1);
    }
    pieces.push(exhibit.share()?)?;
    Ok(last)
}

/// Returns the exhibits that a worker takes, in their order. Their bytes are not copied.
pub(crate) fn pieces_of(
    alloc: Global,
    exhibits: &[Exhibit],
    last: usize,
    worker: usize,
) -> Result<Vec<Exhibit>, AllocError>
    ensures { IfOk result (λ pieces. pieces.items ≡ dealt last worker exhibits.now) }
{
    let mut pieces = Vec::new(alloc);
    let mut turn = worker;
    let mut rest = exhibits;
    'exhibits: while let Some((exhibit, others)) = rest.split_first() {
        turn = deal(exhibit, last, turn, &mut pieces)?;
        rest = others;
    }
    Ok(pieces)
}
