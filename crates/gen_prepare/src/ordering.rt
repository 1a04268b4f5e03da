//! Puts logs into the order of their generals.
ghost use Rattle.std.specs.Prelude.{◌≡◌, IfOk};
ghost use Rattle.gen_prepare.specs.Gathering.{in_order};

use gen_local::Exhibit;
use gen_types::limits::MOST_GENERALS;
use std::alloc::{AllocError, Global};

/// Returns logs in ascending order of their generals. Those of one general stay in their order. Their bytes are
/// not copied. It fails only if memory was refused.
#[tactic(auto, using(crate::proofs::Ordered::taken_off))]
pub(crate) fn in_order(alloc: Global, logs: &[Exhibit]) -> Result<Vec<Exhibit>, AllocError>
    ensures { IfOk result (λ ordered. ordered.items ≡ in_order logs.now) }
{
    let mut ordered = Vec::with_capacity(alloc, logs.len())?;
    'generals: for general in 0..MOST_GENERALS {
        let mut rest = logs;
        'logs: while let Some((log, others)) = rest.split_first() {
            if log.general().get() == general {
                ordered.push(log.share()?)?;
            }
            rest = others;
        }
    }
    Ok(ordered)
}
