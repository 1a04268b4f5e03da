//! The acts of a general.
ghost use Rattle.std.specs.Prelude.{◌≡◌, IfOk};
ghost use Rattle.gen_async.specs.Acts.{acts_of};

use crate::acts::Act;
use gen_net::Net;
use gen_types::GeneralNo;
use std::alloc::{AllocError, Global};

/// Returns all acts of a general, in order: in each round a put to each neighbour, then a take from each.
pub(crate) fn plan(alloc: Global, net: &Net, me: GeneralNo) -> Result<Vec<Act>, AllocError>
    ensures { IfOk result (λ acts. acts.items ≡ acts_of net.now me) }
{
    let mut found = Vec::new(alloc);
    'generals: for number in 0..net.generals() {
        let other = GeneralNo::at(number);
        if net.has_edge(me, other) {
            found.push(other)?;
        }
    }
    let near = found.as_slice();
    let mut acts = Vec::new(alloc);
    'rounds: for round in 1..net.rounds() + 1 {
        'puts: for to in near {
            acts.push(Act::Puts(round, *to))?;
        }
        'takes: for from in near {
            acts.push(Act::Takes(round, *from))?;
        }
    }
    Ok(acts)
}
