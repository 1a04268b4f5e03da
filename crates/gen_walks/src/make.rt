//! The best walks of all pairs of a set of generals.
ghost use Rattle.std.specs.Prelude.{IfOk, IfErr};
ghost use Rattle.gen_net.specs.Network.{IsNetwork};
ghost use Rattle.gen_walks.specs.Walks.{IsPair, BoundsDiameter};
ghost use Rattle.gen_walks.specs.BestWalks.{IsBestFor, AreBestWalks};
ghost use Rattle.gen_walks.specs.Loops.Search.{AreLevelRows};
ghost use Rattle.gen_walks.specs.Faults.{Explains, IsWalkFault};

use crate::diameter::is_pair;
use crate::fault::{BadPair, WalkFault};
use crate::levels::{LevelRow, UNREACHED};
use crate::lists::{Walk, Walks};
use crate::search::{best_walk, levels_from, row_from};
use gen_net::Net;
use gen_types::{GeneralNo, GeneralSet};
use std::alloc::Global;

/// Returns the best walk of a pair, or the fault that says why the pair has no walk of at most d edges.
fn walk_for(
    alloc: Global,
    net: &Net,
    rest: &GeneralSet,
    rows: &[LevelRow],
    a: GeneralNo,
    b: GeneralNo,
) -> Result<Walk, WalkFault>
    requires network { IsNetwork net.now }
    requires rows { AreLevelRows net.now rest.now net.now.generals rows.now }
    requires pair { IsPair net.now rest.now a b }
    ensures ok { IfOk result (IsBestFor net.now rest.now (a, b)) }
    ensures err { IfErr result (Explains net.now rest.now a b) }
{
    let levels = row_from(net, rest, rows, a);
    let edges = levels.level(b);
    let pair = BadPair { a, b };
    if edges == UNREACHED {
        return Err(WalkFault::NoWalk { pair, levels });
    }
    if edges > net.diameter() {
        return Err(WalkFault::TooLong {
            pair,
            levels,
            edges,
        });
    }
    let back = row_from(net, rest, rows, b);
    Ok(best_walk(alloc, net, rest, &back, a, b)?)
}

/// Returns the best walk of each pair a < b of a set of generals, the rest, in the order of the pairs. The
/// best walk is the lexicographically least among the pair's shortest walks inside the set. So the walks
/// bound the set's diameter by d. Members of the set that are not generals of the network count as absent.
///
/// # Errors
///
/// The fault of the least pair that has no walk of at most d edges, with the distances from a. It is
/// NoWalk if no walk leads from a to b, and TooLong if the shortest walk has more than d edges. Memory if
/// memory was refused before such a pair was reached.
pub fn make_walks(alloc: Global, net: &Net, rest: &GeneralSet) -> Result<Walks, WalkFault>
    ensures best { IfOk result (AreBestWalks net.now rest.now) }
    ensures bound { IfOk result (BoundsDiameter net.now rest.now) }
    ensures err { IfErr result (IsWalkFault net.now rest.now) }
{
    let mut rows = Vec::new(alloc);
    'sources: for source in 0..net.generals() {
        rows.push(levels_from(net, rest, GeneralNo::at(source)))?;
    }
    let mut walks = Walks::new(alloc);
    for number in 0..net.generals() {
        let a = GeneralNo::at(number);
        for other in 0..net.generals() {
            let b = GeneralNo::at(other);
            if is_pair(net, rest, a, b) {
                let walk = walk_for(alloc, net, rest, &rows, a, b)?;
                walks.push(walk)?;
            }
        }
    }
    Ok(walks)
}
