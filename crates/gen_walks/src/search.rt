//! The search by levels, and the best walk, which follows the levels.
ghost use Rattle.std.specs.Prelude.{ℕ, List, ◌≡◌, ◌≢◌, ◌+◌, ◌<◌, IfOk};
ghost use Rattle.std.specs.Bool.{OnTrue, OnFalse};
ghost use Rattle.gen_walks.specs.Walks.{IsInside, AreJoined, IsWalkInside};
ghost use Rattle.gen_walks.specs.Levels.{level, IsDistanceRow};
ghost use Rattle.gen_walks.specs.Loops.Search.{AreLevels, AreLevelRows, IsNextLevel, IsNearest};
ghost use Rattle.gen_walks.specs.BestWalks.{IsBestWalk};
ghost use Rattle.gen_net.specs.Network.{IsNetwork};

use crate::inside::are_joined;
use crate::levels::{GENERALS, LevelRow, UNREACHED};
use crate::lists::Walk;
use gen_net::Net;
use gen_types::limits::MOST_GENERALS;
use gen_types::{GeneralNo, GeneralSet};
use std::alloc::{AllocError, Global};

/// Returns whether an edge inside the set joins v to a general of level k.
fn is_near_level(net: &Net, rest: &GeneralSet, row: &LevelRow, k: u8, v: GeneralNo) -> bool
    ensures yes { OnTrue result ((u : ℕ) × AreJoined net.now rest.now u v × (level row.now u ≡ k)) }
    ensures no { OnFalse result (
        (u : ℕ) → AreJoined net.now rest.now u v → level row.now u ≡ k → ⊥) }
{
    for number in 0..net.generals() {
        let u = GeneralNo::at(number);
        if row.level(u) == k && are_joined(net, rest, u, v) {
            return true;
        }
    }
    false
}

/// Makes one round of the search, which turns the levels in `row` into those in `next`: level k + 1 goes to
/// each general that had none and that an edge inside the set joins to a general of level k. Returns whether
/// there was such a general.
fn spread(net: &Net, rest: &GeneralSet, row: &LevelRow, k: u8, next: &mut [u8; GENERALS]) -> bool
    requires k { k < 254 }
    requires same { next.old ≡ row.now }
    ensures next { let joined = AreJoined net.now rest.now in
        (v : ℕ) → v < 16 → IsNextLevel joined (level row.now) k v (level next.new v) }
    ensures yes { OnTrue result (
        (v : ℕ) × (v < 16) × (level row.now v ≡ 255) × (level next.new v ≢ 255)) }
    ensures no { OnFalse result ((v : ℕ) → v < 16 → level next.new v ≡ level row.now v) }
{
    let mut changed = false;
    for number in 0..MOST_GENERALS {
        let v = GeneralNo::at(number);
        if row.level(v) == UNREACHED && is_near_level(net, rest, row, k, v) {
            next[number as usize] = k + 1;
            changed = true;
        }
    }
    changed
}

/// Returns the levels by steps from the source inside the set. Rounds of the search are made until one
/// reaches no further general.
pub(crate) fn levels_from(net: &Net, rest: &GeneralSet, source: GeneralNo) -> LevelRow
    requires { IsNetwork net.now }
    ensures { AreLevels (AreJoined net.now rest.now) source (level result) }
{
    let mut levels = [UNREACHED; GENERALS];
    levels[source.get() as usize] = 0;
    for k in 0..MOST_GENERALS {
        let before = LevelRow::new(levels);
        if !spread(net, rest, &before, k, &mut levels) {
            return before;
        }
    }
    LevelRow::new(levels)
}

/// Returns the levels from one general of the set, which are the distances from it.
pub(crate) fn row_from(
    net: &Net,
    rest: &GeneralSet,
    rows: &[LevelRow],
    source: GeneralNo,
) -> LevelRow
    requires network { IsNetwork net.now }
    requires rows { AreLevelRows net.now rest.now net.now.generals rows.now }
    requires source { IsInside net.now rest.now source }
    ensures levels { AreLevels (AreJoined net.now rest.now) source (level result) }
    ensures distances { IsDistanceRow net.now rest.now source result }
{
    rows[usize::from(source.get())]
}

/// Returns the least general that is joined to `at` inside the set and whose level is one less.
fn nearest(net: &Net, rest: &GeneralSet, row: &LevelRow, at: GeneralNo) -> GeneralNo
    requires { (u : ℕ) ×
        AreJoined net.now rest.now at u × (level row.now at ≡ level row.now u + 1) }
    ensures { IsNearest (AreJoined net.now rest.now) (level row.now) at result }
{
    for number in 0..net.generals() {
        let next = GeneralNo::at(number);
        if u16::from(row.level(next)) + 1 == u16::from(row.level(at))
            && are_joined(net, rest, at, next)
        {
            return next;
        }
    }
    at
}

/// Returns the lexicographically least of the shortest walks from a to b inside the set, of which there
/// must be one. `row` has the levels from b. Each step of the walk goes to the least neighbour inside the
/// set whose level is one less, until the level is 0.
pub(crate) fn best_walk(
    alloc: Global,
    net: &Net,
    rest: &GeneralSet,
    row: &LevelRow,
    a: GeneralNo,
    b: GeneralNo,
) -> Result<Walk, AllocError>
    requires network { IsNetwork net.now }
    requires levels { AreLevels (AreJoined net.now rest.now) b (level row.now) }
    requires start { IsInside net.now rest.now a }
    requires joined { (walk : List ℕ) × IsWalkInside net.now rest.now a b walk }
    ensures { IfOk result (IsBestWalk net.now rest.now a b) }
{
    let mut generals = Vec::new(alloc);
    generals.push(a)?;
    let mut at = a;
    let mut left = row.level(a);
    while left > 0 {
        at = nearest(net, rest, row, at);
        generals.push(at)?;
        left -= 1;
    }
    Ok(Walk::new(generals))
}
