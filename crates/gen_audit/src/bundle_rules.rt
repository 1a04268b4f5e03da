//! Checks the rules of a bundle's parts when a bundle is made.
ghost use Rattle.std.specs.Prelude.{◌≡◌, ◌<◌, All, AllPairs, OnOk};
ghost use Rattle.gen_types.specs.Reading as steps;
ghost use Rattle.gen_net.specs.Edges.{goes_before};
ghost use Rattle.gen_log.specs.Fields.{AreBelow};
ghost use Rattle.gen_audit.specs.BundleMaking as making;
ghost use Rattle.gen_audit.specs.BundleParts as parts;

use crate::bundle_fault::BundleFault;
use gen_local::Exhibit;
use gen_types::limits::{MOST_EDGES, MOST_GENERALS};
use gen_types::{GeneralNo, GeneralSet};
use gen_walks::Walk;

/// The most walks of a bundle: one for each pair of generals.
pub const MOST_WALKS: usize = MOST_EDGES;

/// The fewest generals of a walk.
const FEWEST_IN_WALK: usize = 2;

/// The most generals of a walk: each once.
const MOST_IN_WALK: usize = MOST_GENERALS as usize;

/// The most exhibits of a bundle.
pub const MOST_EXHIBITS: usize = 64;

/// The least number of bytes that is too long for a log in a bundle: 2^32.
const TOO_LONG: usize = 1 << 32;

/// The pair before the ends of the first walk.
pub const NO_ENDS: (u8, u8) = (0, 0);

/// Returns the fault unless the rule holds.
pub fn check_rule(holds: bool, fault: BundleFault) -> Result<(), BundleFault>
    ensures { result ≡ steps.check holds fault }
{
    if holds { Ok(()) } else { Err(fault) }
}

/// Whether a walk may have this many generals: 2 to 16.
pub fn is_walk_length(count: usize) -> bool
    ensures { result ≡ making.is_walk_length count }
{
    FEWEST_IN_WALK <= count && count <= MOST_IN_WALK
}

/// Whether all generals of a set are below n.
pub fn is_set_below(set: &GeneralSet, n: u8) -> bool
    ensures value { result ≡ making.are_below n set.now }
    ensures ascending { AllPairs (λ v w. v < w) set.now }
{
    // Reading their number makes known that the members ascend.
    let _count = set.len();
    'generals: for general in set.iter() {
        if general.get() >= n {
            return false;
        }
    }
    true
}

/// Whether all generals are below n.
fn are_below(generals: &[GeneralNo], n: u8) -> bool
    ensures { result ≡ making.are_below n generals.now }
{
    generals.iter().all(|general| general.get() < n)
}

/// Returns the first and the last general of a walk.
pub fn ends_of(walk: &[GeneralNo]) -> (u8, u8)
    ensures { result ≡ parts.ends_of walk.now }
{
    match walk {
        [] => (0, 0),
        [first, ..] => (first.get(), walk[walk.len() - 1].get()),
    }
}

/// Whether the first general of a walk is less than its last, and this pair comes after `before`, the ends of the walk
/// before.
pub fn may_follow(before: (u8, u8), walk: &[GeneralNo]) -> bool
    ensures { result ≡ making.may_follow before walk.now }
{
    let (first, last) = ends_of(walk);
    first < last && (before.0 < first || (before.0 == first && before.1 < last))
}

/// Checks one walk after a walk with the ends `before`.
#[tactic(auto, unfolding(crate::specs::BundleMaking::walk_check))]
fn check_walk(n: u8, before: (u8, u8), walk: &[GeneralNo]) -> Result<(), BundleFault>
    ensures { result ≡ making.walk_check n before walk.now }
{
    check_rule(is_walk_length(walk.len()), BundleFault::WalkCount)?;
    check_rule(are_below(walk, n), BundleFault::BadWalk)?;
    check_rule(may_follow(before, walk), BundleFault::BadWalk)
}

/// Checks the number of walks and each walk.
#[tactic(auto, unfolding(crate::specs::BundleMaking::walks_check))]
pub fn check_all_walks(n: u8, walks: &[Walk]) -> Result<(), BundleFault>
    ensures { result ≡ making.walks_check n walks.now }
{
    check_rule(walks.len() <= MOST_WALKS, BundleFault::WalkCount)?;
    let mut before = NO_ENDS;
    let mut rest = walks;
    while let Some((walk, others)) = rest.split_first() {
        check_walk(n, before, walk.generals())?;
        before = ends_of(walk.generals());
        rest = others;
    }
    Ok(())
}

/// Checks one exhibit after an exhibit of the general `before`.
#[tactic(auto, unfolding(crate::specs::BundleMaking::exhibit_check))]
fn check_exhibit(n: u8, before: u8, exhibit: &Exhibit) -> Result<(), BundleFault>
    ensures value { result ≡ making.exhibit_check n before exhibit.now }
    ensures bytes { AreBelow 256 exhibit.now.bytes }
{
    let general = exhibit.general().get();
    let log = exhibit.log();
    check_rule(general < n, BundleFault::BadExhibit)?;
    check_rule(before <= general, BundleFault::OutOfOrder)?;
    check_rule(log.len() < TOO_LONG, BundleFault::LongLog)
}

/// Checks the number of exhibits and each exhibit.
#[tactic(auto, unfolding(crate::specs::BundleMaking::exhibits_check))]
pub fn check_all_exhibits(n: u8, exhibits: &[Exhibit]) -> Result<(), BundleFault>
    ensures value { result ≡ making.exhibits_check n exhibits.now }
    ensures bytes { OnOk result (All (λ x. AreBelow 256 x.bytes) exhibits.now) }
{
    check_rule(exhibits.len() <= MOST_EXHIBITS, BundleFault::BadExhibit)?;
    let mut before = 0;
    let mut rest = exhibits;
    while let Some((exhibit, others)) = rest.split_first() {
        check_exhibit(n, before, exhibit)?;
        before = exhibit.general().get();
        rest = others;
    }
    Ok(())
}
