//! Levels of generals, which show that no walk from a source to a general is shorter than the general's
//! level.
ghost use Rattle.std.specs.Prelude.{ℕ, IsTrue, ◌≡◌, ◌<◌, ◌↔◌};
ghost use Rattle.std.specs.Bool.{OnTrue, OnFalse};
ghost use Rattle.gen_walks.specs.Levels.{level, IsLevelRow, NoWalkIsShorter};
ghost use Rattle.gen_walks.specs.Loops.Checking.{IsSteep, IsEvenFrom};

use crate::inside::{are_joined, is_inside};
use gen_net::Net;
use gen_types::limits::MOST_GENERALS;
use gen_types::{GeneralNo, GeneralSet};
use std::marker::Model;

/// The number of levels of a row, one for each general of the largest network.
pub(crate) const GENERALS: usize = MOST_GENERALS as usize;

/// The level of a general that no walk reaches.
pub const UNREACHED: u8 = 255;

/// A level for each general: a number of edges from a source, 0 to 254, or `UNREACHED`. A contract sees
/// the list of 16 levels, general 0 first.
#[derive(Clone, Copy, Debug, PartialEq, Eq)]
pub struct LevelRow {
    levels: [u8; GENERALS],
}

impl Model for LevelRow {
    ghost use Rattle.std.specs.Prelude.{ℕ, List};

    ghost Value = { List ℕ };

    ghost view = { λ row. row.levels };

    ghost inverse = { λ row. record { levels = row } };
}

impl LevelRow {
    /// Returns the row of these levels, general 0 first. The levels of numbers that are not generals of a
    /// network don't count when the row is checked.
    pub fn new(levels: [u8; GENERALS]) -> LevelRow
        ensures { result ≡ levels }
    {
        LevelRow { levels }
    }

    /// Returns the level of the general.
    pub fn level(&self, general: GeneralNo) -> u8
        ensures { result ≡ level self.now general }
    {
        self.levels[usize::from(general.get())]
    }
}

/// Returns whether no edge inside the set is steep. An edge is steep if it leads to a level that is greater
/// by more than 1.
fn is_even(net: &Net, rest: &GeneralSet, row: &LevelRow) -> bool
    ensures yes { OnTrue result (
        (a : ℕ) → a < net.now.generals → IsEvenFrom net.now rest.now row.now a) }
    ensures no { OnFalse result ((a b : ℕ) × IsSteep net.now rest.now row.now a b) }
{
    for number in 0..net.generals() {
        let a = GeneralNo::at(number);
        for other in 0..net.generals() {
            let b = GeneralNo::at(other);
            if u16::from(row.level(a)) + 1 < u16::from(row.level(b))
                && are_joined(net, rest, a, b)
            {
                return false;
            }
        }
    }
    true
}

/// Returns whether the levels are a certificate of distances from the source: the source is inside the set
/// and has level 0, and no edge inside the set raises the level by more than 1.
///
/// If so, no walk inside the set from the source to a general has fewer edges than the level of this
/// general. Members of the set that are not generals of the network count as absent.
pub fn check_levels(net: &Net, rest: &GeneralSet, source: GeneralNo, row: &LevelRow) -> bool
    ensures exact { IsTrue result ↔ IsLevelRow net.now rest.now source row.now }
    ensures law { IsTrue result → NoWalkIsShorter net.now rest.now source row.now }
{
    is_inside(net, rest, source) && row.level(source) == 0 && is_even(net, rest, row)
}
