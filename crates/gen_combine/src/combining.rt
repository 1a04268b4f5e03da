//! One value of several.
ghost use Rattle.std.specs.Prelude.{ℕ, ◌≡◌, ◌<◌, ◌↔◌, [], length, IsNone, IfSome};
ghost use Rattle.gen_combine.specs.Combined.{IsCombined, IsMedian, IsOfAll, IsOfMost, IsOneOrZero};
ghost use Rattle.gen_combine.specs.Numbered.{combination_number, combination_numbered};

use crate::counting::{is_of_all, is_of_most, reaches_half};
use gen_types::OrderNo;

/// The number of the value that stands for none: it is the safe one.
const SAFE: u8 = 0;

/// A rule that makes one value of several.
#[derive(Clone, Copy, PartialEq, Eq, Debug)]
pub enum Combination {
    /// The least value such that at least half of the values are at most it. Its number is 0.
    Median,
    /// The value that more than half of the values are; value 0 if there is none. Its number is 1.
    Majority,
    /// The value that all of the values are; value 0 if they differ. Its number is 2.
    All,
}

impl Combination {
    /// Returns the rule of this number, and None if and only if the number is above 2.
    pub fn new(number: u32) -> Option<Combination>
        ensures { result ≡ combination_numbered number }
    {
        match number {
            0 => Some(Combination::Median),
            1 => Some(Combination::Majority),
            2 => Some(Combination::All),
            _ => None,
        }
    }

    /// Returns the number of the rule, 0 to 2.
    pub fn number(self) -> u32
        ensures { result ≡ combination_number self }
    {
        match self {
            Combination::Median => 0,
            Combination::Majority => 1,
            Combination::All => 2,
        }
    }
}

/// Returns the least value such that at least half of the values are at most it.
fn median(decided: &[OrderNo]) -> OrderNo
    ensures { IsMedian decided.now result }
{
    let mut number = 0;
    'rising: while !reaches_half(decided, number) {
        number += 1;
    }
    OrderNo::at(number)
}

/// Returns the value that more than half of the values are, or value 0.
fn majority(decided: &[OrderNo]) -> OrderNo
    ensures { IsOneOrZero (IsOfMost decided.now) result }
{
    'values: for value in decided {
        if is_of_most(decided, *value) {
            return *value;
        }
    }
    OrderNo::at(SAFE)
}

/// Returns the value that all of the values are, or value 0.
fn common(decided: &[OrderNo]) -> OrderNo
    requires { 0 < length decided.now }
    ensures { IsOneOrZero (IsOfAll decided.now) result }
{
    let first = decided[0];
    if is_of_all(decided, first) {
        first
    } else {
        OrderNo::at(SAFE)
    }
}

/// Returns the value that the rule makes of values, of which there are some.
fn value_of(combination: Combination, decided: &[OrderNo]) -> OrderNo
    requires { 0 < length decided.now }
    ensures { IsCombined combination decided.now result }
{
    match combination {
        Combination::Median => median(decided),
        Combination::Majority => majority(decided),
        Combination::All => common(decided),
    }
}

/// Returns the value that the rule makes of the decided values, and None if and only if there are none.
pub fn combined(combination: Combination, decided: &[OrderNo]) -> Option<OrderNo>
    ensures none { IsNone result ↔ (decided.now ≡ []) }
    ensures some { IfSome result (IsCombined combination decided.now) }
{
    if decided.is_empty() {
        None
    } else {
        Some(value_of(combination, decided))
    }
}
