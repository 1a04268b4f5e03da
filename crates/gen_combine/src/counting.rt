//! How many of the decided values are like a value.
ghost use Rattle.std.specs.Prelude.{◌≡◌, ◌≤◌, ◌↔◌, IsTrue, length};
ghost use Rattle.gen_combine.specs.Combined as known;
ghost use Rattle.gen_combine.specs.Combined.{IsOfAll, IsOfMost, ReachesHalf};

use gen_types::OrderNo;

/// Returns how many of the values are at most this number.
fn count_up_to(decided: &[OrderNo], number: u8) -> usize
    ensures count { result ≡ known.count_up_to decided.now number }
    ensures within { result ≤ length decided.now }
    // No value is above 15.
    ensures greatest { 15 ≤ number → result ≡ length decided.now }
{
    let mut count = 0;
    'values: for value in decided {
        if value.get() <= number {
            count += 1;
        }
    }
    count
}

/// Returns whether at least half of the values are at most this number.
pub fn reaches_half(decided: &[OrderNo], number: u8) -> bool
    ensures half { IsTrue result ↔ ReachesHalf decided.now number }
    ensures greatest { 15 ≤ number → IsTrue result }
{
    let count = count_up_to(decided, number);
    decided.len() - count <= count
}

/// Returns how many of the values are this one.
fn count_of(decided: &[OrderNo], value: OrderNo) -> usize
    ensures count { result ≡ known.count_of decided.now value }
    ensures within { result ≤ length decided.now }
{
    let mut count = 0;
    'values: for other in decided {
        if other.get() == value.get() {
            count += 1;
        }
    }
    count
}

/// Returns whether more than half of the values are this one.
pub fn is_of_most(decided: &[OrderNo], value: OrderNo) -> bool
    ensures { IsTrue result ↔ IsOfMost decided.now value }
{
    let count = count_of(decided, value);
    decided.len() - count < count
}

/// Returns whether all of the values are this one.
pub fn is_of_all(decided: &[OrderNo], value: OrderNo) -> bool
    ensures { IsTrue result ↔ IsOfAll decided.now value }
{
    count_of(decided, value) == decided.len()
}
