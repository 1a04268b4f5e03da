//! Gives beginnings of paths as numbers, and the keys of beginnings that were sent.
ghost use Rattle.std.specs.Prelude.{ℕ, ◌≡◌, ◌+◌, ◌*◌, ◌^◌, ◌<◌, ◌≤◌, ◌++◌, OnOk, AllPairs, Contains, length};
ghost use Rattle.gen_types.specs.Ascending.{IsListOf};
ghost use Rattle.gen_match.specs.Prefixes as keys;

use crate::ranks::{GENERAL_SPAN, ORDER_SPAN, ROUND_SPAN};
use gen_types::{GeneralNo, OrderNo, Path};
use std::alloc::AllocError;

/// Returns the number of a path with one more general after the `count` generals of this number.
pub(crate) fn longer(number: u128, count: usize, general: GeneralNo) -> u128
    requires room { count < 16 }
    requires small { number < 2 * 16 ^ count }
    ensures value { result ≡ number * 16 + general }
    ensures small { result < 2 * 16 ^ (count + 1) }
{
    number * GENERAL_SPAN + u128::from(general.get())
}

/// Returns the key of a beginning of a path: from the beginning's number, the order and the number of generals of the
/// whole path.
pub(crate) fn source_key(number: u128, order: OrderNo, len: usize) -> u128
    requires small { number < 2 ^ 65 }
    requires few { len ≤ 16 }
    ensures { result ≡ keys.source_key number order len }
{
    (number * ORDER_SPAN + u128::from(order.get())) * ROUND_SPAN + len as u128
}

/// Returns the number of a path.
pub(crate) fn path_number(path: &Path) -> u128
    ensures value { result ≡ keys.path_number path.now }
    ensures small { result < 2 ^ 65 }
{
    let _at_most = path.len();
    let mut number = 1;
    let mut count = 0;
    let mut rest = path.generals();
    while let Some((general, others)) = rest.split_first() {
        number = longer(number, count, *general);
        count += 1;
        rest = others;
    }
    number
}

/// Appends the keys of all beginnings of a path.
pub(crate) fn put_begins(
    order: OrderNo,
    path: &Path,
    numbers: &mut Vec<u128>,
) -> Result<(), AllocError>
    ensures { OnOk result (numbers.new.items
        ≡ numbers.old.items ++ keys.begin_keys order (length path.now) 1 path.now) }
{
    let len = path.len();
    let mut number = 1;
    let mut count = 0;
    let mut rest = path.generals();
    while let Some((general, others)) = rest.split_first() {
        number = longer(number, count, *general);
        count += 1;
        numbers.push(source_key(number, order, len))?;
        rest = others;
    }
    Ok(())
}

/// Sorts numbers in ascending order, and keeps each once.
pub(crate) fn sort_apart(numbers: &mut Vec<u128>) -> Result<(), AllocError>
    ensures { OnOk result (IsListOf numbers.new.items (Contains numbers.old.items)) }
{
    numbers.sort()?;
    numbers.dedup();
    Ok(())
}

/// Whether one of these ascending numbers is at least `low` and below `high`.
pub(crate) fn has_between(numbers: &[u128], low: u128, high: u128) -> bool
    requires ascending { AllPairs (λ a b. a < b) numbers.now }
    requires above { low < high }
    ensures { result ≡ keys.has_between numbers.now low high }
{
    match numbers.binary_search(&low) {
        Ok(_) => true,
        Err(next) => match numbers.get(next) {
            Some(number) => *number < high,
            None => false,
        },
    }
}
