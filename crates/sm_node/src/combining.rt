//! Makes one value of several decided ones.
ghost use Rattle.std.specs.Prelude.{IfOk};
ghost use Rattle.sm_node.specs.Combining.{AreRead, Combines};

use crate::starting::NO_ORDER;
use crate::told::NodeReply;
use gen_combine::{Combination, combined};
use gen_types::OrderNo;
use std::alloc::{AllocError, Global};

/// Returns the orders of these numbers, and None if and only if one of the numbers is no order's.
fn orders_of(alloc: Global, numbers: &[u8]) -> Result<Option<Vec<OrderNo>>, AllocError>
    ensures { IfOk result (AreRead numbers.now) }
{
    let mut orders = Vec::with_capacity(alloc, numbers.len())?;
    'orders: for number in numbers {
        match OrderNo::new(*number) {
            Some(order) => orders.push(order)?,
            None => return Ok(None),
        }
    }
    Ok(Some(orders))
}

/// Tells the order that a rule makes of orders. No order is told if there is no rule of this number, a number is no
/// order's, or there are no orders.
pub(crate) fn combine(alloc: Global, combination: u32, orders: &[u8], order: &mut u32) -> NodeReply
    ensures { Combines combination orders.now order.new result }
{
    *order = NO_ORDER;
    let Some(rule) = Combination::new(combination) else {
        return NodeReply::Misuse;
    };
    let decided = match orders_of(alloc, orders) {
        Ok(Some(decided)) => decided,
        Ok(None) => return NodeReply::Misuse,
        Err(_) => return NodeReply::Memory,
    };
    match combined(rule, decided.as_slice()) {
        Some(made) => {
            *order = u32::from(made.get());
            NodeReply::Done
        }
        None => NodeReply::Misuse,
    }
}
