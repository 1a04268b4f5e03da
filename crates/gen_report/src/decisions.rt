//! Prints decisions as text.
ghost use Rattle.std.specs.Prelude.{◌≡◌, ◌++◌, OnOk, IfOk, string_bytes};
ghost use Rattle.gen_report.specs.Decisions.{listed, decisions_text};

use gen_scenario::Decision;
use gen_types::OrderSet;
use std::alloc::{AllocError, Global};

/// Appends the orders of a set, separated by commas, or a minus for the empty set.
fn push_orders(out: &mut String, orders: OrderSet) -> Result<(), AllocError>
    ensures { OnOk result (string_bytes out.new ≡ string_bytes out.old ++ listed orders) }
{
    let mut members = orders.iter();
    let Some(first) = members.next() else {
        return out.push_str("-");
    };
    let number = first.get();
    write!(out, "{number}")?;
    for order in members {
        let number = order.get();
        write!(out, ",{number}")?;
    }
    Ok(())
}

/// Returns the text of decisions: for each a line `general G set 0,1 decides V`, with `-` for the empty set.
pub fn print_decisions(alloc: Global, decisions: &[Decision]) -> Result<Vec<u8>, AllocError>
    ensures { IfOk result (λ v. v.items ≡ decisions_text decisions.now) }
{
    let mut out = String::new(alloc);
    for decision in decisions {
        let general = decision.general.get();
        let order = decision.order.get();
        write!(out, "general {general} set ")?;
        push_orders(&mut out, decision.orders)?;
        write!(out, " decides {order}\n")?;
    }
    Ok(out.into_bytes())
}
