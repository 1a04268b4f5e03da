//! Decisions as JSON.
ghost use Rattle.std.specs.Prelude.{◌≡◌, IfOk};
ghost use Rattle.serde_json.specs.View.{view};
ghost use Rattle.gen_json.specs.DecisionData.{decided_data, decision_data, decisions_data};
ghost use Rattle.gen_json.specs.JsonData.{list_of};
ghost use Rattle.gen_json.specs.Line.{ReadsAs, json_line};

use crate::lines::value_line;
use crate::numbers::{digits_value, network_value, set_value};
use crate::objects::{JSON_VERSION, ObjectBuilder};
use gen_net::Net;
use gen_scenario::Decision;
use gen_types::GeneralSet;
use serde_json::Value;
use std::alloc::{AllocError, Global};

/// Returns the list of which orders generals decided.
///
/// # Errors
///
/// `AllocError` if memory is refused.
pub fn all_decided_value(alloc: Global, decisions: &[Decision]) -> Result<Value, AllocError>
    ensures { IfOk result (λ v. view v ≡ list_of decided_data decisions.now) }
{
    let mut list = Vec::new(alloc);
    for decision in decisions {
        let mut object = ObjectBuilder::new(alloc);
        object.put("general", Value::from(decision.general.get()));
        object.put("order", Value::from(decision.order.get()));
        serde_json::push(&mut list, object.finish()?)?;
    }
    Ok(Value::Array(list))
}

/// Returns the list of decisions, each with the set of orders that it was made from.
fn decision_list_value(alloc: Global, decisions: &[Decision]) -> Result<Value, AllocError>
    ensures { IfOk result (λ v. view v ≡ list_of decision_data decisions.now) }
{
    let mut list = Vec::new(alloc);
    for decision in decisions {
        let mut object = ObjectBuilder::new(alloc);
        object.put("general", Value::from(decision.general.get()));
        object.put("order", Value::from(decision.order.get()));
        object.put_made("set", set_value(alloc, &decision.orders));
        serde_json::push(&mut list, object.finish()?)?;
    }
    Ok(Value::Array(list))
}

/// Returns decisions on a network. They are those of the generals that aren't among the faulty.
fn decisions_value(
    alloc: Global,
    net: &Net,
    run: Option<[u8; 32]>,
    faulty: &GeneralSet,
    decisions: &[Decision],
) -> Result<Value, AllocError>
    ensures { IfOk result (λ v. view v
        ≡ decisions_data net.now run faulty.now decisions.now) }
{
    let mut object = ObjectBuilder::new(alloc);
    object.put_made("decisions", decision_list_value(alloc, decisions));
    object.put_made("faulty", set_value(alloc, faulty));
    object.put_text("format", "decisions");
    object.put_made("network", network_value(alloc, net));
    object.put("version", Value::from(JSON_VERSION));
    match run {
        Some(id) => {
            object.put_made("run", digits_value(alloc, &id));
            object.finish()
        }
        None => {
            object.put("run", Value::Null);
            object.finish()
        }
    }
}

/// Returns the line of JSON of decisions on a network: its numbers, the run id or null, the generals that have scripts,
/// and for each decision the general, the orders of its set and the order that it decides.
///
/// # Errors
///
/// `AllocError` if memory is refused.
pub fn print_decisions_json(
    alloc: Global,
    net: &Net,
    run: Option<[u8; 32]>,
    faulty: &GeneralSet,
    decisions: &[Decision],
) -> Result<Vec<u8>, AllocError>
    // It is the line of this value, byte for byte.
    ensures text { IfOk result (λ line. line.items ≡ json_line
        (decisions_data net.now run faulty.now decisions.now)) }
    // A reader of JSON finds this value in it.
    ensures reads { IfOk result (λ line. ReadsAs line.items
        (decisions_data net.now run faulty.now decisions.now)) }
{
    let value = decisions_value(alloc, net, run, faulty, decisions)?;
    value_line(alloc, &value)
}
