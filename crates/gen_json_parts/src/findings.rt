//! Findings as JSON.
ghost use Rattle.std.specs.Prelude.{◌≡◌, IfOk};
ghost use Rattle.serde_json.specs.View.{view};
ghost use Rattle.gen_match.specs.declared.finding.Finding.TheVariants.{Unreadable};
ghost use Rattle.gen_json.specs.JsonData.{list_of};
ghost use Rattle.gen_json_parts.specs.FindingData.{about, about_message, finding_data};

use gen_file::push_log_fault;
use gen_json::ObjectBuilder;
use gen_log::LogFault;
use gen_match::Finding;
use gen_types::{GeneralNo, OrderNo};
use serde_json::Value;
use std::alloc::{AllocError, Global};

/// Returns a finding about a general, or about an entry of its log.
fn about(
    alloc: Global,
    id: &str,
    general: GeneralNo,
    entry: Option<usize>,
) -> Result<Value, AllocError>
    ensures { IfOk result (λ v. view v ≡ about id.now general entry) }
{
    let mut object = ObjectBuilder::new(alloc);
    object.put("general", Value::from(general.get()));
    object.put_text("id", id);
    if let Some(entry) = entry {
        object.put("entry", Value::from(entry));
    }
    object.finish()
}

/// Returns the finding that a log doesn't read.
fn unreadable(alloc: Global, general: GeneralNo, fault: LogFault) -> Result<Value, AllocError>
    ensures { IfOk result (λ v. view v ≡ finding_data (Unreadable general fault)) }
{
    let mut name = String::new(alloc);
    push_log_fault(&mut name, fault)?;
    let mut object = ObjectBuilder::new(alloc);
    object.put("fault", Value::String(name));
    object.put("general", Value::from(general.get()));
    object.put_text("id", "N3");
    object.finish()
}

/// Returns a finding about a message.
fn about_message(
    alloc: Global,
    id: &str,
    from: GeneralNo,
    to: GeneralNo,
    round: u8,
    order: OrderNo,
) -> Result<Value, AllocError>
    ensures { IfOk result (λ v. view v ≡ about_message id.now from to round order) }
{
    let mut object = ObjectBuilder::new(alloc);
    object.put("from", Value::from(from.get()));
    object.put_text("id", id);
    object.put("order", Value::from(order.get()));
    object.put("round", Value::from(round));
    object.put("to", Value::from(to.get()));
    object.finish()
}

/// Returns a finding: its number as in `N8`, and what it is about.
fn finding_value(alloc: Global, finding: &Finding) -> Result<Value, AllocError>
    ensures { IfOk result (λ v. view v ≡ finding_data finding.now) }
{
    match *finding {
        Finding::Missing { general } => about(alloc, "N1", general, None),
        Finding::Several { general } => about(alloc, "N2", general, None),
        Finding::Unreadable { general, fault } => unreadable(alloc, general, fault),
        Finding::Foreign { general } => about(alloc, "N4", general, None),
        Finding::Unsigned { general, entry } => about(alloc, "N5", general, Some(entry)),
        Finding::Unsealed { general } => about(alloc, "N6", general, None),
        Finding::Departs { general, entry } => about(alloc, "N7", general, Some(entry)),
        Finding::Unmatched {
            from,
            to,
            round,
            order,
        } => about_message(alloc, "N8", from, to, round, order),
        Finding::Underivable {
            from,
            to,
            round,
            order,
        } => about_message(alloc, "N9", from, to, round, order),
        Finding::Unjoined { first, second } => {
            let mut object = ObjectBuilder::new(alloc);
            object.put("first", Value::from(first.get()));
            object.put_text("id", "N10");
            object.put("second", Value::from(second.get()));
            object.finish()
        }
        Finding::Nobody => {
            let mut object = ObjectBuilder::new(alloc);
            object.put_text("id", "N11");
            object.finish()
        }
    }
}

/// Returns the list of findings.
pub(crate) fn findings_value(alloc: Global, findings: &[Finding]) -> Result<Value, AllocError>
    ensures { IfOk result (λ v. view v ≡ list_of finding_data findings.now) }
{
    let mut list = Vec::new(alloc);
    for finding in findings {
        let value = finding_value(alloc, finding)?;
        serde_json::push(&mut list, value)?;
    }
    Ok(Value::Array(list))
}
