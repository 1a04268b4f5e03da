//! What receipts tell, as JSON.
ghost use Rattle.std.specs.Prelude.{◌≡◌, IfOk};
ghost use Rattle.serde_json.specs.View.{view};
ghost use Rattle.gen_json.specs.JsonData.{list_of};
ghost use Rattle.gen_json.specs.Line.{ReadsAs, json_line};
ghost use Rattle.gen_receipting.specs.ToldData.{receipt_data, told_data};

use crate::told::{Told, ToldReceipt};
use gen_json::{JSON_VERSION, ObjectBuilder, digits_value, network_value, set_value, value_line};
use gen_net::Header;
use serde_json::Value;
use std::alloc::{AllocError, Global};

/// Returns what a receipt tells.
fn receipt_value(alloc: Global, receipt: &ToldReceipt) -> Result<Value, AllocError>
    ensures { IfOk result (λ v. view v ≡ receipt_data receipt.now) }
{
    let mut object = ObjectBuilder::new(alloc);
    object.put("decides", Value::from(receipt.decision.order.get()));
    object.put("entries", Value::from(receipt.entries));
    object.put("general", Value::from(receipt.decision.general.get()));
    object.put("holds", Value::from(receipt.holds));
    object.put_made("set", set_value(alloc, &receipt.decision.orders));
    object.finish()
}

/// Returns the list of what receipts tell.
fn receipts_value(alloc: Global, receipts: &[ToldReceipt]) -> Result<Value, AllocError>
    ensures { IfOk result (λ v. view v ≡ list_of receipt_data receipts.now) }
{
    let mut list = Vec::new(alloc);
    for receipt in receipts {
        let value = receipt_value(alloc, receipt)?;
        serde_json::push(&mut list, value)?;
    }
    Ok(Value::Array(list))
}

/// Returns what receipts of a run tell.
fn told_value(alloc: Global, header: &Header, told: &Told) -> Result<Value, AllocError>
    ensures { IfOk result (λ v. view v ≡ told_data header.now told.now) }
{
    let mut object = ObjectBuilder::new(alloc);
    object.put_made("convicted", set_value(alloc, &told.convicted));
    object.put_text("format", "receipts");
    object.put_made("network", network_value(alloc, header.net()));
    object.put_made("receipts", receipts_value(alloc, told.receipts.as_slice()));
    object.put_made("run", digits_value(alloc, header.run_id()));
    object.put_made("shown", set_value(alloc, &told.shown));
    object.put("version", Value::from(JSON_VERSION));
    object.finish()
}

/// Returns the line of JSON of what receipts of a run tell: the run id, the numbers of the network, what each receipt
/// tells and whether it holds, the orders that are shown, and the generals that are convicted.
///
/// # Errors
///
/// `AllocError` if memory is refused.
pub fn print_receipts_json(
    alloc: Global,
    header: &Header,
    told: &Told,
) -> Result<Vec<u8>, AllocError>
    // It is the line of this value, byte for byte.
    ensures text { IfOk result (λ line. line.items ≡ json_line (told_data header.now told.now)) }
    // A reader of JSON finds this value in it.
    ensures reads { IfOk result (λ line. ReadsAs line.items (told_data header.now told.now)) }
{
    let value = told_value(alloc, header, told)?;
    value_line(alloc, &value)
}
