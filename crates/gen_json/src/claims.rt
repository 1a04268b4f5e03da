//! Claims as JSON.
ghost use Rattle.std.specs.Prelude.{◌≡◌, IfOk};
ghost use Rattle.serde_json.specs.View.{view};
ghost use Rattle.gen_convict.specs.Told.{told};
ghost use Rattle.gen_json.specs.ClaimData.{claim_data, statement_data, text_data};

use crate::numbers::{digits_value, path_value};
use crate::objects::ObjectBuilder;
use gen_convict::Claim;
use gen_local::Text;
use gen_types::{GeneralNo, OrderNo};
use serde_json::Value;
use std::alloc::{AllocError, Global};

/// Returns the statement of an order with a path.
fn statement_value(
    alloc: Global,
    order: OrderNo,
    generals: &[GeneralNo],
) -> Result<Value, AllocError>
    ensures { IfOk result (λ v. view v ≡ statement_data order generals.now) }
{
    let mut object = ObjectBuilder::new(alloc);
    object.put("order", Value::from(order.get()));
    object.put_made("path", path_value(alloc, generals));
    object.put_text("text", "statement");
    object.finish()
}

/// Returns what a general signed.
fn text_value(alloc: Global, text: &Text) -> Result<Value, AllocError>
    ensures { IfOk result (λ v. view v ≡ text_data text.now) }
{
    match text {
        Text::OfStatement(statement) => {
            statement_value(alloc, statement.order, statement.path.generals())
        }
        Text::OfHead(head) => {
            let mut object = ObjectBuilder::new(alloc);
            object.put("entries", Value::from(head.entries));
            object.put_made("last_link", digits_value(alloc, &head.last_link));
            object.put_text("text", "head");
            object.finish()
        }
    }
}

/// Returns what a claim says, without signatures and without the bytes of a log.
pub(crate) fn claim_value(alloc: Global, claim: &Claim) -> Result<Value, AllocError>
    ensures { IfOk result (λ v. view v ≡ claim_data (told claim.now)) }
{
    let mut object = ObjectBuilder::new(alloc);
    match claim {
        Claim::Texts { first, second } => {
            object.put_made("first", text_value(alloc, &first.text));
            object.put_made("second", text_value(alloc, &second.text));
            object.finish()
        }
        Claim::Orders { first, second, .. } => {
            let path = [GeneralNo::commander()];
            object.put_made("first", statement_value(alloc, *first, &path));
            object.put_made("second", statement_value(alloc, *second, &path));
            object.finish()
        }
        Claim::Missing { statement, .. } => {
            let path = statement.path.generals();
            object.put_made("missing", statement_value(alloc, statement.order, path));
            object.finish()
        }
        Claim::Departing { entry, .. } => {
            object.put("entry", Value::from(*entry));
            object.finish()
        }
        Claim::Across { first, second } => {
            object.put_made("first", text_value(alloc, &first.text.text));
            object.put_made("other_run", digits_value(alloc, second.header.run_id()));
            object.put_made("second", text_value(alloc, &second.text.text));
            object.finish()
        }
    }
}
