//! What a judgement says of each general, as JSON.
ghost use Rattle.std.specs.Prelude.{◌≡◌, IfOk, map};
ghost use Rattle.serde_json.specs.View.{view};
ghost use Rattle.gen_convict.specs.Evidence.{told_of};
ghost use Rattle.gen_json_parts.specs.StatusData.{statuses_data};

use gen_convict::Evidence;
use gen_facts::status_of;
use gen_json::ObjectBuilder;
use gen_match::Finding;
use gen_net::Net;
use gen_types::{GeneralNo, GeneralSet};
use serde_json::Value;
use std::alloc::{AllocError, Global};

/// Returns the list of the statuses of all generals of a network.
pub(crate) fn statuses_value(
    alloc: Global,
    net: &Net,
    faulty: &GeneralSet,
    findings: &[Finding],
    convictions: &[Evidence],
) -> Result<Value, AllocError>
    ensures { IfOk result (λ v. view v
        ≡ statuses_data net.now faulty.now findings.now (map told_of convictions.now)) }
{
    let mut list = Vec::new(alloc);
    for number in 0..net.generals() {
        let status = status_of(faulty, findings, convictions, GeneralNo::at(number));
        let mut object = ObjectBuilder::new(alloc);
        object.put("general", Value::from(number));
        object.put_text("status", status.word());
        let value = object.finish()?;
        serde_json::push(&mut list, value)?;
    }
    Ok(Value::Array(list))
}
