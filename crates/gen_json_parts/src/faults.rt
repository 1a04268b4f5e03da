//! The fault of what doesn't read, as JSON.
ghost use Rattle.std.specs.Prelude.{◌≡◌, ◌++◌, OnOk};
ghost use Rattle.gen_json_parts.specs.FaultData.{fault_line};

use gen_json::{JSON_VERSION, ObjectBuilder, push_value};
use serde_json::Value;
use std::alloc::{AllocError, Global};

/// Appends the last line of what doesn't read.
///
/// # Errors
///
/// `AllocError` if memory is refused; then what stands in `out` isn't said.
#[tactic(auto, unfolding(crate::specs::FaultData::fault_line, crate::specs::FaultData::fault_data), using(crate::proofs::PlainShown::fault_plain))]
pub fn push_fault(alloc: Global, out: &mut Vec<u8>, name: &str, at: usize) -> Result<(), AllocError>
    ensures { OnOk result (out.new.items ≡ out.old.items ++ fault_line name.now at) }
{
    let mut object = ObjectBuilder::new(alloc);
    object.put("byte", Value::from(at));
    object.put_text("fault", name);
    object.put_text("format", "shown fault");
    object.put("version", Value::from(JSON_VERSION));
    push_value(alloc, out, &object.finish()?)
}
