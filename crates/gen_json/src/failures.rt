//! Faults in place of answers, as JSON.
ghost use Rattle.std.specs.Prelude.{◌≡◌, IfOk, option_map};
ghost use Rattle.gen_json.specs.FailureData.{failure_data};
ghost use Rattle.gen_json.specs.Line.{ReadsAs, json_line};

use crate::lines::value_line;
use crate::objects::{JSON_VERSION, ObjectBuilder};
use crate::origins::text_or_null;
use serde_json::Value;
use std::alloc::{AllocError, Global};

/// Returns the line of JSON of a fault: its line, the kind of the input by its first bytes and the name of the input's
/// file, if there are any, and the exit status.
///
/// # Errors
///
/// `AllocError` if memory is refused.
pub fn print_failure_json(
    alloc: Global,
    line: &str,
    kind: Option<&str>,
    name: Option<&str>,
    status: u8,
) -> Result<Vec<u8>, AllocError>
    // It is the line of this value, byte for byte.
    ensures text { IfOk result (λ line_of. line_of.items ≡ json_line (failure_data line.now
        (option_map (λ t. t.now) kind.entry) (option_map (λ t. t.now) name.entry) status)) }
    // A reader of JSON finds this value in it.
    ensures reads { IfOk result (λ line_of. ReadsAs line_of.items (failure_data line.now
        (option_map (λ t. t.now) kind.entry) (option_map (λ t. t.now) name.entry) status)) }
{
    let mut object = ObjectBuilder::new(alloc);
    object.put_text("fault", line);
    object.put_text("format", "fault");
    object.put_made("kind", text_or_null(alloc, kind));
    object.put_made("name", text_or_null(alloc, name));
    object.put("status", Value::from(status));
    object.put("version", Value::from(JSON_VERSION));
    let value = object.finish()?;
    value_line(alloc, &value)
}
