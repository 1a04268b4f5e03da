//! Values as lines of text.
ghost use Rattle.std.specs.Prelude.{◌≡◌, ◌≤◌, ◌++◌, IfOk, OnOk, false};
ghost use Rattle.serde_json.specs.Data.{depth};
ghost use Rattle.serde_json.specs.Written.{has_float};
ghost use Rattle.serde_json.specs.View.{view};
ghost use Rattle.gen_json.specs.Line.{ReadsAs, json_line};

use serde_json::Value;
use std::alloc::{AllocError, Global};

/// Returns the text of a value, and a line feed.
///
/// # Errors
///
/// `AllocError` if memory is refused.
pub fn value_line(alloc: Global, value: &Value) -> Result<Vec<u8>, AllocError>
    ensures text { IfOk result (λ line. has_float (view value.now) ≡ false
        → line.items ≡ json_line (view value.now)) }
    ensures reads { IfOk result (λ line. depth (view value.now) ≤ 127
        → ReadsAs line.items (view value.now)) }
{
    let mut text = value.to_string(alloc)?;
    text.push_str("\n")?;
    Ok(text.into_bytes())
}

/// Appends the line of a value.
///
/// # Errors
///
/// `AllocError` if memory is refused; then what stands in `out` isn't said.
pub fn push_value(alloc: Global, out: &mut Vec<u8>, value: &Value) -> Result<(), AllocError>
    requires { has_float (view value.now) ≡ false }
    ensures { OnOk result (out.new.items ≡ out.old.items ++ json_line (view value.now)) }
{
    let mut line = value.to_string(alloc)?;
    line.push_str("\n")?;
    out.extend_from_slice(line.as_bytes())
}
