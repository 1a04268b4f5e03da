//! Headers as JSON.
ghost use Rattle.std.specs.Prelude.{◌≡◌, ◌++◌, IfOk, OnOk};
ghost use Rattle.std.specs.List.{flat_map};
ghost use Rattle.serde_json.specs.View.{view};
ghost use Rattle.gen_json_parts.specs.HeaderData.{equal_roots_line, header_data, header_lines};

use gen_file::version_number;
use gen_json::{
    JSON_VERSION, ObjectBuilder, all_digits_value, digits_value, network_value, pairs_value,
    path_value, push_value,
};
use gen_net::Header;
use gen_plan::equal_roots;
use gen_types::GeneralNo;
use serde_json::Value;
use std::alloc::{AllocError, Global};

/// Returns a header of a file of this name.
#[tactic(auto, unfolding(crate::specs::HeaderData::header_data))]
fn header_value(alloc: Global, name: &str, header: &Header) -> Result<Value, AllocError>
    ensures { IfOk result (λ v. view v ≡ header_data name.now header.now) }
{
    let mut object = ObjectBuilder::new(alloc);
    object.put_made("edges", pairs_value(alloc, header.net().edges()));
    object.put_text("file", name);
    object.put_text("format", "shown header");
    object.put_made("network", network_value(alloc, header.net()));
    object.put_made("roots", all_digits_value(alloc, header.roots()));
    object.put_made("run", digits_value(alloc, header.run_id()));
    object.put("run_version", Value::from(version_number(header.version())));
    object.put("slot", Value::from(header.version().slot()));
    object.put("version", Value::from(JSON_VERSION));
    object.finish()
}

/// Appends a line for each of these pairs of generals that have the same root.
#[tactic(auto, using(crate::proofs::PlainShown::equal_roots_plain), unfolding(crate::specs::HeaderData::equal_roots_data))]
fn push_equal_roots(
    alloc: Global,
    out: &mut Vec<u8>,
    pairs: &[(GeneralNo, GeneralNo)],
) -> Result<(), AllocError>
    ensures { OnOk result (out.new.items ≡ out.old.items ++ flat_map equal_roots_line pairs.now) }
{
    for pair in pairs {
        let mut object = ObjectBuilder::new(alloc);
        object.put_text("format", "shown equal roots");
        object.put_made("generals", path_value(alloc, &[pair.0, pair.1]));
        object.put("version", Value::from(JSON_VERSION));
        push_value(alloc, out, &object.finish()?)?;
    }
    Ok(())
}

/// Appends the lines of a header of a file of this name: the header, and the pairs of its generals that have the same
/// root.
///
/// # Errors
///
/// `AllocError` if memory is refused; then what stands in `out` isn't said.
#[tactic(auto, using(crate::proofs::PlainShown::header_plain), unfolding(crate::specs::HeaderData::header_lines))]
pub fn push_header(
    alloc: Global,
    out: &mut Vec<u8>,
    name: &str,
    header: &Header,
) -> Result<(), AllocError>
    ensures { OnOk result (out.new.items ≡ out.old.items ++ header_lines name.now header.now) }
{
    let value = header_value(alloc, name, header)?;
    push_value(alloc, out, &value)?;
    let pairs = equal_roots(alloc, header)?;
    push_equal_roots(alloc, out, pairs.as_slice())
}
