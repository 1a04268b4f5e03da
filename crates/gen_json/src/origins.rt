//! Where an answer comes from, as JSON.
ghost use Rattle.std.specs.Prelude.{◌≡◌, IfOk, false, option_map};
ghost use Rattle.serde_json.specs.Data.{object, string};
ghost use Rattle.serde_json.specs.View.{members_view, view};
ghost use Rattle.gen_json.specs.JsonData.{digits_data, list_of, numbers_data};
ghost use Rattle.gen_json.specs.OriginData.{maybe, origin_of, with_origin};

use crate::numbers::{all_digits_value, digits_value, set_value};
use crate::objects::ObjectBuilder;
use gen_types::GeneralSet;
use serde_json::{ToValue, Value};
use sha2::{Digest, Sha256};
use std::alloc::{AllocError, Global};
use std::marker::Model;

/// The version of the program.
pub const TOOL_VERSION: &str = "0.2.0";

/// Where an answer comes from: the input's name, number of bytes and SHA-256, and what was asked of it.
#[derive(Drop)]
pub struct Origin {
    name: Option<String>,
    bytes: usize,
    digest: [u8; 32],
    faulty: Option<GeneralSet>,
    runs: Option<Vec<[u8; 32]>>,
}

impl Model for Origin {
    ghost use Rattle.std.specs.Prelude.{option_map, string_bytes};
    ghost use Rattle.gen_json.specs.OriginData.{Origin};

    ghost Value = { Origin };

    ghost view = { λ o. record {
      name = option_map string_bytes o.name;
      bytes = o.bytes;
      digest = o.digest;
      faulty = o.faulty;
      runs = option_map (λ ids. ids.items) o.runs;
    } };
}

/// Returns a text, and null if there is none.
pub(crate) fn text_or_null(alloc: Global, text: Option<&str>) -> Result<Value, AllocError>
    ensures { IfOk result (λ v. view v ≡ maybe string (option_map (λ t. t.now) text.entry)) }
{
    match text {
        Some(text) => text.to_value(alloc),
        None => Ok(Value::Null),
    }
}

/// Returns the list of the members of a set, and null if there is no set.
fn set_or_null(alloc: Global, set: &Option<GeneralSet>) -> Result<Value, AllocError>
    ensures { IfOk result (λ v. view v ≡ maybe numbers_data set.now) }
{
    match set {
        Some(set) => set_value(alloc, set),
        None => Ok(Value::Null),
    }
}

/// Returns the list of run ids, and null if there is none.
fn ids_or_null(alloc: Global, ids: &Option<Vec<[u8; 32]>>) -> Result<Value, AllocError>
    ensures { IfOk result (λ v. view v
        ≡ maybe (list_of digits_data) (option_map (λ ids. ids.items) ids.now)) }
{
    match ids {
        Some(ids) => all_digits_value(alloc, ids.as_slice()),
        None => Ok(Value::Null),
    }
}

impl Origin {
    /// Returns where the answer to an input comes from. The input has this name, if it has one. These generals are held
    /// for faulty in place of the ones that are listed, and the input has to be of these runs, if any are asked for.
    ///
    /// # Errors
    ///
    /// `AllocError` if memory is refused.
    pub fn new(
        alloc: Global,
        name: Option<&str>,
        input: &[u8],
        faulty: Option<GeneralSet>,
        runs: Option<&[[u8; 32]]>,
    ) -> Result<Origin, AllocError>
        ensures { IfOk result (λ o. o ≡ origin_of (option_map (λ t. t.now) name.entry) input.now
            faulty (option_map (λ ids. ids.now) runs.entry)) }
    {
        let name = match name {
            Some(name) => Some(String::from_str(alloc, name)?),
            None => None,
        };
        let runs = match runs {
            Some(ids) => Some(Vec::from_slice(alloc, ids)?),
            None => None,
        };
        Ok(Origin {
            name,
            bytes: input.len(),
            digest: Sha256::digest(input),
            faulty,
            runs,
        })
    }
}

/// Returns the object of an answer, with where it comes from and the version of the program.
///
/// # Errors
///
/// `AllocError` if memory is refused, or was refused for a field.
pub fn finish_from(
    alloc: Global,
    answer: ObjectBuilder,
    origin: &Origin,
) -> Result<Value, AllocError>
    ensures whole { IfOk result (λ _. answer.refused ≡ false) }
    ensures fields { IfOk result (λ v. view v
        ≡ object (with_origin origin.now (members_view answer.fields.entries))) }
{
    let mut asked = ObjectBuilder::new(alloc);
    asked.put_made("faulty", set_or_null(alloc, &origin.faulty));
    asked.put_made("runs", ids_or_null(alloc, &origin.runs));
    let mut input = ObjectBuilder::new(alloc);
    input.put("bytes", Value::from(origin.bytes));
    input.put_made("name", text_or_null(alloc, origin.name.as_deref()));
    input.put_made("sha256", digits_value(alloc, &origin.digest));
    let mut object = answer;
    object.put_made("asked", asked.finish());
    object.put_made("input", input.finish());
    object.put_text("tool", TOOL_VERSION);
    object.finish()
}
