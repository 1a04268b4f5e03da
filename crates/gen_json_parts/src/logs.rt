//! Logs as JSON.
ghost use Rattle.std.specs.Prelude.{◌≡◌, ◌+◌, ◌<◌, ◌^◌, ◌++◌, IfOk, OnOk, length};
ghost use Rattle.serde_json.specs.View.{view};
ghost use Rattle.gen_json_parts.specs.LogData.{head_data, log_lines};

use crate::entries::push_entries;
use gen_file::{LOG_FRONT, push_log_fault};
use gen_json::{JSON_VERSION, ObjectBuilder, decided_value, digits_value, push_value};
use gen_log::{Entry, read_log};
use gen_net::Header;
use gen_types::{GeneralNo, ReadError};
use serde_json::Value;
use std::alloc::{AllocError, Global};

/// Returns what stands behind these entries of a log, with the order of the DECIDE with which they end, and null where
/// they end with none.
#[tactic(auto, unfolding(crate::specs::LogData::head_data))]
fn head_value(
    alloc: Global,
    general: GeneralNo,
    at: usize,
    entries: &[Entry],
) -> Result<Value, AllocError>
    ensures { IfOk result (λ v. view v ≡ head_data general at entries.now) }
{
    let mut object = ObjectBuilder::new(alloc);
    object.put("byte", Value::from(at));
    object.put("decided", decided_value(entries));
    object.put_text("format", "shown head");
    object.put("of", Value::from(general.get()));
    object.put("version", Value::from(JSON_VERSION));
    object.finish()
}

/// Appends the lines of bytes that begin at this byte of a file and are shown as the log of a general in the run of a
/// header: if they are a log, what the log says, or else their fault.
#[tactic(auto, using(gen_file::proofs::Lengths::entries_within, crate::proofs::PlainShown::log_plain, crate::proofs::PlainShown::head_plain, crate::proofs::PlainShown::unreadable_plain), unfolding(crate::specs::LogData::log_lines, crate::specs::LogData::log_data, crate::specs::LogData::unreadable_data))]
pub fn push_log(
    alloc: Global,
    out: &mut Vec<u8>,
    header: &Header,
    general: GeneralNo,
    at: usize,
    bytes: &[u8],
) -> Result<(), AllocError>
    requires { at + length bytes.now < 2 ^ 64 }
    ensures { OnOk result (out.new.items
        ≡ out.old.items ++ log_lines header.now general at bytes.now) }
{
    match read_log(alloc, header, bytes) {
        Ok(log) => {
            let entries = log.entries();
            let mut object = ObjectBuilder::new(alloc);
            object.put("byte", Value::from(at));
            object.put("entries", Value::from(entries.len()));
            object.put_text("format", "shown log");
            object.put("length", Value::from(bytes.len()));
            object.put("of", Value::from(general.get()));
            object.put_made("run", digits_value(alloc, log.run_id()));
            object.put("version", Value::from(JSON_VERSION));
            push_value(alloc, out, &object.finish()?)?;
            let end = push_entries(alloc, out, general, at + LOG_FRONT, entries)?;
            let head = head_value(alloc, general, end, entries)?;
            push_value(alloc, out, &head)
        }
        Err(ReadError::Memory) => Err(AllocError),
        Err(ReadError::Fault(fault)) => {
            let mut name = String::new(alloc);
            push_log_fault(&mut name, fault)?;
            let mut object = ObjectBuilder::new(alloc);
            object.put("byte", Value::from(at));
            object.put("fault", Value::String(name));
            object.put_text("format", "unreadable log");
            object.put("length", Value::from(bytes.len()));
            object.put("of", Value::from(general.get()));
            object.put("version", Value::from(JSON_VERSION));
            push_value(alloc, out, &object.finish()?)
        }
    }
}
