//! What is told of the runs that an admission admits, beside an answer.
ghost use Rattle.std.specs.Prelude.{◌≡◌, ◌++◌, IfOk, OnOk, string_bytes};
ghost use Rattle.std.specs.List.{flat_map};
ghost use Rattle.serde_json.specs.View.{view};
ghost use Rattle.gen_asked.specs.declared.forms.Form.TheVariants.{Json};
ghost use Rattle.gen_json.specs.JsonData.{list_of};
ghost use Rattle.gen_enrolling.specs.ToldReading.{ReadsBack, ReadsBeside};
ghost use Rattle.gen_enrolling.specs.Telling.{admitted_data, admitted_json, admitted_text, answer_with, node_behind_space, object_with, run_data, run_line, with_member};

use crate::admitted::{AdmittedRun, AdmittedRuns};
use gen_asked::Form;
use gen_json::{ObjectBuilder, digits_value, path_value};
use gen_types::GeneralNo;
use serde_json::Value;
use std::alloc::{AllocError, Global};

/// Appends the line of a run: its number, and the node that each general is.
#[tactic(auto, unfolding(crate::specs::Telling::run_line))]
fn push_run_line(out: &mut String, run: &AdmittedRun) -> Result<(), AllocError>
    ensures { OnOk result (string_bytes out.new ≡ string_bytes out.old ++ run_line run.now) }
{
    let number = run.number;
    write!(out, "run {number} nodes")?;
    push_nodes(out, &run.nodes)?;
    out.push_str("\n")
}

/// Appends nodes, each behind a space.
fn push_nodes(out: &mut String, nodes: &[GeneralNo]) -> Result<(), AllocError>
    ensures { OnOk result (string_bytes out.new
        ≡ string_bytes out.old ++ flat_map node_behind_space nodes.now) }
{
    for node in nodes {
        let number = node.get();
        write!(out, " {number}")?;
    }
    Ok(())
}

/// Appends the lines of runs.
fn push_run_lines(out: &mut String, runs: &[AdmittedRun]) -> Result<(), AllocError>
    ensures { OnOk result (string_bytes out.new
        ≡ string_bytes out.old ++ flat_map run_line runs.now) }
{
    for run in runs {
        push_run_line(out, run)?;
    }
    Ok(())
}

/// Returns the lines of runs that are admitted: a line `system` with the id of the system in 64 hexadecimal digits, and for
/// each run a line `run` with its number, and behind `nodes` the node that each general is, general by general.
///
/// # Errors
///
/// `AllocError` if memory is refused.
#[tactic(auto, unfolding(crate::specs::Telling::admitted_text))]
pub fn admitted_text(alloc: Global, admitted: &AdmittedRuns) -> Result<Vec<u8>, AllocError>
    ensures { IfOk result (λ text. text.items ≡ admitted_text admitted.now) }
{
    let mut out = String::new(alloc);
    let digits = hex::encode(alloc, admitted.system)?;
    write!(out, "system {digits}\n")?;
    push_run_lines(&mut out, &admitted.runs)?;
    Ok(out.into_bytes())
}

/// Returns a run as JSON.
fn run_value(alloc: Global, run: &AdmittedRun) -> Result<Value, AllocError>
    ensures { IfOk result (λ v. view v ≡ run_data run.now) }
{
    let mut object = ObjectBuilder::new(alloc);
    object.put_made("nodes", path_value(alloc, &run.nodes));
    object.put("number", Value::from(run.number));
    object.put_made("run", digits_value(alloc, &run.id));
    object.finish()
}

/// Returns the list of runs as JSON.
fn runs_value(alloc: Global, runs: &[AdmittedRun]) -> Result<Value, AllocError>
    ensures { IfOk result (λ v. view v ≡ list_of run_data runs.now) }
{
    let mut list = Vec::new(alloc);
    for run in runs {
        serde_json::push(&mut list, run_value(alloc, run)?)?;
    }
    Ok(Value::Array(list))
}

/// Returns runs that are admitted as JSON, with the id of their system.
fn admitted_value(alloc: Global, admitted: &AdmittedRuns) -> Result<Value, AllocError>
    ensures { IfOk result (λ v. view v ≡ admitted_data admitted.now) }
{
    let mut object = ObjectBuilder::new(alloc);
    object.put_made("runs", runs_value(alloc, &admitted.runs));
    object.put_made("system", digits_value(alloc, &admitted.system));
    object.finish()
}

/// Returns the member of a JSON object that tells runs that are admitted: `admitted`, an object of the runs and the id of
/// their system. A run is an object of the node that each general is, its number and its run id.
///
/// # Errors
///
/// `AllocError` if memory is refused.
pub fn admitted_json(alloc: Global, admitted: &AdmittedRuns) -> Result<Vec<u8>, AllocError>
    ensures text { IfOk result (λ text. text.items ≡ admitted_json admitted.now) }
    // The text of the runs reads as their value.
    ensures reads { IfOk result (λ _. ReadsBack (admitted_data admitted.now)) }
{
    let value = admitted_value(alloc, admitted)?;
    let text = value.to_string(alloc)?;
    let mut member = String::from_str(alloc, "\"admitted\":")?;
    member.push_str(&text)?;
    Ok(member.into_bytes())
}

/// Returns a JSON object with this member in front of its others.
fn with_member(alloc: Global, member: &[u8], object: &[u8]) -> Result<Vec<u8>, AllocError>
    ensures { IfOk result (λ text. text.items ≡ with_member member.now object.now) }
{
    let mut text = Vec::new(alloc);
    let Some((brace, others)) = object.split_first() else {
        return Ok(text);
    };
    text.push(*brace)?;
    text.extend_from_slice(member)?;
    text.push(b',')?;
    text.extend_from_slice(others)?;
    Ok(text)
}

/// Returns a JSON object with the member that tells runs that are admitted in front of its others.
fn object_with(alloc: Global, admitted: &AdmittedRuns, object: &[u8]) -> Result<Vec<u8>, AllocError>
    ensures text { IfOk result (λ text. text.items ≡ object_with admitted.now object.now) }
    ensures reads { IfOk result (λ text. ReadsBeside admitted.now object.now text.items) }
{
    let member = admitted_json(alloc, admitted)?;
    with_member(alloc, &member, object)
}

/// Returns an answer in this form with what is told of runs that are admitted in front of it: lines before lines of text,
/// and the first member of the first object of JSON.
///
/// # Errors
///
/// `AllocError` if memory is refused.
pub fn answer_with(
    alloc: Global,
    form: Form,
    admitted: &AdmittedRuns,
    answer: &[u8],
) -> Result<Vec<u8>, AllocError>
    ensures text { IfOk result (λ text. text.items ≡ answer_with form admitted.now answer.now) }
    // In JSON a reader finds the object of the answer, and the runs among its members.
    ensures reads { form ≡ Json → IfOk result (λ text. ReadsBeside admitted.now answer.now text.items) }
{
    match form {
        Form::Text => {
            let mut text = admitted_text(alloc, admitted)?;
            text.extend_from_slice(answer)?;
            Ok(text)
        }
        Form::Json => object_with(alloc, admitted, answer),
    }
}
