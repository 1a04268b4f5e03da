//! A plan as lines.
ghost use Rattle.std.specs.Prelude.{◌≡◌, ◌++◌, IfOk, OnOk, string_bytes};
ghost use Rattle.gen_telling.specs.PlanText.{failure_lines, number_line, number_words, plan_text, result_lines, size_lines};

use gen_file::push_members;
use gen_plan::{PlanFailure, PlanResult, RunSizes};
use std::alloc::{AllocError, Global};

/// Appends a number, or the word `none`.
fn push_number(out: &mut String, number: Option<u8>) -> Result<(), AllocError>
    ensures { OnOk result
        (string_bytes out.new ≡ string_bytes out.old ++ number_words number) }
{
    match number {
        Some(number) => write!(out, "{number}"),
        None => out.push_str("none"),
    }
}

/// Appends the lines of why a plan fails: the set that cuts, the pair that it cuts apart, and what would do in the place
/// of d, or of m.
#[tactic(auto, unfolding(crate::specs::PlanText::failure_lines))]
fn push_failure(out: &mut String, failure: &PlanFailure) -> Result<(), AllocError>
    ensures { OnOk result
        (string_bytes out.new ≡ string_bytes out.old ++ failure_lines failure.now) }
{
    let a = failure.a;
    let b = failure.b;
    out.push_str("plan fails\nwithout ")?;
    push_members(out, failure.faulty)?;
    write!(out, "\npair {a} {b}\nleast diameter ")?;
    push_number(out, failure.least_diameter)?;
    out.push_str("\nmost traitors ")?;
    push_number(out, failure.most_traitors)?;
    out.push_str("\n")?;
    Ok(())
}

/// Appends the lines of whether a plan holds.
fn push_plan(out: &mut String, plan: &PlanResult) -> Result<(), AllocError>
    ensures { OnOk result
        (string_bytes out.new ≡ string_bytes out.old ++ result_lines plan.now) }
{
    match plan {
        PlanResult::Holds => out.push_str("plan holds\n"),
        PlanResult::Fails(failure) => push_failure(out, failure),
    }
}

/// Appends the line of a number behind its name.
fn push_line(out: &mut String, name: &str, number: usize) -> Result<(), AllocError>
    ensures { OnOk result
        (string_bytes out.new ≡ string_bytes out.old ++ number_line name.now number) }
{
    write!(out, "{name} {number}\n")
}

/// Appends the lines of the sizes of a run.
#[tactic(auto, unfolding(crate::specs::PlanText::size_lines))]
fn push_sizes(out: &mut String, sizes: &RunSizes) -> Result<(), AllocError>
    ensures { OnOk result
        (string_bytes out.new ≡ string_bytes out.old ++ size_lines sizes.now) }
{
    push_line(out, "rounds", usize::from(sizes.rounds))?;
    push_line(out, "longest frame", sizes.longest_frame)?;
    push_line(out, "longest log", sizes.longest_log)?;
    push_line(out, "bytes of a run", sizes.run_bytes)?;
    Ok(())
}

/// Returns the lines of whether a plan holds and of the sizes of its run.
///
/// # Errors
///
/// `AllocError` if memory is refused.
#[tactic(auto, unfolding(crate::specs::PlanText::plan_text))]
pub(crate) fn plan_text(
    alloc: Global,
    plan: &PlanResult,
    sizes: &RunSizes,
) -> Result<Vec<u8>, AllocError>
    ensures { IfOk result (λ text. text.items ≡ plan_text plan.now sizes.now) }
{
    let mut out = String::new(alloc);
    push_plan(&mut out, plan)?;
    push_sizes(&mut out, sizes)?;
    out.push_str("end\n")?;
    Ok(out.into_bytes())
}
