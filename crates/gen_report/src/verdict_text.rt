//! Prints judgements as text.
ghost use Rattle.std.specs.Prelude.{◌≡◌, ◌++◌, OnOk, IfOk, map, string_bytes};
ghost use Rattle.std.specs.List.{flat_map};
ghost use Rattle.gen_convict.specs.Evidence.{told_of};
ghost use Rattle.gen_report.specs.VerdictText.{answer_lines, convicted_line, verdict_text};

use crate::findings::push_finding_name;
use gen_audit::{Judgement, Verdict};
use gen_convict::Evidence;
use gen_net::Header;
use std::alloc::{AllocError, Global};

/// Appends the line of the verdict, and those of its decisions or findings.
fn push_answer(out: &mut String, verdict: &Verdict) -> Result<(), AllocError>
    ensures { OnOk result
        (string_bytes out.new ≡ string_bytes out.old ++ answer_lines verdict.now) }
{
    match verdict {
        Verdict::Agreed(order) => {
            let order = order.get();
            write!(out, "verdict agreed {order}\n")
        }
        Verdict::Explained(told) => {
            let decisions = told.as_slice();
            out.push_str("verdict explained\n")?;
            for decision in decisions {
                let general = decision.general.get();
                let order = decision.order.get();
                write!(out, "general {general} decides {order}\n")?;
            }
            Ok(())
        }
        Verdict::No(found) => {
            let findings = found.as_slice();
            out.push_str("verdict no\n")?;
            for finding in findings {
                push_finding_name(out, finding)?;
                out.push_str("\n")?;
            }
            Ok(())
        }
    }
}

/// Appends the lines of convictions.
fn push_all_convicted(out: &mut String, convictions: &[Evidence]) -> Result<(), AllocError>
    ensures { OnOk result (string_bytes out.new
        ≡ string_bytes out.old ++ flat_map convicted_line (map told_of convictions.now)) }
{
    for evidence in convictions {
        let general = evidence.accused.get();
        let kind = evidence.claim.kind();
        write!(out, "convicted {general} by K{kind}\n")?;
    }
    Ok(())
}

/// Returns the text of a judgement on a run. It has a line `run` with the run id in 64 hexadecimal digits, and a line
/// `verdict agreed V`, `verdict explained` or `verdict no`. Then come a line `general G decides V` for each decision
/// that explains, or a line for each finding. Then comes a line `convicted G by K2` for each conviction, by the kind of
/// its evidence. The last line is `end`.
///
/// # Errors
///
/// `AllocError` if memory is refused.
pub fn print_verdict(
    alloc: Global,
    header: &Header,
    judgement: &Judgement,
) -> Result<Vec<u8>, AllocError>
    ensures { IfOk result (λ v. v.items ≡ verdict_text header.now judgement.now.verdict
        (map told_of judgement.now.convictions.items)) }
{
    let mut out = String::new(alloc);
    let digits = hex::encode(alloc, *header.run_id())?;
    write!(out, "run {digits}\n")?;
    push_answer(&mut out, &judgement.verdict)?;
    push_all_convicted(&mut out, judgement.convictions.as_slice())?;
    out.push_str("end\n")?;
    Ok(out.into_bytes())
}
