//! Findings, decisions and convictions, where a picture has them.
ghost use Rattle.std.specs.Prelude.{◌≡◌, ◌++◌, OnOk, map, string_bytes};
ghost use Rattle.std.specs.List.{flat_map};
ghost use Rattle.gen_convict.specs.Evidence.{told_of};
ghost use Rattle.gen_draw.specs.Marks.{
  convicted_at,
  decided_at,
  end_line,
  found_at,
  found_message,
  found_opening,
  found_words,
  is_about,
  message_mark,
  note_line,
};

use crate::arrows::push_message_stroke;
use crate::grid::{Grid, MARGIN};
use crate::rows::{middle_of, row_of};
use crate::shapes::push_words;
use gen_convict::Evidence;
use gen_match::Finding;
use gen_report::push_finding_name;
use gen_types::{GeneralNo, OrderNo};
use std::alloc::AllocError;

/// Appends a finding in words, as a title.
#[tactic(auto, unfolding(crate::specs::Marks::found_opening))]
fn push_found_opening(out: &mut String, finding: &Finding) -> Result<(), AllocError>
    ensures { OnOk result (string_bytes out.new ≡ string_bytes out.old ++ found_opening finding.now) }
{
    out.push_str("<g class=\"found\"><title>")?;
    push_finding_name(out, finding)?;
    out.push_str("</title>")
}

/// Appends a finding in words to be read at a place.
#[tactic(auto, unfolding(crate::specs::Marks::found_words))]
fn push_found_words(out: &mut String, x: u32, y: u32, finding: &Finding) -> Result<(), AllocError>
    ensures { OnOk result (string_bytes out.new ≡ string_bytes out.old ++ found_words x y finding.now) }
{
    push_words(out, x, y)?;
    push_finding_name(out, finding)?;
    out.push_str("</text></g>\n")
}

/// Appends the mark of a finding about a message, along the message's line.
#[tactic(auto, unfolding(crate::specs::Marks::found_message))]
fn push_found_message(
    out: &mut String,
    grid: Grid,
    from: GeneralNo,
    to: GeneralNo,
    round: u8,
    order: OrderNo,
    finding: &Finding,
) -> Result<(), AllocError>
    ensures { OnOk result (string_bytes out.new
        ≡ string_bytes out.old ++ found_message grid from to round order finding.now) }
{
    let from = from.get();
    let to = to.get();
    let round = u16::from(round);
    let order = order.get();
    push_found_opening(out, finding)?;
    push_message_stroke(out, grid, from, to, round, order)?;
    let x = grid.middle(round, order) + 12;
    push_found_words(out, x, middle_of(from, to) + 11 * u32::from(order), finding)
}

/// Appends the mark of a finding about a message, or of the finding that there is nobody of the rest; nothing for any
/// other finding.
#[tactic(auto, unfolding(crate::specs::Marks::message_mark))]
fn push_message_mark(out: &mut String, grid: Grid, finding: &Finding) -> Result<(), AllocError>
    ensures { OnOk result
        (string_bytes out.new ≡ string_bytes out.old ++ message_mark grid finding.now) }
{
    match *finding {
        Finding::Unmatched {
            from,
            to,
            round,
            order,
        } => push_found_message(out, grid, from, to, round, order, finding),
        Finding::Underivable {
            from,
            to,
            round,
            order,
        } => push_found_message(out, grid, from, to, round, order, finding),
        Finding::Nobody => {
            push_found_opening(out, finding)?;
            push_found_words(out, MARGIN, 64, finding)
        }
        Finding::Missing { .. }
        | Finding::Several { .. }
        | Finding::Unreadable { .. }
        | Finding::Foreign { .. }
        | Finding::Unsigned { .. }
        | Finding::Unsealed { .. }
        | Finding::Departs { .. }
        | Finding::Unjoined { .. } => Ok(()),
    }
}

/// Appends the marks of the findings about messages, and of the finding that there is nobody of the rest.
pub fn push_message_marks(
    out: &mut String,
    grid: Grid,
    findings: &[Finding],
) -> Result<(), AllocError>
    ensures { OnOk result
        (string_bytes out.new ≡ string_bytes out.old ++ flat_map (message_mark grid) findings.now) }
{
    for finding in findings {
        push_message_mark(out, grid, finding)?;
    }
    Ok(())
}

/// Returns whether a finding is marked at a general: it is about that general's log, or about a pair with that general.
fn is_about(general: GeneralNo, finding: &Finding) -> bool
    ensures { result ≡ is_about general finding.now }
{
    match *finding {
        Finding::Missing { general: whose } => whose == general,
        Finding::Several { general: whose } => whose == general,
        Finding::Unreadable { general: whose, .. } => whose == general,
        Finding::Foreign { general: whose } => whose == general,
        Finding::Unsigned { general: whose, .. } => whose == general,
        Finding::Unsealed { general: whose } => whose == general,
        Finding::Departs { general: whose, .. } => whose == general,
        Finding::Unmatched { .. } | Finding::Underivable { .. } | Finding::Nobody => false,
        Finding::Unjoined { first, second } => first == general || second == general,
    }
}

/// Appends a finding in words behind others on a line, with a title, if it is marked at this general.
#[tactic(auto, unfolding(crate::specs::Marks::found_span))]
fn push_found_at(out: &mut String, general: GeneralNo, finding: &Finding) -> Result<(), AllocError>
    ensures { OnOk result
        (string_bytes out.new ≡ string_bytes out.old ++ found_at general finding.now) }
{
    if !is_about(general, finding) {
        return Ok(());
    }
    out.push_str("<tspan class=\"found\" dx=\"8\"><title>")?;
    push_finding_name(out, finding)?;
    out.push_str("</title>")?;
    push_finding_name(out, finding)?;
    out.push_str("</tspan>")
}

/// Appends a decision in words, if it is this general's.
#[tactic(auto, unfolding(crate::specs::Marks::decided_span))]
fn push_decided_at(
    out: &mut String,
    general: GeneralNo,
    decided: (GeneralNo, OrderNo),
) -> Result<(), AllocError>
    ensures { OnOk result
        (string_bytes out.new ≡ string_bytes out.old ++ decided_at general decided) }
{
    if decided.0 == general {
        let whose = decided.0.get();
        let order = decided.1.get();
        write!(
            out,
            "<tspan class=\"o{order}\" dx=\"8\"><title>general {whose} decides order {order}</title>decides {order}</tspan>"
        )
    } else {
        Ok(())
    }
}

/// Appends the decisions of this general among these.
fn push_decided(
    out: &mut String,
    general: GeneralNo,
    decided: &[(GeneralNo, OrderNo)],
) -> Result<(), AllocError>
    ensures { OnOk result
        (string_bytes out.new ≡ string_bytes out.old ++ flat_map (decided_at general) decided.now) }
{
    for one in decided {
        push_decided_at(out, general, *one)?;
    }
    Ok(())
}

/// Appends by which kinds of evidence this general is convicted, by these convictions.
#[tactic(auto, unfolding(crate::specs::Marks::convicted_span))]
fn push_convicted(
    out: &mut String,
    general: GeneralNo,
    convictions: &[Evidence],
) -> Result<(), AllocError>
    ensures { OnOk result (string_bytes out.new
        ≡ string_bytes out.old ++ flat_map (convicted_at general) (map told_of convictions.now)) }
{
    for evidence in convictions {
        if evidence.accused == general {
            let accused = evidence.accused.get();
            let kind = evidence.claim.kind();
            write!(
                out,
                "<tspan class=\"found\" dx=\"8\"><title>general {accused} is convicted by K{kind}</title>K{kind}</tspan>"
            )?;
        }
    }
    Ok(())
}

/// Appends the words at the end of a general's line: its decision and its conviction.
#[tactic(auto, unfolding(crate::specs::Marks::end_line))]
pub fn push_end(
    out: &mut String,
    grid: Grid,
    decided: &[(GeneralNo, OrderNo)],
    convictions: &[Evidence],
    general: GeneralNo,
) -> Result<(), AllocError>
    ensures { OnOk result (string_bytes out.new ≡ string_bytes out.old
        ++ end_line grid decided.now (map told_of convictions.now) general) }
{
    push_words(out, grid.end(), row_of(general.get()) + 5)?;
    push_decided(out, general, decided)?;
    push_convicted(out, general, convictions)?;
    out.push_str("</text>\n")
}

/// Appends the words below a general's line: the findings that are marked at it.
#[tactic(auto, unfolding(crate::specs::Marks::note_line))]
pub fn push_note(
    out: &mut String,
    findings: &[Finding],
    general: GeneralNo,
) -> Result<(), AllocError>
    ensures { OnOk result
        (string_bytes out.new ≡ string_bytes out.old ++ note_line findings.now general) }
{
    push_words(out, MARGIN, row_of(general.get()) + 16)?;
    for finding in findings {
        push_found_at(out, general, finding)?;
    }
    out.push_str("</text>\n")
}
