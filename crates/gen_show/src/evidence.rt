//! Evidence as lines.
ghost use Rattle.std.specs.Prelude.{◌≡◌, ◌<◌, ◌++◌, OnOk, string_bytes};
ghost use Rattle.gen_convict.specs.Evidence.{told_of};
ghost use Rattle.gen_convict.specs.Told.{told};
ghost use Rattle.gen_file.specs.Parts.{HasRoom};
ghost use Rattle.gen_show.specs.EvidenceText.{accused_line, claim_lines, evidence_lines, kind_line, order_line, text_line};

use crate::entries::push_signed;
use crate::headers::push_header;
use crate::logs::push_log;
use gen_chain::Statement;
use gen_convict::{Claim, Evidence};
use gen_file::claim_log_at;
use gen_local::Text;
use gen_net::Header;
use gen_types::{GeneralNo, OrderNo, Path};
use std::alloc::{AllocError, Global};

/// Appends the line of a text.
#[tactic(auto, unfolding(crate::specs::EvidenceText::text_line))]
fn push_text(alloc: Global, out: &mut String, name: &str, text: &Text) -> Result<(), AllocError>
    ensures { OnOk result
        (string_bytes out.new ≡ string_bytes out.old ++ text_line name.now text.now) }
{
    match text {
        Text::OfStatement(statement) => {
            write!(out, "text {name} statement")?;
            push_signed(out, statement.order, &statement.path)?;
            out.push_str("\n")
        }
        Text::OfHead(head) => {
            let of = head.general.get();
            let entries = head.entries;
            let link = hex::encode(alloc, head.last_link)?;
            write!(
                out,
                "text {name} head of {of} entries {entries} link {link}\n"
            )
        }
    }
}

/// Appends the line of an order that the commander alone signed.
#[tactic(auto, unfolding(crate::specs::EvidenceText::order_line))]
fn push_order(alloc: Global, out: &mut String, name: &str, order: OrderNo) -> Result<(), AllocError>
    ensures { OnOk result
        (string_bytes out.new ≡ string_bytes out.old ++ order_line name.now order) }
{
    let text = Text::OfStatement(Statement {
        order,
        path: Path::commander(),
    });
    push_text(alloc, out, name, &text)
}

/// Appends the line of the accused, a general of the network.
#[tactic(auto, unfolding(crate::specs::EvidenceText::accused_line))]
fn push_accused(
    alloc: Global,
    out: &mut String,
    header: &Header,
    accused: GeneralNo,
) -> Result<(), AllocError>
    requires { accused < header.now.network.generals }
    ensures { OnOk result
        (string_bytes out.new ≡ string_bytes out.old ++ accused_line header.now accused) }
{
    let number = accused.get();
    let root = hex::encode(alloc, *header.root(accused))?;
    write!(out, "accused {number} root {root}\n")
}

/// Appends the line of the kind of a claim.
fn push_kind(out: &mut String, claim: &Claim) -> Result<(), AllocError>
    ensures { OnOk result
        (string_bytes out.new ≡ string_bytes out.old ++ kind_line (told claim.now)) }
{
    match claim {
        Claim::Texts { .. } => out.push_str("kind 1 two texts under one leaf\n"),
        Claim::Orders { .. } => out.push_str("kind 2 two orders of the commander\n"),
        Claim::Missing { .. } => out.push_str("kind 3 a log without a statement that was signed\n"),
        Claim::Departing { .. } => out.push_str("kind 4 a log that departs from the algorithm\n"),
        Claim::Across { .. } => out.push_str("kind 5 two texts under one leaf in two runs\n"),
    }
}

/// Appends the lines of a claim.
#[tactic(auto, unfolding(crate::specs::EvidenceText::departs_line))]
fn push_claim(
    alloc: Global,
    out: &mut String,
    header: &Header,
    accused: GeneralNo,
    claim: &Claim,
) -> Result<(), AllocError>
    requires { HasRoom header.now (told claim.now) }
    ensures { OnOk result (string_bytes out.new ≡ string_bytes out.old
        ++ claim_lines header.now accused (told claim.now)) }
{
    match claim {
        Claim::Texts { first, second } => {
            push_text(alloc, out, "first", &first.text)?;
            push_text(alloc, out, "second", &second.text)
        }
        Claim::Orders { first, second, .. } => {
            push_order(alloc, out, "first", *first)?;
            push_order(alloc, out, "second", *second)
        }
        Claim::Missing { log, statement, .. } => {
            let at = claim_log_at(alloc, header, log.as_slice())?;
            push_log(alloc, out, header, accused, at, log.as_slice())?;
            push_text(alloc, out, "missing", &Text::OfStatement(*statement))
        }
        Claim::Departing { log, entry } => {
            let at = claim_log_at(alloc, header, log.as_slice())?;
            push_log(alloc, out, header, accused, at, log.as_slice())?;
            let entry = *entry;
            write!(out, "departs entry {entry}\n")
        }
        Claim::Across { first, second } => {
            push_text(alloc, out, "first", &first.text.text)?;
            push_header(alloc, out, "header", &second.header)?;
            push_text(alloc, out, "second", &second.text.text)
        }
    }
}

/// Appends the lines of evidence that holds or fails.
pub fn push_evidence(
    alloc: Global,
    out: &mut String,
    holds: bool,
    header: &Header,
    evidence: &Evidence,
) -> Result<(), AllocError>
    requires accused { evidence.now.accused < header.now.network.generals }
    requires room { HasRoom header.now (told evidence.now.claim) }
    ensures { OnOk result (string_bytes out.new ≡ string_bytes out.old
        ++ evidence_lines holds (record { header = header.now; evidence = told_of evidence.now })) }
{
    push_header(alloc, out, "evidence", header)?;
    push_accused(alloc, out, header, evidence.accused)?;
    push_kind(out, &evidence.claim)?;
    push_claim(alloc, out, header, evidence.accused, &evidence.claim)?;
    if holds {
        out.push_str("evidence holds\nend\n")
    } else {
        out.push_str("evidence fails\nend\n")
    }
}
