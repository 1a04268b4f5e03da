//! What receipts tell, as lines.
ghost use Rattle.std.specs.Prelude.{◌≡◌, ◌++◌, IfOk, OnOk};
ghost use Rattle.std.specs.List.{flat_map};
ghost use Rattle.gen_receipting.specs.ToldText.{convicted_line, failing_line, opening_lines, receipt_line, told_text};

use crate::told::{Told, ToldReceipt};
use gen_file::push_members;
use gen_net::Header;
use gen_report::print_decisions;
use gen_types::{GeneralNo, GeneralSet, OrderSet};
use std::alloc::{AllocError, Global};

/// Returns the lines of the run id and of the orders that are shown.
#[tactic(auto, unfolding(crate::specs::ToldText::opening_lines))]
fn opening_lines(alloc: Global, header: &Header, shown: OrderSet) -> Result<Vec<u8>, AllocError>
    ensures { IfOk result (λ text. text.items ≡ opening_lines header.now shown) }
{
    let mut lines = String::new(alloc);
    let digits = hex::encode(alloc, *header.run_id())?;
    write!(lines, "run {digits}\n")?;
    lines.push_str("shown ")?;
    push_members(&mut lines, shown)?;
    lines.push_str("\n")?;
    Ok(lines.into_bytes())
}

/// Returns the line of a receipt that doesn't hold, by its general.
#[tactic(auto, unfolding(crate::specs::ToldText::failing_line))]
fn failing_line(alloc: Global, general: GeneralNo) -> Result<Vec<u8>, AllocError>
    ensures { IfOk result (λ text. text.items ≡ failing_line general) }
{
    let mut line = String::new(alloc);
    let number = general.get();
    write!(line, "general {number} fails\n")?;
    Ok(line.into_bytes())
}

/// Returns the line of a general that is convicted.
#[tactic(auto, unfolding(crate::specs::ToldText::convicted_line))]
fn convicted_line(alloc: Global, general: GeneralNo) -> Result<Vec<u8>, AllocError>
    ensures { IfOk result (λ text. text.items ≡ convicted_line general) }
{
    let mut line = String::new(alloc);
    let number = general.get();
    write!(line, "general {number} convicted\n")?;
    Ok(line.into_bytes())
}

/// Returns the line of a receipt: that of its decision, if it holds.
fn receipt_line(alloc: Global, receipt: &ToldReceipt) -> Result<Vec<u8>, AllocError>
    ensures { IfOk result (λ text. text.items ≡ receipt_line receipt.now) }
{
    if receipt.holds {
        print_decisions(alloc, &[receipt.decision])
    } else {
        failing_line(alloc, receipt.decision.general)
    }
}

/// Appends the lines of receipts.
fn push_receipts(
    alloc: Global,
    text: &mut Vec<u8>,
    receipts: &[ToldReceipt],
) -> Result<(), AllocError>
    ensures { OnOk result
        (text.new.items ≡ text.old.items ++ flat_map receipt_line receipts.now) }
{
    for receipt in receipts {
        let line = receipt_line(alloc, receipt)?;
        text.extend_from_slice(&line)?;
    }
    Ok(())
}

/// Appends the lines of generals that are convicted.
fn push_convicted(
    alloc: Global,
    text: &mut Vec<u8>,
    convicted: &GeneralSet,
) -> Result<(), AllocError>
    ensures { OnOk result
        (text.new.items ≡ text.old.items ++ flat_map convicted_line convicted.now) }
{
    for general in convicted.iter() {
        let line = convicted_line(alloc, general)?;
        text.extend_from_slice(&line)?;
    }
    Ok(())
}

/// Returns the text of what receipts of a run tell. It has a line `run` with the run id in 64 hexadecimal digits, and
/// a line `shown` with the orders that are shown. Then comes for each receipt the line of its decision as
/// `print_decisions` has it, if it holds, and else a line `general G fails`. Then come a line `general G convicted`
/// for each general that is convicted, and the line `end`.
///
/// # Errors
///
/// `AllocError` if memory is refused.
pub fn print_receipts(alloc: Global, header: &Header, told: &Told) -> Result<Vec<u8>, AllocError>
    ensures { IfOk result (λ text. text.items ≡ told_text header.now told.now) }
{
    let mut text = opening_lines(alloc, header, told.shown)?;
    push_receipts(alloc, &mut text, told.receipts.as_slice())?;
    push_convicted(alloc, &mut text, &told.convicted)?;
    text.extend_from_slice(b"end\n")?;
    Ok(text)
}
