//! The job `receipts`: writes what receipts of a run tell.
ghost use Rattle.std.specs.Prelude.{◌≡◌, IfErr, IfOk, OnOk};
ghost use Rattle.gen_receipting.specs.Telling.{AreReceiptsFault, AreReceiptsTold, ReceiptsFacts, told_in};

use crate::facts::told_facts;
use crate::json::print_receipts_json;
use crate::reading::read_asked;
use crate::text::print_receipts;
use crate::told::{Told, told_by};
use gen_asked::{AskedRuns, Form};
use gen_ends::{JobFault, Output};
use gen_facts::Fact;
use gen_net::Header;
use std::alloc::{AllocError, Global};

/// Returns in this form what receipts of a run tell.
fn told_in(alloc: Global, form: Form, header: &Header, told: &Told) -> Result<Vec<u8>, AllocError>
    ensures { IfOk result (λ text. text.items ≡ told_in form header.now told.now) }
{
    match form {
        Form::Text => print_receipts(alloc, header, told),
        Form::Json => print_receipts_json(alloc, header, told),
    }
}

/// Returns in this form what the receipts of a run tell that the input spells: which of them hold, which orders more
/// than m generals show, and which generals are convicted. The output says no unless one order is shown, and no
/// other. The run must be the one that is asked for. `facts` then holds what is told.
///
/// # Errors
///
/// `Receipt` with the first fault of an input that spells no receipts of a run; else `OtherRun` if the run is
/// another. `Memory` if memory is refused.
pub fn receipts(
    alloc: Global,
    form: Form,
    asked: AskedRuns,
    input: &[u8],
    facts: &mut Vec<Fact>,
) -> Result<Output, JobFault>
    ensures answer { IfOk result (λ o. AreReceiptsTold form asked input.now o.text.items o.negative) }
    ensures fault { IfErr result (AreReceiptsFault asked input.now) }
    ensures facts { OnOk result (ReceiptsFacts asked input.now facts.new.items) }
{
    let read = read_asked(alloc, asked, input)?;
    let told = told_by(alloc, &read.header, read.receipts.as_slice())?;
    *facts = told_facts(alloc, &read.header, &told)?;
    Ok(Output {
        text: told_in(alloc, form, &read.header, &told)?,
        negative: told.shown.len() != 1,
    })
}
