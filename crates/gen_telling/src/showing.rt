//! The job `show`: writes what a file is, of the runs that are asked for.
ghost use Rattle.std.specs.Prelude.{IfErr, IfOk};
ghost use Rattle.gen_telling.specs.Showing.{IsShownFault, IsShownIn};

use crate::telling::tell_file;
use gen_asked::{AskedRuns, Form};
use gen_campaign::file_runs;
use gen_ends::{JobFault, Output};
use std::alloc::Global;

/// Returns in this form what a file is, line by line. The output says no if it is no whole bundle, campaign, evidence or
/// header. If runs are asked for, it must be whole and of these runs.
///
/// # Errors
///
/// `OtherRun` if runs are asked for, and the file is not whole or of other runs; `Memory` if memory is refused.
pub fn show(alloc: Global, form: Form, asked: AskedRuns, input: &[u8]) -> Result<Output, JobFault>
    ensures answer { IfOk result (λ o. IsShownIn form asked input.now o.text.items o.negative) }
    ensures fault { IfErr result (IsShownFault asked input.now) }
{
    let are_asked = match file_runs(alloc, input)? {
        Some(ids) => asked.are(ids.as_slice()),
        None => matches!(asked, AskedRuns::Any),
    };
    if are_asked {
        Ok(tell_file(alloc, form, input)?)
    } else {
        Err(JobFault::OtherRun)
    }
}
