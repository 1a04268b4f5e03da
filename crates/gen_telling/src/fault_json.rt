//! The line of JSON of a fault.
ghost use Rattle.std.specs.Prelude.{◌≡◌, IfOk, option_map};
ghost use Rattle.gen_json.specs.Line.{json_line};
ghost use Rattle.gen_telling.specs.InputKinds.{fault_data};

use crate::input_kinds::InputKind;
use gen_ends::{JobFault, job_fault_line};
use gen_json::print_failure_json;
use std::alloc::{AllocError, Global};

/// Returns the line of JSON of a fault: the line that the program writes to standard error, the kind of the input by its
/// first bytes and the name of its file, if there are any, and the exit status.
///
/// # Errors
///
/// `AllocError` if memory is refused.
pub fn job_fault_json(
    alloc: Global,
    fault: JobFault,
    name: Option<&str>,
    kind: Option<InputKind>,
) -> Result<Vec<u8>, AllocError>
    ensures { IfOk result (λ line. line.items
        ≡ json_line (fault_data fault (option_map (λ t. t.now) name.entry) kind)) }
{
    let status = fault.status();
    let line = job_fault_line(alloc, fault)?;
    let words = kind.map(|kind| kind.words());
    print_failure_json(alloc, line.as_str(), words, name, status)
}
