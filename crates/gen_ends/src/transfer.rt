//! Reads the whole input, and writes the whole output.
ghost use Rattle.std.specs.Prelude.{◌≡◌, ◌≤◌, IfErr, IfOk, IfSome, length};
ghost use Rattle.gen_ends.specs.Answering.{Delivers};
ghost use Rattle.gen_ends.specs.Ends.{IsReadFault};

use crate::ends::{JobEnd, JobFault, Output};
use std::alloc::Global;
use std::io::{ErrorKind, Read, Write};

/// The greatest number of bytes of an input: 2^30.
const MOST_BYTES: u64 = 1_073_741_824;

/// Returns all that the reader gives to its end: at most 1,073,741,824 bytes. An interrupted read is tried again.
///
/// # Errors
///
/// `Read` if a read fails or the input is past the limit; `Memory` if memory is refused.
pub fn read_all<R: Read>(alloc: Global, reader: &mut R) -> Result<Vec<u8>, JobFault>
    ensures whole { IfOk result (λ v. IfSome (R.remaining reader.old) (λ input. v.items ≡ input)) }
    ensures short { IfOk result (λ v. length v.items ≤ 1073741824) }
    ensures fault { IfErr result IsReadFault }
{
    let mut all = Vec::new(alloc);
    // One byte more than the limit tells whether the input is past it.
    match reader.take(MOST_BYTES + 1).read_to_end(&mut all) {
        Ok(_) if all.len() as u64 <= MOST_BYTES => Ok(all),
        Err(e) if e.kind() == ErrorKind::OutOfMemory => Err(JobFault::Memory),
        _ => Err(JobFault::Read),
    }
}

/// Writes the output that answers the input, or nothing if there is a fault in its place, and returns how the job ends:
/// Done, Negative if the output says no, or with the fault, which is Write if a write failed.
pub fn deliver<W: Write>(writer: &mut W, answer: Result<Output, JobFault>) -> JobEnd
    ensures { Delivers answer (W.contents writer.old) (W.contents writer.new) result }
{
    match answer {
        Ok(output) => {
            if writer.write_all(&output.text).is_err() || writer.flush().is_err() {
                JobEnd::Failed(JobFault::Write)
            } else if output.negative {
                JobEnd::Negative
            } else {
                JobEnd::Done
            }
        }
        Err(fault) => JobEnd::Failed(fault),
    }
}
