//! Writes admissions.
ghost use Rattle.std.specs.Prelude.{◌≡◌, IfOk};
ghost use Rattle.gen_system.specs.Admissions.{admission_spelling};

use crate::admission_reading::ADMISSION_MARK;
use crate::admissions::Admission;
use crate::system_writing::write_system;
use std::alloc::{AllocError, Global};

/// Returns the one spelling of an admission, which `read_admission` reads. It fails only if memory is refused.
pub fn write_admission(alloc: Global, admission: &Admission) -> Result<Vec<u8>, AllocError>
    ensures { IfOk result (λ bytes. bytes.items ≡ admission_spelling admission.now) }
{
    let opened = admission.opened();
    let mut out = Vec::new(alloc);
    out.extend_from_slice(&ADMISSION_MARK.to_be_bytes())?;
    out.extend_from_slice(&write_system(alloc, admission.system())?)?;
    out.extend_from_slice(&admission.set().to_be_bytes())?;
    'roots: for one in opened {
        out.extend_from_slice(&one.root)?;
        one.opening.append_to(&mut out)?;
    }
    Ok(out)
}
