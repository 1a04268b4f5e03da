//! The text of a bundle, kept in pieces so that its logs need no copy.
ghost use Rattle.std.specs.Prelude.{◌≡◌, IfOk, OnOk};
ghost use Rattle.std.specs.Io.KnownBytes.{Appends};
ghost use Rattle.gen_audit.specs.BundleSpelling.{bundle_spelling};
ghost use Rattle.gen_ends.specs.Answering.{DeliversText};

use gen_audit::{Bundle, bundle_front, exhibit_front};
use gen_ends::{JobEnd, JobFault};
use std::alloc::{AllocError, Global};
use std::io;
use std::io::Write;
use std::marker::Model;

/// The one spelling of a bundle, whole in memory: the bytes before the exhibits, and the bundle, which has the
/// exhibits. A contract sees the list of its bytes.
#[derive(Drop)]
pub struct BundleText {
    front: Vec<u8>,
    bundle: Bundle,
}

impl Model for BundleText {
    ghost use Rattle.std.specs.Prelude.{ℕ, List, ◌≡◌, ◌++◌};
    ghost use Rattle.std.specs.List.{flat_map};
    ghost use Rattle.gen_audit.specs.BundleSpelling.{bundle_spelling, exhibit_spelling};

    ghost Value = { List ℕ };

    ghost view = { λ t. bundle_spelling t.bundle };

    ghost invariant = { λ t.
        t.front.items ++ flat_map exhibit_spelling t.bundle.exhibits ≡ bundle_spelling t.bundle };
}

impl BundleText {
    /// Returns the text of a bundle. It fails only if memory was refused.
    pub(crate) fn new(alloc: Global, bundle: Bundle) -> Result<BundleText, AllocError>
        ensures { IfOk result (λ text. text ≡ bundle_spelling bundle) }
    {
        let front = bundle_front(alloc, &bundle)?;
        Ok(BundleText { front, bundle })
    }

    /// Writes the text. It takes no memory.
    ///
    /// # Errors
    ///
    /// The error of the write that failed.
    pub(crate) fn write_to<W: Write>(&self, writer: &mut W) -> Result<(), io::Error>
        ensures { OnOk result (Appends (W.contents writer.old) (W.contents writer.new) self.now) }
    {
        let _lawful = self.bundle.header();
        writer.write_all(&self.front)?;
        let exhibits = self.bundle.exhibits();
        'exhibits: for exhibit in exhibits {
            writer.write_all(&exhibit_front(exhibit))?;
            writer.write_all(exhibit.log())?;
        }
        Ok(())
    }
}

/// Writes the bundle that answers the input, or nothing if there is a fault in its place, and returns how the job ends.
pub fn deliver_bundle<W: Write>(writer: &mut W, answer: Result<BundleText, JobFault>) -> JobEnd
    ensures { DeliversText answer (W.contents writer.old) (W.contents writer.new) result }
{
    match answer {
        Ok(text) => {
            if text.write_to(writer).is_err() || writer.flush().is_err() {
                JobEnd::Failed(JobFault::Write)
            } else {
                JobEnd::Done
            }
        }
        Err(fault) => JobEnd::Failed(fault),
    }
}
