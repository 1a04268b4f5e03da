//! Gathers the texts of one general in all reports, and of these the first of each subject.
ghost use Rattle.std.specs.Prelude.{◌≡◌, [], ◌++◌, IfOk, OnOk, map};
ghost use Rattle.gen_convict.specs.Finding as finds;

use crate::text_likeness::is_like;
use gen_local::{LocalReport, Reading, SignedText};
use gen_types::GeneralNo;
use std::alloc::{AllocError, Global};

/// Returns the texts of a general in all the reports, in the order of the reports.
pub fn texts_by<'a>(
    alloc: Global,
    general: GeneralNo,
    reports: &'a [LocalReport],
) -> Result<Vec<&'a SignedText>, AllocError>
    ensures { IfOk result (λ texts.
        map (λ t. t.now) texts.items ≡ finds.his_texts general reports.now) }
{
    let mut texts = Vec::new(alloc);
    for report in reports {
        if let Reading::Own(found) = report.reading() {
            for text in found.texts() {
                if text.signer == general {
                    texts.push(text)?;
                }
            }
        }
    }
    Ok(texts)
}

/// Appends a text, unless one of the others has its subject.
fn put_new<'a>(text: &'a SignedText, firsts: &mut Vec<&'a SignedText>) -> Result<(), AllocError>
    ensures { OnOk result (map (λ t. t.now) firsts.new.items
        ≡ map (λ t. t.now) firsts.old.items ++ finds.new_one (map (λ t. t.now) firsts.old.items) text.now) }
{
    for other in firsts.as_slice() {
        if is_like(&other.text, &text.text) {
            return Ok(());
        }
    }
    firsts.push(text)?;
    Ok(())
}

/// Returns the first text of each subject, in the order of the texts.
pub fn one_of_each<'a>(
    alloc: Global,
    texts: &[&'a SignedText],
) -> Result<Vec<&'a SignedText>, AllocError>
    ensures { IfOk result (λ firsts. map (λ t. t.now) firsts.items
        ≡ finds.one_each [] (map (λ t. t.now) texts.now)) }
{
    let mut firsts = Vec::new(alloc);
    for text in texts {
        put_new(text, &mut firsts)?;
    }
    Ok(firsts)
}
