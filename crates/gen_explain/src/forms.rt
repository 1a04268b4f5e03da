//! Forms of lines, and the fields of a line that stand in them.
ghost use Rattle.std.specs.Prelude.{◌≡◌, ◌++◌, OnOk, map, option_map};
ghost use Rattle.gen_explain.specs.Rows as specified;

use std::alloc::AllocError;

/// Whether a field may stand for this field of a form. For a capital letter any field may.
fn allows(field: &[u8], word: &[u8]) -> bool
    ensures { result ≡ specified.allows field.now word.now }
{
    matches!(field, [b'A'..=b'Z']) || field == word
}

/// Whether the fields of a line fit a form.
#[tactic(auto, unfolding(crate::specs::Rows::fits))]
pub fn fits(form: &[&[u8]], words: &[&[u8]]) -> bool
    ensures { result ≡ specified.fits (map (λ x. x.now) form.now) (map (λ x. x.now) words.now) }
{
    let mut fields = form;
    let mut rest = words;
    while let [field, behind @ ..] = fields {
        match rest {
            [] => return false,
            [word, others @ ..] => {
                if *field == b"NAMES".as_slice() {
                    return true;
                }
                if !allows(field, word) {
                    return false;
                }
                fields = behind;
                rest = others;
            }
        }
    }
    rest.is_empty()
}

/// Returns the field of a line that stands where the form has this letter.
#[tactic(auto, unfolding(crate::specs::Rows::field_for))]
fn field_for<'w>(form: &[&[u8]], words: &[&'w [u8]], letter: u8) -> Option<&'w [u8]>
    ensures { option_map (λ x. x.now) result
        ≡ specified.field_for (map (λ x. x.now) form.now) (map (λ x. x.now) words.now) letter }
{
    let mut fields = form;
    let mut rest = words;
    while let [field, behind @ ..] = fields {
        match rest {
            [] => return None,
            [word, others @ ..] => {
                if *field == [letter].as_slice() {
                    return Some(*word);
                }
                fields = behind;
                rest = others;
            }
        }
    }
    None
}

/// Returns the fields of a line that stand for names.
#[tactic(auto, unfolding(crate::specs::Rows::names_in))]
pub fn names_in<'w, 'b>(form: &[&[u8]], words: &'w [&'b [u8]]) -> &'w [&'b [u8]]
    ensures { map (λ x. x.now) result.now
        ≡ specified.names_in (map (λ x. x.now) form.now) (map (λ x. x.now) words.now) }
{
    let mut fields = form;
    let mut rest = words;
    while let [field, behind @ ..] = fields {
        match rest {
            [] => return rest,
            [_word, others @ ..] => {
                if *field == b"NAMES".as_slice() {
                    return rest;
                }
                fields = behind;
                rest = others;
            }
        }
    }
    &[]
}

/// Appends a sentence in which the fields of the line stand for the letters of the form.
pub fn push_filled(
    out: &mut Vec<u8>,
    form: &[&[u8]],
    words: &[&[u8]],
    sentence: &[u8],
) -> Result<(), AllocError>
    ensures { OnOk result (out.new.items ≡ out.old.items ++ specified.filled
        (map (λ x. x.now) form.now) (map (λ x. x.now) words.now) sentence.now) }
{
    for letter in sentence {
        let own = [*letter];
        let said = field_for(form, words, *letter).unwrap_or(&own);
        out.extend_from_slice(said)?;
    }
    Ok(())
}
