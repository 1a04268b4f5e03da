//! Texts with words: each line followed by what it means.
ghost use Rattle.std.specs.Prelude.{◌≡◌, ◌++◌, OnOk, IfOk, map};
ghost use Rattle.gen_explain.specs.Shown.{row_shown};
ghost use Rattle.gen_explain.specs.Table.{words};
ghost use Rattle.gen_explain.specs.Worded.{indented, said, meaning_by, meaning, worded_line, worded_lines, worded};

use crate::forms::{names_in, push_filled};
use crate::rows::{Row, all_rows, row_named, row_of_line, split_by};
use gen_types::split_fields;
use std::alloc::{AllocError, Global};

/// Appends a sentence in a line of its own.
pub fn push_indented(out: &mut Vec<u8>, sentence: &[u8]) -> Result<(), AllocError>
    ensures { OnOk result (out.new.items ≡ out.old.items ++ indented sentence.now) }
{
    out.extend_from_slice(b"  ")?;
    out.extend_from_slice(sentence)?;
    out.extend_from_slice(b"\n")
}

/// Appends the sentence of a name in a line of its own, or nothing if no row has this name.
#[tactic(auto, unfolding(crate::specs::Rows::sentence_by))]
fn push_said(out: &mut Vec<u8>, rows: &[Row], name: &[u8]) -> Result<(), AllocError>
    ensures { OnOk result (out.new.items ≡ out.old.items ++ said (map row_shown rows.now) name.now) }
{
    match row_named(rows, name) {
        Some(row) => push_indented(out, row.sentence),
        None => Ok(()),
    }
}

/// Appends what a row says of a line: its sentence with the fields of the line, and the sentences of the names in it.
#[tactic(auto, unfolding(crate::specs::Worded::meaning_by))]
fn push_meaning_by(
    out: &mut Vec<u8>,
    rows: &[Row],
    row: &Row,
    words: &[&[u8]],
) -> Result<(), AllocError>
    ensures { OnOk result (out.new.items ≡ out.old.items
        ++ meaning_by (map row_shown rows.now) (row_shown row.now) (map (λ x. x.now) words.now)) }
{
    out.extend_from_slice(b"  ")?;
    push_filled(out, &row.form, words, row.sentence)?;
    out.extend_from_slice(b"\n")?;
    let names = names_in(&row.form, words);
    for name in names {
        push_said(out, rows, name)?;
    }
    Ok(())
}

/// Appends what a line means.
#[tactic(auto, unfolding(crate::specs::Worded::meaning))]
fn push_meaning(out: &mut Vec<u8>, rows: &[Row], words: &[&[u8]]) -> Result<(), AllocError>
    ensures { OnOk result (out.new.items ≡ out.old.items
        ++ meaning (map row_shown rows.now) (map (λ x. x.now) words.now)) }
{
    match row_of_line(rows, words) {
        Some(row) => push_meaning_by(out, rows, row, words),
        None => Ok(()),
    }
}

/// Appends a line and what it means.
#[tactic(auto, unfolding(crate::specs::Worded::worded_line))]
fn push_line(alloc: Global, out: &mut Vec<u8>, rows: &[Row], line: &[u8]) -> Result<(), AllocError>
    ensures { OnOk result
        (out.new.items ≡ out.old.items ++ worded_line (map row_shown rows.now) line.now) }
{
    out.extend_from_slice(line)?;
    out.extend_from_slice(b"\n")?;
    let words = split_fields(alloc, line)?;
    push_meaning(out, rows, &words)
}

/// Appends lines and what they mean, and what stands behind the last line feed.
#[tactic(auto, unfolding(crate::specs::Worded::worded_lines))]
fn push_lines(
    alloc: Global,
    out: &mut Vec<u8>,
    rows: &[Row],
    lines: &[&[u8]],
) -> Result<(), AllocError>
    ensures { OnOk result (out.new.items ≡ out.old.items
        ++ worded_lines (map row_shown rows.now) (map (λ x. x.now) lines.now)) }
{
    let mut rest = lines;
    while let [line, others @ ..] = rest {
        match others {
            [] => return out.extend_from_slice(line),
            [_next, ..] => push_line(alloc, out, rows, line)?,
        }
        rest = others;
    }
    Ok(())
}

/// Returns a text in which each line is followed by what it means: by a sentence in a line of its own, which begins
/// with two spaces, and by one more for each name in the line. The first row whose form the line fits is taken, and a
/// line that fits none has no sentence. What stands behind the last line feed is no line, and stays.
///
/// # Errors
///
/// `AllocError` if memory is refused.
#[tactic(auto, unfolding(crate::specs::Worded::worded))]
pub fn with_words(alloc: Global, text: &[u8]) -> Result<Vec<u8>, AllocError>
    ensures { IfOk result (λ v. v.items ≡ worded words text.now) }
{
    let rows = all_rows(alloc)?;
    let lines = split_by(alloc, text, b'\n')?;
    let mut out = Vec::new(alloc);
    push_lines(alloc, &mut out, &rows, &lines)?;
    Ok(out)
}
