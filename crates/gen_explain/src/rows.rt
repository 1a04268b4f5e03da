//! Rows of a table, with the fields of their forms.
ghost use Rattle.std.specs.Prelude.{◌≡◌, ◌==◌, ◌++◌, OnOk, IfOk, map, option_map};
ghost use Rattle.std.specs.List.{find, slice_split};
ghost use Rattle.std.specs.Str.{bytes_eq};
ghost use Rattle.gen_explain.specs.Rows.{row_in, rows_in};
ghost use Rattle.gen_explain.specs.Rows as specified;
ghost use Rattle.gen_explain.specs.Shown.{row_shown};
ghost use Rattle.gen_explain.specs.Table.{words};

use crate::forms::fits;
use crate::table::WORDS;
use gen_types::split_fields;
use std::alloc::{AllocError, Global};

/// A row: its name, its form as a line and as fields, and its sentence.
#[derive(Drop)]
pub struct Row {
    /// The name.
    pub name: &'static [u8],
    /// The form, as a line.
    pub line: &'static [u8],
    /// The fields of the form.
    pub form: Vec<&'static [u8]>,
    /// The sentence.
    pub sentence: &'static [u8],
}

/// Returns what stands before, between and after the bytes of a text that are this mark.
pub fn split_by<'a>(alloc: Global, text: &'a [u8], mark: u8) -> Result<Vec<&'a [u8]>, AllocError>
    ensures { IfOk result (λ v. map (λ x. x.now) v.items ≡ slice_split (λ b. b == mark) text.now) }
{
    text.split(|b| *b == mark).collect(alloc)
}

/// Appends the row that a line of a table has. A line that has not three parts has none.
#[tactic(auto, unfolding(crate::specs::Rows::row_in))]
fn push_row_in(alloc: Global, rows: &mut Vec<Row>, line: &'static [u8]) -> Result<(), AllocError>
    ensures { OnOk result
        (map row_shown rows.new.items ≡ map row_shown rows.old.items ++ row_in line.now) }
{
    let parts = split_by(alloc, line, b'|')?;
    match parts.as_slice() {
        [name, line, sentence] => {
            let form = split_fields(alloc, line)?;
            rows.push(Row {
                name,
                line,
                form,
                sentence,
            })?;
            Ok(())
        }
        _ => Ok(()),
    }
}

/// Returns the rows of a table.
#[tactic(auto, unfolding(crate::specs::Rows::rows_in))]
fn split_rows(alloc: Global, table: &'static str) -> Result<Vec<Row>, AllocError>
    ensures { IfOk result (λ v. map row_shown v.items ≡ rows_in table.now) }
{
    let lines = split_by(alloc, table.as_bytes(), b'\n')?;
    let mut rows = Vec::new(alloc);
    for line in &lines {
        push_row_in(alloc, &mut rows, *line)?;
    }
    Ok(rows)
}

/// Returns the rows of this project's table.
pub fn all_rows(alloc: Global) -> Result<Vec<Row>, AllocError>
    ensures { IfOk result (λ v. map row_shown v.items ≡ words) }
{
    split_rows(alloc, WORDS)
}

/// Returns the first row of this name, as it is kept.
fn find_named<'r>(rows: &'r [Row], name: &[u8]) -> Option<&'r Row>
    ensures { option_map (λ r. r.now) result ≡ find (λ r. bytes_eq r.name.now name.now) rows.now }
{
    rows.iter().find(|row| row.name == name)
}

/// Returns the first row of this name.
pub fn row_named<'r>(rows: &'r [Row], name: &[u8]) -> Option<&'r Row>
    ensures { option_map (λ r. row_shown r.now) result
        ≡ specified.row_named (map row_shown rows.now) name.now }
{
    find_named(rows, name)
}

/// Returns the first row whose form the fields of a line fit, as it is kept.
fn find_fitting<'r>(rows: &'r [Row], words: &[&[u8]]) -> Option<&'r Row>
    ensures { option_map (λ r. r.now) result ≡ find (λ r. specified.fits
        (map (λ x. x.now) r.form.items) (map (λ x. x.now) words.now)) rows.now }
{
    rows.iter().find(|row| fits(&row.form, words))
}

/// Returns the first row whose form the fields of a line fit.
pub fn row_of_line<'r>(rows: &'r [Row], words: &[&[u8]]) -> Option<&'r Row>
    ensures { option_map (λ r. row_shown r.now) result
        ≡ specified.row_of_line (map row_shown rows.now) (map (λ x. x.now) words.now) }
{
    find_fitting(rows, words)
}
