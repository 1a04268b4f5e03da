//! What names mean.
ghost use Rattle.std.specs.Prelude.{◌≡◌, ◌++◌, OnOk, IfOk, map, option_map};
ghost use Rattle.gen_explain.specs.Shown.{row_shown};
ghost use Rattle.gen_explain.specs.Table.{words};
ghost use Rattle.gen_explain.specs.Worded.{explained_row, each_explained, explained_name, names_listed, explained};

use crate::rows::{Row, all_rows, row_named};
use crate::wording::push_indented;
use gen_types::split_fields;
use std::alloc::{AllocError, Global};

/// Appends the form of a row and its sentence.
#[tactic(auto, unfolding(crate::specs::Worded::explained_row))]
fn push_row(out: &mut Vec<u8>, row: &Row) -> Result<(), AllocError>
    ensures { OnOk result (out.new.items ≡ out.old.items ++ explained_row (row_shown row.now)) }
{
    out.extend_from_slice(row.line)?;
    out.extend_from_slice(b"\n")?;
    push_indented(out, row.sentence)
}

/// Returns the rows of these names, one after another, and None if and only if one of them is no name.
#[tactic(auto, unfolding(crate::specs::Worded::each_explained))]
fn explain_each(alloc: Global, rows: &[Row], names: &[&[u8]]) -> Result<Option<Vec<u8>>, AllocError>
    ensures { IfOk result (λ r. option_map (λ v. v.items) r
        ≡ each_explained (map row_shown rows.now) (map (λ x. x.now) names.now)) }
{
    let mut out = Vec::new(alloc);
    let mut rest = names;
    while let [name, others @ ..] = rest {
        match row_named(rows, name) {
            Some(row) => push_row(&mut out, row)?,
            None => return Ok(None),
        }
        rest = others;
    }
    Ok(Some(out))
}

/// Returns what a name means, or several that are parted by one space, and None if and only if one of them is no name.
#[tactic(auto, unfolding(crate::specs::Worded::explained_name))]
fn explain_name(alloc: Global, rows: &[Row], name: &[u8]) -> Result<Option<Vec<u8>>, AllocError>
    ensures { IfOk result (λ r. option_map (λ v. v.items) r
        ≡ explained_name (map row_shown rows.now) name.now) }
{
    match row_named(rows, name) {
        Some(row) => {
            let mut out = Vec::new(alloc);
            push_row(&mut out, row)?;
            Ok(Some(out))
        }
        None => {
            let names = split_fields(alloc, name)?;
            explain_each(alloc, rows, &names)
        }
    }
}

/// Returns the names of rows, a line each, in the order of the rows.
#[tactic(auto, unfolding(crate::specs::Worded::names_listed))]
fn list_names(alloc: Global, rows: &[Row]) -> Result<Vec<u8>, AllocError>
    ensures { IfOk result (λ v. v.items ≡ names_listed (map row_shown rows.now)) }
{
    let mut out = Vec::new(alloc);
    for row in rows {
        out.extend_from_slice(row.name)?;
        out.extend_from_slice(b"\n")?;
    }
    Ok(out)
}

/// Returns what a name means, or several that are parted by one space: for each the form of its line, and its sentence
/// in a line of its own behind two spaces. The answer is None if and only if one of them is no name. So `N8` is
/// explained, and `P9 S3` by the rows of both. The empty name asks for the names of all rows, a line each.
///
/// # Errors
///
/// `AllocError` if memory is refused.
#[tactic(auto, unfolding(crate::specs::Worded::explained))]
pub fn explain(alloc: Global, name: &[u8]) -> Result<Option<Vec<u8>>, AllocError>
    ensures { IfOk result (λ r. option_map (λ v. v.items) r ≡ explained words name.now) }
{
    let rows = all_rows(alloc)?;
    match name {
        [] => Ok(Some(list_names(alloc, &rows)?)),
        [_letter, ..] => explain_name(alloc, &rows, name),
    }
}
