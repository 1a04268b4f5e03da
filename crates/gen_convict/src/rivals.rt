//! Finds the first two texts of a general that contradict each other across runs.
ghost use Rattle.std.specs.Prelude.{◌≡◌, ◌∷◌, IfOk, OnOk, map};
ghost use Rattle.std.specs.Option.{option_map};
ghost use Rattle.std.specs.List.{find, list_any};
ghost use Rattle.gen_convict.specs.AcrossFinding as finds;
ghost use Rattle.gen_convict.specs.Loops.Alone.{MeetNone};
ghost use Rattle.gen_convict.specs.Seen.{seen, seen_run};

use crate::gathered::texts_by;
use crate::seen_texts::{SeenRun, SeenText};
use crate::shared_leaves::share_leaves;
use crate::text_likeness::{is_like, is_unlike};
use gen_types::GeneralNo;
use std::alloc::{AllocError, Global};

/// Whether two texts stand under one leaf, in two runs that use the same leaves, and differ.
#[tactic(auto, unfolding(crate::specs::AcrossFinding::is_rival))]
pub fn is_rival(first: SeenText, second: SeenText) -> bool
    ensures { result ≡ finds.is_rival (seen first.entry) (seen second.entry) }
{
    is_like(&first.text.text, &second.text.text)
        && share_leaves(first.header, second.header)
        && (*first.header.run_id() != *second.header.run_id()
            || is_unlike(&first.text.text, &second.text.text))
}

/// Whether one of the other texts stands under the leaf of this one, in another run that uses the same leaves.
#[tactic(auto, unfolding(crate::specs::AcrossFinding::meets))]
fn has_meeting(text: SeenText, others: &[SeenText]) -> bool
    ensures { result ≡ list_any (finds.meets (seen text.entry)) (map seen others.now) }
{
    for other in others {
        if is_like(&text.text.text, &other.text.text) && share_leaves(text.header, other.header) {
            return true;
        }
    }
    false
}

/// Returns the first of `others`, the texts after this one, that is a rival of it. A text that meets none of the texts
/// after it is kept in `alone`, one for each run and subject. A text with the run and the subject of a kept one has no
/// rival either, and isn't compared.
#[tactic(auto, unfolding(crate::specs::AcrossFinding::is_beside))]
fn rival_behind<'a>(
    text: SeenText<'a>,
    others: &[SeenText<'a>],
    alone: &mut Vec<SeenText<'a>>,
) -> Result<Option<SeenText<'a>>, AllocError>
    requires { MeetNone (map seen alone.old.items) (seen text ∷ map seen others.now) }
    ensures rival { IfOk result (λ rival.
        option_map seen rival ≡ find (finds.is_rival (seen text.entry)) (map seen others.now)) }
    ensures alone { OnOk result (MeetNone (map seen alone.new.items) (map seen others.now)) }
{
    'kept: for other in alone.as_slice() {
        if is_like(&other.text.text, &text.text.text) && other.header == text.header {
            return Ok(None);
        }
    }
    if !has_meeting(text, others) {
        alone.push(text)?;
        return Ok(None);
    }
    for other in others {
        if is_rival(text, *other) {
            return Ok(Some(*other));
        }
    }
    Ok(None)
}

/// Returns the first text that has a rival after it, with the first such rival. It fails only if memory is refused.
pub fn first_rivals<'a>(
    alloc: Global,
    texts: &[SeenText<'a>],
) -> Result<Option<(SeenText<'a>, SeenText<'a>)>, AllocError>
    ensures { IfOk result (λ found.
        option_map (λ p. (seen p.0, seen p.1)) found ≡ finds.first_rivals (map seen texts.now)) }
{
    let mut alone = Vec::new(alloc);
    let mut rest = texts;
    while let [text, others @ ..] = rest {
        if let Some(rival) = rival_behind(*text, others, &mut alone)? {
            return Ok(Some((*text, rival)));
        }
        rest = others;
    }
    Ok(None)
}

/// Returns the texts of a general in all the reports, run by run, each with its run's header.
pub fn texts_across<'a>(
    alloc: Global,
    general: GeneralNo,
    runs: &[SeenRun<'a>],
) -> Result<Vec<SeenText<'a>>, AllocError>
    ensures { IfOk result (λ texts.
        map seen texts.items ≡ finds.his_across general (map seen_run runs.now)) }
{
    let mut texts = Vec::new(alloc);
    for run in runs {
        let found = texts_by(alloc, general, run.reports)?;
        for text in &found {
            texts.push(SeenText {
                header: run.header,
                text: *text,
            })?;
        }
    }
    Ok(texts)
}
