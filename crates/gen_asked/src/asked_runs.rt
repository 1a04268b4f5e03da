//! Runs that are asked for by their ids.
ghost use Rattle.std.specs.Prelude.{◌≡◌, IfOk, map, option_and_then};
ghost use Rattle.std.specs.Bool.{Decides};
ghost use Rattle.gen_asked.specs.AskedRuns.{AreAsked, few_runs, ids_named, parted, run_id_named, runs_named};

use hex::FromHex;
use std::alloc::{AllocError, Global};

/// The runs of which an input is asked to be, by their ids in the order of a campaign.
#[derive(Clone, Copy, Debug, PartialEq, Eq)]
pub enum AskedRuns {
    /// Any runs.
    Any,
    /// One run.
    One([[u8; 32]; 1]),
    /// Two runs.
    Two([[u8; 32]; 2]),
    /// Three runs.
    Three([[u8; 32]; 3]),
    /// Four runs.
    Four([[u8; 32]; 4]),
}

/// Returns whether two lists of run ids are the same.
fn are_same(one: &[[u8; 32]], other: &[[u8; 32]]) -> bool
    ensures { Decides result (one.now ≡ other.now) }
{
    one == other
}

impl AskedRuns {
    /// Returns whether the runs with these ids, in their order, are the ones that are asked for.
    pub fn are(self, ids: &[[u8; 32]]) -> bool
        ensures { Decides result (AreAsked self ids.now) }
    {
        match self {
            AskedRuns::Any => true,
            AskedRuns::One(asked) => are_same(ids, &asked),
            AskedRuns::Two(asked) => are_same(ids, &asked),
            AskedRuns::Three(asked) => are_same(ids, &asked),
            AskedRuns::Four(asked) => are_same(ids, &asked),
        }
    }
}

/// Returns the run id that 64 hexadecimal digits spell, of either case, and None for any other text.
#[tactic(auto, unfolding(crate::specs::AskedRuns::run_id_named))]
fn run_id_named(text: &[u8]) -> Option<[u8; 32]>
    ensures { result ≡ run_id_named text.now }
{
    match <[u8; 32] as FromHex>::from_hex(text) {
        Ok(id) => Some(id),
        Err(_) => None,
    }
}

/// Returns the texts between commas.
pub(crate) fn parted<'a>(alloc: Global, text: &'a [u8]) -> Result<Vec<&'a [u8]>, AllocError>
    ensures { IfOk result (λ v. map (λ x. x.now) v.items ≡ parted text.now) }
{
    text.split(|b| *b == b',').collect(alloc)
}

/// Returns the runs whose ids these texts spell, if there are one to four.
#[tactic(auto, unfolding(crate::specs::AskedRuns::ids_named))]
fn runs_of(texts: &[&[u8]]) -> Option<AskedRuns>
    ensures { result ≡ option_and_then few_runs (ids_named (map (λ x. x.now) texts.now)) }
{
    match texts {
        [a] => Some(AskedRuns::One([run_id_named(a)?])),
        [a, b] => Some(AskedRuns::Two([run_id_named(a)?, run_id_named(b)?])),
        [a, b, c] => Some(AskedRuns::Three([run_id_named(a)?, run_id_named(b)?, run_id_named(c)?])),
        [a, b, c, d] => Some(AskedRuns::Four([
            run_id_named(a)?,
            run_id_named(b)?,
            run_id_named(c)?,
            run_id_named(d)?,
        ])),
        _ => None,
    }
}

/// Returns the runs whose ids a text spells: one to four, of 64 hexadecimal digits of either case each, with commas
/// between them. None for any other text. It fails only if memory was refused.
pub fn read_run_ids(alloc: Global, text: &[u8]) -> Result<Option<AskedRuns>, AllocError>
    ensures { IfOk result (λ runs. runs ≡ runs_named text.now) }
{
    let texts = parted(alloc, text)?;
    Ok(runs_of(texts.as_slice()))
}
