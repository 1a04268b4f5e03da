//! The runs that an admission asks an input to be of.
ghost use Rattle.std.specs.Prelude.{◌≡◌, filter, option_map};
ghost use Rattle.gen_enrolling.specs.Asking.{are_admitted, asked_by, few_found, first_id, is_admitted, is_among};

use crate::admitted::{AdmittedRun, AdmittedRuns};
use gen_asked::AskedRuns;

/// Returns whether an id is one of these.
fn is_among(ids: &[[u8; 32]], id: &[u8; 32]) -> bool
    ensures { result ≡ is_among ids.now id.now }
{
    ids.iter().any(|other| other == id)
}

/// Returns whether an id is that of one of these runs.
fn is_admitted(runs: &[AdmittedRun], id: &[u8; 32]) -> bool
    ensures { result ≡ is_admitted runs.now id.now }
{
    runs.iter().any(|run| run.id == *id)
}

/// Returns whether each id is that of one of these runs.
fn are_admitted(runs: &[AdmittedRun], ids: &[[u8; 32]]) -> bool
    ensures { result ≡ are_admitted runs.now ids.now }
{
    ids.iter().all(|id| is_admitted(runs, id))
}

/// Returns the runs with these ids, if there are one to four, and each is one of these runs.
#[tactic(auto, unfolding(crate::specs::Asking::few_found))]
fn few_found(runs: &[AdmittedRun], ids: &[[u8; 32]]) -> Option<AskedRuns>
    ensures { result ≡ few_found runs.now ids.now }
{
    if !are_admitted(runs, ids) {
        return None;
    }
    match ids {
        [a] => Some(AskedRuns::One([*a])),
        [a, b] => Some(AskedRuns::Two([*a, *b])),
        [a, b, c] => Some(AskedRuns::Three([*a, *b, *c])),
        [a, b, c, d] => Some(AskedRuns::Four([*a, *b, *c, *d])),
        _ => None,
    }
}

/// Returns the id of the first of these runs; zeros if there are none.
fn first_id(runs: &[AdmittedRun]) -> [u8; 32]
    ensures { result ≡ first_id runs.now }
{
    match runs.first() {
        Some(run) => run.id,
        None => [0; 32],
    }
}

/// Returns the runs of which an input must be that is of runs with these ids; None if the input does not read. They are the
/// runs of the input, if each is admitted. If not, they are the first run that is admitted, of which the input is not.
pub fn runs_asked(admitted: &AdmittedRuns, ids: Option<&[[u8; 32]]>) -> AskedRuns
    ensures { result ≡ asked_by admitted.now.runs.items (option_map (λ i. i.now) ids.entry) }
{
    let found = match ids {
        Some(ids) => few_found(&admitted.runs, ids),
        None => None,
    };
    match found {
        Some(asked) => asked,
        None => AskedRuns::One([first_id(&admitted.runs)]),
    }
}

/// Keeps the runs with these ids, and no others.
pub fn keep_runs(admitted: &mut AdmittedRuns, ids: &[[u8; 32]])
    ensures runs { admitted.new.runs.items
        ≡ filter (λ r. is_among ids.now r.id) admitted.old.runs.items }
    ensures system { admitted.new.system ≡ admitted.old.system }
{
    admitted.runs.retain(|run| is_among(ids, &run.id));
}
