//! Sorts findings into their one order.
ghost use Rattle.std.specs.Prelude.{◌≡◌, ◌++◌, ◌∷◌, [], List, Contains, IfOk};
ghost use Rattle.std.specs.Bool.{OnTrue, OnFalse};
ghost use Rattle.gen_match.specs.declared.finding.Finding.{Finding};
ghost use Rattle.gen_match.specs.Findings.{AreFindings};
ghost use Rattle.gen_audit.specs.Sorting.{sorting_rank};

use crate::ranks::Rank;
use gen_match::Finding;
use gen_types::GeneralNo;
use std::alloc::{AllocError, Global};

/// Returns the rank of these numbers, whose second is that of a general.
fn rank_with(number: u8, general: GeneralNo, detail: u64, round: u8, order: u8) -> Rank
    ensures { result ≡ record {
      number = number;
      general = general;
      detail = detail;
      round = round;
      order = order;
    } }
{
    Rank {
        number,
        general: general.get(),
        detail,
        round,
        order,
    }
}

/// Returns the rank by which a finding is sorted.
fn rank_of(finding: &Finding) -> Rank
    ensures { result ≡ sorting_rank finding.now }
{
    match *finding {
        Finding::Missing { general } => rank_with(1, general, 0, 0, 0),
        Finding::Several { general } => rank_with(2, general, 0, 0, 0),
        Finding::Unreadable { general, fault } => {
            let (log_number, chain_number) = fault.numbers();
            rank_with(3, general, u64::from(log_number), chain_number, 0)
        }
        Finding::Foreign { general } => rank_with(4, general, 0, 0, 0),
        Finding::Unsigned { general, entry } => rank_with(5, general, entry as u64, 0, 0),
        Finding::Unsealed { general } => rank_with(6, general, 0, 0, 0),
        Finding::Departs { general, entry } => rank_with(7, general, entry as u64, 0, 0),
        Finding::Unmatched {
            from,
            to,
            round,
            order,
        } => rank_with(8, from, u64::from(to.get()), round, order.get()),
        Finding::Underivable {
            from,
            to,
            round,
            order,
        } => rank_with(9, from, u64::from(to.get()), round, order.get()),
        Finding::Unjoined { first, second } => rank_with(10, first, u64::from(second.get()), 0, 0),
        Finding::Nobody => rank_with(11, GeneralNo::commander(), 0, 0, 0),
    }
}

/// Returns whether the finding differs from the last of these, or there is none. Findings with equal ranks are equal.
fn is_new(findings: &[Finding], finding: &Finding) -> bool
    ensures yes { OnTrue result (
        (front : List Finding) → findings.now ≡ front ++ finding.now ∷ [] → ⊥) }
    ensures no { OnFalse result (
        (front : List Finding) × (findings.now ≡ front ++ finding.now ∷ [])) }
{
    match findings.split_last() {
        Some((last, _)) => rank_of(last) != rank_of(finding),
        None => true,
    }
}

/// Returns the findings in their one order, each once.
///
/// # Errors
///
/// `AllocError` where memory is refused.
pub(crate) fn in_order(
    alloc: Global,
    mut findings: Vec<Finding>,
) -> Result<Vec<Finding>, AllocError>
    ensures { IfOk result (λ sorted. AreFindings (Contains findings.items) sorted.items) }
{
    findings.sort_by_key(|finding| rank_of(finding))?;
    let mut once = Vec::new(alloc);
    for finding in &findings {
        if is_new(once.as_slice(), finding) {
            once.push(*finding)?;
        }
    }
    Ok(once)
}
