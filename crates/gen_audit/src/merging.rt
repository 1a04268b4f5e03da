//! Merges the reports of all workers.
ghost use Rattle.std.specs.Prelude.{IfOk};
ghost use Rattle.gen_local.specs.Report.{AreReportsOf};
ghost use Rattle.gen_audit.specs.Loops.Hands.{AreHands};

use crate::hands::Hand;
use gen_local::{Exhibit, LocalReport};
use gen_net::Header;
use std::alloc::{AllocError, Global};

/// Returns the reports of all hands, in the order of the exhibits. The first report of the first hand goes to the end of
/// the reports, and this hand behind the other hands, and so on.
pub(crate) fn merged(
    alloc: Global,
    header: &Header,
    exhibits: &[Exhibit],
    last: usize,
    hands: Vec<Hand>,
) -> Result<Vec<LocalReport>, AllocError>
    requires { AreHands header.now exhibits.now last hands.items }
    ensures { IfOk result (λ reports. AreReportsOf header.now exhibits.now reports.items) }
{
    let mut hands = hands;
    let mut reports = Vec::with_capacity(alloc, exhibits.len())?;
    let mut rest = exhibits;
    'rounds: while let Some((_, others)) = rest.split_first() {
        let mut hand = hands.remove(0);
        let report = hand.reports.remove(0);
        reports.push(report)?;
        hands.push(hand)?;
        rest = others;
    }
    Ok(reports)
}
