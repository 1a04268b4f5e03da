//! The work of one worker.
ghost use Rattle.std.specs.Prelude.{IfOk};
ghost use Rattle.gen_local.specs.Report.{AreReportsOf};
ghost use Rattle.gen_audit.specs.Loops.Hands.{AreOfWorker};

use crate::dealing::pieces_of;
use crate::gates::JobGate;
use gen_chain::VerifyStore;
use gen_local::{Exchange, Exhibit, LocalReport, local_reports_among};
use gen_net::Header;
use sha_lanes::LANES;
use std::alloc::{AllocError, Global};

/// Returns the reports of a worker's pieces, of which `first` is the first. The worker takes up to `LANES` of them at a
/// time, has a store of its own, and exchanges answers with the others. The gate is called for each piece.
fn work_on<S: JobGate + Exchange>(
    alloc: Global,
    shop: &S,
    header: &Header,
    pieces: &[Exhibit],
    first: usize,
    last: usize,
) -> Result<Vec<LocalReport>, AllocError>
    ensures { IfOk result (λ reports. AreReportsOf header.now pieces.now reports.items) }
{
    let mut store = VerifyStore::new(alloc)?;
    let mut reports = Vec::new(alloc);
    let mut rest = pieces;
    let mut piece = first;
    'turns: while !rest.is_empty() {
        let (group, others) = rest.split_at(rest.len().min(LANES));
        for _ in 0..group.len() {
            shop.begin(piece);
            piece = piece.saturating_add(last).saturating_add(1);
        }
        let mut more = local_reports_among(alloc, header, group, &mut store, shop)?;
        reports.append(&mut more)?;
        rest = others;
    }
    Ok(reports)
}

/// Returns the reports of all pieces that a worker takes, in their order, with a store of its own.
///
/// # Errors
///
/// `AllocError` where memory is refused.
pub(crate) fn work<S: JobGate + Exchange>(
    alloc: Global,
    shop: &S,
    header: &Header,
    exhibits: &[Exhibit],
    last: usize,
    worker: usize,
) -> Result<Vec<LocalReport>, AllocError>
    ensures { IfOk result (λ reports. AreOfWorker header.now exhibits.now last worker reports.items) }
{
    let pieces = pieces_of(alloc, exhibits, last, worker)?;
    work_on(alloc, shop, header, pieces.as_slice(), worker, last)
}
