//! Gives the entries of the logs of the rest.
ghost use Rattle.std.specs.Prelude.{◌≡◌};
ghost use Rattle.gen_log.specs.Entry.{erase};
ghost use Rattle.gen_local.specs.Erased.{erased};
ghost use Rattle.gen_match.specs.Reports.{told_logs};
ghost use Rattle.gen_match.specs.Rest as rest;

use crate::telling::log_reported;
use gen_local::LocalReport;
use gen_log::Entry;
use gen_net::Header;
use gen_types::{GeneralNo, GeneralSet};

/// Whether a general is of the rest.
pub(crate) fn is_rest(header: &Header, faulty: &GeneralSet, general: GeneralNo) -> bool
    ensures { result ≡ rest.is_rest header.now.network faulty.now general }
{
    general.get() < header.net().generals() && !faulty.contains(general)
}

/// Returns the entries of a general's log; none if the general isn't of the rest or has no log that counts.
pub(crate) fn rest_entries<'a>(
    header: &Header,
    faulty: &GeneralSet,
    reports: &'a [LocalReport],
    general: GeneralNo,
) -> &'a [Entry]
    ensures { erased result.now
        ≡ rest.rest_entries header.now.network faulty.now (told_logs reports.now) general }
{
    if !is_rest(header, faulty, general) {
        return &[];
    }
    match log_reported(reports, general) {
        Some(log) => log.entries(),
        None => &[],
    }
}

/// Makes known the ranges of an entry's numbers, which its types keep.
pub(crate) fn note_ranges(entry: &Entry)
    ensures { rest.IsSmall (erase entry.now) }
{
    match entry {
        Entry::Send { order, path, .. } => {
            let _order = order.get();
            let _len = path.len();
        }
        Entry::Recv { from, chain } => {
            let _from = from.get();
            let _order = chain.order().get();
            let _len = chain.path().len();
        }
        _ => {}
    }
}
