//! Gathers what the rest sent the faulty: received chains can derive from this.
ghost use Rattle.std.specs.Prelude.{◌≡◌, ◌++◌, OnOk, IfOk, Contains};
ghost use Rattle.std.specs.List.{flat_map};
ghost use Rattle.gen_types.specs.Ascending.{IsListOf};
ghost use Rattle.gen_local.specs.Erased.{erased};
ghost use Rattle.gen_match.specs.Reports.{told_logs};
ghost use Rattle.gen_match.specs.Underivables as finding;

use crate::entries::rest_entries;
use crate::prefixes::{put_begins, sort_apart};
use gen_local::LocalReport;
use gen_log::Entry;
use gen_net::Header;
use gen_types::{GeneralNo, GeneralSet};
use std::alloc::{AllocError, Global};

/// Appends the keys of entries: of all beginnings of the path of each SEND to a faulty general.
fn put_sources(
    faulty: &GeneralSet,
    entries: &[Entry],
    keys: &mut Vec<u128>,
) -> Result<(), AllocError>
    ensures { OnOk result (keys.new.items
        ≡ keys.old.items ++ flat_map (finding.entry_keys faulty.now) (erased entries.now)) }
{
    let mut rest = entries;
    while let Some((entry, others)) = rest.split_first() {
        if let Entry::Send { to, order, path } = entry {
            if faulty.contains(*to) {
                put_begins(*order, path, keys)?;
            }
        }
        rest = others;
    }
    Ok(())
}

/// Returns the keys, ascending, of all beginnings of paths that the rest sent the faulty. Each key has the number of
/// generals of its whole path.
pub(crate) fn find_sources(
    alloc: Global,
    header: &Header,
    faulty: &GeneralSet,
    reports: &[LocalReport],
) -> Result<Vec<u128>, AllocError>
    ensures { IfOk result (λ keys. IsListOf keys.items (Contains
        (finding.rest_keys header.now.network faulty.now (told_logs reports.now)))) }
{
    let mut keys = Vec::new(alloc);
    for number in 0..header.net().generals() {
        let entries = rest_entries(header, faulty, reports, GeneralNo::at(number));
        put_sources(faulty, entries, &mut keys)?;
    }
    sort_apart(&mut keys)?;
    Ok(keys)
}
