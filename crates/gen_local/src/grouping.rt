//! Makes reports of many exhibits: of up to `LANES` at a time, the links are hashed and the heads verified side by side.
ghost use Rattle.std.specs.Prelude.{◌≡◌, ◌≤◌, ◌++◌, All, List, IfOk, OnOk, drop, length, map, take};
ghost use Rattle.gen_chain.specs.Store.{Serves, KeepsAll};
ghost use Rattle.gen_local.specs.Endings.{IsEndingOf, ending_over};
ghost use Rattle.gen_local.specs.Opened.{IsOpened, exhibits_of, logs_in, logs_of};
ghost use Rattle.gen_local.specs.Report.{AreReportsOf};
ghost use Rattle.gen_log.specs.Texts.{GeneralsLog};
ghost use Rattle.gen_log.specs.Writing.{LogBytes};
ghost use Rattle.gen_net.specs.Header.{RunHeader};

use crate::ahead::verify_signs;
use crate::exchanges::{Alone, Exchange};
use crate::exhibits::Exhibit;
use crate::heads::{Ending, endings_of};
use crate::opening::{Opened, Opening, open_each, texts_of};
use crate::reports::{LocalReport, report_of};
use gen_chain::VerifyStore;
use gen_net::Header;
use sha_lanes::LANES;
use std::alloc::{AllocError, Global};

/// Returns the ending of an opened exhibit's log, and the endings that are left. These endings begin with it. If there
/// is no log, all are left, and the ending that is returned says nothing.
fn next_ending<'a>(opened: &Opened, endings: &'a [Ending]) -> (Ending, &'a [Ending])
    ensures ending { (h : RunHeader) (more : List GeneralsLog)
        → endings.now ≡ map (ending_over h) (logs_of opened.now ++ more)
        → IsEndingOf h opened.now.exhibit.general opened.now.opening result.0 }
    ensures rest { (h : RunHeader) (more : List GeneralsLog)
        → endings.now ≡ map (ending_over h) (logs_of opened.now ++ more)
        → result.1.now ≡ map (ending_over h) more }
{
    let none = Ending {
        link: [0; 32],
        sealed: false,
    };
    match &opened.opening {
        Opening::Own(_) => match endings.split_first() {
            Some((ending, rest)) => (*ending, rest),
            None => (none, endings),
        },
        _ => (none, endings),
    }
}

/// Appends the reports of at most `LANES` exhibits. Answers are exchanged with others before and after the links are
/// hashed, since that takes most of the time.
fn put_group<E: Exchange>(
    alloc: Global,
    header: &Header,
    exhibits: &[Exhibit],
    store: &mut VerifyStore,
    exchange: &E,
    reports: &mut Vec<LocalReport>,
) -> Result<(), AllocError>
    requires few { length exhibits.now ≤ LANES }
    requires serves { Serves header.now store.old }
    ensures put { (before : List LogBytes) → AreReportsOf header.now before reports.old.items
        → OnOk result (AreReportsOf header.now (before ++ exhibits.now) reports.new.items) }
    ensures grows { KeepsAll store.old store.new }
    ensures serves { Serves header.now store.new }
{
    let opened = open_each(alloc, header, exhibits, store)?;
    verify_signs(alloc, header, opened.as_slice(), store)?;
    exchange.exchange(header, store)?;
    let endings = {
        let texts = texts_of(alloc, opened.as_slice())?;
        endings_of(alloc, header, texts.as_slice())?
    };
    exchange.exchange(header, store)?;
    let mut rest = endings.as_slice();
    for one in opened {
        let (ending, others) = next_ending(&one, rest);
        let report = report_of(alloc, header, one, &ending, store)?;
        reports.push(report)?;
        rest = others;
    }
    Ok(())
}

/// Returns the reports of exhibits under a header, in their order, each as `local_report_with` returns it. Answers are
/// exchanged with others that make reports at the same time. Up to `LANES` logs at a time are held in memory together.
/// If these are half of `LANES` or more, their links are hashed and their heads verified side by side; otherwise one
/// after another, which is faster then.
///
/// # Errors
///
/// `AllocError` where memory is refused. Then the store keeps what was verified before.
pub fn local_reports_among<E: Exchange>(
    alloc: Global,
    header: &Header,
    exhibits: &[Exhibit],
    store: &mut VerifyStore,
    exchange: &E,
) -> Result<Vec<LocalReport>, AllocError>
    requires { Serves header.now store.old }
    ensures reports { IfOk result (λ reports.
        AreReportsOf header.now exhibits.now reports.items) }
    ensures grows { KeepsAll store.old store.new }
    ensures serves { Serves header.now store.new }
{
    let mut reports = Vec::new(alloc);
    let mut rest = exhibits;
    'groups: while !rest.is_empty() {
        let (group, others) = rest.split_at(rest.len().min(LANES));
        put_group(alloc, header, group, store, exchange, &mut reports)?;
        rest = others;
    }
    Ok(reports)
}

/// Returns the reports of exhibits under a header, in their order. They are those of `local_reports_among`; answers are
/// exchanged with nobody.
///
/// # Errors
///
/// `AllocError` where memory is refused. Then the store keeps what was verified before.
pub fn local_reports(
    alloc: Global,
    header: &Header,
    exhibits: &[Exhibit],
    store: &mut VerifyStore,
) -> Result<Vec<LocalReport>, AllocError>
    requires { Serves header.now store.old }
    ensures reports { IfOk result (λ reports.
        AreReportsOf header.now exhibits.now reports.items) }
    ensures grows { KeepsAll store.old store.new }
    ensures serves { Serves header.now store.new }
{
    local_reports_among(alloc, header, exhibits, store, &Alone)
}
