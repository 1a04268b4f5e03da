//! Reports of exhibits.
ghost use Rattle.std.specs.Prelude.{◌≡◌, IfOk};
ghost use Rattle.gen_chain.specs.Store.{Serves, KeepsAll};
ghost use Rattle.gen_local.specs.Endings.{IsEndingOf};
ghost use Rattle.gen_local.specs.Opened.{IsOpened};
ghost use Rattle.gen_local.specs.Report.{IsReport};

use crate::exhibits::Exhibit;
use crate::heads::{Ending, ending_of};
use crate::opening::{Opened, open};
use crate::reading::Reading;
use crate::reporting::reading_of;
use gen_chain::VerifyStore;
use gen_net::Header;
use gen_types::GeneralNo;
use std::alloc::{AllocError, Global};
use std::marker::Model;

/// The report of an exhibit under a header. It names both and says exactly what the definition says of them. So two
/// reports of one exhibit under one header are equal.
#[derive(Debug, Drop)]
pub struct LocalReport {
    header: Header,
    exhibit: Exhibit,
    reading: Reading,
}

impl Model for LocalReport {
    ghost use Rattle.gen_local.specs.Report.{IsReport, LocalReport};

    ghost Value = { LocalReport };

    ghost view = { λ r. record { header = r.header; exhibit = r.exhibit; reading = r.reading } };

    ghost invariant = { λ r. IsReport
        (record { header = r.header; exhibit = r.exhibit; reading = r.reading }) };
}

impl LocalReport {
    /// Returns the header that the report names.
    pub fn header(&self) -> &Header
        ensures { result.now ≡ self.now.header }
    {
        &self.header
    }

    /// Returns the exhibit that the report names.
    pub fn exhibit(&self) -> &Exhibit
        ensures { result.now ≡ self.now.exhibit }
    {
        &self.exhibit
    }

    /// Returns what the exhibit is under the header.
    pub fn reading(&self) -> &Reading
        ensures value { result.now ≡ self.now.reading }
        ensures report { IsReport self.now }
    {
        &self.reading
    }
}

/// Returns the report of an exhibit that was opened under the header, from the last link and the seal of its log, if
/// there is one.
///
/// # Errors
///
/// `AllocError` where memory is refused.
pub(crate) fn report_of(
    alloc: Global,
    header: &Header,
    opened: Opened,
    ending: &Ending,
    store: &mut VerifyStore,
) -> Result<LocalReport, AllocError>
    requires opened { IsOpened header.now opened }
    requires ending { IsEndingOf header.now opened.exhibit.general opened.opening ending.now }
    requires serves { Serves header.now store.old }
    ensures header { IfOk result (λ report. report.header ≡ header.now) }
    ensures exhibit { IfOk result (λ report. report.exhibit ≡ opened.exhibit) }
    ensures report { IfOk result IsReport }
    ensures grows { KeepsAll store.old store.new }
    ensures serves { Serves header.now store.new }
{
    let Opened { exhibit, opening } = opened;
    let reading = reading_of(alloc, header, &exhibit, opening, ending, store)?;
    let header = header.clone()?;
    Ok(LocalReport {
        header,
        exhibit,
        reading,
    })
}

/// Returns the report of an exhibit under a header. The exhibit is a general and the bytes that are said to be its log.
/// The report uses a store of its own.
///
/// # Errors
///
/// `AllocError` where memory is refused.
pub fn local_report(
    alloc: Global,
    header: &Header,
    general: GeneralNo,
    log: &[u8],
) -> Result<LocalReport, AllocError>
    ensures header { IfOk result (λ report. report.header ≡ header.now) }
    ensures exhibit { IfOk result (λ report.
        report.exhibit ≡ record { general = general; bytes = log.now }) }
    ensures report { IfOk result IsReport }
{
    let mut store = VerifyStore::new(alloc)?;
    let exhibit = Exhibit::new(general, Vec::from_slice(alloc, log)?)?;
    local_report_with(alloc, header, &exhibit, &mut store)
}

/// Returns the report of an exhibit under a header. It shares the exhibit's bytes. Signatures are verified through the
/// store, which returns kept answers again, and equal signatures share memory. The store must serve the header, and
/// serves it afterwards too.
///
/// # Errors
///
/// `AllocError` where memory is refused. Then the store keeps what was verified before.
pub fn local_report_with(
    alloc: Global,
    header: &Header,
    exhibit: &Exhibit,
    store: &mut VerifyStore,
) -> Result<LocalReport, AllocError>
    requires { Serves header.now store.old }
    ensures header { IfOk result (λ report. report.header ≡ header.now) }
    ensures exhibit { IfOk result (λ report. report.exhibit ≡ exhibit.now) }
    ensures report { IfOk result IsReport }
    ensures grows { KeepsAll store.old store.new }
    ensures serves { Serves header.now store.new }
{
    let opened = open(alloc, header, exhibit, store)?;
    let ending = ending_of(header, &opened);
    report_of(alloc, header, opened, &ending, store)
}
