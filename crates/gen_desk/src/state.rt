//! The state that a desk's lock guards.
ghost use Rattle.std.specs.Prelude.{◌≡◌, ◌<◌, ◌↔◌, [], IsTrue, Some, None, IfOk, IfErr, OnOk, OnErr, MatchOption, length};
ghost use Rattle.gen_desk.specs.History.{Filing, Claiming, Reporting, row_at, IsLegal};
ghost use Rattle.gen_desk.specs.Histories.{rows_of, with_event, IsOpen, IsAwaited, IsFiledAt, NobodyWaits, AllReported, IsClaimed, FilingFault, ReportFault};

use crate::faults::DeskFault;
use crate::looks::{first_waiting, is_awaited, is_filed};
use crate::rows::{Row, Step};
use crate::tokens::{Receipt, Slip, Ticket};
use gen_local::{Exhibit, LocalReport};
use gen_log::SealedLog;
use std::alloc::{AllocError, Global};
use std::marker::Model;

/// What is filed, claimed and reported at a desk. A contract sees the number of places and the history, which is legal:
/// all else is what the history replays to.
#[derive(Drop)]
pub struct DeskState {
    alloc: Global,
    rows: Vec<Row>,
    steps: Vec<Step>,
}

impl Model for DeskState {
    ghost use Rattle.gen_desk.specs.Histories.{History};
    ghost use Rattle.gen_desk.specs.Kept.{history_of, IsKept};

    ghost Value = { History };

    ghost view = { λ d. history_of d.rows.items d.steps.items };

    ghost invariant = { λ d. IsKept d.rows.items d.steps.items };
}

/// Returns a log as the desk keeps it, and the receipt for it at a place, which share their bytes. They share them with
/// the log, too, if its bytes can be shared.
pub(crate) fn exhibit_with_receipt(
    alloc: Global,
    place: usize,
    log: &SealedLog,
) -> Result<(Exhibit, Receipt), AllocError>
    ensures exhibit { IfOk result (λ r. r.0 ≡ log.now) }
    ensures receipt { IfOk result (λ r. r.1 ≡ record { place = place; shown = log.now }) }
{
    let exhibit = Exhibit::of_log(log.share(alloc)?)?;
    let receipt = Receipt {
        place,
        exhibit: exhibit.share()?,
    };
    Ok((exhibit, receipt))
}

/// Returns the exhibit that is filed at a place, if there is one.
///
/// # Errors
///
/// `AllocError` where it has too many owners, 2^63 or more.
pub(crate) fn filed_at(rows: &[Row], place: usize) -> Result<Option<Exhibit>, AllocError>
    ensures { IfOk result (λ found. found ≡ (row_at rows.now place).filed) }
{
    match rows.get(place) {
        Some(row) => match &row.filed {
            Some(exhibit) => Ok(Some(exhibit.share()?)),
            None => Ok(None),
        },
        None => Ok(None),
    }
}

impl DeskState {
    /// Returns the state of a desk with this number of places, at which nothing has happened.
    ///
    /// # Errors
    ///
    /// `AllocError` where memory is refused.
    pub fn new(alloc: Global, places: usize) -> Result<DeskState, AllocError>
        ensures { IfOk result (λ state. state ≡ record { places = places; events = [] }) }
    {
        let mut rows = Vec::with_capacity(alloc, places)?;
        for _ in 0..places {
            rows.push_reserved(Row {
                filed: None,
                claimed: false,
                report: None,
            });
        }
        Ok(DeskState {
            alloc,
            rows,
            steps: Vec::new(alloc),
        })
    }

    /// Returns what is filed, claimed and reported at each place.
    pub fn rows(&self) -> &[Row]
        ensures places { length result.now ≡ self.now.places }
        ensures rows { result.now ≡ rows_of self.now }
        ensures legal { IsLegal self.now.places self.now.events }
    {
        self.rows.as_slice()
    }

    /// Ends the desk's state, and returns what is filed, claimed and reported at each place. It takes no memory.
    pub(crate) fn into_rows(self) -> Vec<Row>
        ensures rows { result.items ≡ rows_of self }
        ensures places { length result.items ≡ self.places }
        ensures legal { IsLegal self.places self.events }
    {
        let DeskState {
            alloc: _,
            rows,
            steps: _,
        } = self;
        rows
    }

    /// Whether a log can be filed at a place: it is one of the desk's, and nothing was filed there.
    pub fn is_open(&self, place: usize) -> bool
        ensures { IsTrue result ↔ IsOpen self.now place }
    {
        match self.rows.get(place) {
            Some(row) => row.filed.is_none(),
            None => false,
        }
    }

    /// Files a log at the place of a slip.
    ///
    /// # Errors
    ///
    /// The slip and the log, with one of two faults. It is `WrongPlace` if the place isn't this desk's or something was
    /// filed there, and otherwise `Memory` if memory is refused.
    pub fn file_in(
        &mut self,
        slip: Slip,
        log: SealedLog,
    ) -> Result<Receipt, (Slip, SealedLog, DeskFault)>
        ensures filed { OnOk result (self.new ≡ with_event self.old (Filing slip log)) }
        ensures open { OnOk result (IsOpen self.old slip) }
        ensures receipt { IfOk result (λ receipt. receipt ≡ record { place = slip; shown = log }) }
        ensures same { OnErr result (self.new ≡ self.old) }
        ensures back { IfErr result (λ back. (back.0 ≡ slip) × (back.1 ≡ log)) }
        ensures fault { IfErr result (λ back. FilingFault self.old slip back.2) }
    {
        if !self.is_open(slip.place()) {
            return Err((slip, log, DeskFault::WrongPlace));
        }
        let Ok((exhibit, receipt)) = exhibit_with_receipt(self.alloc, slip.place(), &log) else {
            return Err((slip, log, DeskFault::Memory));
        };
        match self.file_made(slip, exhibit, receipt) {
            Ok(receipt) => Ok(receipt),
            Err((slip, fault)) => Err((slip, log, fault)),
        }
    }

    /// Files an exhibit at the place of a slip, and returns the receipt that was made of it. No bytes are copied.
    ///
    /// # Errors
    ///
    /// The slip, with one of two faults. It is `WrongPlace` if the place isn't this desk's or something was filed
    /// there, and otherwise `Memory` if memory is refused.
    pub(crate) fn file_made(
        &mut self,
        slip: Slip,
        exhibit: Exhibit,
        receipt: Receipt,
    ) -> Result<Receipt, (Slip, DeskFault)>
        ensures filed { OnOk result (self.new ≡ with_event self.old (Filing slip exhibit)) }
        ensures open { OnOk result (IsOpen self.old slip) }
        ensures receipt { IfOk result (λ given. given ≡ receipt) }
        ensures same { OnErr result (self.new ≡ self.old) }
        ensures back { IfErr result (λ back. back.0 ≡ slip) }
        ensures fault { IfErr result (λ back. FilingFault self.old slip back.1) }
    {
        if !self.is_open(slip.place()) {
            return Err((slip, DeskFault::WrongPlace));
        }
        if self.steps.reserve(1).is_err() {
            return Err((slip, DeskFault::Memory));
        }
        let place = slip.give_up();
        self.rows[place].filed = Some(exhibit);
        self.steps.push_reserved(Step::Filed(place));
        Ok(receipt)
    }

    /// Claims the least place with a filed exhibit that isn't claimed. Returns None if there is none.
    ///
    /// # Errors
    ///
    /// `AllocError` where memory is refused.
    pub fn claim_in(&mut self) -> Result<Option<Ticket>, AllocError>
        ensures claimed { IfOk result (λ found. MatchOption found
            (NobodyWaits self.old × (self.new ≡ self.old))
            (λ ticket. IsClaimed self.old ticket × (self.new ≡ with_event self.old (Claiming ticket.place)))) }
        ensures same { OnErr result (self.new ≡ self.old) }
    {
        let Some(place) = first_waiting(self.rows.as_slice()) else {
            return Ok(None);
        };
        self.steps.reserve(1)?;
        let Some(exhibit) = filed_at(self.rows.as_slice(), place)? else {
            unreachable!()
        };
        self.rows[place].claimed = true;
        self.steps.push_reserved(Step::Claimed(place));
        Ok(Some(Ticket { place, exhibit }))
    }

    /// Reports on what was claimed.
    ///
    /// # Errors
    ///
    /// The ticket and the report, with one of three faults. It is `WrongPlace` if the place isn't claimed at this desk
    /// or is reported on already. Otherwise it is `WrongExhibit` if the report is not of what is filed there, and
    /// otherwise `Memory` if memory is refused.
    pub fn report_in(
        &mut self,
        ticket: Ticket,
        report: LocalReport,
    ) -> Result<(), (Ticket, LocalReport, DeskFault)>
        ensures reported { OnOk result (self.new ≡ with_event self.old (Reporting ticket.place report)) }
        ensures awaited { OnOk result (IsAwaited self.old ticket.place) }
        ensures exhibit { OnOk result (IsFiledAt self.old ticket.place report.exhibit) }
        ensures same { OnErr result (self.new ≡ self.old) }
        ensures back { IfErr result (λ back. (back.0 ≡ ticket) × (back.1 ≡ report)) }
        ensures fault { IfErr result (λ back. ReportFault self.old ticket.place report.exhibit back.2) }
    {
        if !is_awaited(self.rows.as_slice(), ticket.place()) {
            return Err((ticket, report, DeskFault::WrongPlace));
        }
        if !is_filed(self.rows.as_slice(), ticket.place(), report.exhibit()) {
            return Err((ticket, report, DeskFault::WrongExhibit));
        }
        if self.steps.reserve(1).is_err() {
            return Err((ticket, report, DeskFault::Memory));
        }
        let _lawful = report.reading();
        let place = ticket.place();
        self.rows[place].report = Some(report);
        self.steps.push_reserved(Step::Reported(place));
        Ok(())
    }

    /// Whether each place is reported on.
    pub fn all_reported(&self) -> bool
        ensures { IsTrue result ↔ AllReported self.now }
    {
        self.rows.iter().all(|row| row.report.is_some())
    }
}
