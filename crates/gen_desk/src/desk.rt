//! A desk that generals and workers share.
ghost use Rattle.std.specs.Prelude.{◌≡◌, All, IfOk, IfErr};
ghost use Rattle.std.specs.List.{range_with_len};
ghost use Rattle.gen_desk.specs.Filings.{HasOnce, IsFirstStrange};

use crate::closing::{Filed, StrangeReceipt, first_unfiled};
use crate::faults::DeskFault;
use crate::looks::is_same;
use crate::state::{DeskState, exhibit_with_receipt, filed_at};
use crate::tokens::{Receipt, Slip, Ticket};
use crossbeam_utils::sync::{EventCount, Key};
use gen_local::LocalReport;
use gen_log::SealedLog;
use std::alloc::{AllocError, Global};
use std::sync::{Mutex, Wait};

/// A desk that threads share. Whenever no thread holds its lock, its history is legal, and replays to what is filed,
/// claimed and reported.
#[derive(Drop)]
pub struct Desk {
    alloc: Global,
    state: Mutex<DeskState>,
    moved: EventCount,
}

impl Desk {
    /// Returns a desk with this number of places, and one slip for each place.
    ///
    /// # Errors
    ///
    /// `AllocError` where memory is refused.
    pub fn new(alloc: Global, places: usize) -> Result<(Desk, Vec<Slip>), AllocError>
        ensures { IfOk result (λ made. made.1.items ≡ range_with_len 0 places) }
    {
        let state = Mutex::new(DeskState::new(alloc, places)?);
        let mut slips = Vec::with_capacity(alloc, places)?;
        for place in 0..places {
            slips.push_reserved(Slip { place });
        }
        Ok((
            Desk {
                alloc,
                state,
                moved: EventCount::new(),
            },
            slips,
        ))
    }

    /// Files a log at the place of a slip, as `file_shared` does, and drops the log.
    ///
    /// # Errors
    ///
    /// The slip, the log, and the fault of `file_shared`.
    pub fn file<R: Wait>(
        &self,
        rt: &R,
        slip: Slip,
        log: SealedLog,
    ) -> Result<Receipt, (Slip, SealedLog, DeskFault)>
        ensures receipt { IfOk result (λ receipt. receipt ≡ record { place = slip; shown = log }) }
        ensures back { IfErr result (λ back. (back.0 ≡ slip) × (back.1 ≡ log)) }
    {
        match self.file_shared(rt, slip, &log) {
            Ok(receipt) => Ok(receipt),
            Err((slip, fault)) => Err((slip, log, fault)),
        }
    }

    /// Files a log, which the caller keeps, at the place of a slip, and wakes one sleeping thread, if there is one. One
    /// is enough: a log is claimed by one worker, and a worker that is awake looks again before it sleeps. The place is
    /// tested first. Then the bytes are shared, or copied if they can't be, and the receipt is made, without the desk's
    /// lock.
    ///
    /// # Errors
    ///
    /// The slip, with one of two faults. It is `WrongPlace` if the place isn't this desk's or something was filed
    /// there, and otherwise `Memory` if memory is refused.
    pub fn file_shared<R: Wait>(
        &self,
        rt: &R,
        slip: Slip,
        log: &SealedLog,
    ) -> Result<Receipt, (Slip, DeskFault)>
        ensures receipt { IfOk result (λ receipt. receipt ≡ record { place = slip; shown = log.now }) }
        ensures back { IfErr result (λ back. back.0 ≡ slip) }
    {
        if !self.state.lock(rt).is_open(slip.place()) {
            return Err((slip, DeskFault::WrongPlace));
        }
        let Ok((exhibit, receipt)) = exhibit_with_receipt(self.alloc, slip.place(), log) else {
            return Err((slip, DeskFault::Memory));
        };
        let outcome = self.state.lock(rt).file_made(slip, exhibit, receipt);
        self.moved.notify_one();
        outcome
    }

    /// Whether the log of a receipt is filed at its place. The bytes are compared without the desk's lock. The answer
    /// is no, too, if what is filed has too many owners, 2^63 or more.
    pub fn knows<R: Wait>(&self, rt: &R, receipt: &Receipt) -> bool {
        let filed = filed_at(self.state.lock(rt).rows(), receipt.place());
        match filed {
            Ok(Some(exhibit)) => is_same(&exhibit, receipt.exhibit()),
            Ok(None) => false,
            Err(AllocError) => false,
        }
    }

    /// Claims the least place with a filed exhibit that isn't claimed. Returns None if there is none.
    ///
    /// # Errors
    ///
    /// `AllocError` where memory is refused.
    pub fn claim<R: Wait>(&self, rt: &R) -> Result<Option<Ticket>, AllocError> {
        self.state.lock(rt).claim_in()
    }

    /// Reports on what was claimed, and wakes all sleeping threads.
    ///
    /// # Errors
    ///
    /// The ticket and the report, with one of three faults. It is `WrongPlace` if the place isn't claimed at this desk
    /// or is reported on already. Otherwise it is `WrongExhibit` if the report is not of what is filed there, and
    /// otherwise `Memory` if memory is refused.
    pub fn report<R: Wait>(
        &self,
        rt: &R,
        ticket: Ticket,
        report: LocalReport,
    ) -> Result<(), (Ticket, LocalReport, DeskFault)>
        ensures { IfErr result (λ back. (back.0 ≡ ticket) × (back.1 ≡ report)) }
    {
        let outcome = self.state.lock(rt).report_in(ticket, report);
        self.moved.notify_all();
        outcome
    }

    /// Announces that the caller is going to wait for something to be filed or reported. The caller has to look for it
    /// once more before it waits, so that nothing is missed. A filing wakes one of the sleeping threads, and a report
    /// wakes all of them.
    pub fn prepare_wait(&self) -> Key<'_> {
        self.moved.prepare_wait()
    }

    /// Wakes all sleeping threads.
    pub fn wake_all(&self) {
        self.moved.notify_all();
    }

    /// Whether each place is reported on.
    pub fn all_reported<R: Wait>(&self, rt: &R) -> bool {
        self.state.lock(rt).all_reported()
    }

    /// Ends the desk. Each receipt has to be of a filing at the desk. It takes no memory.
    ///
    /// # Errors
    ///
    /// The index of the first receipt whose filing the desk's history lacks, all receipts, and the state with that
    /// history.
    pub fn close(self, receipts: Vec<Receipt>) -> Result<Filed, StrangeReceipt>
        ensures filed { IfOk result (λ filed. All (HasOnce filed) receipts.items) }
        ensures back { IfErr result (λ e. e.receipts ≡ receipts) }
        ensures strange { IfErr result (λ e. IsFirstStrange e.state receipts.items e.first) }
    {
        let Desk {
            alloc: _,
            state,
            moved: _,
        } = self;
        let state = state.into_inner();
        match first_unfiled(state.rows(), receipts.as_slice()) {
            Some(first) => Err(StrangeReceipt {
                first,
                receipts,
                state,
            }),
            None => Ok(Filed { state }),
        }
    }
}
