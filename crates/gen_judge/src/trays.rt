//! Keeps slips until they are used, and receipts.
use gen_desk::{Desk, Receipt, Slip};
use std::alloc::{AllocError, Global};
use std::sync::{Mutex, Wait};

/// A slip that is given up when it is dropped, so that threads can share it.
struct HeldSlip {
    slip: Slip,
}

impl Drop for HeldSlip {
    fn drop(self) {
        let HeldSlip { slip } = self;
        let _place = slip.give_up();
    }
}

impl HeldSlip {
    /// Takes the slip out, so that it isn't given up.
    fn into_slip(self) -> Slip {
        let HeldSlip { slip } = self;
        slip
    }
}

/// The slips that were not taken yet, and the receipts of what was filed, without those that were ended.
#[derive(Drop)]
pub(crate) struct Tray {
    slips: Mutex<Vec<Option<HeldSlip>>>,
    receipts: Mutex<Vec<Receipt>>,
}

impl Tray {
    /// Returns a tray of this many places that holds no slip yet, with room for all receipts.
    ///
    /// # Errors
    ///
    /// `AllocError` if memory is refused.
    pub(crate) fn new(alloc: Global, places: usize) -> Result<Tray, AllocError> {
        let mut seats = Vec::with_capacity(alloc, places)?;
        for _ in 0..places {
            seats.push(None)?;
        }
        let receipts = Vec::with_capacity(alloc, places)?;
        Ok(Tray {
            slips: Mutex::new(seats),
            receipts: Mutex::new(receipts),
        })
    }

    /// Puts slips into the tray, each into the seat of its place. A slip without such a seat is given up. It takes no
    /// memory.
    pub(crate) fn put_slips(&mut self, slips: Vec<Slip>) {
        let seats = self.slips.get_mut();
        let mut slips = slips;
        while let Some(slip) = slips.pop() {
            let place = slip.place();
            let held = HeldSlip { slip };
            if let Some(seat) = seats.get_mut(place) {
                *seat = Some(held);
            }
        }
        slips.destroy_empty();
    }

    /// Takes the slip of a place, if it is still there.
    pub(crate) fn take_slip<R: Wait>(&self, rt: &R, place: usize) -> Option<Slip> {
        let mut seats = self.slips.lock(rt);
        let held = seats.get_mut(place)?.take()?;
        Some(held.into_slip())
    }

    /// Adds a receipt, for which there is room. Without room the receipt is dropped.
    pub(crate) fn add_receipt<R: Wait>(&self, rt: &R, receipt: Receipt) {
        let _added = self.receipts.lock(rt).push(receipt);
    }

    /// Ends each receipt that the desk knows.
    pub(crate) fn spend_known<R: Wait>(&self, rt: &R, desk: &Desk) {
        let mut receipts = self.receipts.lock(rt);
        let mut unknown = 0;
        for _ in 0..receipts.len() {
            if unknown < receipts.len() && desk.knows(rt, &receipts[unknown]) {
                let _known = receipts.swap_remove(unknown);
            } else {
                unknown = unknown.saturating_add(1);
            }
        }
    }

    /// Returns the receipts that are left, and gives up the slips that are left.
    pub(crate) fn into_receipts(self) -> Vec<Receipt> {
        let Tray { slips: _, receipts } = self;
        receipts.into_inner()
    }
}
