//! Tells workers to stop early.
use gen_desk::{Desk, DeskFault};
use std::sync::atomic::{AtomicBool, Ordering};

/// The stop word of workers.
#[derive(Drop)]
pub(crate) struct StopWord {
    /// Whether the workers are to stop before everything is reported.
    pub(crate) set: AtomicBool,
    /// Whether memory was refused to a thread that files or reports.
    pub(crate) refused: AtomicBool,
}

impl StopWord {
    /// Sets the word, and wakes all threads that wait at the desk.
    pub(crate) fn set(&self, desk: &Desk) {
        self.set.store(true, Ordering::SeqCst);
        desk.wake_all();
    }

    /// Sets the word for the fault of a thread that files or reports, and wakes all threads that wait at the desk.
    pub(crate) fn set_for(&self, desk: &Desk, fault: DeskFault) {
        if fault == DeskFault::Memory {
            self.refused.store(true, Ordering::SeqCst);
        }
        self.set(desk);
    }
}
