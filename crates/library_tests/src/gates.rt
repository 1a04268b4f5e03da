//! Gates at which generals wait.
use gen_threads::Gate;
use gen_types::GeneralNo;
use std::sync::atomic::{AtomicBool, Ordering};

/// How often a general looks for what should not come.
pub(crate) const FEW: u32 = 100_000_000;

/// How often a general looks for what should come.
const MANY: u32 = 1_000_000_000;

/// A gate at which nobody waits.
#[derive(Drop)]
pub(crate) struct Open;

impl Gate for Open {
    fn before_round(&self, _general: GeneralNo, _round: u8) {}
}

/// Loads a flag until it is set, at most so many times, and returns whether it was.
fn is_set_within(flag: &AtomicBool, times: u32) -> bool {
    for _ in 0..times {
        if flag.load(Ordering::SeqCst) {
            return true;
        }
    }
    false
}

/// A gate at which generals 0 and 1, before round 1, wait for each other.
#[derive(Drop)]
pub(crate) struct Meeting {
    here: [AtomicBool; 2],
    met: [AtomicBool; 2],
}

impl Meeting {
    /// The gate at which nobody was yet.
    pub(crate) fn new() -> Meeting {
        Meeting {
            here: [AtomicBool::new(false), AtomicBool::new(false)],
            met: [AtomicBool::new(false), AtomicBool::new(false)],
        }
    }

    /// Whether each saw that the other was there.
    pub(crate) fn has_met(&self) -> bool {
        self.met[0].load(Ordering::SeqCst) && self.met[1].load(Ordering::SeqCst)
    }
}

impl Gate for Meeting {
    fn before_round(&self, general: GeneralNo, round: u8) {
        let me = usize::from(general.get());
        if me < 2 && round == 1 {
            self.here[me].store(true, Ordering::SeqCst);
            if is_set_within(&self.here[1 - me], MANY) {
                self.met[me].store(true, Ordering::SeqCst);
            }
        }
    }
}

/// A gate at which one general, before a round, looks so often whether another is before a round.
#[derive(Drop)]
pub(crate) struct Watch {
    watcher: (u8, u8),
    watched: (u8, u8),
    times: u32,
    came: AtomicBool,
    early: AtomicBool,
}

impl Watch {
    /// The gate of the general that looks, and of the one that is looked for, each with its round. Neither
    /// was there yet.
    pub(crate) fn new(watcher: (u8, u8), watched: (u8, u8), times: u32) -> Watch {
        Watch {
            watcher,
            watched,
            times,
            came: AtomicBool::new(false),
            early: AtomicBool::new(false),
        }
    }

    /// Whether the other came while the one looked.
    pub(crate) fn came_early(&self) -> bool {
        self.early.load(Ordering::SeqCst)
    }

    /// Whether the other came, and not while the one looked.
    pub(crate) fn has_waited(&self) -> bool {
        self.came.load(Ordering::SeqCst) && !self.came_early()
    }
}

impl Gate for Watch {
    fn before_round(&self, general: GeneralNo, round: u8) {
        let here = (general.get(), round);
        if here == self.watched {
            self.came.store(true, Ordering::SeqCst);
        }
        if here == self.watcher && is_set_within(&self.came, self.times) {
            self.early.store(true, Ordering::SeqCst);
        }
    }
}
