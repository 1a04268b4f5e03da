//! Numbers of workers.
ghost use Rattle.std.specs.Prelude.{◌≡◌};
ghost use Rattle.gen_audit.specs.Counts.{count_of, IsCount};

use gen_types::limits::MOST_GENERALS;
use std::marker::Model;

/// The greatest number of workers: one for each general.
pub const MOST_WORKERS: u8 = MOST_GENERALS;

/// A number of workers, 1 to 16. A contract sees the number.
#[derive(Clone, Copy, Debug, PartialEq, Eq)]
pub struct WorkerCount {
    count: usize,
}

impl Model for WorkerCount {
    ghost use Rattle.std.specs.Prelude.{ℕ};
    ghost use Rattle.gen_audit.specs.Counts.{IsCount};

    ghost Value = { ℕ };

    ghost view = { λ w. w.count };

    ghost invariant = { λ w. IsCount w.count };

    ghost inverse = { λ count. record { count = count } };
}

impl WorkerCount {
    /// Returns the count of one worker, which needs no thread.
    pub fn one() -> WorkerCount
        ensures { result ≡ 1 }
    {
        WorkerCount { count: 1 }
    }

    /// Returns this number of workers, or None if it isn't 1 to 16.
    pub fn new(count: usize) -> Option<WorkerCount>
        ensures { result ≡ count_of count }
    {
        if 1 <= count && count <= MOST_WORKERS as usize {
            Some(WorkerCount { count })
        } else {
            None
        }
    }

    /// Returns the number, 1 to 16.
    pub fn get(self) -> usize
        ensures value { result ≡ self }
        ensures range { IsCount result }
    {
        self.count
    }
}
