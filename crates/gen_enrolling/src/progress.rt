//! Who is told how far an enrolment has come.

/// Who is told how far an enrolment has come.
pub trait Progress {
    /// Is told that the roots of so many of all sets are written, or stood there before.
    fn tell(&mut self, made: u32, all: u32);
}
