//! The line that tells how far an enrolment has come.

use gen_enrolling::Progress;

/// The line on standard error that tells how far an enrolment has come, if standard error is a terminal. Each piece that is
/// made writes it anew, in the place of what stood there. One piece alone is not told.
#[derive(Drop)]
pub(crate) struct ProgressLine<'a, R> {
    rt: &'a R,
    is_shown: bool,
    is_open: bool,
}

impl<'a, R: Eprint> ProgressLine<'a, R> {
    /// Returns a line that is not begun, and is shown or not.
    pub(crate) fn new(rt: &'a R, is_shown: bool) -> ProgressLine<'a, R> {
        ProgressLine {
            rt,
            is_shown,
            is_open: false,
        }
    }

    /// Ends the line, if it is begun.
    pub(crate) fn end(&self) {
        if self.is_open {
            let _ = eprintln!(self.rt; "");
        }
    }
}

impl<'a, R: Eprint> Progress for ProgressLine<'a, R> {
    fn tell(&mut self, made: u32, all: u32) {
        if self.is_shown && (made < all || self.is_open) {
            let percent = 100 * u64::from(made) / u64::from(all.max(1));
            let _ = eprint!(self.rt; "\r{made} of {all} sets, {percent} %");
            self.is_open = true;
        }
    }
}
