//! What one exhibit says: how its bytes read as a log of a general, which signatures verify, and where the log departs
//! from the algorithm.
//!
//! A follower of the signed message algorithm writes a log. The algorithm is that of section 4 of L. Lamport, R.
//! Shostak and M. Pease, "The Byzantine Generals Problem", ACM TOPLAS 4, 1982, with messages to neighbours only, as in
//! section 5. Others determine which chains arrive at the follower. The follower chooses which of several new chains of
//! one order it lengthens. All other entries are determined by those before them.
//!
//! What is promised: `departs` names exactly the first entry at which a list of entries no longer begins a log that a
//! follower could keep in some run. The report of an exhibit is the one that the definition gives. Nothing is found
//! against an exhibit if and only if it is a log that verifies for its general and that the general could keep.
//!
//! What is not promised: that such a log tells the truth.
#![tactic(auto)]

mod ahead;
mod bringing;
mod deciding;
mod departing;
mod exchanges;
mod exhibits;
mod gathering;
mod grouping;
mod heads;
mod judging;
pub mod laws;
mod opening;
mod own_log;
mod places;
mod progress;
mod reading;
mod receiving;
mod reporting;
mod reports;
mod sending;
mod signing;
mod texts;
mod walking;

pub use departing::departs;
pub use exchanges::Exchange;
pub use exhibits::{Exhibit, exhibits_of_logs};
pub use grouping::{local_reports, local_reports_among};
pub use opening::says_it_is_of;
pub use own_log::OwnLog;
pub use reading::Reading;
pub use reports::{LocalReport, local_report, local_report_with};
pub use texts::{SignedText, Text};
pub use walking::departs_from;
