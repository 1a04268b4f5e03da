//! Calls that the generals' threads make to their caller.
use gen_log::SealedLog;
use gen_types::GeneralNo;

/// Calls that each general's thread makes before each round, and once the general's logs are sealed. They may
/// wait.
pub trait Gate {
    /// Is called when the general is about to begin this round, 1 to R.
    fn before_round(&self, general: GeneralNo, round: u8);

    /// Is called when the general's logs are sealed, a second one behind the first if its script says so,
    /// while other generals may still run. A gate that has no use for them leaves this out.
    fn sealed(&self, _general: GeneralNo, _logs: &[SealedLog]) {}
}
