//! The faults of bytes that show no campaign.
use gen_audit::BundleFault;
use thiserror::Error;

/// The rule that the bytes of a campaign break. The texts are `M1` to `M5`. `M3` is followed by the run,
/// counted from 0, and by the rule of its bundle, as in `M3 run 1 B4`. A bundle that stands alone has the
/// text of its own rule.
///
/// Bytes are tested from left to right, and the first fault is answered.
#[derive(Clone, Copy, Debug, PartialEq, Eq, Error)]
pub enum CampaignFault {
    /// The bytes end before the number of runs.
    #[error("M1")]
    NoCount,
    /// The number of runs is not 1 to 4.
    #[error("M2")]
    RunCount,
    /// The bundle of this run, counted from 0, breaks this rule. If its first four bytes are not `SMB2`,
    /// the rule is `B2`.
    #[error("M3 run {0} {1}")]
    BadRun(u8, BundleFault),
    /// A run has another number of generals or other roots than a run before it, or a lesser slot, or the
    /// same header.
    #[error("M4")]
    Unjoined,
    /// Bytes are left over behind the last run.
    #[error("M5")]
    LeftOver,
    /// The bytes do not begin with `SMC2`. They are read as a bundle that stands alone, and break this
    /// rule.
    #[error("{0}")]
    Alone(BundleFault),
}
