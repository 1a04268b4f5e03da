//! What is left of a node that has ended.
use gen_log::SealedLog;
use gen_net::Header;
use gen_scenario::Decision;
use gen_tree::KeyRing;

/// What is left of a node after the last round: the run's header, its sealed log, its decision and its ring. The ring has to be closed,
/// or used for a run of another slot.
pub struct NodeEnd {
    /// The header of the run.
    pub header: Header,
    /// The sealed log.
    pub log: SealedLog,
    /// What the node decided.
    pub decision: Decision,
    /// The ring of the node's one-time keys.
    pub ring: KeyRing,
}
