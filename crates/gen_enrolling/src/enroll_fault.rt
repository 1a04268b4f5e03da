//! Why a command of identities and systems has no answer.
use gen_enroll::RootsFault;
use gen_prepare::{HeaderTextFault, SeedFault};
use gen_system::{AdmissionFault, SystemFault};
use gen_types::GeneralNo;
use thiserror::Error;

/// The rule that an input breaks. Its text is the line that the program writes to standard error.
#[derive(Clone, Copy, Debug, PartialEq, Eq, Error)]
pub enum EnrollFault {
    /// The input is no secret.
    #[error("fault {0}")]
    Secret(SeedFault),
    /// The input is no file of roots.
    #[error("fault {0}")]
    Roots(RootsFault),
    /// The input is no text of a header whose roots differ.
    #[error("{0}")]
    Text(HeaderTextFault),
    /// The input is no system.
    #[error("fault {0}")]
    System(SystemFault),
    /// The input is no admission.
    #[error("fault {0}")]
    Admission(AdmissionFault),
    /// The admission does not hold: it opens some identity to another root.
    #[error("fault A7")]
    Fails,
    /// The run is not of the set of the admission, or the system has no such run.
    #[error("fault A8")]
    OtherSet,
    /// There is not one file of roots for each node of the system, node 0 first.
    #[error("fault A9")]
    FileCount,
    /// The file of roots of a node is not that of its identity in the system.
    #[error("fault A10 node {0}")]
    OtherIdentity(GeneralNo),
    /// The admission is of another system than the one whose id is asked for.
    #[error("fault A11")]
    OtherSystem,
}
