//! Evidence.
use crate::claims::Claim;
use gen_types::GeneralNo;

/// Evidence: a general that is accused, and the claim against it.
#[derive(Debug, Drop)]
pub struct Evidence {
    /// The general that is accused.
    pub accused: GeneralNo,
    /// The claim against the accused.
    pub claim: Claim,
}
