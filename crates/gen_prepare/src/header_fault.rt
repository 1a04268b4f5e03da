//! Why a text gives no header.
use gen_text::ScenarioFault;
use gen_types::GeneralNo;
use thiserror::Error;

/// The rule that the text of a header breaks.
#[derive(Clone, Copy, Debug, PartialEq, Eq, Error)]
pub enum HeaderTextFault {
    /// The text spells no header.
    #[error("{0}")]
    Text(ScenarioFault),
    /// The text spells a header, and its generals a and b, a before b, have the same root. No lesser pair has.
    #[error("fault G2 generals {a} {b}")]
    EqualRoots {
        /// The first general.
        a: GeneralNo,
        /// The second general.
        b: GeneralNo,
    },
}
