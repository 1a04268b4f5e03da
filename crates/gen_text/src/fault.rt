//! Why a scenario text could not be read.
ghost use Rattle.std.specs.Prelude.{◌≡◌};
ghost use Rattle.gen_types.specs.declared.reading.ReadError.TheVariants.{Fault};
ghost use Rattle.gen_text.specs.LineReading.{fault_at};

use gen_net::HeaderFault;
use gen_script::ScriptFault;
use gen_types::ReadError;
use thiserror::Error;

/// What is wrong with a line. The bytes of a line are tested first, then its length, and then the rest from left to
/// right.
#[derive(Clone, Copy, Debug, PartialEq, Eq, Error)]
pub enum LineFault {
    /// The text ends before the line feed of this line.
    #[error("P1")]
    Unfinished,
    /// A line of another kind must stand here, or this line has the wrong number of fields.
    #[error("P2")]
    Shape,
    /// A field isn't a decimal number of at most 255 without leading zeros.
    #[error("P3")]
    Number,
    /// The numbers and edges up to this line, that of the choice, don't make a network, for this reason.
    #[error("P4 {0}")]
    Network(HeaderFault),
    /// The commander's order isn't below the number of orders.
    #[error("P5")]
    UnknownOrder,
    /// The seed isn't 64 hexadecimal digits, of either case.
    #[error("P6")]
    BadSeed,
    /// A script begins in a text without a seed.
    #[error("P7")]
    Unseeded,
    /// The general of a script is none of the network's, or doesn't come after the general of the script before.
    #[error("P8")]
    BadTraitor,
    /// The line is no line of the script in which it stands, for this reason. That a path has a general without a
    /// script is told only after the whole text was read.
    #[error("P9 {0}")]
    Script(ScriptFault),
    /// Bytes follow the last line.
    #[error("P10")]
    Extra,
    /// The line has more than 600,000 bytes, without its line feed.
    #[error("P11")]
    TooLong,
    /// A byte of the line isn't printable ASCII, 32..126.
    #[error("P12")]
    Foreign,
    /// The slot is above 3.
    #[error("P13")]
    SlotRange,
    /// A campaign has no text, or more than four.
    #[error("P14")]
    RunCount,
    /// A text of a campaign has another number of generals or another seed than one before it, or a slot that isn't
    /// greater than the one before.
    #[error("P15")]
    Unlike,
}

/// The first fault of a scenario text, or of a campaign's text, and the number of its line, counted from 1.
#[derive(Clone, Copy, Debug, PartialEq, Eq, Error)]
#[error("fault {kind} line {line}")]
pub struct ScenarioFault {
    /// What is wrong.
    pub kind: LineFault,
    /// The number of the line, counted from 1.
    pub line: usize,
}

impl LineFault {
    /// Returns the refusal of a text for this fault in this line.
    pub fn refused(self, line: usize) -> ReadError<ScenarioFault>
        ensures { result ≡ Fault (fault_at self line) }
    {
        ReadError::Fault(ScenarioFault { kind: self, line })
    }
}
