//! The versions of a header's format.
ghost use Rattle.std.specs.Prelude.{◌≡◌};
ghost use Rattle.gen_net.specs.Version.{slot_in, height_in};

use gen_types::TreeHeight;

/// The greatest slot. In version 2 a tree of 64 leaves serves four runs of 16 leaves each, in slots 0 to 3.
pub const GREATEST_SLOT: u8 = 3;

/// The version of a header's format. It says how tall the generals' trees of keys are, and which of their leaves belong
/// to the run.
#[derive(Clone, Copy, Debug, PartialEq, Eq)]
pub enum Version {
    /// Version 1: a tree has 16 leaves and serves one run.
    One,
    /// Version 2: a tree has 64 leaves and serves four runs.
    Two {
        /// Which of the four runs it is: 0 to 3 in a header.
        slot: u8,
    },
}

impl Version {
    /// Returns the slot of the run, which is 0 in version 1.
    pub fn slot(self) -> u8
        ensures { result ≡ slot_in self }
    {
        match self {
            Version::One => 0,
            Version::Two { slot } => slot,
        }
    }

    /// Returns the height of the generals' trees of keys: 4 in version 1, and 6 in version 2.
    pub fn height(self) -> TreeHeight
        ensures { result ≡ height_in self }
    {
        match self {
            Version::One => TreeHeight::Four,
            Version::Two { .. } => TreeHeight::Six,
        }
    }
}
