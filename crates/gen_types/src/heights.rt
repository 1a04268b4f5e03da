//! Heights of trees of keys.
ghost use Rattle.std.specs.Prelude.{◌≡◌};
ghost use Rattle.gen_types.specs.Heights.{levels_of, leaves_of};

/// The height of a tree of one-time keys (R. C. Merkle, "A Certified Digital Signature", CRYPTO 1989).
#[derive(Clone, Copy, PartialEq, Eq, Debug)]
pub enum TreeHeight {
    /// Four levels, so that a tree has 16 leaves.
    Four,
    /// Six levels, so that a tree has 64 leaves.
    Six,
}

impl TreeHeight {
    /// Returns the number of levels between a leaf and the root, 4 or 6, which is also the number of a
    /// signature's siblings.
    pub fn levels(self) -> u8
        ensures { result ≡ levels_of self }
    {
        match self {
            TreeHeight::Four => 4,
            TreeHeight::Six => 6,
        }
    }

    /// Returns the number of leaves of a tree of this height, 16 or 64.
    pub fn leaves(self) -> u8
        ensures { result ≡ leaves_of self }
    {
        match self {
            TreeHeight::Four => 16,
            TreeHeight::Six => 64,
        }
    }
}
