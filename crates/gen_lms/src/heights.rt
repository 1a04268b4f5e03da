//! The heights of trees.
ghost use Rattle.std.specs.Prelude.{◌≡◌, ◌≢◌, ◌≤◌, IfSome, IfNone};
ghost use Rattle.gen_lms.specs.declared.heights.LmsHeight.{LmsHeight};
ghost use Rattle.gen_lms.specs.Heights.{leaves_of, levels_of, tree_code};

/// The height of a tree of one-time keys, which names one of the RFC's parameter sets.
#[derive(Clone, Copy, PartialEq, Eq, Debug)]
pub enum LmsHeight {
    /// Five levels, so that a tree has 32 leaves.
    Five,
    /// Ten levels, so that a tree has 1,024 leaves.
    Ten,
    /// Fifteen levels, so that a tree has 32,768 leaves.
    Fifteen,
    /// Twenty levels, so that a tree has 1,048,576 leaves.
    Twenty,
    /// Twenty-five levels, so that a tree has 33,554,432 leaves.
    TwentyFive,
}

impl LmsHeight {
    /// Returns the number of levels between a leaf and the root, 5 to 25: h.
    pub fn levels(self) -> u8
        ensures value { result ≡ levels_of self }
        ensures few { result ≤ 25 }
    {
        match self {
            LmsHeight::Five => 5,
            LmsHeight::Ten => 10,
            LmsHeight::Fifteen => 15,
            LmsHeight::Twenty => 20,
            LmsHeight::TwentyFive => 25,
        }
    }

    /// Returns the number of leaves of a tree of this height, 2^h.
    pub fn leaves(self) -> u32
        ensures value { result ≡ leaves_of self }
        ensures few { result ≤ 33_554_432 }
    {
        match self {
            LmsHeight::Five => 32,
            LmsHeight::Ten => 1_024,
            LmsHeight::Fifteen => 32_768,
            LmsHeight::Twenty => 1_048_576,
            LmsHeight::TwentyFive => 33_554_432,
        }
    }

    /// Returns the type code of the parameter set, 5 to 9.
    pub fn type_code(self) -> u32
        ensures { result ≡ tree_code self }
    {
        match self {
            LmsHeight::Five => 5,
            LmsHeight::Ten => 6,
            LmsHeight::Fifteen => 7,
            LmsHeight::Twenty => 8,
            LmsHeight::TwentyFive => 9,
        }
    }

    /// Returns the height that a type code names. Returns None if and only if it names none.
    pub fn of_type_code(code: u32) -> Option<LmsHeight>
        ensures some { IfSome result (λ height. code ≡ tree_code height) }
        ensures none { IfNone result ((height : LmsHeight) → code ≢ tree_code height) }
    {
        match code {
            5 => Some(LmsHeight::Five),
            6 => Some(LmsHeight::Ten),
            7 => Some(LmsHeight::Fifteen),
            8 => Some(LmsHeight::Twenty),
            9 => Some(LmsHeight::TwentyFive),
            _ => None,
        }
    }
}
