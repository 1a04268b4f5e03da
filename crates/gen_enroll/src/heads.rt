//! The heads of files of roots.
ghost use Rattle.std.specs.Prelude.{◌≡◌, ◌≢◌, ◌++◌, ◌∷◌, [], ◌≤◌, ◌^◌, IfErr, IfOk};
ghost use Rattle.std.specs.Int.{w32, to_be_bytes};
ghost use Rattle.gen_types.specs.Spelled.{IsField, IsRead};
ghost use Rattle.gen_enroll.specs.RootFiles.{head_spelling, root_mark};
ghost use Rattle.gen_enroll.specs.RootReading.{head_at, height_of};

use crate::roots_fault::RootsFault;
use crate::sizes::HEAD_BYTES;
use gen_identity::sizes::MOST_LEVELS;
use gen_types::{ReadError, TreeHeight, check, u8_at, u32_at};

/// The first four bytes of a file of roots of trees of height 4: `SMI1` as a big-endian number.
const MARK_OF_FOUR: u32 = 0x534d_4931;

/// The first four bytes of a file of roots of trees of height 6: `SMI2` as a big-endian number.
const MARK_OF_SIX: u32 = 0x534d_4932;

/// What stands in a file before its roots.
#[derive(Clone, Copy, Debug, PartialEq, Eq)]
pub struct RootsHead {
    /// The height of the tree of each set.
    pub height: TreeHeight,
    /// The number of levels: there are 2 to the power of this many sets. In a file it is at most 20.
    pub levels: u8,
}

/// Returns the number of sets of an identity with so many levels: 2 to the power of the levels.
pub(crate) fn sets_on(levels: u8) -> u32
    requires { levels ≤ MOST_LEVELS }
    ensures { result ≡ 2 ^ levels }
{
    1 << levels
}

/// Returns the mark before roots of trees of this height.
fn mark_of(height: TreeHeight) -> u32
    ensures { result ≡ root_mark height }
{
    match height {
        TreeHeight::Four => MARK_OF_FOUR,
        TreeHeight::Six => MARK_OF_SIX,
    }
}

/// Returns the height of the trees that a mark says.
fn height_of_mark(mark: u32) -> Result<TreeHeight, ReadError<RootsFault>>
    ensures exact { IsRead result (height_of mark) }
    ensures fault { IfErr result (λ e. e ≢ ReadError.Memory) }
{
    if mark == MARK_OF_FOUR {
        Ok(TreeHeight::Four)
    } else if mark == MARK_OF_SIX {
        Ok(TreeHeight::Six)
    } else {
        Err(ReadError::Fault(RootsFault::UnknownMark))
    }
}

impl RootsHead {
    /// Returns the bytes of the head: `SMI1` if the trees have height 4, `SMI2` if they have height 6, and the number of
    /// levels.
    pub fn to_bytes(self) -> [u8; HEAD_BYTES]
        ensures { result ≡ head_spelling self }
    {
        let mut bytes = [self.levels; HEAD_BYTES];
        bytes[..4].copy_from_slice(&mark_of(self.height).to_be_bytes());
        bytes
    }
}

/// Returns the head that the bytes begin with, and the bytes after it. No memory is asked for.
///
/// # Errors
///
/// Truncated, UnknownMark or TooManyLevels, in the order that `RootsFault` states.
#[tactic(auto, unfolding(crate::specs::RootReading::head_at))]
pub(crate) fn head_in_front(bytes: &[u8]) -> Result<(RootsHead, &[u8]), ReadError<RootsFault>>
    ensures exact { IsField result (head_at bytes.now) }
    ensures levels { IfOk result (λ x. x.0.levels ≤ MOST_LEVELS) }
    ensures fault { IfErr result (λ e. e ≢ ReadError.Memory) }
{
    let (mark, rest) = u32_at(bytes, RootsFault::Truncated)?;
    let height = height_of_mark(mark)?;
    let (levels, rest) = u8_at(rest, RootsFault::Truncated)?;
    check(levels <= MOST_LEVELS, RootsFault::TooManyLevels)?;
    Ok((RootsHead { height, levels }, rest))
}
