//! Files of roots that were cut.
ghost use Rattle.std.specs.Prelude.{ℕ, ◌≡◌, ◌≢◌, IfErr, IfOk, Ok};
ghost use Rattle.gen_types.specs.Spelled.{IsRead};
ghost use Rattle.gen_enroll.specs.CutFiles.{IsCutFile, cut_file};
ghost use Rattle.gen_enroll.specs.declared.heads.RootsHead.{RootsHead as Head};

use crate::heads::{RootsHead, head_in_front};
use crate::roots_fault::RootsFault;
use gen_ots::sizes::HASH_BYTES;
use gen_types::{ReadError, check};

/// Reads the head, and counts the whole roots behind it.
#[tactic(auto, unfolding(crate::specs::CutFiles::cut_file))]
fn counted_roots(bytes: &[u8]) -> Result<(RootsHead, usize), ReadError<RootsFault>>
    ensures exact { IsRead result (cut_file bytes.now) }
    ensures fault { IfErr result (λ e. e ≢ ReadError.Memory) }
{
    let (head, rest) = head_in_front(bytes)?;
    check(
        rest.len() <= HASH_BYTES << head.levels,
        RootsFault::LeftOver,
    )?;
    Ok((head, rest.len() / HASH_BYTES))
}

/// Returns the head of a file of roots that may be cut anywhere behind the head, and the number of whole roots that are
/// left. So a run that was stopped goes on from the set with this number. No memory is asked for.
///
/// # Errors
///
/// Truncated, UnknownMark or TooManyLevels as of a whole file, where Truncated says that the head isn't whole; LeftOver
/// if there are more bytes than the whole file has.
pub fn roots_in(bytes: &[u8]) -> Result<(RootsHead, usize), ReadError<RootsFault>>
    // The bytes are the head, that many roots, and the beginning of at most one more, which isn't whole.
    ensures found { IfOk result (λ x. IsCutFile bytes.now x.0 x.1) }
    // Of each such file the head and the number are returned.
    ensures only { (head : Head) (count : ℕ) → IsCutFile bytes.now head count
        → IsRead result (Ok (head, count)) }
    ensures exact { IsRead result (cut_file bytes.now) }
    ensures fault { IfErr result (λ e. e ≢ ReadError.Memory) }
{
    counted_roots(bytes)
}
