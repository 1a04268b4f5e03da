//! The path of a script line.
ghost use Rattle.std.specs.Prelude.{◌≡◌, ◌<◌, [], map, IfOk};
ghost use Rattle.gen_types.specs.Ends.{is_among};
ghost use Rattle.gen_types.specs.Spelled.{IsRead};
ghost use Rattle.gen_script.specs.PathReading.{fits_place, may_follow, longer_by, numbers_in, path_parts, ends_with, has_length, path_in};

use crate::fault::ScriptFault;
use crate::line_fields::{Reader, number_in};
use gen_net::Net;
use gen_types::{GeneralNo, Path, ReadError, check};
use std::alloc::{AllocError, Global};

/// Which path of a chain a line names.
#[derive(Clone, Copy)]
pub enum PathKind {
    /// The whole path of a chain that is sent in the line's round.
    Whole,
    /// The generals that are put at the end of the path of a chain that came in an earlier round.
    Added,
}

/// Returns whether the number keeps the rule for 0 behind `front`: a whole path begins with 0, and an
/// added path has no 0.
fn fits_place(kind: PathKind, front: &Path, number: u8) -> bool
    ensures { result ≡ fits_place kind front.now number }
{
    match kind {
        PathKind::Whole => !front.is_empty() || number == 0,
        PathKind::Added => number != 0,
    }
}

/// Returns whether the general stands in the path.
fn is_among(path: &Path, general: GeneralNo) -> bool
    ensures { result ≡ is_among path.now general }
{
    path.contains(general)
}

/// Returns whether the number may stand behind `front`: it is a general's, it keeps the rule for 0, and
/// `front` does not have it.
fn may_follow(net: &Net, kind: PathKind, front: &Path, number: u8) -> bool
    ensures { result ≡ may_follow net.now kind front.now number }
{
    number < net.generals()
        && fits_place(kind, front, number)
        && !is_among(front, GeneralNo::at(number))
}

/// Returns the path with the number that these digits spell at its end. The fault is `Number` if they
/// spell no number, and `BadPath` if the number may not stand there.
#[tactic(auto, unfolding(crate::specs::PathReading::longer_by))]
fn longer_by(
    net: &Net,
    kind: PathKind,
    front: Path,
    digits: &[u8],
) -> Result<Path, ReadError<ScriptFault>>
    ensures { IsRead result (longer_by net.now kind front digits.now) }
{
    let number = number_in(digits)?;
    check(may_follow(net, kind, &front, number), ScriptFault::BadPath)?;
    // There are at most 16 generals, and those of the path are distinct, so a general that is not in it
    // has room. These reads of the network and of the path make that known to the proof.
    let (_generals, _distinct) = (net.generals(), front.len());
    let mut path = front;
    path.push_new(GeneralNo::at(number));
    Ok(path)
}

/// Returns the path of the numbers that these parts spell, or the first fault from left to right.
#[tactic(auto, unfolding(crate::specs::PathReading::numbers_in))]
fn numbers_in(net: &Net, kind: PathKind, parts: &[&[u8]]) -> Result<Path, ReadError<ScriptFault>>
    ensures { IsRead result (numbers_in net.now kind [] (map (λ x. x.now) parts.now)) }
{
    let mut path = Path::new();
    let mut rest = parts;
    while let [digits, others @ ..] = rest {
        path = longer_by(net, kind, path, digits)?;
        rest = others;
    }
    Ok(path)
}

/// Returns the parts of a path's text, split at its commas.
fn path_parts<'a>(alloc: Global, digits: &'a [u8]) -> Result<Vec<&'a [u8]>, AllocError>
    ensures { IfOk result (λ v. map (λ x. x.now) v.items ≡ path_parts digits.now) }
{
    digits.split(|b| *b == b',').collect(alloc)
}

/// Returns whether this general is the path's last.
fn ends_with(path: &Path, me: GeneralNo) -> bool
    ensures { result ≡ ends_with path.now me }
{
    path.ends_with(me)
}

/// Returns whether a path of this many generals may stand in a line of this round: a whole path has as
/// many generals as the round's number, and an added path has fewer.
fn has_length(kind: PathKind, round: u8, length: usize) -> bool
    ensures { result ≡ has_length kind round length }
{
    match kind {
        PathKind::Whole => length == usize::from(round),
        PathKind::Added => length < usize::from(round),
    }
}

/// Returns the path of a line of this round, which ends with the general whose script is read. The first
/// fault is that of a number, from left to right, and then `BadPath` if the path's last general or its
/// length is wrong.
#[tactic(auto, unfolding(crate::specs::PathReading::path_in))]
pub fn path_in(
    reader: &Reader<'_>,
    kind: PathKind,
    round: u8,
    digits: &[u8],
) -> Result<Path, ReadError<ScriptFault>>
    ensures { IsRead result (path_in reader.now.net.now reader.now.me kind round digits.now) }
{
    let parts = path_parts(reader.alloc, digits)?;
    let path = numbers_in(reader.net, kind, &parts)?;
    check(
        ends_with(&path, reader.me) && has_length(kind, round, path.len()),
        ScriptFault::BadPath,
    )?;
    Ok(path)
}
