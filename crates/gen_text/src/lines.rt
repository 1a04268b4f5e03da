//! Lines of a text, and what a single line says.
ghost use Rattle.std.specs.Prelude.{◌≡◌, ◌==◌, ◌+◌, [], ◌∷◌, length, map, IfOk, MatchOption};
ghost use Rattle.std.specs.List.{list_any, position};
ghost use Rattle.gen_types.specs.Reading.{Gives};
ghost use Rattle.gen_types.specs.Spelled.{IsRead};
ghost use Rattle.gen_text.specs.Text.{parts, is_foreign};
ghost use Rattle.gen_text.specs.LineReading.{line_at, number_in, number_behind};
ghost use Rattle.gen_text.specs.EdgeReading.{edge_in};

use crate::fault::{LineFault, ScenarioFault};
use gen_types::{ReadError, decimal_number};

/// The greatest number of bytes of a line, without its line feed.
const LONGEST_LINE: usize = 600_000;

/// Returns the index of the first line feed.
fn line_feed(text: &[u8]) -> Option<usize>
    ensures { result ≡ position (λ b. b == 10) text.now }
{
    text.iter().position(|b| *b == b'\n')
}

/// Returns the bytes before the first line feed and what follows it; if there is none, the whole text and None.
fn cut_line(text: &[u8]) -> (&[u8], Option<&[u8]>)
    ensures { MatchOption result.1 (parts text.now ≡ result.0.now ∷ [])
        (λ rest. (parts text.now ≡ result.0.now ∷ parts rest.now)
        × (length text.now ≡ length result.0.now + (length rest.now + 1))) }
{
    match line_feed(text) {
        None => (text, None),
        Some(i) => {
            let (_, rest) = text.split_at(i + 1);
            (&text[..i], Some(rest))
        }
    }
}

/// Returns whether the line has a byte that may not stand in a text: one below 32 or above 126.
fn has_foreign(line: &[u8]) -> bool
    ensures { result ≡ list_any is_foreign line.now }
{
    line.iter().any(|b| *b < 32 || *b > 126)
}

/// Returns the line at the front of the text, which has this number, and the text after it. A line that is too long is
/// refused before it is cut into fields.
pub fn line_at(text: &[u8], line: usize) -> Result<(&[u8], &[u8]), ReadError<ScenarioFault>>
    ensures exact { Gives (λ x. (x.0.now, parts x.1.now)) result (line_at line (parts text.now)) }
    ensures shorter { IfOk result (λ x. length text.now ≡ length x.0.now + (length x.1.now + 1)) }
{
    let (bytes, rest) = cut_line(text);
    if has_foreign(bytes) {
        return Err(LineFault::Foreign.refused(line));
    }
    if bytes.len() > LONGEST_LINE {
        return Err(LineFault::TooLong.refused(line));
    }
    match rest {
        None => Err(LineFault::Unfinished.refused(line)),
        Some(rest) => Ok((bytes, rest)),
    }
}

/// Returns the number that the digits spell in this line: decimal, at most 255, without leading zeros.
pub fn number_in(digits: &[u8], line: usize) -> Result<u8, ReadError<ScenarioFault>>
    ensures { IsRead result (number_in line digits.now) }
{
    match decimal_number(digits) {
        None => Err(LineFault::Number.refused(line)),
        Some(n) => Ok(n),
    }
}

/// Returns the number behind a word, if the line has exactly these two fields.
#[tactic(auto, unfolding(crate::specs::LineReading::number_behind))]
pub fn number_behind(
    fields: &[&[u8]],
    word: &[u8],
    line: usize,
) -> Result<u8, ReadError<ScenarioFault>>
    ensures { IsRead result (number_behind line word.now (map (λ x. x.now) fields.now)) }
{
    match fields {
        [first, second] => {
            if *first == word {
                number_in(second, line)
            } else {
                Err(LineFault::Shape.refused(line))
            }
        }
        _ => Err(LineFault::Shape.refused(line)),
    }
}

/// Returns the edge that a line has; None if it is no line of an edge.
#[tactic(auto, unfolding(crate::specs::EdgeReading::edge_in))]
pub fn edge_in(fields: &[&[u8]], line: usize) -> Result<Option<(u8, u8)>, ReadError<ScenarioFault>>
    ensures { IsRead result (edge_in line (map (λ f. f.now) fields.now)) }
{
    match fields {
        [word, a, b] if *word == b"edge".as_slice() => {
            let a = number_in(a, line)?;
            let b = number_in(b, line)?;
            Ok(Some((a, b)))
        }
        _ => Ok(None),
    }
}
