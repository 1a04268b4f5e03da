//! Cursors in a text: what is still to be read, and the number of its first line.
ghost use Rattle.std.specs.Prelude.{◌≡◌, ◌<◌, length, map, IfOk};
ghost use Rattle.gen_types.specs.Reading.{Gives};
ghost use Rattle.gen_types.specs.Spelled.{IsRead};
ghost use Rattle.gen_text.specs.Cursor.{start_of};
ghost use Rattle.gen_text.specs.CursorReading.{next_line, numbered, is_over};

use crate::fault::ScenarioFault;
use crate::lines::{line_at, number_behind};
use gen_types::{ReadError, split_fields};
use std::alloc::Global;
use std::marker::Model;

/// A line of a text.
#[derive(Drop)]
pub struct Line<'a> {
    /// Its number, counted from 1.
    pub number: usize,
    /// Its bytes, without the line feed.
    pub bytes: &'a [u8],
    /// Its fields.
    pub fields: Vec<&'a [u8]>,
}

/// A number in a line, and the line's number, counted from 1.
#[derive(Clone, Copy)]
pub struct Numbered {
    /// The line's number.
    pub line: usize,
    /// The number in it.
    pub value: u8,
}

/// A cursor, behind the first line of a text. A contract sees the number of the line that begins there, and the parts
/// between the line feeds from there on. The number always fits in 64 bits: each line before has a line feed, and the
/// first line has more.
#[derive(Drop)]
pub struct Cursor<'a> {
    rest: &'a [u8],
    line: usize,
}

impl<'a> Model for Cursor<'a> {
    ghost use Rattle.std.specs.Prelude.{◌<◌, ◌+◌, ◌^◌, length};
    ghost use Rattle.gen_text.specs.Text.{parts};
    ghost use Rattle.gen_text.specs.Cursor.{Cursor};

    ghost Value = { Cursor };

    ghost view = { λ c. record { line = c.line; parts = parts c.rest.now } };

    ghost invariant = { λ c. c.line + length c.rest.now < 2 ^ 64 };
}

impl<'a> Cursor<'a> {
    /// Returns the cursor at the beginning of a text.
    pub fn start(text: &'a [u8]) -> Cursor<'a>
        ensures { result ≡ start_of text.now }
    {
        Cursor {
            rest: text,
            line: 1,
        }
    }

    /// Returns a copy of the cursor.
    pub fn copy(&self) -> Cursor<'a>
        ensures { result ≡ self.now }
    {
        Cursor {
            rest: self.rest,
            line: self.line,
        }
    }

    /// Returns the line that begins here, and the cursor after it.
    #[tactic(auto, unfolding(crate::specs::CursorReading::next_line))]
    pub fn next_line(
        &self,
        alloc: Global,
    ) -> Result<(Line<'a>, Cursor<'a>), ReadError<ScenarioFault>>
        ensures exact { Gives (λ x. (
          record {
            number = x.0.number;
            bytes = x.0.bytes.now;
            fields = map (λ f. f.now) x.0.fields.items;
          },
          x.1,
        )) result (next_line self.now) }
        ensures shorter { IfOk result (λ x. length x.1.parts < length self.now.parts) }
    {
        let (bytes, rest) = line_at(self.rest, self.line)?;
        let fields = split_fields(alloc, bytes)?;
        let line = Line {
            number: self.line,
            bytes,
            fields,
        };
        let after = Cursor {
            rest,
            line: self.line + 1,
        };
        Ok((line, after))
    }

    /// Returns the number behind a word in the line that begins here, with the line's number, and the cursor after it.
    #[tactic(auto, unfolding(crate::specs::CursorReading::numbered))]
    pub fn numbered(
        &self,
        alloc: Global,
        word: &[u8],
    ) -> Result<(Numbered, Cursor<'a>), ReadError<ScenarioFault>>
        ensures { IsRead result (numbered word.now self.now) }
    {
        let (line, after) = self.next_line(alloc)?;
        let value = number_behind(&line.fields, word, line.number)?;
        let numbered = Numbered {
            line: line.number,
            value,
        };
        Ok((numbered, after))
    }

    /// Returns the number of the line that begins here.
    pub fn line(&self) -> usize
        ensures { result ≡ self.now.line }
    {
        self.line
    }

    /// Returns whether nothing is left to be read.
    #[tactic(auto, using(crate::proofs::Cuts::joined))]
    pub fn is_over(&self) -> bool
        ensures { result ≡ is_over self.now }
    {
        self.rest.is_empty()
    }
}
