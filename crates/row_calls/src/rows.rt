//! A row: its call, the words behind it, and the bytes behind these.
use crate::names::{Bytes, Names, Refused, byte_of, number_of, numbered};
use crate::values_parts::{path_in, set_in};
use gen_net::{Header, read_header};
use gen_types::{GeneralNo, NumberSet, OrderNo, Path};
use std::alloc::Global;

/// A word of a row, or a text between quotes. As a piece it stands for a part of the row's bytes.
#[derive(Clone, Copy)]
struct Token<'a> {
    word: &'a str,
    from: usize,
    to: usize,
    is_piece: bool,
}

/// What stands in front of a row's answer, and the bytes that its pieces stand for, one behind another.
#[derive(Drop)]
pub struct Asked<'a> {
    tokens: Vec<Token<'a>>,
    bytes: Bytes,
}

impl<'a> Asked<'a> {
    /// Returns what a text asks, under the names above it.
    pub fn new(alloc: Global, names: &Names, asked: &'a str) -> Result<Asked<'a>, Refused> {
        let mut all = Asked {
            tokens: Vec::new(alloc),
            bytes: Bytes::new(alloc),
        };
        let mut is_text = false;
        for part in asked.split('"') {
            if is_text {
                all.push_text(part)?;
            } else {
                all.push_words(alloc, names, part)?;
            }
            is_text = !is_text;
        }
        Ok(all)
    }

    /// Appends what stands between quotes.
    fn push_text(&mut self, text: &'a str) -> Result<(), Refused> {
        let from = self.bytes.as_slice().len();
        self.bytes.push_text(text);
        self.push(text, from, true)
    }

    /// Appends the words between spaces.
    fn push_words(&mut self, alloc: Global, names: &Names, part: &'a str) -> Result<(), Refused> {
        for word in part.split_ascii_whitespace() {
            let from = self.bytes.as_slice().len();
            let is_piece = names.push_piece(alloc, word, &mut self.bytes);
            self.push(word, from, is_piece)?;
        }
        Ok(())
    }

    /// Appends a word of which the bytes stand behind the others, from this place on.
    fn push(&mut self, word: &'a str, from: usize, is_piece: bool) -> Result<(), Refused> {
        if self.bytes.is_refused() {
            return Err(Refused);
        }
        let to = self.bytes.as_slice().len();
        Ok(
            self.tokens.push(Token {
                word,
                from,
                to,
                is_piece,
            })?,
        )
    }

    /// Returns the row of which nothing is read.
    pub fn row(&self) -> Row<'_> {
        Row {
            tokens: self.tokens.as_slice(),
            bytes: self.bytes.as_slice(),
            read: 0,
            cut: None,
        }
    }
}

/// A row of which so many words are read, and where the bytes behind its words are cut.
#[derive(Clone, Copy)]
pub struct Row<'a> {
    tokens: &'a [Token<'a>],
    bytes: &'a [u8],
    read: usize,
    cut: Option<usize>,
}

impl<'a> Row<'a> {
    /// Returns the next token, which is read then.
    fn next(&mut self) -> Result<Token<'a>, Refused> {
        let token = *self.tokens.get(self.read).ok_or(Refused)?;
        self.read = self.read.saturating_add(1);
        Ok(token)
    }

    /// Returns the next word or text as it stands.
    pub fn word(&mut self) -> Result<&'a str, Refused> {
        Ok(self.next()?.word)
    }

    /// Returns the number that is the next word.
    pub fn number(&mut self) -> Result<usize, Refused> {
        number_of(self.word()?).ok_or(Refused)
    }

    /// Returns the number below 256 that is the next word.
    pub fn byte(&mut self) -> Result<u8, Refused> {
        byte_of(self.word()?).ok_or(Refused)
    }

    /// Returns the general who is the next word.
    pub fn general(&mut self) -> Result<GeneralNo, Refused> {
        numbered(self.word()?).ok_or(Refused)
    }

    /// Returns the order that is the next word.
    pub fn order(&mut self) -> Result<OrderNo, Refused> {
        numbered(self.word()?).ok_or(Refused)
    }

    /// Returns the set of the generals or orders with commas between them, or `-` for none, that is the next word.
    pub fn set<K>(&mut self) -> Result<NumberSet<K>, Refused> {
        set_in(self.word()?).ok_or(Refused)
    }

    /// Returns the path of the generals with commas between them, or `-` for none, that is the next word.
    pub fn path(&mut self) -> Result<Path, Refused> {
        path_in(self.word()?).ok_or(Refused)
    }

    /// Returns the bytes of the next piece.
    pub fn piece(&mut self) -> Result<&'a [u8], Refused> {
        let token = self.next()?;
        if !token.is_piece {
            return Err(Refused);
        }
        self.bytes.get(token.from..token.to).ok_or(Refused)
    }

    /// Returns the 32 bytes of the next piece.
    pub fn hash(&mut self) -> Result<[u8; 32], Refused> {
        self.piece()?.as_array::<32>().copied().ok_or(Refused)
    }

    /// Returns the header that is the next piece.
    pub fn header(&mut self, alloc: Global) -> Result<Header, Refused> {
        header_in(alloc, self.piece()?)
    }

    /// Returns the row of which so many of the bytes behind its words stand.
    pub fn cut(self, len: usize) -> Row<'a> {
        Row {
            cut: Some(len),
            ..self
        }
    }

    /// Returns the bytes of all pieces that are left, up to where they are cut.
    pub fn rest(&self) -> Result<&'a [u8], Refused> {
        let left = self.tokens.get(self.read..).ok_or(Refused)?;
        for token in left {
            if !token.is_piece {
                return Err(Refused);
            }
        }
        let from = match left.first() {
            Some(token) => token.from,
            None => self.bytes.len(),
        };
        let bytes = self.bytes.get(from..).ok_or(Refused)?;
        match self.cut {
            Some(len) => bytes.get(..len).ok_or(Refused),
            None => Ok(bytes),
        }
    }
}

/// Returns the header that is the first of these bytes.
pub(crate) fn header_in(alloc: Global, bytes: &[u8]) -> Result<Header, Refused> {
    match read_header(alloc, bytes) {
        Ok((header, _)) => Ok(header),
        Err(_) => Err(Refused),
    }
}
