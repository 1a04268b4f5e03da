//! Bytes as rows write them, in pieces one behind another, and names for bytes.
use gen_types::Number;
use std::alloc::{AllocError, AllocFailed, Global};
use std::io::{self, ErrorKind};

/// A row can't be tried: it isn't written as rows are, or memory is refused.
#[derive(Clone, Copy)]
pub struct Refused;

impl From<AllocError> for Refused {
    fn from(_: AllocError) -> Refused {
        Refused
    }
}

impl<T: Drop> From<AllocFailed<T>> for Refused {
    fn from(_: AllocFailed<T>) -> Refused {
        Refused
    }
}

impl From<Refused> for io::Error {
    fn from(_: Refused) -> io::Error {
        ErrorKind::InvalidInput.into()
    }
}

/// Bytes that have a name.
#[derive(Drop)]
struct Named {
    name: String,
    bytes: Vec<u8>,
}

/// The names that stand above a row in its file.
#[derive(Drop)]
pub struct Names {
    all: Vec<Named>,
}

/// Bytes that are put together. A refusal of memory is kept.
#[derive(Drop)]
pub struct Bytes {
    all: Vec<u8>,
    is_refused: bool,
}

impl Bytes {
    /// Returns no bytes.
    pub fn new(alloc: Global) -> Bytes {
        Bytes {
            all: Vec::new(alloc),
            is_refused: false,
        }
    }

    /// Returns the bytes that are put together.
    pub fn as_slice(&self) -> &[u8] {
        self.all.as_slice()
    }

    /// Returns whether memory was refused.
    pub fn is_refused(&self) -> bool {
        self.is_refused
    }

    /// Appends bytes.
    pub fn push(&mut self, bytes: &[u8]) {
        if self.all.extend_from_slice(bytes).is_err() {
            self.is_refused = true;
        }
    }

    /// Appends the bytes that a call returns.
    pub fn push_written(&mut self, written: Result<Vec<u8>, AllocError>) {
        match written {
            Ok(bytes) => self.push(bytes.as_slice()),
            Err(_) => self.is_refused = true,
        }
    }

    /// Appends the bytes of a text, in which `\n` stands for a line feed.
    pub fn push_text(&mut self, text: &str) {
        let mut is_first = true;
        for line in text.split("\\n") {
            if !is_first {
                self.push(b"\n");
            }
            self.push(line.as_bytes());
            is_first = false;
        }
    }

    /// Appends the bytes of hexadecimal digits so many times, and returns whether they are digits.
    fn push_digits(&mut self, alloc: Global, digits: &str, times: usize) -> bool {
        let Ok(bytes) = hex::decode(alloc, digits) else {
            return false;
        };
        for _ in 0..times {
            self.push(bytes.as_slice());
        }
        true
    }
}

/// Returns a number in decimal digits.
pub fn number_of(digits: &str) -> Option<usize> {
    match digits.parse::<usize>() {
        Ok(number) => Some(number),
        Err(_) => None,
    }
}

/// Returns a number below 256 in decimal digits.
pub fn byte_of(digits: &str) -> Option<u8> {
    match digits.parse::<u8>() {
        Ok(number) => Some(number),
        Err(_) => None,
    }
}

/// Returns the general or the order of a number in decimal digits.
pub fn numbered<K>(digits: &str) -> Option<Number<K>> {
    Number::new(byte_of(digits)?)
}

impl Names {
    /// Returns no names.
    pub fn new(alloc: Global) -> Names {
        Names {
            all: Vec::new(alloc),
        }
    }

    /// Gives bytes a name.
    pub fn add(&mut self, alloc: Global, name: &str, bytes: Vec<u8>) -> io::Result<()> {
        let name = String::from_str(alloc, name)?;
        self.all.push(Named { name, bytes })?;
        Ok(())
    }

    /// Returns the bytes of a name.
    fn get(&self, name: &str) -> Option<&[u8]> {
        for named in self.all.as_slice() {
            if named.name.as_str() == name {
                return Some(named.bytes.as_slice());
            }
        }
        None
    }

    /// Returns the bytes of a name, or the part of them that stands in brackets behind it.
    fn part_of(&self, named: &str) -> Option<&[u8]> {
        let Some((name, behind)) = named.split_once('[') else {
            return self.get(named);
        };
        let (from, to) = behind.strip_suffix(']')?.split_once("..")?;
        part(self.get(name)?, from, to)
    }

    /// Appends the bytes of a piece, `$NAME`, `$NAME[FROM..TO]`, `HH*TIMES`, or hexadecimal digits, and returns whether it is one.
    pub fn push_piece(&self, alloc: Global, piece: &str, out: &mut Bytes) -> bool {
        if let Some(named) = piece.strip_prefix('$') {
            return match self.part_of(named) {
                Some(bytes) => {
                    out.push(bytes);
                    true
                }
                None => false,
            };
        }
        let (digits, times) = match piece.split_once('*') {
            Some((digits, times)) => (digits, number_of(times)),
            None => (piece, Some(1)),
        };
        match times {
            Some(times) => out.push_digits(alloc, digits, times),
            None => false,
        }
    }
}

/// Returns the part of bytes from one number on and before another; without a number it begins or ends where the bytes do.
fn part<'a>(bytes: &'a [u8], from: &str, to: &str) -> Option<&'a [u8]> {
    let start = number_or(from, 0)?;
    let end = number_or(to, bytes.len())?;
    bytes.get(start..end)
}

/// Returns a number in decimal digits, or another one for no digits.
fn number_or(digits: &str, other: usize) -> Option<usize> {
    if digits.is_empty() {
        return Some(other);
    }
    number_of(digits)
}
