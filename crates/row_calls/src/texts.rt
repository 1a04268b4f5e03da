//! How answers are spelled.
use crate::names::Refused;
use gen_types::{GeneralNo, NumberSet, OrderNo, Path};
use sha2::{Digest, Sha256};
use std::alloc::Global;
use std::fmt::Display;

/// The most bytes of an output that stands whole in a row.
const MOST_SHOWN: usize = 2_500;

/// What stands between what is spelled of an answer and its next word.
#[derive(Clone, Copy)]
enum Between {
    /// Nothing: the word is the first, or is joined to a mark.
    Nothing,
    /// A space.
    Space,
    /// A comma, behind a word of a list.
    Comma,
    /// ` / `: the word begins a line.
    Line,
}

/// What is spelled of an answer. A refusal of memory is kept, so that each call can be followed by another one.
#[derive(Drop)]
pub struct Answer {
    alloc: Global,
    text: String,
    between: Between,
    is_refused: bool,
}

impl Answer {
    /// Returns an answer of which nothing is spelled.
    pub fn new(alloc: Global) -> Answer {
        Answer {
            alloc,
            text: String::new(alloc),
            between: Between::Nothing,
            is_refused: false,
        }
    }

    /// Returns what is spelled, unless memory was refused.
    pub fn text(&self) -> Result<&str, Refused> {
        if self.is_refused {
            return Err(Refused);
        }
        Ok(self.text.as_str())
    }

    /// Returns whether nothing is spelled.
    pub fn is_empty(&self) -> bool {
        self.text.is_empty()
    }

    /// Appends a text as it stands.
    pub fn push(&mut self, text: &str) {
        if self.text.push_str(text).is_err() {
            self.is_refused = true;
        }
    }

    /// Appends what stands before the next word.
    fn begin(&mut self) {
        let between = match self.between {
            Between::Nothing => "",
            Between::Space => " ",
            Between::Comma => ",",
            Between::Line => " / ",
        };
        self.push(between);
        self.between = Between::Space;
    }

    /// Appends a word, or a text as one.
    pub fn word(&mut self, word: &str) {
        self.begin();
        self.push(word);
    }

    /// Appends what a value is shown as.
    pub fn show<T: Display + Drop>(&mut self, shown: T) {
        self.begin();
        if write!(&mut self.text, "{shown}").is_err() {
            self.is_refused = true;
        }
    }

    /// Appends a word, and what a value is shown as.
    pub fn field<T: Display + Drop>(&mut self, name: &str, shown: T) {
        self.word(name);
        self.show(shown);
    }

    /// Appends a mark that joins the word before it to the next word.
    pub fn join(&mut self, mark: &str) {
        self.push(mark);
        self.between = Between::Nothing;
    }

    /// Ends the line, unless nothing is spelled.
    pub fn end_line(&mut self) {
        if !self.text.is_empty() {
            self.between = Between::Line;
        }
    }

    /// Appends a value of a list, in which commas stand between the values.
    pub fn item<T: Display + Drop>(&mut self, shown: T) {
        self.show(shown);
        self.between = Between::Comma;
    }

    /// Ends a list. One of nothing is `-`.
    pub fn end_list(&mut self) {
        match self.between {
            Between::Comma => self.between = Between::Space,
            _ => self.word("-"),
        }
    }

    /// Appends the list of generals.
    pub fn generals(&mut self, generals: &[GeneralNo]) {
        for general in generals {
            self.item(*general);
        }
        self.end_list();
    }

    /// Appends the list of a set of generals or of orders, ascending.
    pub fn set<K>(&mut self, set: &NumberSet<K>) {
        for number in set {
            self.item(number.get());
        }
        self.end_list();
    }

    /// Appends an order with its path.
    pub fn statement(&mut self, order: OrderNo, path: &Path) {
        self.field("order", order);
        self.word("path");
        self.generals(path.generals());
    }

    /// Appends `yes` or `no`.
    pub fn yes(&mut self, is_so: bool) {
        self.word(if is_so { "yes" } else { "no" });
    }

    /// Appends bytes in hexadecimal digits, or `-` for none.
    pub fn hex(&mut self, bytes: &[u8]) {
        if bytes.is_empty() {
            return self.word("-");
        }
        match hex::encode(self.alloc, bytes) {
            Ok(digits) => self.word(digits.as_str()),
            Err(_) => self.is_refused = true,
        }
    }

    /// Appends the length and the SHA-256 of bytes.
    pub fn digest(&mut self, bytes: &[u8]) {
        self.field("length", bytes.len());
        self.word("sha256");
        self.hash(bytes);
    }

    /// Appends the SHA-256 of bytes.
    pub fn hash(&mut self, bytes: &[u8]) {
        let digest: [u8; 32] = Sha256::digest(bytes);
        self.hex(&digest);
    }

    /// Appends an output: the lines of a short text, `-` for none, else its length and its SHA-256.
    pub fn output(&mut self, output: &[u8]) {
        match str::from_utf8(output) {
            Ok(shown) if output.len() <= MOST_SHOWN && output.is_ascii() => self.lines(shown),
            _ => self.digest(output),
        }
    }

    /// Appends the lines of a text, or `-` for none.
    fn lines(&mut self, shown: &str) {
        for line in shown.lines() {
            self.word(line);
            self.between = Between::Line;
        }
        if shown.is_empty() {
            self.word("-");
        }
        self.between = Between::Space;
    }
}
