//! What is found in a log.
ghost use Rattle.std.specs.Prelude.{◌≡◌, ◌++◌, ◌∷◌, [], List};
ghost use Rattle.gen_log.specs.declared.entries.Entry.{Entry};
ghost use Rattle.gen_log.specs.declared.entries.Entry.TheVariants.{Decide};
ghost use Rattle.gen_log.specs.Log.{EndsWithDecide};

use crate::texts::SignedText;
use gen_log::{Entry, Log};
use gen_types::{OrderNo, OrderSet};
use std::marker::Model;

/// A log that says it is its general's of a header's run, with what is found in it: which of its signatures verify, and
/// where it departs from the algorithm.
#[derive(Debug, Drop)]
pub struct OwnLog {
    pub(crate) log: Log,
    pub(crate) unsigned: Option<usize>,
    pub(crate) sealed: bool,
    pub(crate) departure: Option<usize>,
    pub(crate) texts: Vec<SignedText>,
}

impl Model for OwnLog {
    ghost use Rattle.gen_log.specs.Log.{EndsWithDecide};
    ghost use Rattle.gen_local.specs.FoundLog.{FoundLog};

    ghost Value = { FoundLog };

    ghost view = { λ f. record {
      log = f.log;
      unsigned = f.unsigned;
      sealed = f.sealed;
      departure = f.departure;
      texts = f.texts.items;
    } };

    ghost invariant = { λ f. EndsWithDecide f.log.entries };
}

impl OwnLog {
    /// Returns the log.
    pub fn log(&self) -> &Log
        ensures value { result.now ≡ self.now.log }
        ensures last { EndsWithDecide self.now.log.entries }
    {
        &self.log
    }

    /// Returns what the log's general decided: the set and the order of DECIDE, which is the last entry.
    pub fn decision(&self) -> (OrderSet, OrderNo)
        ensures { (before : List Entry)
            × (self.now.log.entries ≡ before ++ Decide result.0 result.1 ∷ []) }
    {
        match self.log.entries().last() {
            Some(Entry::Decide { orders, order }) => (*orders, *order),
            _ => unreachable!(),
        }
    }

    /// Returns the first entry, counted from 0, with a signature that doesn't verify. None means that the signatures of
    /// all entries verify.
    pub fn unsigned(&self) -> Option<usize>
        ensures { result ≡ self.now.unsigned }
    {
        self.unsigned
    }

    /// Returns whether the signature of the head verifies.
    pub fn is_sealed(&self) -> bool
        ensures { result ≡ self.now.sealed }
    {
        self.sealed
    }

    /// Returns the entry, counted from 0, at which the log departs from the algorithm, as `departs` returns it. None
    /// means that the log's general could keep the whole log.
    pub fn departure(&self) -> Option<usize>
        ensures { result ≡ self.now.departure }
    {
        self.departure
    }

    /// Returns the texts whose signatures verify, entry by entry, and the head last. A SIGN has one text, under the
    /// last general of its path; a RECV has one text for each signer, from the first to the last.
    pub fn texts(&self) -> &[SignedText]
        ensures { result.now ≡ self.now.texts }
    {
        self.texts.as_slice()
    }
}
