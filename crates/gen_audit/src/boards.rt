//! What workers share: a gate, and a board for their answers to verifications.
ghost use Rattle.gen_chain.specs.Store.{Serves, KeepsAll};

use crate::gates::JobGate;
use gen_chain::VerifyStore;
use gen_local::Exchange;
use gen_net::Header;
use std::alloc::{AllocError, Global};
use std::marker::Model;
use std::sync::{Mutex, Wait};

/// The most answers of a store that are taken from it. A run has fewer, and nobody gains anything by showing more.
const MOST_ANSWERS: u64 = 1024;

/// Takes the answers of another store, unless there are more than 1024.
fn take_few(store: &mut VerifyStore, header: &Header, other: &VerifyStore) -> Result<(), AllocError>
    requires serves { Serves header.now store.old }
    requires other { Serves header.now other.now }
    ensures grows { KeepsAll store.old store.new }
    ensures serves { Serves header.now store.new }
{
    if other.runs() <= MOST_ANSWERS {
        store.take_from(header, other)?;
    }
    Ok(())
}

/// Answers to verifications that any worker made under a header.
#[derive(Drop)]
struct Answers {
    header: Header,
    store: VerifyStore,
}

impl Model for Answers {
    ghost use Rattle.gen_chain.specs.Store.{Serves};
    ghost use Rattle.gen_audit.specs.Answers.{Answers};

    ghost Value = { Answers };

    ghost view = { λ a. record { header = a.header; store = a.store } };

    ghost invariant = { λ a. Serves a.header a.store };
}

impl Answers {
    /// Takes the answers of a worker's store and gives it those of the others, if the worker's header is this one. No
    /// answers are taken from a store that has more than 1024.
    fn exchange(&mut self, header: &Header, store: &mut VerifyStore) -> Result<(), AllocError>
        requires { Serves header.now store.old }
        ensures grows { KeepsAll store.old store.new }
        ensures serves { Serves header.now store.new }
    {
        if self.header == *header {
            take_few(&mut self.store, header, store)?;
            take_few(store, header, &self.store)?;
        }
        Ok(())
    }
}

/// A board at which workers leave their answers to verifications.
#[derive(Drop)]
pub(crate) struct Board {
    answers: Mutex<Answers>,
}

impl Board {
    /// Returns a board without answers, for verifications under this header.
    pub(crate) fn new(alloc: Global, header: &Header) -> Result<Board, AllocError> {
        let answers = Answers {
            header: header.clone()?,
            store: VerifyStore::new(alloc)?,
        };
        Ok(Board {
            answers: Mutex::new(answers),
        })
    }
}

/// What workers share: the gate, which is called before they begin pieces, and the board. A worker that is alone leaves
/// nothing at the board.
#[derive(Drop)]
pub(crate) struct Workshop<'a, R, G> {
    pub(crate) rt: &'a R,
    pub(crate) gate: &'a G,
    pub(crate) board: &'a Board,
    pub(crate) alone: bool,
}

impl<'a, R, G: JobGate> JobGate for Workshop<'a, R, G> {
    fn begin(&self, piece: usize) {
        self.gate.begin(piece);
    }
}

impl<'a, R: Wait, G> Exchange for Workshop<'a, R, G> {
    fn exchange(&self, header: &Header, store: &mut VerifyStore) -> Result<(), AllocError> {
        if self.alone {
            return Ok(());
        }
        self.board.answers.lock(self.rt).exchange(header, store)
    }
}
