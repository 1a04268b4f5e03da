//! Opens exhibits: tells what their bytes are, before signatures and links are looked at.
ghost use Rattle.std.specs.Prelude.{IsTrue, ◌≡◌, ◌↔◌, ◌++◌, All, IfOk, OnOk};
ghost use Rattle.gen_log.specs.Log.{BeginsWithStartOf};
ghost use Rattle.gen_log.specs.Verifying.{SaysItIsOf};
ghost use Rattle.gen_chain.specs.Store.{Serves, KeepsAll};
ghost use Rattle.gen_net.specs.Header.{RunHeader};
ghost use Rattle.gen_local.specs.Opened.{IsOpened, exhibits_of, logs_in, logs_of};

use crate::departing::starter;
use crate::exhibits::Exhibit;
use gen_chain::VerifyStore;
use gen_log::{Entry, Log, LogFault, LogText, read_log_with};
use gen_net::Header;
use gen_types::{GeneralNo, ReadError};
use std::alloc::{AllocError, Global};

/// What the bytes of an exhibit are.
#[derive(Drop)]
pub enum Opening {
    /// The bytes are no log of the header's network, with this fault.
    Unreadable(LogFault),
    /// The bytes are a log of another run, or a log whose START names another general.
    Foreign,
    /// The bytes are a log that says it is the general's of this run.
    Own(Log),
}

/// An exhibit, and what its bytes are.
#[derive(Drop)]
pub struct Opened {
    pub exhibit: Exhibit,
    pub opening: Opening,
}

/// Whether the first of the entries is a START that names the general.
fn starts_as(general: GeneralNo, entries: &[Entry]) -> bool
    ensures { IsTrue result ↔ BeginsWithStartOf general entries.now }
{
    match starter(entries) {
        Some(first) => first == general,
        None => false,
    }
}

/// Returns whether a log says that it is the general's of this run: by its run id and its START.
pub fn says_it_is_of(header: &Header, general: GeneralNo, log: &Log) -> bool
    ensures { IsTrue result ↔ SaysItIsOf header.now general log.now }
{
    *log.run_id() == *header.run_id() && starts_as(general, log.entries())
}

/// Opens an exhibit: reads its bytes as a log.
pub fn open(
    alloc: Global,
    header: &Header,
    exhibit: &Exhibit,
    store: &mut VerifyStore,
) -> Result<Opened, AllocError>
    requires { Serves header.now store.old }
    ensures exhibit { IfOk result (λ opened. opened.exhibit ≡ exhibit.now) }
    ensures opened { IfOk result (IsOpened header.now) }
    ensures grows { KeepsAll store.old store.new }
    ensures serves { Serves header.now store.new }
{
    let exhibit = exhibit.share()?;
    match read_log_with(alloc, header, exhibit.log(), store.pool()) {
        Err(ReadError::Memory) => Err(AllocError),
        Err(ReadError::Fault(fault)) => {
            let opening = Opening::Unreadable(fault);
            Ok(Opened { exhibit, opening })
        }
        Ok(log) => {
            if !says_it_is_of(header, exhibit.general(), &log) {
                let opening = Opening::Foreign;
                return Ok(Opened { exhibit, opening });
            }
            let opening = Opening::Own(log);
            Ok(Opened { exhibit, opening })
        }
    }
}

/// Opens exhibits, in their order.
///
/// # Errors
///
/// `AllocError` where memory is refused.
pub fn open_each(
    alloc: Global,
    header: &Header,
    exhibits: &[Exhibit],
    store: &mut VerifyStore,
) -> Result<Vec<Opened>, AllocError>
    requires { Serves header.now store.old }
    ensures exhibits { IfOk result (λ opened. exhibits_of opened.items ≡ exhibits.now) }
    ensures opened { IfOk result (λ opened. All (IsOpened header.now) opened.items) }
    ensures grows { KeepsAll store.old store.new }
    ensures serves { Serves header.now store.new }
{
    let mut opened = Vec::with_capacity(alloc, exhibits.len())?;
    'exhibits: for exhibit in exhibits {
        opened.push(open(alloc, header, exhibit, store)?)?;
    }
    Ok(opened)
}

/// Returns the logs of opened exhibits with their bytes, in the order of the exhibits. An exhibit whose bytes are no log
/// of its general and this run has none.
///
/// # Errors
///
/// `AllocError` where memory is refused.
pub fn texts_of<'a>(alloc: Global, opened: &'a [Opened]) -> Result<Vec<LogText<'a>>, AllocError>
    requires { (h : RunHeader) × All (IsOpened h) opened.now }
    ensures { IfOk result (λ texts. texts.items ≡ logs_in opened.now) }
{
    let mut texts = Vec::with_capacity(alloc, opened.len())?;
    'opened: for one in opened {
        if let Opening::Own(log) = &one.opening {
            let text = LogText::new(alloc, one.exhibit.general(), log, one.exhibit.log())?;
            texts.push(text)?;
        }
    }
    Ok(texts)
}
