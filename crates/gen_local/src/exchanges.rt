//! Exchanges answers among threads that make reports at the same time.
ghost use Rattle.gen_chain.specs.Store.{Serves, KeepsAll};

use gen_chain::VerifyStore;
use gen_net::Header;
use std::alloc::AllocError;

/// A place where a maker of reports gives its verified answers to others that make reports at the same time, and takes
/// theirs.
pub trait Exchange {
    /// Gives the answers of a store to others, and takes their answers into the store, if there are any. It may wait.
    ///
    /// # Errors
    ///
    /// `AllocError` where memory is refused. Then the store keeps what it kept.
    fn exchange(&self, header: &Header, store: &mut VerifyStore) -> Result<(), AllocError>
        requires { Serves header.now store.old }
        ensures grows { KeepsAll store.old store.new }
        ensures serves { Serves header.now store.new };
}

/// An exchange with nobody: it does nothing.
pub(crate) struct Alone;

impl Exchange for Alone {
    fn exchange(&self, _header: &Header, _store: &mut VerifyStore) -> Result<(), AllocError> {
        Ok(())
    }
}
