//! The terminals at which a process may stand.

use std::io::IsTerminal;

/// Whether the standard streams of a process are terminals.
pub trait Terminals {
    /// Returns whether standard input is a terminal.
    fn reads_terminal(&self) -> bool;

    /// Returns whether standard output is a terminal.
    fn writes_terminal(&self) -> bool;

    /// Returns whether standard error is a terminal.
    fn tells_terminal(&self) -> bool;
}

impl Terminals for HostRuntime {
    fn reads_terminal(&self) -> bool {
        self.stdin().is_terminal()
    }

    fn writes_terminal(&self) -> bool {
        self.stdout().is_terminal()
    }

    fn tells_terminal(&self) -> bool {
        self.stderr().is_terminal()
    }
}
