//! Finds the entry at which a log departs.
ghost use Rattle.std.specs.Prelude.{ℕ, ◌≡◌, ◌↔◌, Some, None};
ghost use Rattle.gen_net.specs.Departs.{DepartsAt, IsFollowersLog};
ghost use Rattle.gen_log.specs.Log.{IsLog, BeginsWithStartOf};
ghost use Rattle.gen_local.specs.Erased.{erased};

use crate::walking::departs_from;
use gen_log::{Entry, Log};
use gen_net::Header;
use gen_types::GeneralNo;

/// Returns the general that START names, if the first entry is a START.
pub fn starter(entries: &[Entry]) -> Option<GeneralNo>
    ensures { (general : ℕ) → (result ≡ Some general) ↔ BeginsWithStartOf general entries.now }
{
    match entries.first() {
        Some(Entry::Start { general, own: _ }) => Some(*general),
        _ => None,
    }
}

/// Returns the entry, counted from 0, at which a log departs from the algorithm. The entries before it begin a log that
/// the general named by START could keep of some run that it follows in; with it they don't. None is returned if and
/// only if the general could keep the whole log.
///
/// A follower's RECVs are any that can arrive: from a neighbour that signed last, by a path that doesn't name the
/// receiver. All other entries are determined by those before them, with one exception. If several chains brought a new
/// order, the follower is free to choose the one that it lengthens (SM(m), steps 2 and 3, section 4 of the paper of
/// 1982). Signatures play no part. It takes no memory, and its time is linear in the length of the log.
pub fn departs(header: &Header, log: &Log) -> Option<usize>
    requires { IsLog header.now log.now }
    ensures departs { (general : ℕ) → BeginsWithStartOf general log.now.entries → (p : ℕ)
        → (result ≡ Some p) ↔ DepartsAt header.now.network general (erased log.now.entries) p }
    ensures follows { (general : ℕ) → BeginsWithStartOf general log.now.entries
        → (result ≡ None) ↔ IsFollowersLog header.now.network general (erased log.now.entries) }
{
    match starter(log.entries()) {
        Some(general) => {
            let net = header.net();
            let _generals = net.generals();
            departs_from(net, general, log.entries())
        }
        None => None,
    }
}
