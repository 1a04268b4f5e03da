//! Walks through entries, and finds where they depart.
ghost use Rattle.std.specs.Prelude.{IsSome, IfSome, ℕ, ◌≡◌, ◌<◌, ◌≤◌, ◌+◌, ◌↔◌, Some, None};
ghost use Rattle.gen_log.specs.Entry.{erase};
ghost use Rattle.gen_net.specs.Departs.{Begins, DepartsAt};
ghost use Rattle.gen_local.specs.Keys.{IsSmall, key_of as key_at};
ghost use Rattle.gen_local.specs.Erased.{erased};
ghost use Rattle.gen_local.specs.Walking.Brought.{SendsInside};

use crate::bringing::bring;
use crate::judging::is_judged;
use crate::places::place_key;
use crate::progress::{ORDERS, Progress};
use gen_log::Entry;
use gen_net::Net;
use gen_types::GeneralNo;

/// Returns the first entry, counted from 0, with which the entries no longer begin a log that the general could keep of
/// some run that it follows in. None is returned if and only if all the entries begin such a log. The entries may be
/// any, in any order; the general is below n. It takes no memory.
pub fn departs_from(net: &Net, general: GeneralNo, entries: &[Entry]) -> Option<usize>
    requires { general < net.now.generals }
    ensures departs { (p : ℕ) → (result ≡ Some p) ↔ DepartsAt net.now general (erased entries.now) p }
    ensures begins { (result ≡ None) ↔ Begins net.now general (erased entries.now) }
{
    let _orders = net.orders();
    let mut least = 0u32;
    let mut orders = [Progress::Unlearnt; ORDERS];
    for index in 0..entries.len() {
        let before = &entries[..index];
        let entry = &entries[index];
        let place = place_key(net, entry);
        if !is_judged(net, general, before, least, &orders, entry) {
            return Some(index);
        }
        bring(net, general, &mut orders, entry);
        least = place + 1;
    }
    None
}
