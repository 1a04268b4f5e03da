//! Tests with which paths a general can sign an order.
ghost use Rattle.std.specs.Prelude.{IsTrue, ◌≡◌, ◌↔◌};
ghost use Rattle.std.specs.List.{list_any};
ghost use Rattle.gen_local.specs.Recvs.{is_recv_of as is_received};
ghost use Rattle.gen_local.specs.Erased.{erased};
ghost use Rattle.gen_local.specs.Walking.Judged.{Lengthens};

use gen_log::Entry;
use gen_types::{GeneralNo, OrderNo};

/// Whether an entry is a RECV of this order and path.
fn is_recv_of(entry: &Entry, order: OrderNo, generals: &[GeneralNo]) -> bool
    ensures { result ≡ is_received order generals.now entry.now }
{
    match entry {
        Entry::Recv { from: _, chain } => {
            chain.order() == order
                && chain.signers().len() == generals.len()
                && chain.path().generals() == generals
        }
        _ => false,
    }
}

/// Whether one of the entries is a RECV of this order and path.
fn was_received(before: &[Entry], order: OrderNo, generals: &[GeneralNo]) -> bool
    ensures { result ≡ list_any (is_received order generals.now) before.now }
{
    before
        .iter()
        .any(|entry| is_recv_of(entry, order, generals))
}

/// Whether the path is one by which the general learnt the order in this round, followed by the general itself.
pub fn lengthens(
    general: GeneralNo,
    before: &[Entry],
    order: OrderNo,
    round: u8,
    path: &[GeneralNo],
) -> bool
    ensures { IsTrue result ↔ Lengthens general (erased before.now) order round path.now }
{
    match path {
        [] => false,
        [picked @ .., last] => {
            *last == general
                && picked.len() == usize::from(round)
                && (picked.is_empty() || was_received(before, order, picked))
        }
    }
}
