//! Gathers the messages that logs tell, and finds those that only one of two logs has.
ghost use Rattle.std.specs.Prelude.{◌≡◌, ◌<◌, ◌++◌, cond, [], ◌∷◌, IfOk, OnOk, AllPairs, Contains};
ghost use Rattle.std.specs.List.{flat_map, AllByRecursion};
ghost use Rattle.gen_types.specs.Ascending.{IsListOf};
ghost use Rattle.gen_types.specs.Ends.{is_among};
ghost use Rattle.gen_local.specs.Erased.{erased};
ghost use Rattle.gen_match.specs.Messages as message;
ghost use Rattle.gen_match.specs.Reports.{told_logs};
ghost use Rattle.gen_match.specs.Rest.{IsSmall, AreSmall};

use crate::entries::{note_ranges, rest_entries};
use crate::prefixes::{path_number, sort_apart};
use crate::ranks::{RANK_SPAN, rank_number};
use crate::sides::Side;
use gen_local::LocalReport;
use gen_log::Entry;
use gen_net::Header;
use gen_types::{GeneralNo, GeneralSet, OrderNo, Path};
use std::alloc::{AllocError, Global};

/// Returns the key of a message.
fn message_key(from: GeneralNo, to: GeneralNo, order: OrderNo, path: &Path) -> u128
    ensures { result ≡ message.key_of from to order path.now }
{
    path_number(path) * RANK_SPAN + rank_number(from, to, path.len(), order)
}

/// Appends a key if the general at the other end of its message counts.
fn put_key(
    counted: &GeneralSet,
    other: GeneralNo,
    key: u128,
    keys: &mut Vec<u128>,
) -> Result<(), AllocError>
    ensures { OnOk result (keys.new.items
        ≡ keys.old.items ++ cond (is_among counted.now other) (key ∷ []) []) }
{
    if counted.contains(other) {
        keys.push(key)?;
    }
    Ok(())
}

/// Appends the keys of the messages that the entries of a general's log tell on this side.
fn put_messages(
    side: Side,
    counted: &GeneralSet,
    general: GeneralNo,
    entries: &[Entry],
    keys: &mut Vec<u128>,
) -> Result<(), AllocError>
    ensures keys { OnOk result (keys.new.items ≡ keys.old.items
        ++ flat_map (message.told_keys side counted.now general) (erased entries.now)) }
    ensures small { OnOk result (AllByRecursion IsSmall (erased entries.now)) }
{
    let mut rest = entries;
    while let Some((entry, others)) = rest.split_first() {
        note_ranges(entry);
        match (side, entry) {
            (Side::Sender, Entry::Send { to, order, path }) => {
                put_key(counted, *to, message_key(general, *to, *order, path), keys)?;
            }
            (Side::Receiver, Entry::Recv { from, chain }) => {
                let key = message_key(*from, general, chain.order(), &chain.path());
                put_key(counted, *from, key, keys)?;
            }
            _ => {}
        }
        rest = others;
    }
    Ok(())
}

/// Returns the keys, ascending, of all messages between counted generals that the logs of the rest tell on this side.
pub(crate) fn find_keys(
    alloc: Global,
    side: Side,
    counted: &GeneralSet,
    header: &Header,
    faulty: &GeneralSet,
    reports: &[LocalReport],
) -> Result<Vec<u128>, AllocError>
    ensures keys { IfOk result (λ keys. IsListOf keys.items (Contains
        (message.rest_told side counted.now header.now.network faulty.now (told_logs reports.now)))) }
    ensures small { OnOk result (AreSmall header.now.network faulty.now
        (told_logs reports.now) header.now.network.generals) }
{
    let mut keys = Vec::new(alloc);
    for number in 0..header.net().generals() {
        let general = GeneralNo::at(number);
        let entries = rest_entries(header, faulty, reports, general);
        put_messages(side, counted, general, entries, &mut keys)?;
    }
    sort_apart(&mut keys)?;
    Ok(keys)
}

/// Appends the ranks of the keys that the other keys don't have.
fn put_ranks(keys: &[u128], others: &[u128], ranks: &mut Vec<u128>) -> Result<(), AllocError>
    requires { AllPairs (λ a b. a < b) others.now }
    ensures { OnOk result (ranks.new.items
        ≡ ranks.old.items ++ flat_map (message.rank_lacked others.now) keys.now) }
{
    let mut rest = keys;
    while let Some((key, behind)) = rest.split_first() {
        match others.binary_search(key) {
            Ok(_) => {}
            Err(_) => ranks.push(*key % RANK_SPAN)?,
        }
        rest = behind;
    }
    Ok(())
}

/// Returns the ranks, ascending, of the messages whose key only one of two lists has.
pub(crate) fn one_sided(
    alloc: Global,
    sent: &[u128],
    received: &[u128],
) -> Result<Vec<u128>, AllocError>
    requires sent { AllPairs (λ a b. a < b) sent.now }
    requires received { AllPairs (λ a b. a < b) received.now }
    ensures { IfOk result (λ ranks. IsListOf ranks.items (Contains
        (message.one_sided sent.now received.now))) }
{
    let mut ranks = Vec::new(alloc);
    put_ranks(sent, received, &mut ranks)?;
    put_ranks(received, sent, &mut ranks)?;
    sort_apart(&mut ranks)?;
    Ok(ranks)
}
