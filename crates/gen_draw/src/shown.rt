//! What shown logs say was sent, received and decided.
ghost use Rattle.std.specs.Prelude.{◌≡◌, ◌++◌, IfOk, OnOk, OnErr};
ghost use Rattle.std.specs.List.{flat_map};
ghost use Rattle.gen_draw.specs.Shown.{
  all_decided,
  all_received,
  all_sent,
  decided_by,
  decided_in,
  received_by,
  received_in,
  sent_by,
  sent_in,
};

use gen_local::Exhibit;
use gen_log::{Entry, read_log};
use gen_net::{Header, Message};
use gen_types::{GeneralNo, OrderNo, ReadError};
use std::alloc::{AllocError, Global};

/// What shown logs say, in the order of the logs and of their entries.
#[derive(Drop)]
pub struct ShownFacts {
    /// The messages that the logs' generals sent, by their SEND entries.
    pub sent: Vec<Message>,
    /// The messages that the logs' generals received, by their RECV entries.
    pub received: Vec<Message>,
    /// The orders that the logs' generals decided, by their DECIDE entries.
    pub decided: Vec<(GeneralNo, OrderNo)>,
}

/// Appends what an entry of a general's log says.
fn add_entry_facts(
    told: &mut ShownFacts,
    general: GeneralNo,
    entry: &Entry,
) -> Result<(), AllocError>
    ensures sent { OnOk result
        (told.new.sent.items ≡ told.old.sent.items ++ sent_by general entry.now) }
    ensures received { OnOk result
        (told.new.received.items ≡ told.old.received.items ++ received_by general entry.now) }
    ensures decided { OnOk result
        (told.new.decided.items ≡ told.old.decided.items ++ decided_by general entry.now) }
{
    match entry {
        Entry::Send { to, order, path } => {
            told.sent.push(Message {
                from: general,
                to: *to,
                order: *order,
                path: *path,
            })?;
        }
        Entry::Recv { from, chain } => {
            told.received.push(Message {
                from: *from,
                to: general,
                order: chain.order(),
                path: chain.path(),
            })?;
        }
        Entry::Decide { order, .. } => {
            told.decided.push((general, *order))?;
        }
        Entry::Start { .. } | Entry::Sign { .. } => {}
    }
    Ok(())
}

/// Appends what is shown as a general's log says; nothing if it doesn't read as a log.
#[tactic(auto, unfolding(crate::specs::Shown::sent_in, crate::specs::Shown::received_in, crate::specs::Shown::decided_in))]
fn add_exhibit_facts(
    alloc: Global,
    told: &mut ShownFacts,
    header: &Header,
    exhibit: &Exhibit,
) -> Result<(), AllocError>
    ensures sent { OnOk result (told.new.sent.items ≡ told.old.sent.items
        ++ sent_in header.now exhibit.now) }
    ensures received { OnOk result (told.new.received.items ≡ told.old.received.items
        ++ received_in header.now exhibit.now) }
    ensures decided { OnOk result (told.new.decided.items ≡ told.old.decided.items
        ++ decided_in header.now exhibit.now) }
{
    match read_log(alloc, header, exhibit.log()) {
        Ok(log) => {
            let general = exhibit.general();
            let entries = log.entries();
            for entry in entries {
                add_entry_facts(told, general, entry)?;
            }
            Ok(())
        }
        Err(ReadError::Memory) => Err(AllocError),
        Err(ReadError::Fault(_)) => Ok(()),
    }
}

/// Returns what all shown logs say. What doesn't read as a log says nothing.
///
/// # Errors
///
/// `AllocError` if memory is refused.
pub fn told_by(
    alloc: Global,
    header: &Header,
    exhibits: &[Exhibit],
) -> Result<ShownFacts, AllocError>
    ensures sent { IfOk result (λ told. told.sent.items ≡ all_sent header.now exhibits.now) }
    ensures received { IfOk result (λ told.
        told.received.items ≡ all_received header.now exhibits.now) }
    ensures decided { IfOk result (λ told.
        told.decided.items ≡ all_decided header.now exhibits.now) }
{
    let mut told = ShownFacts {
        sent: Vec::new(alloc),
        received: Vec::new(alloc),
        decided: Vec::new(alloc),
    };
    for exhibit in exhibits {
        add_exhibit_facts(alloc, &mut told, header, exhibit)?;
    }
    Ok(told)
}
