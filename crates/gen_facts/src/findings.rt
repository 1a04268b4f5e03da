//! Findings as facts.
ghost use Rattle.std.specs.Prelude.{◌≡◌};
ghost use Rattle.gen_facts.specs.Facts.{finding_fact, message_fact};

use crate::fact::{FINDING, Fact, NO_FACT, about};
use gen_match::Finding;
use gen_types::{GeneralNo, OrderNo};

/// Returns the fact of a finding about a message: sender, receiver, round and order.
fn message_fact(
    run: u32,
    number: u32,
    from: GeneralNo,
    to: GeneralNo,
    round: u8,
    order: OrderNo,
) -> Fact
    ensures { result ≡ message_fact run number from to round order }
{
    Fact {
        other: u32::from(to.get()),
        order: u32::from(order.get()),
        round: u32::from(round),
        ..about(FINDING, run, from, number)
    }
}

/// Returns the fact of a finding in the run at this place: its number, and what it is about.
pub(crate) fn finding_fact(run: u32, finding: &Finding) -> Fact
    ensures { result ≡ finding_fact run finding.now }
{
    match *finding {
        Finding::Missing { general } => about(FINDING, run, general, 1),
        Finding::Several { general } => about(FINDING, run, general, 2),
        Finding::Unreadable { general, fault } => {
            let (of_log, of_chain) = fault.numbers();
            Fact {
                log_fault: u32::from(of_log),
                chain_fault: u32::from(of_chain),
                ..about(FINDING, run, general, 3)
            }
        }
        Finding::Foreign { general } => about(FINDING, run, general, 4),
        Finding::Unsigned { general, entry } => Fact {
            entry: entry as u64,
            ..about(FINDING, run, general, 5)
        },
        Finding::Unsealed { general } => about(FINDING, run, general, 6),
        Finding::Departs { general, entry } => Fact {
            entry: entry as u64,
            ..about(FINDING, run, general, 7)
        },
        Finding::Unmatched {
            from,
            to,
            round,
            order,
        } => message_fact(run, 8, from, to, round, order),
        Finding::Underivable {
            from,
            to,
            round,
            order,
        } => message_fact(run, 9, from, to, round, order),
        Finding::Unjoined { first, second } => Fact {
            other: u32::from(second.get()),
            ..about(FINDING, run, first, 10)
        },
        Finding::Nobody => Fact {
            kind: FINDING,
            run,
            number: 11,
            ..NO_FACT
        },
    }
}
