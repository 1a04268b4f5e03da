//! Prints findings as text.
ghost use Rattle.std.specs.Prelude.{◌≡◌, ◌++◌, OnOk, string_bytes};
ghost use Rattle.gen_report.specs.Findings.{message_named, finding_named};

use gen_log::LogFault;
use gen_match::Finding;
use gen_types::{GeneralNo, OrderNo};
use std::alloc::AllocError;

/// Appends the name of a finding's kind, and the message that it is about: sender, receiver, round and order.
fn push_message(
    out: &mut String,
    kind: &str,
    from: GeneralNo,
    to: GeneralNo,
    round: u8,
    order: OrderNo,
) -> Result<(), AllocError>
    ensures { OnOk result (string_bytes out.new
        ≡ string_bytes out.old ++ kind.now ++ message_named from to round order) }
{
    let from = from.get();
    let to = to.get();
    let order = order.get();
    write!(
        out,
        "{kind} from {from} to {to} round {round} order {order}"
    )
}

/// Appends a finding: its number, such as `N8`, and what it is about, on one line without its line feed.
///
/// # Errors
///
/// `AllocError` if memory is refused; what `out` then holds is not specified.
pub fn push_finding_name(out: &mut String, finding: &Finding) -> Result<(), AllocError>
    ensures { OnOk result (string_bytes out.new ≡ string_bytes out.old ++ finding_named finding.now) }
{
    match *finding {
        Finding::Missing { general } => write!(out, "N1 general {}", general.get()),
        Finding::Several { general } => write!(out, "N2 general {}", general.get()),
        Finding::Unreadable { general, fault } => {
            write!(out, "N3 general {} ", general.get())?;
            let (of_log, of_chain) = fault.numbers();
            match fault {
                LogFault::Chain(_) => write!(out, "L{of_log} C{of_chain}"),
                _ => write!(out, "L{of_log}"),
            }
        }
        Finding::Foreign { general } => write!(out, "N4 general {}", general.get()),
        Finding::Unsigned { general, entry } => {
            write!(out, "N5 general {} entry {entry}", general.get())
        }
        Finding::Unsealed { general } => write!(out, "N6 general {}", general.get()),
        Finding::Departs { general, entry } => {
            write!(out, "N7 general {} entry {entry}", general.get())
        }
        Finding::Unmatched {
            from,
            to,
            round,
            order,
        } => push_message(out, "N8", from, to, round, order),
        Finding::Underivable {
            from,
            to,
            round,
            order,
        } => push_message(out, "N9", from, to, round, order),
        Finding::Unjoined { first, second } => {
            write!(out, "N10 pair {} {}", first.get(), second.get())
        }
        Finding::Nobody => out.push_str("N11"),
    }
}
