//! Gives the ranks of messages as numbers.
ghost use Rattle.std.specs.Prelude.{◌≡◌, ◌<◌, ◌≤◌, IfOk, map};
ghost use Rattle.gen_match.specs.Ranks as ranked;

use crate::finding::Finding;
use crate::kinds::Kind;
use gen_types::limits::MOST_GENERALS;
use gen_types::{GeneralNo, OrderNo};
use std::alloc::{AllocError, Global};

/// Each general's number is less than this.
pub(crate) const GENERAL_SPAN: u128 = MOST_GENERALS as u128;

/// Each round, and each number of generals of a path, is less than this.
pub(crate) const ROUND_SPAN: u128 = 32;

/// Each order's number is less than this.
pub(crate) const ORDER_SPAN: u128 = 16;

/// The ranks of two messages that differ by one in their round alone differ by this.
const ROUND_STRIDE: u128 = ORDER_SPAN;

/// The ranks of two messages that differ by one in their receiver alone differ by this.
const TO_STRIDE: u128 = ROUND_SPAN * ROUND_STRIDE;

/// The ranks of two messages that differ by one in their sender alone differ by this.
const FROM_STRIDE: u128 = GENERAL_SPAN * TO_STRIDE;

/// Each rank number is less than this.
pub(crate) const RANK_SPAN: u128 = GENERAL_SPAN * FROM_STRIDE;

/// Returns the number of a message's rank, which is below 131072.
pub(crate) fn rank_number(from: GeneralNo, to: GeneralNo, round: usize, order: OrderNo) -> u128
    requires { round ≤ 16 }
    ensures value { result ≡ ranked.rank_number from to round order }
    ensures small { result < 131072 }
{
    let generals = u128::from(from.get()) * GENERAL_SPAN + u128::from(to.get());
    (generals * ROUND_SPAN + round as u128) * ORDER_SPAN + u128::from(order.get())
}

/// Returns the finding of this kind about the message with this rank.
fn finding_at(kind: Kind, rank: u128) -> Finding
    ensures { result ≡ ranked.finding_at kind rank }
{
    let from = GeneralNo::at((rank / FROM_STRIDE % GENERAL_SPAN) as u8);
    let to = GeneralNo::at((rank / TO_STRIDE % GENERAL_SPAN) as u8);
    let round = (rank / ROUND_STRIDE % ROUND_SPAN) as u8;
    let order = OrderNo::at((rank % ORDER_SPAN) as u8);
    match kind {
        Kind::OneSided => Finding::Unmatched {
            from,
            to,
            round,
            order,
        },
        Kind::Stray => Finding::Underivable {
            from,
            to,
            round,
            order,
        },
    }
}

/// Returns the findings of this kind about the messages with these ranks.
pub(crate) fn findings_at(
    alloc: Global,
    kind: Kind,
    ranks: &[u128],
) -> Result<Vec<Finding>, AllocError>
    ensures { IfOk result (λ findings. findings.items ≡ map (ranked.finding_at kind) ranks.now) }
{
    let mut findings = Vec::new(alloc);
    for rank in ranks {
        findings.push(finding_at(kind, *rank))?;
    }
    Ok(findings)
}
