//! What receipts of a run tell.
ghost use Rattle.std.specs.Prelude.{◌<◌, IfOk};
ghost use Rattle.std.specs.List.{AllZip};
ghost use Rattle.gen_types.specs.Ascending.{IsListOf};
ghost use Rattle.gen_receipt.specs.Convicting.{IsConvicted};
ghost use Rattle.gen_receipt.specs.Receipts.{AreReceipts};
ghost use Rattle.gen_receipting.specs.Told.{AreTold, IsToldOf};

use gen_net::Header;
use gen_receipt::{Receipt, evidence_by_receipts, orders_shown, receipt_holds};
use gen_scenario::Decision;
use gen_types::{GeneralNo, GeneralSet, OrderSet};
use std::alloc::{AllocError, Global};

/// What a receipt tells.
#[derive(Clone, Copy, Debug, PartialEq, Eq)]
pub struct ToldReceipt {
    /// The decision that it shows.
    pub decision: Decision,
    /// The number of entries of the log.
    pub entries: u64,
    /// Whether it holds.
    pub holds: bool,
}

/// What receipts of a run tell.
#[derive(Debug, Drop)]
pub struct Told {
    /// What each of them tells, in their order.
    pub receipts: Vec<ToldReceipt>,
    /// The orders that they show: those that more than m generals say.
    pub shown: OrderSet,
    /// The generals of which two receipts hold and have different heads.
    pub convicted: GeneralSet,
}

/// Returns what a receipt tells.
fn told_of(header: &Header, receipt: &Receipt) -> ToldReceipt
    requires { receipt.now.general < header.now.network.generals }
    ensures { IsToldOf header.now receipt.now result }
{
    ToldReceipt {
        decision: Decision {
            general: receipt.general,
            orders: receipt.orders,
            order: receipt.order,
        },
        entries: receipt.entries,
        holds: receipt_holds(header, receipt),
    }
}

/// Returns what each of some receipts tells.
fn each_told(
    alloc: Global,
    header: &Header,
    receipts: &[Receipt],
) -> Result<Vec<ToldReceipt>, AllocError>
    requires { AreReceipts header.now receipts.now }
    ensures { IfOk result (λ told. AllZip (IsToldOf header.now) receipts.now told.items) }
{
    let mut told = Vec::new(alloc);
    'receipts: for place in 0..receipts.len() {
        told.push(told_of(header, &receipts[place]))?;
    }
    Ok(told)
}

/// Returns the generals of which two of these receipts hold and have different heads.
fn convicted_by(
    alloc: Global,
    header: &Header,
    receipts: &[Receipt],
) -> Result<GeneralSet, AllocError>
    requires { AreReceipts header.now receipts.now }
    ensures { IfOk result (λ set. IsListOf set (IsConvicted header.now receipts.now)) }
{
    let mut convicted = GeneralSet::new();
    'generals: for number in 0..header.net().generals() {
        let general = GeneralNo::at(number);
        if evidence_by_receipts(alloc, header, receipts, general)?.is_some() {
            convicted.insert(general);
        }
    }
    Ok(convicted)
}

/// Returns what receipts of a run tell: of each whether it holds, the orders that more than m generals show by
/// receipts that hold, and the generals of which two receipts hold and have different heads. The receipts are as
/// `read_receipts` returns them under this header.
///
/// # Errors
///
/// `AllocError` if memory is refused.
pub fn told_by(alloc: Global, header: &Header, receipts: &[Receipt]) -> Result<Told, AllocError>
    requires { AreReceipts header.now receipts.now }
    ensures { IfOk result (AreTold header.now receipts.now) }
{
    Ok(Told {
        receipts: each_told(alloc, header, receipts)?,
        shown: orders_shown(header, receipts),
        convicted: convicted_by(alloc, header, receipts)?,
    })
}
