//! Tells which orders receipts of more than m generals show.
ghost use Rattle.std.specs.Prelude.{IsTrue, ℕ, ◌≡◌, ◌<◌, ◌↔◌, IfSome, IfNone};
ghost use Rattle.gen_types.specs.Ascending.{IsListOf};
ghost use Rattle.gen_receipt.specs.Receipts.{AreReceipts, ReceiptHolds};
ghost use Rattle.gen_receipt.specs.Shown.{IsOnlyShown, IsShown, Shows};

use crate::receipts::Receipt;
use crate::verifying::receipt_holds;
use gen_net::Header;
use gen_types::{GeneralSet, OrderNo, OrderSet};

/// Returns whether a receipt says an order and holds.
fn shows(header: &Header, receipt: &Receipt, order: OrderNo) -> bool
    requires { receipt.now.general < header.now.network.generals }
    ensures { IsTrue result ↔ ((receipt.now.order ≡ order) × ReceiptHolds header.now receipt.now) }
{
    receipt.order == order && receipt_holds(header, receipt)
}

/// Returns the generals that show an order: each has a receipt among these that says the order and holds.
fn generals_showing(header: &Header, receipts: &[Receipt], order: OrderNo) -> GeneralSet
    requires { AreReceipts header.now receipts.now }
    ensures { IsListOf result (Shows header.now receipts.now order) }
{
    let mut generals = GeneralSet::new();
    'receipts: for receipt in receipts {
        if shows(header, receipt, order) {
            generals.insert(receipt.general);
        }
    }
    generals
}

/// Returns whether more than m generals show an order.
fn is_shown(header: &Header, receipts: &[Receipt], order: OrderNo) -> bool
    requires { AreReceipts header.now receipts.now }
    ensures { IsTrue result ↔ IsShown header.now receipts.now order }
{
    let net = header.net();
    let generals = generals_showing(header, receipts, order);
    generals.len() > usize::from(net.traitors())
}

/// Returns the orders that more than m generals show by these receipts. Receipts that don't hold count for nothing, and
/// several receipts of one general that say one order count once. The receipts are as `read_receipts` returns them under
/// this header. The signature of each receipt is verified at most once. It takes no memory.
///
/// If at most m generals are faulty, there is at most one such order, and each of the rest decided it
/// (`enough_receipts`).
pub fn orders_shown(header: &Header, receipts: &[Receipt]) -> OrderSet
    requires { AreReceipts header.now receipts.now }
    ensures { IsListOf result (IsShown header.now receipts.now) }
{
    let net = header.net();
    let mut shown = OrderSet::new();
    'orders: for number in 0..net.orders() {
        let order = OrderNo::at(number);
        if is_shown(header, receipts, order) {
            shown.insert(order);
        }
    }
    shown
}

/// Returns the order that receipts show, if they show exactly one, as `orders_shown` tells; None if they show none or
/// several. It takes no memory.
pub fn only_order(header: &Header, receipts: &[Receipt]) -> Option<OrderNo>
    requires { AreReceipts header.now receipts.now }
    ensures some { IfSome result (IsOnlyShown header.now receipts.now) }
    ensures none { IfNone result ((order : ℕ) → IsOnlyShown header.now receipts.now order → ⊥) }
{
    let shown = orders_shown(header, receipts);
    if shown.len() != 1 {
        return None;
    }
    shown.get(0)
}
