//! Which orders a general heard.
ghost use Rattle.std.specs.Prelude.{◌≡◌, ◌≤◌};
ghost use Rattle.gen_scenario.specs.Heard.{orders_heard};

use gen_scenario::Heard;
use gen_types::{OrderNo, OrderSet};

/// Returns the set of the orders below `orders` of which a chain was heard.
pub(crate) fn orders_among(orders: u8, heard: &[Heard]) -> OrderSet
    requires { orders ≤ 16 }
    ensures { result ≡ orders_heard orders heard.now }
{
    let mut set = OrderSet::new();
    'orders: for number in 0..orders {
        let order = OrderNo::at(number);
        if !heard.iter().any(|x| x.chain.order() == order) {
            continue;
        }
        set.insert(order);
    }
    set
}
