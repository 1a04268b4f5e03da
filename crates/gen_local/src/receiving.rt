//! Tests what is a chain of a network.
ghost use Rattle.std.specs.Prelude.{IsTrue, ◌↔◌, ◌<◌};
ghost use Rattle.gen_net.specs.Chain.{IsChain};

use gen_net::Net;
use gen_types::{OrderNo, Path};

/// Whether the order and the path are a chain of the network.
pub fn is_chain(net: &Net, order: OrderNo, path: &Path) -> bool
    ensures { IsTrue result ↔ IsChain net.now order path.now }
{
    let _length = path.len();
    order.get() < net.orders()
        && path.generals().iter().all(|g| g.get() < net.generals())
        && path.starts_with(&Path::commander())
}
