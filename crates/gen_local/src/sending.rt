//! Finds the generals to which a path is due.
ghost use Rattle.std.specs.Prelude.{◌≤◌};
ghost use Rattle.gen_local.specs.Walking.Brought.{IsNextDue};

use gen_net::Net;
use gen_types::{GeneralNo, Path};

/// Returns the least general from `from` on to which the path is due, or n if there is none. The path is due to the
/// neighbours that it doesn't name.
pub fn next_due(net: &Net, general: GeneralNo, path: &Path, from: u8) -> u8
    requires { from ≤ net.now.generals }
    ensures { IsNextDue net.now general path.now from result }
{
    for number in from..net.generals() {
        let to = GeneralNo::at(number);
        if net.has_edge(general, to) && !path.contains(to) {
            return number;
        }
    }
    net.generals()
}
