//! Tests whether a log is one that a general could have kept by following.
ghost use Rattle.std.specs.Prelude.{IsTrue, ◌<◌, ◌↔◌};
ghost use Rattle.gen_log.specs.Log.{IsLog};
ghost use Rattle.gen_convict.specs.Refuting.{IsOwnLog};

use crate::checking::is_sealed_by;
use gen_local::departs;
use gen_log::Log;
use gen_net::Header;
use gen_types::GeneralNo;

/// Whether a log is one that a general of the network could have kept of this run by following, and its head verifies
/// as the general's. The log is as `read_log` returns it under this header. `refute` requires such a log. It takes no
/// memory.
pub fn is_own_log(header: &Header, general: GeneralNo, log: &Log) -> bool
    requires general { general < header.now.network.generals }
    requires log { IsLog header.now log.now }
    ensures { IsTrue result ↔ IsOwnLog header.now general log.now }
{
    if departs(header, log).is_some() {
        return false;
    }
    is_sealed_by(header, general, log)
}
