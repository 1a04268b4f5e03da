//! The run id, hashed without taking memory.
ghost use Rattle.std.specs.Prelude.{◌≡◌};
ghost use Rattle.gen_net.specs.Header.{AreRoots, run_id_of};

use crate::format::{VERSION_ONE, VERSION_TWO, number_bytes_of};
use crate::net::Net;
use crate::version::Version;
use sha2::{Digest, Sha256};

/// The byte that is hashed before a header in its run id.
const RUN_ID_PREFIX: u8 = 0x31;

/// Returns the run id of the header with this version, this network and these roots.
#[tactic(auto, unfolding(crate::specs::Header::run_id_of))]
pub fn run_id_over(version: Version, net: &Net, roots: &[[u8; 32]]) -> [u8; 32]
    ensures value { result ≡ run_id_of
        (record { version = version; network = net.now; roots = roots.now }) }
    ensures wide { AreRoots roots.now }
{
    let edges = net.edges();
    let mut hasher = Sha256::new();
    hasher.update([RUN_ID_PREFIX]);
    match version {
        Version::One => hasher.update([VERSION_ONE]),
        Version::Two { slot } => hasher.update([VERSION_TWO, slot]),
    }
    hasher.update(number_bytes_of(net));
    'edges: for edge in edges {
        hasher.update([edge.0.get(), edge.1.get()]);
    }
    'roots: for root in roots {
        hasher.update(root);
    }
    hasher.finalize()
}
