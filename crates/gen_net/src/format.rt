//! The numbers and lengths that the bytes of a header are made of.
ghost use Rattle.std.specs.Prelude.{◌≡◌};
ghost use Rattle.gen_net.specs.NetworkSpelling.{number_bytes};

use crate::net::Net;

/// The number of version 1, which is the first byte of its headers.
pub const VERSION_ONE: u8 = 1;

/// The number of version 2, which is the first byte of its headers.
pub const VERSION_TWO: u8 = 2;

/// The greatest number of bytes of a version, with its slot.
pub const VERSION_LENGTH: usize = 2;

/// The number of bytes of the numbers before the edges.
pub const NUMBERS_LENGTH: usize = 6;

/// The number of bytes of an edge.
pub const EDGE_LENGTH: usize = 2;

/// The number of bytes of a root.
pub const ROOT_LENGTH: usize = 32;

/// Returns the bytes of a header between its version and its edges: n, m, d, q, the choice and the number of edges.
pub fn number_bytes_of(net: &Net) -> [u8; NUMBERS_LENGTH]
    ensures { result ≡ number_bytes net.now }
{
    [
        net.generals(),
        net.traitors(),
        net.diameter(),
        net.orders(),
        net.choice().number(),
        net.edges().len() as u8,
    ]
}
