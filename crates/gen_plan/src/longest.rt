//! How long a frame can be.
ghost use Rattle.std.specs.Prelude.{◌≡◌, ◌<◌, ◌≤◌, ◌^◌};
ghost use Rattle.gen_plan.specs.Longest as longest;

use gen_chain::sizes::signers_bytes;
use gen_net::Header;
use gen_types::TreeHeight;

/// The number of bytes of a frame without parcels.
pub(crate) const EMPTY_FRAME: usize = 41;

/// The number of bytes before the signers of a chain in a frame: four for its length, and the chain's own front.
const PARCEL_FRONT: usize = 6;

/// Returns the number of bytes of a parcel, behind its length, of a chain with this many signers.
#[tactic(auto, unfolding(crate::specs::Longest::parcel_most))]
pub(crate) fn parcel_most(height: TreeHeight, signers: u8) -> usize
    requires { signers ≤ 16 }
    ensures value { result ≡ longest.parcel_most height signers }
    ensures small { result < 2 ^ 32 }
{
    PARCEL_FRONT + signers_bytes(height, signers)
}

/// Returns the most bytes of a frame of a node that follows the algorithm, in any round of the header's run: a parcel
/// for each order, with a signer for each round.
#[tactic(auto, unfolding(crate::specs::Longest::frame_most))]
pub fn frame_most(header: &Header) -> usize
    ensures { result ≡ longest.frame_most header.now }
{
    let net = header.net();
    let parcel = parcel_most(header.height(), net.rounds());
    EMPTY_FRAME + usize::from(net.orders()) * parcel
}
