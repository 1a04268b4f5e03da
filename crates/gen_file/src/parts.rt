//! Where the parts of a file stand.
ghost use Rattle.std.specs.Prelude.{◌≡◌, ◌<◌, ◌+◌, ◌^◌, IfOk, length};
ghost use Rattle.gen_net.specs.Front.{front_spelling};
ghost use Rattle.gen_file.specs.Parts.{bundle_front_length, claim_log_at, exhibit_length};

use gen_audit::{Bundle, bundle_front};
use gen_local::Exhibit;
use gen_net::{Header, Marks, front_bytes, header_bytes};
use std::alloc::{AllocError, Global};

/// The bytes before the entries of a log.
pub const LOG_FRONT: usize = 40;

/// The bytes before the log of an exhibit.
pub const EXHIBIT_FRONT: usize = 5;

/// The bytes before the log of a claim, beside those of the header.
const CLAIM_FRONT: usize = 10;

/// Returns the number of bytes of an exhibit.
pub fn exhibit_bytes(exhibit: &Exhibit) -> usize
    requires { exhibit_length exhibit.now < 2 ^ 64 }
    ensures { result ≡ exhibit_length exhibit.now }
{
    EXHIBIT_FRONT + exhibit.log().len()
}

/// Returns the number of bytes of a mark and a header.
///
/// # Errors
///
/// `AllocError` if memory is refused.
pub fn front_length(alloc: Global, marks: Marks, header: &Header) -> Result<usize, AllocError>
    ensures { IfOk result (λ count. count ≡ length (front_spelling marks header.now)) }
{
    let front = front_bytes(alloc, marks, header)?;
    Ok(front.len())
}

/// Returns how many bytes of a bundle stand before its exhibits.
///
/// # Errors
///
/// `AllocError` if memory is refused.
#[tactic(auto, unfolding(crate::specs::Parts::bundle_front_length), using(crate::proofs::BundleLengths::front_has))]
pub fn bundle_front_length(alloc: Global, bundle: &Bundle) -> Result<usize, AllocError>
    ensures { IfOk result (λ count. count ≡ bundle_front_length bundle.now) }
{
    let front = bundle_front(alloc, bundle)?;
    Ok(front.len())
}

/// Returns the byte of evidence at which the log of its claim begins. The log ends before byte 2^64.
///
/// # Errors
///
/// `AllocError` if memory is refused.
pub fn claim_log_at(alloc: Global, header: &Header, log: &[u8]) -> Result<usize, AllocError>
    requires { claim_log_at header.now + length log.now < 2 ^ 64 }
    ensures { IfOk result (λ at. at ≡ claim_log_at header.now) }
{
    // The log ends behind the byte that is returned.
    let _count = log.len();
    let front = header_bytes(alloc, header)?;
    Ok(front.len() + CLAIM_FRONT)
}
