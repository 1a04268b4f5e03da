//! Writes bundles.
ghost use Rattle.std.specs.Prelude.{◌≡◌, ◌<◌, ◌^◌, ◌++◌, length, All, IfOk, OnOk};
ghost use Rattle.std.specs.List.{flat_map};
ghost use Rattle.gen_audit.specs.BundleParts.{AreListedWalks, AreExhibits, IsListedWalk, IsExhibit};
ghost use Rattle.gen_audit.specs.BundleSpelling.{bundle_spelling};
ghost use Rattle.gen_audit.specs.BundleSpelling.{walk_spelling, walks_spelling, exhibit_spelling, exhibits_spelling};

use crate::bundles::{BUNDLE_MARKS, Bundle};
use gen_local::Exhibit;
use gen_net::front_bytes;
use gen_types::GeneralNo;
use gen_walks::Walk;
use std::alloc::{AllocError, Global};

/// Appends the number of a walk's generals and the generals.
fn put_walk(out: &mut Vec<u8>, walk: &Walk) -> Result<(), AllocError>
    requires { length walk.now < 256 }
    ensures { OnOk result (out.new.items ≡ out.old.items ++ walk_spelling walk.now) }
{
    let generals = walk.generals();
    out.push(generals.len() as u8)?;
    'generals: for general in generals {
        out.push(general.get())?;
    }
    Ok(())
}

/// Returns the bytes before an exhibit's log in a bundle: the general, and the log's length in four bytes. The log has
/// fewer than 2^32 bytes, as each log of a bundle has.
pub fn exhibit_front(exhibit: &Exhibit) -> [u8; 5]
    requires { length exhibit.now.bytes < 2 ^ 32 }
    ensures { result ++ exhibit.now.bytes ≡ exhibit_spelling exhibit.now }
{
    let [a, b, c, d] = (exhibit.log().len() as u32).to_be_bytes();
    [exhibit.general().get(), a, b, c, d]
}

/// Returns the bytes before the exhibits in the one spelling of a bundle. With these and `exhibit_front` a bundle is
/// written without a copy of its logs.
///
/// # Errors
///
/// `AllocError` where memory is refused.
pub fn bundle_front(alloc: Global, bundle: &Bundle) -> Result<Vec<u8>, AllocError>
    ensures { IfOk result (λ bytes.
        bytes.items ++ flat_map exhibit_spelling bundle.now.exhibits ≡ bundle_spelling bundle.now) }
{
    let header = bundle.header();
    let walks = bundle.walks().as_slice();
    let mut out = front_bytes(alloc, BUNDLE_MARKS, header)?;
    out.extend_from_slice(&bundle.faulty().bits().to_be_bytes())?;
    out.push(walks.len() as u8)?;
    'walking: for walk in walks {
        put_walk(&mut out, walk)?;
    }
    out.push(bundle.exhibits().len() as u8)?;
    Ok(out)
}

/// Returns the one spelling of a bundle, which `read_bundle` reads. It fails only if memory is refused.
pub fn write_bundle(alloc: Global, bundle: &Bundle) -> Result<Vec<u8>, AllocError>
    ensures { IfOk result (λ bytes. bytes.items ≡ bundle_spelling bundle.now) }
{
    let _lawful = bundle.header();
    let exhibits = bundle.exhibits();
    let mut out = bundle_front(alloc, bundle)?;
    'showing: for exhibit in exhibits {
        out.extend_from_slice(&exhibit_front(exhibit))?;
        out.extend_from_slice(exhibit.log())?;
    }
    Ok(out)
}
