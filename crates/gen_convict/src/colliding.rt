//! Finds two texts of links with one hash, where links agree after entries that differ.
ghost use Rattle.std.specs.Prelude.{◌≡◌, ◌≢◌, IfOk, OnOk, length};
ghost use Rattle.std.specs.List.{AllByRecursion};
ghost use Rattle.sha2.specs.Sha256.{sha256};
ghost use Rattle.gen_log.specs.Entry.{IsEntryOf};
ghost use Rattle.gen_log.specs.Links.{link_behind};
ghost use Rattle.gen_convict.specs.LinkTexts.{link_text, LinkTextsCollide};

use crate::laws::links_tell;
use gen_log::{Entry, LINK_PREFIX, entry_bytes};
use gen_net::Header;
use sha2::{Digest, Sha256};
use std::alloc::{AllocError, Global};

/// The state of a walk over the entries of a log.
#[derive(Drop)]
struct Side {
    /// The link after the entries that were walked over.
    link: [u8; 32],
    /// The bytes that were hashed for the link; empty before the first entry.
    text: Vec<u8>,
}

/// Walks over one more entry: sets the hashed bytes and the link after the entry.
fn walk_on(alloc: Global, side: &mut Side, entry: &Entry) -> Result<(), AllocError>
    ensures text { OnOk result (side.new.text.items ≡ link_text side.old.link entry.now) }
    ensures link { OnOk result (side.new.link ≡ sha256 side.new.text.items) }
{
    let spelled = entry_bytes(alloc, entry)?;
    side.text.clear();
    side.text.push(LINK_PREFIX)?;
    side.text.extend_from_slice(&side.link)?;
    side.text.extend_from_slice(&spelled)?;
    side.link = Sha256::digest(&side.text);
    Ok(())
}

/// Returns the texts that are hashed for the links after two entries, at one place of two lists. The texts differ and
/// have one SHA-256. The two lists of entries have one length and differ, and from the same first link both lead to the
/// same last link.
///
/// The place is the first one where the hashed texts differ and the links after it agree. There is such a place: equal
/// texts have equal entries and equal links before them. It plays no part which of the two lists is the general's own.
///
/// # Errors
///
/// `AllocError` where memory is refused.
pub fn collide(
    alloc: Global,
    header: &Header,
    first: &[u8; 32],
    own: &[Entry],
    other: &[Entry],
) -> Result<(Vec<u8>, Vec<u8>), AllocError>
    requires own { AllByRecursion (IsEntryOf header.now) own.now }
    requires other { AllByRecursion (IsEntryOf header.now) other.now }
    requires length { length own.now ≡ length other.now }
    requires links { link_behind first.now own.now ≡ link_behind first.now other.now }
    requires differ { own.now ≢ other.now }
    ensures { IfOk result
        (λ pair. LinkTextsCollide first.now own.now other.now pair.0.items pair.1.items) }
{
    // Reading the network makes the header's invariant known.
    let _net = header.net();
    links_tell();
    let mut left = Side {
        link: *first,
        text: Vec::new(alloc),
    };
    let mut right = Side {
        link: *first,
        text: Vec::new(alloc),
    };
    'entries: for i in 0..own.len() {
        walk_on(alloc, &mut left, &own[i])?;
        walk_on(alloc, &mut right, &other[i])?;
        if left.link == right.link && left.text != right.text {
            return Ok((left.text, right.text));
        }
    }
    unreachable!()
}
