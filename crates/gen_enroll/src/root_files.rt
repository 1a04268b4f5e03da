//! Files of roots.
ghost use Rattle.std.specs.Prelude.{◌≡◌, ◌≤◌, ◌<◌, ◌+◌, ◌++◌, ◌^◌, IfOk, OnOk, OnErr, length, slice_index_or, []};
ghost use Rattle.std.specs.Prelude.{vec_len, vec_capacity};
ghost use Rattle.gen_identity.specs.Openings.{siblings_of, Opens};
ghost use Rattle.gen_identity.specs.Sets.{identity_over};
ghost use Rattle.gen_enroll.specs.RootFiles.{AreWide, IsRootFile, file_spelling, head_of, roots_spelling};

use crate::heads::RootsHead;
use crate::sizes::HEAD_BYTES;
use gen_identity::sizes::MOST_LEVELS;
use gen_identity::{Identity, Opening, identity_of, open_at};
use gen_ots::sizes::HASH_BYTES;
use gen_types::TreeHeight;
use std::alloc::{AllocError, Global};
use std::marker::Model;

/// The roots of all sets of an identity, set 0 first, and the height of their trees. All of it is public. A contract
/// sees the height, the number of levels, and the list of the roots.
#[derive(Debug, Drop)]
pub struct Roots {
    head: RootsHead,
    roots: Vec<[u8; 32]>,
}

impl Model for Roots {
    ghost use Rattle.gen_enroll.specs.RootFiles.{RootFile, IsRootFile};

    ghost Value = { RootFile };

    ghost view = { λ r. record { height = r.head.height; levels = r.head.levels; roots = r.roots.items } };

    ghost invariant = { λ r. IsRootFile (record {
      height = r.head.height;
      levels = r.head.levels;
      roots = r.roots.items;
    }) };
}

/// States that roots have 32 bytes each.
fn roots_are_wide(roots: &[[u8; 32]])
    ensures { AreWide roots.now }
{}

impl Roots {
    /// Returns the file of these roots, whose trees have this height. Their number must be 2 to the power of the levels.
    pub fn new(height: TreeHeight, levels: u8, roots: Vec<[u8; 32]>) -> Roots
        requires levels { levels ≤ MOST_LEVELS }
        requires count { length roots.items ≡ 2 ^ levels }
        ensures { result ≡ record { height = height; levels = levels; roots = roots.items } }
    {
        roots_are_wide(roots.as_slice());
        let head = RootsHead { height, levels };
        Roots { head, roots }
    }

    /// Returns the head of the file: the height of the trees, and the number of levels.
    pub fn head(&self) -> RootsHead
        ensures value { result ≡ head_of self.now }
        ensures file { IsRootFile self.now }
    {
        self.head
    }

    /// Returns the roots, set 0 first. Their number is 2 to the power of the levels.
    pub fn roots(&self) -> &[[u8; 32]]
        ensures value { result.now ≡ self.now.roots }
        ensures file { IsRootFile self.now }
    {
        self.roots.as_slice()
    }

    /// Returns the identity over the roots.
    pub fn identity(&self) -> Identity
        ensures { result ≡ identity_over self.now.roots self.now.levels }
    {
        identity_of(self.roots(), self.head.levels)
    }

    /// Returns the opening of the set with this index, which is below 2 to the power of the levels.
    pub fn opening(&self, set: u32) -> Opening
        requires { set < 2 ^ self.now.levels }
        ensures siblings { result ≡ siblings_of self.now.roots self.now.levels set }
        // It opens the root of the set under the identity of the file.
        ensures opens { Opens (identity_over self.now.roots self.now.levels) set
            (slice_index_or self.now.roots set []) result }
    {
        open_at(self.roots(), self.head.levels, set)
    }

    /// Returns the number of bytes of the file.
    pub fn byte_count(&self) -> usize
        ensures { result ≡ length (file_spelling self.now) }
    {
        HEAD_BYTES + HASH_BYTES * self.roots().len()
    }

    /// Appends the one spelling of the file: `SMI1` if the trees have height 4 and `SMI2` if they have height 6, the
    /// number of levels in one byte, and the roots, set 0 first. If the vector has room for it, no memory is asked for.
    ///
    /// # Errors
    ///
    /// `AllocError` if memory is refused. Then the vector is unchanged.
    pub fn append_to(&self, out: &mut Vec<u8>) -> Result<(), AllocError>
        ensures ok { OnOk result (out.new.items ≡ out.old.items ++ file_spelling self.now) }
        ensures err { OnErr result (out.new.items ≡ out.old.items) }
        ensures full { OnErr result
            (vec_capacity out.old < vec_len out.old + length (file_spelling self.now)) }
        ensures len { OnOk result (vec_len out.new ≡ vec_len out.old + length (file_spelling self.now)) }
        ensures capacity { vec_capacity out.old ≤ vec_capacity out.new }
    {
        out.reserve(self.byte_count())?;
        out.extend_from_slice(&self.head.to_bytes()).unwrap();
        append_roots(self.roots(), out).unwrap();
        Ok(())
    }
}

/// Appends roots as they stand in a file, 32 bytes each. If the vector has room for them, no memory is asked for.
///
/// # Errors
///
/// `AllocError` if memory is refused. Then the vector is unchanged.
pub fn append_roots(roots: &[[u8; 32]], out: &mut Vec<u8>) -> Result<(), AllocError>
    ensures ok { OnOk result (out.new.items ≡ out.old.items ++ roots_spelling roots.now) }
    ensures err { OnErr result (out.new.items ≡ out.old.items) }
    ensures full { OnErr result
        (vec_capacity out.old < vec_len out.old + length (roots_spelling roots.now)) }
    ensures len { OnOk result (vec_len out.new ≡ vec_len out.old + length (roots_spelling roots.now)) }
    ensures capacity { vec_capacity out.old ≤ vec_capacity out.new }
{
    out.reserve(HASH_BYTES * roots.len())?;
    'roots: for root in roots {
        out.extend_from_slice(root).unwrap();
    }
    Ok(())
}

/// Returns the one spelling of a file of roots, as `Roots::append_to` appends it.
///
/// # Errors
///
/// `AllocError` if memory is refused.
pub fn write_roots(alloc: Global, roots: &Roots) -> Result<Vec<u8>, AllocError>
    ensures { IfOk result (λ bytes. bytes.items ≡ file_spelling roots.now) }
{
    let mut out = Vec::with_capacity(alloc, roots.byte_count())?;
    roots.append_to(&mut out)?;
    Ok(out)
}
