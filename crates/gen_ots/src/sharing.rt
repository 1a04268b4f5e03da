//! Bytes, and who owns them.
ghost use Rattle.std.specs.Prelude.{◌≡◌, IfOk};
ghost use Rattle.std.specs.Arc.{arc_slice_items};
ghost use Rattle.gen_ots.specs.Sharing.{bytes_of};

use std::alloc::{AllocError, Global};
use std::sync::ArcSlice;

/// Bytes of one owner, or bytes that several owners share, as those of a signature or of a log.
#[derive(Debug, Drop)]
pub enum HeldBytes {
    /// Bytes of one owner.
    Owned(Vec<u8>),
    /// Bytes of all owners that share them.
    Shared(ArcSlice<u8>),
}

impl HeldBytes {
    /// Returns the bytes.
    pub fn as_slice(&self) -> &[u8]
        ensures { result.now ≡ bytes_of self.now }
    {
        match self {
            HeldBytes::Owned(bytes) => bytes.as_slice(),
            HeldBytes::Shared(bytes) => bytes.as_slice(),
        }
    }

    /// Returns a copy of these bytes that several owners can share.
    ///
    /// # Errors
    ///
    /// `AllocError` if memory is refused.
    pub(crate) fn shared(alloc: Global, bytes: &[u8]) -> Result<HeldBytes, AllocError>
        ensures { IfOk result (λ shared. bytes_of shared ≡ bytes.now) }
    {
        Ok(HeldBytes::Shared(ArcSlice::from_slice(alloc, bytes)?))
    }

    /// Returns the bytes for one owner more. Bytes that are shared already are not copied; bytes of one
    /// owner are.
    ///
    /// # Errors
    ///
    /// `AllocError` if memory is refused, or if there are too many owners, 2^63 or more.
    pub fn share(&self, alloc: Global) -> Result<HeldBytes, AllocError>
        ensures { IfOk result (λ shared. bytes_of shared ≡ bytes_of self.now) }
    {
        match self {
            HeldBytes::Owned(bytes) => HeldBytes::shared(alloc, bytes.as_slice()),
            HeldBytes::Shared(bytes) => Ok(HeldBytes::Shared(bytes.clone()?)),
        }
    }

    /// Returns the bytes as bytes that several owners can share from now on. They are not copied.
    ///
    /// # Errors
    ///
    /// `AllocError` if memory is refused. The bytes are lost then.
    pub fn into_shared(self) -> Result<ArcSlice<u8>, AllocError>
        ensures { IfOk result (λ shared. arc_slice_items shared ≡ bytes_of self) }
    {
        match self {
            HeldBytes::Owned(bytes) => ArcSlice::from_vec(bytes),
            HeldBytes::Shared(bytes) => Ok(bytes),
        }
    }
}
