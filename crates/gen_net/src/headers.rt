//! Headers of runs.
ghost use Rattle.std.specs.Prelude.{◌≡◌, ◌<◌, length};
ghost use Rattle.gen_net.specs.declared.version.Version.TheVariants.{One, Two};
ghost use Rattle.gen_net.specs.Header.{header_with, height_of, slot_of, run_id_of, root_of, IsHeader};

use crate::fault::HeaderFault;
use crate::hashing::run_id_over;
use crate::net::Net;
use crate::version::{GREATEST_SLOT, Version};
use gen_types::{GeneralNo, TreeHeight};
use std::alloc::AllocError;
use std::marker::Model;

/// What a run is about: a network, the root of each general's keys, and the version. The version says which leaves of
/// those keys belong to the run.
///
/// The header's hash, the run id, names the run: it stands in everything that is signed in the run. A contract sees the
/// version, the network and the roots as one record.
#[derive(Debug, Drop)]
pub struct Header {
    version: Version,
    net: Net,
    roots: Vec<[u8; 32]>,
    run_id: [u8; 32],
}

impl Model for Header {
    ghost use Rattle.std.specs.Prelude.{◌≡◌};
    ghost use Rattle.gen_net.specs.Header.{RunHeader, IsHeader, run_id_of};

    ghost Value = { RunHeader };

    ghost view = { λ h. record { version = h.version; network = h.net; roots = h.roots.items } };

    ghost invariant = { λ h. record {
      header : IsHeader (record { version = h.version; network = h.net; roots = h.roots.items });
      named : h.run_id ≡ run_id_of
          (record { version = h.version; network = h.net; roots = h.roots.items });
    } };
}

impl Header {
    /// Returns the header of version 1 of a network and the roots of its generals' keys, in the order of the generals.
    /// It takes no memory.
    ///
    /// # Errors
    ///
    /// RootCount if and only if there is not one root for each general; the network and the roots are dropped then.
    pub fn new(net: Net, roots: Vec<[u8; 32]>) -> Result<Header, HeaderFault>
        ensures { result ≡ header_with One net roots.items }
    {
        Header::of_version(Version::One, net, roots)
    }

    /// Returns the header of version 2, for the run of this slot (0 to 3), of a network and the roots of its generals'
    /// keys, in the order of the generals. It takes no memory.
    ///
    /// # Errors
    ///
    /// RootCount if there is not one root for each general, else SlotRange if the slot is above 3. The network and the
    /// roots are dropped then.
    pub fn new_in_slot(net: Net, slot: u8, roots: Vec<[u8; 32]>) -> Result<Header, HeaderFault>
        ensures { result ≡ header_with (Two slot) net roots.items }
    {
        Header::of_version(Version::Two { slot }, net, roots)
    }

    /// Returns the header of this version, network and roots, or the first rule that they break.
    pub(crate) fn of_version(
        version: Version,
        net: Net,
        roots: Vec<[u8; 32]>,
    ) -> Result<Header, HeaderFault>
        ensures { result ≡ header_with version net roots.items }
    {
        if roots.len() != usize::from(net.generals()) {
            return Err(HeaderFault::RootCount);
        }
        if version.slot() > GREATEST_SLOT {
            return Err(HeaderFault::SlotRange);
        }
        let run_id = run_id_over(version, &net, roots.as_slice());
        Ok(Header {
            version,
            net,
            roots,
            run_id,
        })
    }

    /// Returns the version, with the slot in version 2.
    pub fn version(&self) -> Version
        ensures { result ≡ self.now.version }
    {
        self.version
    }

    /// Returns the height of the generals' trees of keys: 4 in version 1, and 6 in version 2.
    pub fn height(&self) -> TreeHeight
        ensures { result ≡ height_of self.now }
    {
        self.version.height()
    }

    /// Returns the slot, 0 to 3: which of the runs of one tree of keys this run is. It is 0 in version 1.
    pub fn slot(&self) -> u8
        ensures value { result ≡ slot_of self.now }
        ensures header { IsHeader self.now }
    {
        self.version.slot()
    }

    /// Returns the network.
    pub fn net(&self) -> &Net
        ensures value { result.now ≡ self.now.network }
        ensures header { IsHeader self.now }
    {
        &self.net
    }

    /// Returns the root of a general's keys, which is its public key. The general must be one of the network's.
    pub fn root(&self, general: GeneralNo) -> &[u8; 32]
        requires { general < self.now.network.generals }
        ensures { result.now ≡ root_of self.now general }
    {
        &self.roots[usize::from(general.get())]
    }

    /// Returns the roots of the generals' keys, in the order of the generals.
    pub fn roots(&self) -> &[[u8; 32]]
        ensures { result.now ≡ self.now.roots }
    {
        self.roots.as_slice()
    }

    /// Returns the run id: SHA-256 (FIPS 180-4) of the byte 31 in hexadecimal and the header's bytes.
    pub fn run_id(&self) -> &[u8; 32]
        ensures { result.now ≡ run_id_of self.now }
    {
        &self.run_id
    }
}

/// A copy is equal to its original. It fails only if memory was refused.
impl Clone for Header {
    ghost is_clone = { λ header copy. copy ≡ header };

    fn clone(&self) -> Result<Header, AllocError> {
        let roots = Vec::from_slice(*self.roots.allocator(), self.roots.as_slice())?;
        Ok(Header {
            version: self.version,
            net: self.net.clone()?,
            roots,
            run_id: self.run_id,
        })
    }
}
