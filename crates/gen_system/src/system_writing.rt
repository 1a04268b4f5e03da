//! Writes systems and names them.
ghost use Rattle.std.specs.Prelude.{◌≡◌, ◌++◌, IfOk, OnOk};
ghost use Rattle.gen_system.specs.Systems.{id_text, system_id_of, system_spelling};

use crate::system_reading::SYSTEM_MARK;
use crate::systems::System;
use gen_net::header_bytes;
use sha2::{Digest, Sha256};
use std::alloc::{AllocError, Global};

/// The byte that is hashed before a system in its id.
const SYSTEM_ID_PREFIX: u8 = 0x44;

/// Appends the one spelling of a system.
fn put_system(alloc: Global, out: &mut Vec<u8>, system: &System) -> Result<(), AllocError>
    ensures { OnOk result (out.new.items ≡ out.old.items ++ system_spelling system.now) }
{
    out.extend_from_slice(&SYSTEM_MARK.to_be_bytes())?;
    out.extend_from_slice(&header_bytes(alloc, system.header())?)?;
    out.extend_from_slice(&[system.proposer().number(), system.levels()])?;
    out.extend_from_slice(system.context())
}

/// Returns the one spelling of a system, which `read_system` reads. It fails only if memory is refused.
pub fn write_system(alloc: Global, system: &System) -> Result<Vec<u8>, AllocError>
    ensures { IfOk result (λ bytes. bytes.items ≡ system_spelling system.now) }
{
    let mut out = Vec::new(alloc);
    put_system(alloc, &mut out, system)?;
    Ok(out)
}

/// Returns the text whose hash is the id of a system: the byte 44 in hexadecimal, and the system's bytes. It fails only
/// if memory is refused.
pub fn text_of_id(alloc: Global, system: &System) -> Result<Vec<u8>, AllocError>
    ensures { IfOk result (λ bytes. bytes.items ≡ id_text system.now) }
{
    let mut out = Vec::new(alloc);
    out.push(SYSTEM_ID_PREFIX)?;
    put_system(alloc, &mut out, system)?;
    Ok(out)
}

impl System {
    /// Returns the id of the system, which is to be pinned: SHA-256 (FIPS 180-4) of the byte 44 in hexadecimal and the
    /// system's bytes. It fails only if memory is refused.
    pub fn id(&self, alloc: Global) -> Result<[u8; 32], AllocError>
        ensures { IfOk result (λ id. id ≡ system_id_of self.now) }
    {
        Ok(Sha256::digest(text_of_id(alloc, self)?))
    }
}
