//! The parameters of LMOTS_SHA256_N32_W4 (RFC 8554, section 4.1).

/// The number of bytes of a hash: n.
pub const HASH_BYTES: usize = 32;

/// The number of bytes of an identifier: I.
pub const IDENTIFIER_BYTES: usize = 16;

/// The number of bits of a coefficient, 1 to 8: the Winternitz parameter w.
pub const WINTERNITZ: usize = 4;

/// The number of coefficients of a hash.
pub const HASH_COEFFICIENTS: usize = HASH_BYTES * 8 / WINTERNITZ;

/// The number of chains: p.
pub const CHAINS: usize = 67;

/// The greatest coefficient, which is also the number of steps of a whole chain.
pub const CHAIN_STEPS: u8 = 15;

/// The number of bits by which the checksum is shifted to the left: ls.
pub const CHECKSUM_SHIFT: u32 = 4;

/// The number of bytes of a type code.
pub const TYPE_CODE_BYTES: usize = 4;

/// The type code of the parameter set.
pub const TYPE_CODE: u32 = 3;

/// The number of bytes of a one-time signature, 2,180: its type code, the randomizer and a hash for each chain.
pub const OTS_BYTES: usize = TYPE_CODE_BYTES + HASH_BYTES * (CHAINS + 1);
