//! Why bytes are no public key, and why a signature does not verify.
use thiserror::Error;

/// What is wrong with bytes that are no public key, in the order in which it is tested.
#[derive(Clone, Copy, Debug, PartialEq, Eq, Error)]
pub enum KeyFault {
    /// They are not 56 bytes.
    #[error("a public key has 56 bytes")]
    KeyLength,
    /// The type code of the tree is not one of LMS_SHA256_M32_H5 to H25.
    #[error("the type code of the tree is none of LMS_SHA256_M32_H5 to H25")]
    KeyTreeType,
    /// The type code of the one-time keys is not that of LMOTS_SHA256_N32_W4.
    #[error("the type code of the one-time keys is not that of LMOTS_SHA256_N32_W4")]
    KeyOneTimeType,
}

/// Why a signature does not verify, in the order in which it is tested.
#[derive(Clone, Copy, Debug, PartialEq, Eq, Error)]
pub enum Refusal {
    /// It does not have as many bytes as a signature by a leaf of the public key's tree.
    #[error("the signature has not the length of one under this public key")]
    WrongLength,
    /// The type code of the one-time signature is not that of LMOTS_SHA256_N32_W4.
    #[error("the type code of the one-time signature is not that of LMOTS_SHA256_N32_W4")]
    WrongOneTimeType,
    /// The type code of the tree is not that of the public key.
    #[error("the type code of the tree is not that of the public key")]
    WrongTreeType,
    /// The tree has no leaf of this number.
    #[error("the tree has no leaf of this number")]
    NoSuchLeaf,
    /// The signature leads to another root than that of the public key.
    #[error("the signature leads to another root")]
    WrongRoot,
}
