//! As what a file is read, by its first bytes.
ghost use Rattle.std.specs.Prelude.{◌≡◌};
ghost use Rattle.gen_net.specs.declared.marks.FrontFault.TheVariants.{Truncated};
ghost use Rattle.std.specs.Int.{w32};
ghost use Rattle.gen_types.specs.Bytes.{number_at};
ghost use Rattle.gen_file.specs.Kinds.{begins_header, file_kind, is_evidence_mark, version_number};

use crate::kinds::FileKind;
use gen_net::{FrontFault, Marks, VERSION_ONE, VERSION_TWO, Version};
use gen_types::u32_at;

/// The first four bytes of evidence, `SME1` or `SME2`.
pub const EVIDENCE_MARKS: Marks = Marks {
    one: 0x534d_4531,
    two: 0x534d_4532,
};

/// The first four bytes of a bundle, `SMB1` or `SMB2`.
pub const BUNDLE_MARKS: Marks = Marks {
    one: 0x534d_4231,
    two: 0x534d_4232,
};

/// Returns the number of a version, with which a header begins.
pub fn version_number(version: Version) -> u8
    ensures { result ≡ version_number version }
{
    match version {
        Version::One => VERSION_ONE,
        Version::Two { .. } => VERSION_TWO,
    }
}

/// Returns whether the first byte is that of a header.
pub fn begins_header(input: &[u8]) -> bool
    ensures { result ≡ begins_header input.now }
{
    match input {
        [first, ..] => *first == VERSION_ONE || *first == VERSION_TWO,
        [] => false,
    }
}

/// Returns whether the first four bytes are a mark of evidence.
fn is_evidence(input: &[u8]) -> bool
    ensures { result ≡ is_evidence_mark (number_at Truncated w32 input.now) }
{
    match u32_at(input, FrontFault::Truncated) {
        Ok((mark, _rest)) => mark == EVIDENCE_MARKS.one || mark == EVIDENCE_MARKS.two,
        Err(_) => false,
    }
}

/// Returns as what a file is read, by its first bytes.
pub fn file_kind(input: &[u8]) -> FileKind
    ensures { result ≡ file_kind input.now }
{
    if begins_header(input) {
        FileKind::OfHeader
    } else if is_evidence(input) {
        FileKind::OfEvidence
    } else {
        FileKind::OfCampaign
    }
}
