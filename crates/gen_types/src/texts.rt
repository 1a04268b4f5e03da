//! Fields and numbers of a line of text.
ghost use Rattle.std.specs.Prelude.{◌≡◌, map, IfOk};
ghost use Rattle.gen_types.specs.Texts.{fields, number_of};

use std::alloc::{AllocError, Global};

/// Returns the number that these bytes spell in decimal digits, without leading zeros, and None if and
/// only if they spell no number from 0 to 255.
pub fn decimal_number(digits: &[u8]) -> Option<u8>
    ensures { result ≡ number_of digits.now }
{
    match digits {
        [a @ b'0'..=b'9'] => Some(*a - b'0'),
        [a @ b'1'..=b'9', b @ b'0'..=b'9'] => Some(10 * (*a - b'0') + (*b - b'0')),
        [a @ b'1'..=b'9', b @ b'0'..=b'9', c @ b'0'..=b'9'] => {
            let value = 100 * u16::from(*a - b'0')
                + 10 * u16::from(*b - b'0')
                + u16::from(*c - b'0');
            if value <= 255 {
                Some(value as u8)
            } else {
                None
            }
        }
        _ => None,
    }
}

/// Returns the fields of a line: what stands before, between and after its spaces. A line without a space
/// is one field. A field is empty between two spaces side by side, before a space that begins the line,
/// and after a space that ends it.
///
/// # Errors
///
/// `AllocError` if memory is refused.
pub fn split_fields<'a>(alloc: Global, line: &'a [u8]) -> Result<Vec<&'a [u8]>, AllocError>
    ensures { IfOk result (λ v. map (λ x. x.now) v.items ≡ fields line.now) }
{
    line.split(|b| *b == b' ').collect(alloc)
}
