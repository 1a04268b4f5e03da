//! Fields of bytes. A field is a value and the bytes after it.
//!
//! A reader of bytes takes one field after another. A field that does not stand whole in front of the
//! bytes is refused with the fault that the caller names.
ghost use Rattle.std.specs.Prelude.{◌≡◌, length, IfOk, IfErr};
ghost use Rattle.std.specs.Int.{w16, w32, w64};
ghost use Rattle.gen_types.specs.Reading.{Gives};
ghost use Rattle.gen_types.specs.Spelled.{IsField};
ghost use Rattle.gen_types.specs.Bytes as front;

use crate::reading::ReadError;

/// Returns the first byte, and the bytes after it.
///
/// # Errors
///
/// The fault `short` if there is no byte. No call of this module asks for memory.
pub fn u8_at<F: Copy>(bytes: &[u8], short: F) -> Result<(u8, &[u8]), ReadError<F>>
    ensures exact { IsField result (front.byte_at short bytes.now) }
    ensures short { IfErr result (λ e. e ≡ ReadError.Fault short) }
{
    match bytes {
        [] => Err(ReadError::Fault(short)),
        [first, rest @ ..] => Ok((*first, rest)),
    }
}

/// Returns the first bytes, `count` of them, and the bytes after them.
///
/// # Errors
///
/// The fault `short` if there are fewer bytes.
pub fn bytes_at<F: Copy>(
    bytes: &[u8],
    count: usize,
    short: F,
) -> Result<(&[u8], &[u8]), ReadError<F>>
    ensures exact { Gives (λ x. (x.0.now, x.1.now)) result (front.bytes_at short count bytes.now) }
    ensures width { IfOk result (λ x. length x.0.now ≡ count) }
    ensures short { IfErr result (λ e. e ≡ ReadError.Fault short) }
{
    if bytes.len() < count {
        return Err(ReadError::Fault(short));
    }
    let (front, rest) = bytes.split_at(count);
    Ok((front, rest))
}

/// Returns the number in the first two bytes, big-endian, and the bytes after them.
///
/// # Errors
///
/// The fault `short` if there are fewer bytes.
pub fn u16_at<F: Copy>(bytes: &[u8], short: F) -> Result<(u16, &[u8]), ReadError<F>>
    ensures exact { IsField result (front.number_at short w16 bytes.now) }
    ensures short { IfErr result (λ e. e ≡ ReadError.Fault short) }
{
    if bytes.len() < 2 {
        return Err(ReadError::Fault(short));
    }
    let (front, rest) = bytes.split_at(2);
    Ok((u16::from_be_bytes([front[0], front[1]]), rest))
}

/// Returns the number in the first four bytes, big-endian, and the bytes after them.
///
/// # Errors
///
/// The fault `short` if there are fewer bytes.
pub fn u32_at<F: Copy>(bytes: &[u8], short: F) -> Result<(u32, &[u8]), ReadError<F>>
    ensures exact { IsField result (front.number_at short w32 bytes.now) }
    ensures short { IfErr result (λ e. e ≡ ReadError.Fault short) }
{
    if bytes.len() < 4 {
        return Err(ReadError::Fault(short));
    }
    let (front, rest) = bytes.split_at(4);
    let number = u32::from_be_bytes([front[0], front[1], front[2], front[3]]);
    Ok((number, rest))
}

/// Returns the number in the first eight bytes, big-endian, and the bytes after them.
///
/// # Errors
///
/// The fault `short` if there are fewer bytes.
pub fn u64_at<F: Copy>(bytes: &[u8], short: F) -> Result<(u64, &[u8]), ReadError<F>>
    ensures exact { IsField result (front.number_at short w64 bytes.now) }
    ensures short { IfErr result (λ e. e ≡ ReadError.Fault short) }
{
    if bytes.len() < 8 {
        return Err(ReadError::Fault(short));
    }
    let (front, rest) = bytes.split_at(8);
    let number = u64::from_be_bytes([
        front[0], front[1], front[2], front[3], front[4], front[5], front[6], front[7],
    ]);
    Ok((number, rest))
}
