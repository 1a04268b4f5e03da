//! Hands items to a caller in another language.
ghost use Rattle.sm_embed.specs.Handing.{Puts};

use crate::numbers::{DONE, LENGTH};

/// Copies items to the beginning of the room if they fit there, and returns the number that says whether they do. The
/// count is how many they are in both cases.
pub(crate) fn put<T: Copy>(items: &[T], room: &mut [T], count: &mut usize) -> u32
    ensures { Puts items.now room.old room.new count.new result }
{
    *count = items.len();
    if room.len() < items.len() {
        return LENGTH;
    }
    let (front, _) = room.split_at_mut(items.len());
    front.copy_from_slice(items);
    DONE
}
