//! Hands a text to a caller in another language.
ghost use Rattle.sm_node.specs.Handing.{PutsText};

use crate::told::NodeReply;

/// Copies a text to the beginning of the room if it fits there: Done, or else Length. The count is the text's length in
/// both cases.
pub(crate) fn put(text: &[u8], room: &mut [u8], count: &mut usize) -> NodeReply
    ensures { PutsText text.now room.old room.new count.new result }
{
    *count = text.len();
    if room.len() < text.len() {
        return NodeReply::Length;
    }
    let (front, _) = room.split_at_mut(text.len());
    front.copy_from_slice(text);
    NodeReply::Done
}
