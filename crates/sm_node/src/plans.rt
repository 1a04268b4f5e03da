//! What the bytes of a header say, for a caller that reads no header.
ghost use Rattle.std.specs.Prelude.{◌≡◌};
ghost use Rattle.std.specs.Borrow.{Bor};
ghost use Rattle.gen_net.specs.Header.{RunHeader};
ghost use Rattle.sm_node.specs.Plans as plans;

use crate::faults::bytes_number;
use crate::headers::{SmNumbers, header_in};
use crate::told::NodeReply;
use gen_net::{Header, Version};
use gen_types::ReadError;
use std::alloc::Global;

/// Acts on the header that the bytes are, or tells the number of their fault.
pub(crate) fn with_header<F: FnMut(&Header)>(
    alloc: Global,
    bytes: &[u8],
    fault: &mut u32,
    act: &mut F,
) -> NodeReply
    requires { F.IsAlwaysCallable act.old }
    ensures { plans.TellsOf bytes.now
        (λ header. (shown : Bor RunHeader) × (shown.now ≡ header) × F.step act.old shown tt act.new)
        (act.new ≡ act.old) fault.new result }
{
    *fault = 0;
    match header_in(alloc, bytes) {
        Ok(header) => {
            act(&header);
            NodeReply::Done
        }
        Err(ReadError::Memory) => NodeReply::Memory,
        Err(ReadError::Fault(broken)) => {
            *fault = bytes_number(broken);
            NodeReply::Fault
        }
    }
}

/// Returns the numbers of a header.
pub(crate) fn numbers_of(header: &Header) -> SmNumbers
    ensures { result ≡ plans.numbers_of header.now }
{
    let net = header.net();
    SmNumbers {
        version: match header.version() {
            Version::One => 1,
            Version::Two { .. } => 2,
        },
        slot: header.slot(),
        generals: net.generals(),
        traitors: net.traitors(),
        diameter: net.diameter(),
        orders: net.orders(),
        choice: net.choice().number(),
    }
}
