//! Makes keys for C, and nodes of them.
ghost use Rattle.sm_node.specs.Starting as starting;

use crate::faults::StartFault;
use crate::headers::header_in;
use crate::held::{NodeHandle, SlotKeys};
use crate::opaque::SmNode;
use crate::told::NodeReply;
use gen_node::{Node, NodeFault};
use gen_tree::KeyTree;
use gen_types::limits::MOST_GENERALS;
use gen_types::{GeneralNo, OrderNo, ReadError, TreeHeight};
use std::alloc::Global;

/// The numbers of generals are below this. So are those of orders.
pub(crate) const NUMBERS: u32 = MOST_GENERALS as u32;

/// The number for a general that has no order, and for an order that isn't told.
pub(crate) const NO_ORDER: u32 = 255;

/// Makes the keys of a seed, for headers of this version, in a place that holds nothing, and writes their root.
pub(crate) fn make_keys(
    alloc: Global,
    place: &mut SmNode,
    seed: &[u8; 32],
    version: u32,
    root: &mut [u8; 32],
) -> NodeReply
    ensures { starting.MakesKeys seed.now version place.old.held place.new.held root.old root.new result }
{
    let height = match version {
        1 => TreeHeight::Four,
        2 => TreeHeight::Six,
        _ => return NodeReply::Misuse,
    };
    if let Some(held) = place.take(alloc) {
        place.put(alloc, held);
        return NodeReply::Misuse;
    }
    let Ok(mut made) = Box::new(alloc, NodeHandle::Empty) else {
        return NodeReply::Memory;
    };
    match KeyTree::from_seed(alloc, seed, height) {
        Ok(tree) => {
            *root = tree.root();
            *made = NodeHandle::Keys(SlotKeys { tree, least: 0 });
            place.put(alloc, made);
            NodeReply::Done
        }
        Err(_) => NodeReply::Memory,
    }
}

/// Returns the node of a header's bytes, a general, its keys and its order. The keys then serve later slots alone.
fn node_of(
    alloc: Global,
    bytes: &[u8],
    general: GeneralNo,
    keys: &mut SlotKeys,
    own: Option<OrderNo>,
) -> Result<Node, ReadError<StartFault>>
    ensures { starting.StartsNode bytes.now general keys.old own keys.new result }
{
    let header = match header_in(alloc, bytes) {
        Ok(header) => header,
        Err(ReadError::Memory) => return Err(ReadError::Memory),
        Err(ReadError::Fault(fault)) => return Err(ReadError::Fault(StartFault::Header(fault))),
    };
    let slot = header.slot();
    if slot < keys.least {
        return Err(ReadError::Fault(StartFault::UsedSlot));
    }
    match Node::new(alloc, header, general, &keys.tree, own) {
        Ok(node) => {
            keys.least = slot + 1;
            Ok(node)
        }
        Err(NodeFault::OtherHeight) => Err(ReadError::Fault(StartFault::OtherVersion)),
        Err(NodeFault::NoGeneral) => Err(ReadError::Fault(StartFault::NoGeneral)),
        Err(NodeFault::OtherRoot) => Err(ReadError::Fault(StartFault::OtherRoot)),
        Err(NodeFault::Memory) => Err(ReadError::Memory),
    }
}

impl NodeHandle {
    /// Makes a node of the keys that are held, of a header's bytes, a general and its order.
    fn start(
        &mut self,
        alloc: Global,
        node: &mut SmNode,
        bytes: &[u8],
        general: GeneralNo,
        own: Option<OrderNo>,
        fault: &mut u32,
    ) -> NodeReply
        ensures { starting.StartsOf bytes.now general own (Some self.old) (Some self.new)
            node.old.held node.new.held fault.new result }
    {
        *fault = 0;
        let NodeHandle::Keys(keys) = self else {
            return NodeReply::Misuse;
        };
        let Ok(mut place) = Box::new(alloc, NodeHandle::Empty) else {
            return NodeReply::Memory;
        };
        match node_of(alloc, bytes, general, keys, own) {
            Ok(made) => {
                *place = NodeHandle::Running(made);
                node.put(alloc, place);
                NodeReply::Done
            }
            Err(ReadError::Memory) => NodeReply::Memory,
            Err(ReadError::Fault(broken)) => {
                *fault = broken.number();
                NodeReply::Fault
            }
        }
    }
}

/// Makes a node of a header's bytes, a general, its keys and its order, in a place that holds nothing.
pub(crate) fn start(
    alloc: Global,
    node: &mut SmNode,
    bytes: &[u8],
    general: u32,
    keys: &mut SmNode,
    order: u32,
    fault: &mut u32,
) -> NodeReply
    ensures { starting.Starts bytes.now general order keys.old.held keys.new.held
        node.old.held node.new.held fault.new result }
{
    *fault = 0;
    if general >= NUMBERS || order >= NUMBERS && order != NO_ORDER {
        return NodeReply::Misuse;
    }
    if let Some(held) = node.take(alloc) {
        node.put(alloc, held);
        return NodeReply::Misuse;
    }
    let general = GeneralNo::at(general as u8);
    let own = if order == NO_ORDER {
        None
    } else {
        Some(OrderNo::at(order as u8))
    };
    let Some(mut held) = keys.take(alloc) else {
        return NodeReply::Misuse;
    };
    let told = held.start(alloc, node, bytes, general, own, fault);
    keys.put(alloc, held);
    told
}
