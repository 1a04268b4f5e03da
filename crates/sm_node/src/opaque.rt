//! A node as a caller in C holds it: one pointer.
ghost use Rattle.std.specs.Prelude.{◌≡◌, Option, None, Some};
ghost use Rattle.std.specs.Borrow.{MutBor};
ghost use Rattle.std.specs.Option.{MatchOption};
ghost use Rattle.sm_node.specs.declared.held.NodeHandle.{NodeHandle};
ghost use Rattle.sm_node.specs.Owning.{node_owns};

use crate::held::NodeHandle;
use crate::loose::Loose;
use crate::told::NodeReply;
use std::alloc::Global;
use std::marker::{Model, Send};
use std::mem::replace;
use std::ptr::null_mut;

/// A node as a caller in C holds it. It is one pointer, which is null if nothing is held, and otherwise owns the box of
/// what is held.
#[repr(C)]
pub struct SmNode {
    at: *mut u8,
    pub ghost held: { Option NodeHandle },
}

impl Model for SmNode {
    ghost also_owns = { λ n. node_owns n.at n.held };
}

unsafe impl Send for SmNode {}

impl SmNode {
    /// Returns a node that holds nothing.
    fn empty() -> SmNode
        ensures { result.held ≡ None }
    {
        SmNode { at: null_mut() }
    }

    /// Returns a node that holds what the box has.
    fn of(loose: Loose<NodeHandle, Global>) -> SmNode
        ensures { result.held ≡ Some loose.value }
    {
        let Loose { at, alloc: _ } = loose;
        SmNode { at: at as *mut u8 }
    }

    /// Returns the box of what is held; None if nothing is.
    fn into_loose(self, alloc: Global) -> Option<Loose<NodeHandle, Global>>
        ensures { MatchOption result (self.held ≡ None) (λ l. self.held ≡ Some l.value) }
    {
        let SmNode { at } = self;
        if at.is_null() {
            None
        } else {
            Some(Loose {
                at: at as *mut NodeHandle,
                alloc,
            })
        }
    }

    /// Takes out what is held, so that nothing is; None if nothing was.
    pub(crate) fn take(&mut self, alloc: Global) -> Option<Box<NodeHandle>>
        ensures held { MatchOption result (self.old.held ≡ None) (λ b. self.old.held ≡ Some b.value) }
        ensures empty { self.new.held ≡ None }
    {
        let full = replace(self, SmNode::empty());
        match full.into_loose(alloc) {
            Some(loose) => Some(loose.into_box()),
            None => None,
        }
    }

    /// Puts in what is to be held. What was held before is dropped.
    pub(crate) fn put(&mut self, alloc: Global, place: Box<NodeHandle>)
        ensures { self.new.held ≡ Some place.value }
    {
        let before = replace(self, SmNode::of(Loose::of(place)));
        if let Some(loose) = before.into_loose(alloc) {
            loose.into_box().drop();
        }
    }

    /// Acts on what is held, and returns what the act answers; it is misuse if nothing is held.
    pub(crate) fn with_held<F: FnMut(&mut NodeHandle) -> NodeReply>(
        &mut self,
        alloc: Global,
        act: &mut F,
    ) -> NodeReply
        requires { F.IsAlwaysCallable act.old }
        ensures { MatchOption self.old.held
            ((result ≡ NodeReply.Misuse) × (self.new.held ≡ None) × (act.new ≡ act.old))
            (λ held. (shown : MutBor NodeHandle) × (left : MutBor NodeHandle) × (shown.now ≡ held)
            × F.step act.old shown result left act.new × (self.new.held ≡ Some left.now)) }
    {
        let Some(mut held) = self.take(alloc) else {
            return NodeReply::Misuse;
        };
        let told = act(&mut *held);
        self.put(alloc, held);
        told
    }
}
