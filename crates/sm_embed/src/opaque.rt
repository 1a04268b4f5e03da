//! An answer as a caller in C holds it: one pointer.
ghost use Rattle.std.specs.Prelude.{◌≡◌, Option, None, Some};
ghost use Rattle.std.specs.Option.{MatchOption};
ghost use Rattle.sm_embed.specs.declared.kept.Kept.{Kept};
ghost use Rattle.sm_embed.specs.Owning.{answer_owns};

use crate::kept::Kept;
use crate::loose::Loose;
use std::alloc::Global;
use std::marker::{Model, Send};
use std::mem::replace;
use std::ptr::null_mut;

/// An answer as a caller in C holds it. It is one pointer, which is null if nothing is held, and otherwise owns the box
/// of what is held.
#[repr(C)]
pub struct SmAnswer {
    at: *mut u8,
    pub ghost held: { Option Kept },
}

impl Model for SmAnswer {
    ghost also_owns = { λ n. answer_owns n.at n.held };
}

unsafe impl Send for SmAnswer {}

impl SmAnswer {
    /// Returns an answer that holds nothing.
    fn empty() -> SmAnswer
        ensures { result.held ≡ None }
    {
        SmAnswer { at: null_mut() }
    }

    /// Returns an answer that holds what the box has.
    fn of(loose: Loose<Kept, Global>) -> SmAnswer
        ensures { result.held ≡ Some loose.value }
    {
        let Loose { at, alloc: _ } = loose;
        SmAnswer { at: at as *mut u8 }
    }

    /// Returns the box of what is held; None if nothing is.
    fn into_loose(self, alloc: Global) -> Option<Loose<Kept, Global>>
        ensures { MatchOption result (self.held ≡ None) (λ l. self.held ≡ Some l.value) }
    {
        let SmAnswer { at } = self;
        if at.is_null() {
            None
        } else {
            Some(Loose {
                at: at as *mut Kept,
                alloc,
            })
        }
    }

    /// Takes out what is held, so that nothing is; None if nothing was.
    pub(crate) fn take(&mut self, alloc: Global) -> Option<Box<Kept>>
        ensures held { MatchOption result (self.old.held ≡ None) (λ b. self.old.held ≡ Some b.value) }
        ensures empty { self.new.held ≡ None }
    {
        let full = replace(self, SmAnswer::empty());
        match full.into_loose(alloc) {
            Some(loose) => Some(loose.into_box()),
            None => None,
        }
    }

    /// Puts in what is to be held. What was held before is dropped.
    pub(crate) fn put(&mut self, alloc: Global, place: Box<Kept>)
        ensures { self.new.held ≡ Some place.value }
    {
        let before = replace(self, SmAnswer::of(Loose::of(place)));
        if let Some(loose) = before.into_loose(alloc) {
            loose.into_box().drop();
        }
    }

    /// Drops what is held, so that nothing is.
    pub(crate) fn clear(&mut self, alloc: Global)
        ensures { self.new.held ≡ None }
    {
        if let Some(kept) = self.take(alloc) {
            kept.drop();
        }
    }
}
