//! Calls of an edge that are tried until they do something. Between tries a general sleeps until something is
//! put on the edge or taken from it. With more generals than cores, a general that looks again and again
//! would take time from those that work. Every act on an edge wakes the general that waits for it.
ghost use Rattle.std.specs.Prelude.{◌≡◌};
ghost use Rattle.gen_edge.specs.Ends.{IsPutPassOf, IsTakePassOf, put_view, take_view};
ghost use Rattle.gen_edge.specs.Frames.{carried};
ghost use Rattle.gen_edge.specs.Tied.{ComesNext, TakesNext, after_put};

use gen_edge::{Edge, Frame, PutPass, TakePass};
use std::sync::Wait;

/// Puts a frame, which must be the next of the run or the last word. It tries, and sleeps, until the edge has
/// room.
pub(crate) fn put_frame<R: Wait>(rt: &R, edge: &Edge, pass: &mut PutPass, frame: Frame)
    requires pass { IsPutPassOf edge.now pass.old }
    requires next { let v = put_view pass.old in ComesNext v.frames v.put v.gone_put (carried frame) }
    ensures pass { IsPutPassOf edge.now pass.new }
    ensures put { put_view pass.new ≡ after_put (put_view pass.old) (carried frame) }
{
    let mut held = frame;
    for _ in rt.forever() {
        let moved = edge.prepare_wait();
        match edge.try_put(rt, pass, held) {
            Ok(()) => return,
            Err(back) => held = back,
        }
        moved.wait(rt);
    }
    unreachable!()
}

/// Takes the first frame or word of the edge. It tries, and sleeps, until there is one.
pub(crate) fn take_frame<R: Wait>(rt: &R, edge: &Edge, pass: &mut TakePass) -> Frame
    requires { IsTakePassOf edge.now pass.old }
    ensures pass { IsTakePassOf edge.now pass.new }
    ensures taken { TakesNext (take_view pass.old) result (take_view pass.new) }
{
    for _ in rt.forever() {
        let moved = edge.prepare_wait();
        if let Some(frame) = edge.try_take(rt, pass) {
            return frame;
        }
        moved.wait(rt);
    }
    unreachable!()
}
