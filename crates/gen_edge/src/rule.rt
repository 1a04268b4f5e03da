//! The rule of an edge's queue, and what the steps on it tell.
use crate::frames::Frame;
use crossbeam_queue::protocol::{Join, Lesson, Outcome, Protocol, Split};
use std::collections::LinkedList;
use std::marker::{Brand, PhantomData};

// What a pass may do, the frames of the run on this edge, how much the pass has put and taken, and how much
// it was told was taken and put. No value of this type is made.
pub struct PassView {
    pub puts: bool,
    pub takes: bool,
    pub frames: LinkedList<LinkedList<LinkedList<u8>>>,
    pub put: u64,
    pub gone_put: bool,
    pub freed: u64,
    pub taken: u64,
    pub gone_taken: bool,
    pub known: u64,
    pub known_gone: bool,
}

pub struct Tie;

impl Protocol<Frame, PassView> for Tie {
    ghost use Rattle.gen_edge.specs.Tied.{Tied, unopened};

    ghost holds = { Tied };

    ghost first = { unopened };
}

/// Names the frames of the run on an edge.
pub trait Naming {
    ghost use Rattle.std.specs.Prelude.{List};
    ghost use Rattle.gen_edge.specs.Frames.{Parcels};

    ghost frames: { List Parcels };
}

impl Naming for Brand {
    ghost use Rattle.std.specs.Prelude.{[]};

    ghost frames = { [] };
}

// Splits the first pass into a pass to put and a pass to take, both with the run's frames.
pub struct Opens<N> {
    named: PhantomData<N>,
}

impl<N: Naming> Split<PassView> for Opens<N> {
    ghost use Rattle.gen_edge.specs.Tied.{putter, taker};

    ghost left = { λ v. putter N.frames };

    ghost right = { λ v. taker N.frames };
}

pub struct Ends;

impl Join<PassView> for Ends {
    ghost use Rattle.gen_edge.specs.Tied.{both_sides, spent_side};

    ghost both = { both_sides };

    ghost spent = { spent_side };
}

// A pass to put tells how much was put.
pub struct TellsPuts;

impl Split<PassView> for TellsPuts {
    ghost use Rattle.gen_edge.specs.Tied.{news_of_puts};

    ghost left = { λ v. v };

    ghost right = { news_of_puts };
}

// A pass to take is told how much was put.
pub struct HearsPuts;

impl Join<PassView> for HearsPuts {
    ghost use Rattle.gen_edge.specs.Tied.{puts_heard, spent_side};

    ghost both = { puts_heard };

    ghost spent = { spent_side };
}

// A pass to take tells how many frames were taken.
pub struct TellsTakes;

impl Split<PassView> for TellsTakes {
    ghost use Rattle.gen_edge.specs.Tied.{news_of_takes};

    ghost left = { λ v. v };

    ghost right = { news_of_takes };
}

// A pass to put is told how many frames were taken.
pub struct HearsTakes;

impl Join<PassView> for HearsTakes {
    ghost use Rattle.gen_edge.specs.Tied.{spent_side, takes_heard};

    ghost both = { takes_heard };

    ghost spent = { spent_side };
}

pub struct Puts;

impl Outcome<Frame, PassView> for Puts {
    ghost use Rattle.gen_edge.specs.Tied.{PutsNext};

    ghost then = { PutsNext };
}

impl Lesson<Frame, PassView> for Puts {
    ghost use Rattle.gen_edge.specs.Tied.{PutsSee};

    ghost fact = { PutsSee };
}

pub struct Takes;

impl Outcome<Frame, PassView> for Takes {
    ghost use Rattle.gen_edge.specs.Tied.{TakesNext};

    ghost then = { TakesNext };
}

impl Lesson<Frame, PassView> for Takes {
    ghost use Rattle.gen_edge.specs.Tied.{TakesSee};

    ghost fact = { TakesSee };
}

// A take by one pass that has both sides.
pub struct Drains;

impl Outcome<Frame, PassView> for Drains {
    ghost use Rattle.gen_edge.specs.Tied.{TakesNext};

    ghost then = { TakesNext };
}

impl Lesson<Frame, PassView> for Drains {
    ghost use Rattle.gen_edge.specs.Tied.{Rests};

    ghost fact = { Rests };
}

// What one pass with both sides learns: what was put is what was taken, followed by what the queue holds.
pub struct Settles;

impl Lesson<Frame, PassView> for Settles {
    ghost use Rattle.gen_edge.specs.Tied.{Rests};

    ghost fact = { Rests };
}
