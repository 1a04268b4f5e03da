//! The calls of an edge.
ghost use Rattle.std.specs.Prelude.{◌≡◌, ◌<◌, ◌≤◌, ◌+◌, ◌++◌, [], None, Ok, map, true, length, IfOk, IsSome, MatchOption, MatchResult};
ghost use Rattle.gen_edge.specs.Frames.{carried, row, edge_frames};
ghost use Rattle.gen_edge.specs.Tied.{ComesNext, TakesNext, after_put, putter, putter_told, taker, taker_told};
ghost use Rattle.gen_edge.specs.Ends.{IsPutPassOf, IsTakePassOf, put_view, take_view, edge_capacity, PutsWithin, TakesWithin, WasFull, WasEmpty, KnowsOfMore, KnowsOfRoom};

use crate::frames::Frame;
use crate::passes::{Edge, Left, Line, PutPass, TakePass};
use crate::rule::{
    Drains, Ends, HearsPuts, HearsTakes, Naming, Opens, Puts, Settles, Takes, TellsPuts, TellsTakes,
};
use crossbeam_utils::sync::{EventCount, Key};
use gen_scenario::Scenario;
use gen_types::GeneralNo;
use std::alloc::{AllocError, Global};
use std::marker::Brand;
use std::sync::Wait;

impl Edge {
    /// Returns the edge of a scenario's network from one general to a neighbour, the pass to put on it, and
    /// the pass to take from it. The edge has room for this many frames, which must be at least one. Nothing
    /// is put yet.
    ///
    /// # Errors
    ///
    /// `AllocError` if memory is refused.
    pub fn new(
        alloc: Global,
        scenario: &Scenario,
        from: GeneralNo,
        to: GeneralNo,
        capacity: usize,
    ) -> Result<(Edge, PutPass, TakePass), AllocError>
        requires { 0 < capacity }
        ensures passes { IfOk result (λ r. IsPutPassOf r.0 r.1 × IsTakePassOf r.0 r.2) }
        ensures capacity { IfOk result (λ r. edge_capacity r.0 ≡ capacity) }
        ensures put { IfOk result (λ r. put_view r.1 ≡ putter (edge_frames scenario.now from to)) }
        ensures taken { IfOk result (λ r. take_view r.2 ≡ taker (edge_frames scenario.now from to)) }
    {
        open::<Brand>(alloc, scenario, from, to, capacity)
    }

    /// Puts the next frame of the run on this edge, or the word that no more comes. That word must not have
    /// been put before. It is one step on the queue, which may try again, and takes no memory.
    ///
    /// # Errors
    ///
    /// The frame, with nothing put. This happens only if the queue was full at one moment of the call. It
    /// never happens if the pass was told of enough frames taken to know that there is room.
    pub fn try_put<R: Wait>(&self, rt: &R, pass: &mut PutPass, frame: Frame) -> Result<(), Frame>
        requires pass { IsPutPassOf self.now pass.old }
        requires next { let v = put_view pass.old in ComesNext v.frames v.put v.gone_put (carried frame) }
        ensures pass { IsPutPassOf self.now pass.new }
        ensures rule { MatchResult result
            (λ _. put_view pass.new ≡ after_put (put_view pass.old) (carried frame))
            (λ x. (x ≡ frame) × (put_view pass.new ≡ put_view pass.old) × WasFull self.now pass.old) }
        ensures room { KnowsOfRoom self.now pass.old → result ≡ Ok tt }
        ensures within { PutsWithin pass.new }
    {
        let number = frame.number();
        self.line.push_as::<Puts, R>(rt, &mut pass.pass, frame)?;
        match number {
            Some(number) => pass.put = number,
            None => pass.gone = true,
        }
        self.moved.notify_one();
        Ok(())
    }

    /// Takes the first thing on this edge: the frame of the run behind the last one taken, or the word that
    /// no more comes, behind which nothing comes. It is one step on the queue, which may try again, and takes
    /// no memory. It returns None only if the queue was empty at one moment of the call, and never if the
    /// pass was told of something that it has not taken.
    pub fn try_take<R: Wait>(&self, rt: &R, pass: &mut TakePass) -> Option<Frame>
        requires { IsTakePassOf self.now pass.old }
        ensures pass { IsTakePassOf self.now pass.new }
        ensures rule { MatchOption result
            ((take_view pass.new ≡ take_view pass.old) × WasEmpty pass.old)
            (λ x. TakesNext (take_view pass.old) x (take_view pass.new)) }
        ensures told { KnowsOfMore pass.old → IsSome result }
        ensures ended { (take_view pass.old).gone_taken ≡ true → result ≡ None }
        ensures within { TakesWithin pass.new }
    {
        let frame = self.line.pop_as::<Takes, R>(rt, &mut pass.pass)?;
        match frame.number() {
            Some(number) => pass.taken = number,
            None => pass.gone = true,
        }
        self.moved.notify_one();
        Some(frame)
    }

    /// Announces that the caller is going to wait for the next step on this edge. The caller then has to look
    /// once more for what it waits for, room or a frame, before it waits with the key. The wait ends once
    /// anything is put on the edge or taken from it. So a general that waits sleeps, and no step is missed.
    pub fn prepare_wait(&self) -> Key<'_> {
        self.moved.prepare_wait()
    }

    /// Tells the pass to take how many frames were put until now and whether the last word was, and tells the
    /// pass to put how many frames were taken. It is for a caller that holds both passes, before threads
    /// start or after they were joined.
    ///
    /// From then on no take returns None until all of this was taken. No put gives its frame back until the
    /// number of frames that were put is the number that were taken until now plus the capacity of the edge.
    /// It changes nothing on the edge, and takes no memory.
    pub fn tell(&self, put: &mut PutPass, take: &mut TakePass)
        requires { IsPutPassOf self.now put.old × IsTakePassOf self.now take.old }
        ensures passes { IsPutPassOf self.now put.new × IsTakePassOf self.now take.new }
        ensures put { put_view put.new ≡ putter_told (put_view put.old) (take_view take.old) }
        ensures taken { take_view take.new ≡ taker_told (take_view take.old) (put_view put.old) }
    {
        let puts = self.line.another::<TellsPuts>(&mut put.pass);
        self.line.absorb::<HearsPuts>(&mut take.pass, puts);
        let takes = self.line.another::<TellsTakes>(&mut take.pass);
        self.line.absorb::<HearsTakes>(&mut put.pass, takes);
    }

    /// Ends an edge, and returns what is left on it: what was put is what was taken, followed by what is
    /// left. It takes no memory.
    pub fn settle<R: Wait>(self, rt: &R, put: PutPass, take: TakePass) -> Left
        requires { IsPutPassOf self put × IsTakePassOf self take }
        ensures left { let p = put_view put in let t = take_view take in
            row p.frames p.put p.gone_put
            ≡ row p.frames t.taken t.gone_taken ++ map carried result.frames.items }
        ensures ended { (take_view take).gone_taken ≡ true → result.frames.items ≡ [] }
        ensures few { length result.frames.items ≤ edge_capacity self }
    {
        let Edge { line, mut room, .. } = self;
        let PutPass { mut pass, .. } = put;
        let TakePass { pass: other, .. } = take;
        line.absorb::<Ends>(&mut pass, other);
        let count = line.len_as::<Settles, R>(rt, &mut pass);
        'left: for _done in 0..count {
            match line.pop_as::<Drains, R>(rt, &mut pass) {
                Some(frame) => room.push_reserved(frame),
                None => return Left { frames: room },
            }
        }
        line.learn_as::<Settles>(&mut pass);
        Left { frames: room }
    }
}

/// Returns an edge with its passes, over which the frames of the run that `N` names go.
fn open<N: Naming>(
    alloc: Global,
    scenario: &Scenario,
    from: GeneralNo,
    to: GeneralNo,
    capacity: usize,
) -> Result<(Edge, PutPass, TakePass), AllocError>
    requires capacity { 0 < capacity }
    requires frames { N.frames ≡ edge_frames scenario.now from to }
    ensures passes { IfOk result (λ r. IsPutPassOf r.0 r.1 × IsTakePassOf r.0 r.2) }
    ensures capacity { IfOk result (λ r. edge_capacity r.0 ≡ capacity) }
    ensures put { IfOk result (λ r. put_view r.1 ≡ putter N.frames) }
    ensures taken { IfOk result (λ r. take_view r.2 ≡ taker N.frames) }
{
    let room = Vec::with_capacity(alloc, capacity)?;
    let (line, mut pass) = Line::ruled(alloc, capacity)?;
    let other = line.another::<Opens<N>>(&mut pass);
    let put = PutPass {
        pass,
        put: 0,
        gone: false,
    };
    let take = TakePass {
        pass: other,
        taken: 0,
        gone: false,
    };
    let moved = EventCount::new();
    Ok((Edge { line, room, moved }, put, take))
}
