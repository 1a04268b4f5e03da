//! An edge with its two passes in one hand.
ghost use Rattle.std.specs.Prelude.{◌≡◌, ◌<◌};
ghost use Rattle.gen_scenario.specs.Rows.{rows_of};
ghost use Rattle.gen_edge.specs.Frames.{edge_frames};
ghost use Rattle.gen_edge.specs.Ends.{IsPutPassOf, IsTakePassOf, edge_capacity, put_view};

use crate::edge_frames::{Shape, are_left, put_last_told, put_next, take_told};
use gen_edge::{Edge, PutPass, TakePass};
use gen_scenario::Scenario;
use gen_types::GeneralNo;
use gen_world::{WorldRun, run_world};
use std::alloc::{AllocError, Global};
use std::sync::Wait;

/// A scenario and its run. One call lets them go.
pub(crate) struct Course {
    pub(crate) scenario: Scenario,
    pub(crate) run: WorldRun,
}

impl Drop for Course {
    fn drop(self) {
        let Course {
            scenario: _,
            run: _,
        } = self;
    }
}

/// An edge of a scenario, on which the frames of its run are put, with its passes.
#[derive(Drop)]
pub(crate) struct Lane {
    pub(crate) course: Course,
    pub(crate) way: (GeneralNo, GeneralNo),
    pub(crate) edge: Edge,
    pub(crate) capacity: usize,
    pub(crate) put: PutPass,
    pub(crate) take: TakePass,
    ghost run_of: { course.run.frames ≡ rows_of course.scenario },
    ghost holds: { capacity ≡ edge_capacity edge },
    ghost passes: { IsPutPassOf edge put × IsTakePassOf edge take },
    ghost frames: { (put_view put).frames ≡ edge_frames course.scenario way.0 way.1 },
}

impl Lane {
    /// The lane from one general of a scenario to another, which holds so many frames.
    pub(crate) fn new(
        alloc: Global,
        scenario: Scenario,
        way: (GeneralNo, GeneralNo),
        capacity: usize,
    ) -> Result<Lane, AllocError>
        requires { 0 < capacity }
    {
        let run = run_world(alloc, &scenario)?;
        let (edge, put, take) = Edge::new(alloc, &scenario, way.0, way.1, capacity)?;
        Ok(Lane {
            course: Course { scenario, run },
            way,
            edge,
            capacity,
            put,
            take,
        })
    }

    /// Tries to put the next frame. Whether it was put.
    pub(crate) fn put_next<R: Wait>(&mut self, rt: &R, alloc: Global) -> Result<bool, AllocError> {
        put_next(
            rt,
            alloc,
            &self.course.scenario,
            &self.course.run,
            self.way,
            &self.edge,
            &mut self.put,
        )
    }

    /// Tells both, and puts the last word where there is room. Whether it was put.
    pub(crate) fn put_last_told<R: Wait>(&mut self, rt: &R) -> bool {
        put_last_told(rt, &self.edge, self.capacity, &mut self.put, &mut self.take)
    }

    /// Tells both, and takes what is known.
    pub(crate) fn take_told<R: Wait>(&mut self, rt: &R) -> Option<Shape> {
        take_told(rt, &self.edge, &mut self.put, &mut self.take)
    }

    /// Whether this is left in the end.
    pub(crate) fn leaves<R: Wait>(self, rt: &R, wanted: &[Shape]) -> bool {
        let Lane {
            edge,
            put,
            take,
            ..
        } = self;
        are_left(&edge.settle(rt, put, take), wanted)
    }
}
