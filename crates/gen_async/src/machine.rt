//! The machine.
ghost use Rattle.std.specs.Prelude.{ℕ, List, ◌≡◌, ◌<◌, ◌≤◌, ◌+◌, ◌*◌, [], map, replicate, slice_get};
ghost use Rattle.std.specs.Prelude.{Some, None, option_map, IfOk, OnOk, OnErr};
ghost use Rattle.std.specs.List.{flat_map};
ghost use Rattle.gen_log.specs.Entry.{entry_spelling};
ghost use Rattle.gen_scenario.specs.Rows.{logs_of_all};
ghost use Rattle.gen_scenario.specs.AllAre.{AllAre};
ghost use Rattle.gen_scenario.specs.SignedWorld.{frame_at};
ghost use Rattle.gen_async.specs.declared.acts.Act.TheVariants.{Puts, Takes};
ghost use Rattle.gen_async.specs.Laws.{AllDone, AreActs, MoverNames};
ghost use Rattle.gen_async.specs.Frames.{queue};
ghost use Rattle.gen_async.specs.Logs.{log_so_far};
ghost use Rattle.gen_async.specs.LogSoFar.{BeginsFirstLog, IsFirstLog, decide_at, with_last};
ghost use Rattle.gen_async.specs.ScenarioRun.{written_by};
ghost use Rattle.gen_async.specs.Machine.{answer, at_start, has_moved, mover, next_act, queued};
ghost use Rattle.gen_async.specs.Running.{Answers, AreDone, RunsTo, RunsPartly, logs_at};

use crate::actors::Actor;
use crate::acts::{Act, Moved};
use crate::frames::Frame;
use crate::played::Played;
use gen_log::{Entry, SealedLog};
use gen_scenario::Scenario;
use gen_script::Parcel;
use gen_types::GeneralNo;
use gen_types::limits::MOST_GENERALS;
use std::alloc::{AllocError, Global};
use std::collections::VecDeque;
use std::marker::Model;

/// The number of queues of a sender, one to each general of the largest network.
const GENERALS: usize = MOST_GENERALS as usize;

/// The number of queues of all senders.
const QUEUES: usize = GENERALS * GENERALS;

/// The generals of a scenario, which put frames on queues and take them off, one act at a time, in any order.
///
/// A contract sees the scenario, the capacity of each queue, and how many acts of each general have moved:
/// what the queues hold and what has been written follows from these. Generals may hold rings, so a machine
/// has to be ended by `finish` or `close`.
pub struct Machine {
    scenario: Played,
    capacity: usize,
    actors: Vec<Actor>,
    queues: Vec<VecDeque<Frame>>,
}

impl Model for Machine {
    ghost use Rattle.std.specs.Prelude.{map};
    ghost use Rattle.gen_async.specs.Running.{Machine, IsKept, progress_of};

    ghost Value = { Machine };

    ghost view = { λ m. record {
      scenario = m.scenario;
      capacity = m.capacity;
      progress = progress_of m.actors.items;
    } };

    ghost invariant = { λ m. IsKept m.scenario m.capacity (progress_of m.actors.items) m.actors.items
        (map (λ queue. queue.items) m.queues.items) };
}

/// Returns the index of a general in the list of generals.
fn index_of(general: GeneralNo) -> usize
    ensures { result ≡ general }
{
    usize::from(general.get())
}

/// Returns the index of the queue from one general to another in the list of queues, which has 16 for each
/// sender.
fn spot(from: GeneralNo, to: GeneralNo) -> usize
    ensures value { result ≡ from * 16 + to }
    ensures below { result < 256 }
{
    index_of(from) * GENERALS + index_of(to)
}

/// Makes all generals of a scenario, none of whose acts has moved.
fn add_actors(alloc: Global, scenario: &Scenario, actors: &mut Vec<Actor>) -> Result<(), AllocError>
    requires { actors.old.items ≡ [] }
    ensures { OnOk result (AllAre (λ g actor. actor ≡ record { scenario = scenario.now; me = g; progress = 0 })
        scenario.now.net.generals actors.new.items) }
{
    let generals = scenario.header().net().generals();
    actors.reserve(usize::from(generals))?;
    'generals: for number in 0..generals {
        let actor = Actor::new(alloc, scenario, GeneralNo::at(number))?;
        actors.push(actor).unwrap();
    }
    Ok(())
}

/// Ends all generals, and closes their rings.
fn close_all(mut actors: Vec<Actor>) {
    while let Some(actor) = actors.pop() {
        actor.close();
    }
    actors.destroy_empty();
}

/// Ends all generals one after another, and returns their logs. If memory is refused, the generals that have
/// not ended stay in the list.
fn finish_all(alloc: Global, actors: &mut Vec<Actor>) -> Result<Vec<SealedLog>, AllocError>
    requires { AreDone actors.old.items }
    ensures { IfOk result (λ logs. logs.items ≡ flat_map logs_at actors.old.items) }
{
    let mut logs = Vec::new(alloc);
    actors.reverse();
    while let Some(actor) = actors.pop() {
        actor.finish(alloc, &mut logs)?;
    }
    Ok(logs)
}

impl Machine {
    /// Returns a machine in which no act has moved, with queues of this capacity.
    ///
    /// # Errors
    ///
    /// `AllocError` if memory is refused.
    pub fn new(alloc: Global, scenario: &Scenario, capacity: usize) -> Result<Machine, AllocError>
        ensures { IfOk result (λ machine. machine
            ≡ record { scenario = scenario.now; capacity = capacity; progress = at_start scenario.now.net }) }
    {
        let _lawful = scenario.header();
        let played = Played::of(scenario)?;
        let mut queues = Vec::with_capacity(alloc, QUEUES)?;
        'queues: for _ in 0..QUEUES {
            queues.push(VecDeque::new(alloc))?;
        }
        let mut actors = Vec::new(alloc);
        if add_actors(alloc, scenario, &mut actors).is_err() {
            close_all(actors);
            return Err(AllocError);
        }
        Ok(Machine {
            scenario: played,
            capacity,
            actors,
            queues,
        })
    }

    /// Makes an attempt of a general at its next act, which must be a put to this neighbour.
    fn put(&mut self, alloc: Global, me: GeneralNo, to: GeneralNo) -> Result<Moved, AllocError>
        requires next { (l : ℕ) × (next_act self.old.scenario.net self.old.progress me ≡ Some (Puts l to)) }
        requires below { me < self.old.scenario.net.generals }
        ensures ok { IfOk result (λ moved. Answers self.old me moved self.new) }
        ensures err { OnErr result (self.new ≡ self.old) }
    {
        let queue = &mut self.queues[spot(me, to)];
        if queue.len() >= self.capacity {
            return Ok(Moved::Blocked);
        }
        queue.reserve(1)?;
        let frame = self.actors[index_of(me)].put(alloc, to)?;
        queue.push_back_reserved(frame);
        Ok(Moved::Put)
    }

    /// Makes an attempt of a general at its next act, which must be a take from this neighbour.
    fn take(&mut self, alloc: Global, me: GeneralNo, from: GeneralNo) -> Result<Moved, AllocError>
        requires next { (l : ℕ) × (next_act self.old.scenario.net self.old.progress me ≡ Some (Takes l from)) }
        requires below { me < self.old.scenario.net.generals }
        ensures ok { IfOk result (λ moved. Answers self.old me moved self.new) }
        ensures err { OnErr result (self.new ≡ self.old) }
    {
        let queue = &mut self.queues[spot(from, me)];
        let Some(frame) = queue.front() else {
            return Ok(Moved::Blocked);
        };
        self.actors[index_of(me)].take(alloc, from, frame)?;
        let _ = queue.pop_front();
        Ok(Moved::Took)
    }

    /// Makes one attempt of a general at its next act, and returns the answer to it.
    ///
    /// # Errors
    ///
    /// `AllocError` if memory is refused: then nothing has changed, and the next attempt gives what this one
    /// would have given.
    pub fn act(&mut self, alloc: Global, me: GeneralNo) -> Result<Moved, AllocError>
        requires below { me < self.old.scenario.net.generals }
        ensures ok { IfOk result (λ moved. Answers self.old me moved self.new) }
        ensures err { OnErr result (self.new ≡ self.old) }
    {
        let Some(next) = self.actors[index_of(me)].next() else {
            return Ok(Moved::Done);
        };
        match &next {
            Act::Puts(_, to) => self.put(alloc, me, *to),
            Act::Takes(_, from) => self.take(alloc, me, *from),
        }
    }

    /// Makes the attempts of these generals, one after another.
    ///
    /// # Errors
    ///
    /// `AllocError` if memory is refused: then the attempts before that one have been made.
    pub fn run_acts(&mut self, alloc: Global, acts: &[GeneralNo]) -> Result<(), AllocError>
        requires below { AreActs self.old.scenario.net acts.now }
        ensures ok { OnOk result (RunsTo self.old acts.now self.new) }
        ensures err { OnErr result (RunsPartly self.old acts.now self.new) }
    {
        'acts: for me in acts {
            if self.act(alloc, *me).is_err() {
                return Err(AllocError);
            }
        }
        Ok(())
    }

    /// Whether the next act of a general would move.
    fn would_move(&self, me: GeneralNo) -> bool
        requires below { me < self.now.scenario.net.generals }
        ensures { result ≡ has_moved (answer self.now.scenario.net self.now.capacity self.now.progress me) }
    {
        let Some(next) = self.actors[index_of(me)].next() else {
            return false;
        };
        match &next {
            Act::Puts(_, to) => self.queues[spot(me, *to)].len() < self.capacity,
            Act::Takes(_, from) => self.queues[spot(*from, me)].len() > 0,
        }
    }

    /// Returns the first general whose next act would move. There is one until all generals are done, unless
    /// the capacity is 0.
    pub fn mover(&self) -> Option<GeneralNo>
        ensures first { result ≡ mover self.now.scenario.net self.now.capacity self.now.progress }
        ensures names { 1 ≤ self.now.capacity
            → MoverNames self.now.scenario.net self.now.capacity self.now.progress result }
    {
        'generals: for number in 0..self.actors.len() as u8 {
            let me = GeneralNo::at(number);
            if self.would_move(me) {
                return Some(me);
            }
        }
        None
    }

    /// Returns the number of generals.
    pub fn generals(&self) -> u8
        ensures { result ≡ self.now.scenario.net.generals }
    {
        self.actors.len() as u8
    }

    /// Returns the number of frames that a queue may hold.
    pub fn capacity(&self) -> usize
        ensures { result ≡ self.now.capacity }
    {
        self.capacity
    }

    /// Returns the log of a general so far: the bytes of the entries that it has written by the acts that
    /// have moved, START first, and the DECIDE entry behind them. DECIDE is there once all acts of the
    /// general have moved, which holds from the start for a general without neighbours. No memory is asked
    /// for. DECIDE is found by reading through the bytes.
    ///
    /// The bytes of both are those of the entries of the steps that stand (`value`). They begin those of the
    /// general's first log in the run (`begins`), and are all of them once the general has no act left
    /// (`whole`).
    pub fn log_so_far(&self, me: GeneralNo) -> (&[u8], Option<Entry>)
        requires below { me < self.now.scenario.net.generals }
        ensures value { with_last result.0.now result.1 ≡ flat_map entry_spelling
            (log_so_far self.now.scenario.net (written_by self.now.scenario) self.now.progress me) }
        ensures decide { result.1 ≡ decide_at self.now.scenario me
            (next_act self.now.scenario.net self.now.progress me) }
        ensures begins { BeginsFirstLog self.now.scenario me (with_last result.0.now result.1) }
        ensures whole { next_act self.now.scenario.net self.now.progress me ≡ None
            → IsFirstLog self.now.scenario me (with_last result.0.now result.1) }
    {
        let actor = &self.actors[index_of(me)];
        let written = actor.log_so_far();
        let last = self.scenario.decide(actor.next(), me, written);
        (written, last)
    }

    /// Returns the number of frames that wait on the queue from one general to another.
    pub fn queued(&self, from: GeneralNo, to: GeneralNo) -> usize
        ensures { result ≡ queued self.now.scenario.net self.now.progress from to }
    {
        self.queues[spot(from, to)].len()
    }

    /// Returns the parcels of a frame that waits on the queue from one general to another, where the front
    /// has index 0, or none if fewer frames wait. The frames are those of the scenario's run, from the number
    /// taken plus one up to the number put, in order.
    pub fn frame_queued(&self, from: GeneralNo, to: GeneralNo, index: usize) -> Option<&[Parcel]>
        ensures { option_map (λ parcels. parcels.now) result
            ≡ slice_get (queue self.now.scenario.net (frame_at self.now.scenario) self.now.progress from to)
            index }
    {
        match self.queues[spot(from, to)].get(index) {
            Some(frame) => Some(frame.parcels()),
            None => None,
        }
    }

    /// Ends a machine in which no general has an act left, and returns the logs of the run: those of all
    /// generals, in ascending order of generals, a second log behind the first. All rings are closed, also if
    /// memory is refused.
    ///
    /// # Errors
    ///
    /// `AllocError` if memory is refused.
    pub fn finish(self, alloc: Global) -> Result<Vec<SealedLog>, AllocError>
        requires done { AllDone self.scenario.net self.progress }
        ensures { IfOk result (λ logs. logs.items ≡ logs_of_all self.scenario) }
    {
        let Machine {
            scenario: _,
            capacity: _,
            mut actors,
            queues: _,
        } = self;
        let logs = finish_all(alloc, &mut actors);
        close_all(actors);
        logs
    }

    /// Ends the machine, and closes all rings.
    pub fn close(self) {
        let Machine {
            scenario: _,
            capacity: _,
            actors,
            queues: _,
        } = self;
        close_all(actors);
    }
}
