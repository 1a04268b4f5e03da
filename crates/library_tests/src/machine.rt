//! Two generals, a line of four, and a ring of six in which one sends nothing, by the machine: so many acts
//! move, in whichever order, and the logs are those of the run.
use crate::scenarios::{LINE, PAIR, SILENT, are_same, logs_of_run, stage_of};
use gen_async::{Machine, Moved};
use gen_log::SealedLog;
use gen_scenario::Scenario;
use gen_types::GeneralNo;
use rand_chacha::ChaCha20Rng;
use rand_core::SeedableRng;
use rand_core::utils::NextWord;
use std::alloc::{AllocError, Global};
use std::test::Fail;

/// A machine that is closed where it is dropped.
struct Held {
    machine: Machine,
}

impl Drop for Held {
    fn drop(self) {
        let Held { machine } = self;
        machine.close();
    }
}

impl Held {
    /// The logs of a machine that has ended, none where somebody can still act.
    fn into_logs(self, alloc: Global) -> Result<Vec<SealedLog>, AllocError> {
        let Held { machine } = self;
        if machine.capacity() == 0 || machine.mover().is_some() {
            machine.close();
            return Ok(Vec::new(alloc));
        }
        machine.finish(alloc)
    }
}

/// Who makes the next attempt.
#[derive(Clone, Copy)]
enum Turn {
    /// The first general whose act would move.
    Mover,
    /// The general that a generator draws, whose seed has this byte 32 times.
    Drawn(u8),
}

/// Lets whoever can act until nobody can, and at most so often, and returns how many acts moved.
fn moves_of_movers(alloc: Global, machine: &mut Machine, most: u32) -> Result<u32, AllocError> {
    for moved in 0..most {
        match machine.mover() {
            Some(me) if me.get() < machine.generals() => machine.run_acts(alloc, &[me])?,
            _ => return Ok(moved),
        }
    }
    Ok(most)
}

/// Lets general after general make an attempt, so often as is said, and returns how many acts moved.
fn moves_of_drawn(
    alloc: Global,
    machine: &mut Machine,
    seed: u8,
    attempts: u32,
) -> Result<u32, AllocError> {
    let mut words = ChaCha20Rng::from_seed([seed; 32]);
    let mut moved = 0u32;
    for _ in 0..attempts {
        let me = GeneralNo::at((words.next_word() % 16) as u8);
        if me.get() < machine.generals() {
            match machine.act(alloc, me)? {
                Moved::Put | Moved::Took => moved = moved.saturating_add(1),
                Moved::Blocked | Moved::Done => {}
            }
        }
    }
    Ok(moved)
}

/// Scenarios' texts, each with how many acts move in its run: four for each edge and round.
const RUNS: [(&[u8], u32); 3] = [(PAIR, 4), (LINE, 36), (SILENT, 120)];

/// Whether so many acts move at this capacity by these turns, and the logs are these.
fn is_the_same(
    alloc: Global,
    scenario: &Scenario,
    (capacity, turn): (usize, Turn),
    acts: u32,
    wanted: &[SealedLog],
) -> Result<bool, AllocError> {
    let machine = Machine::new(alloc, scenario, capacity)?;
    let mut held = Held { machine };
    let moved = match turn {
        Turn::Mover => moves_of_movers(alloc, &mut held.machine, 8_000)?,
        Turn::Drawn(seed) => moves_of_drawn(alloc, &mut held.machine, seed, 8_000)?,
    };
    let logs = held.into_logs(alloc)?;
    Ok(moved == acts && are_same(logs.as_slice(), wanted))
}

/// The capacities at which the runs are made, each with who makes the attempts.
const WAYS: [(usize, Turn); 5] = [
    (1, Turn::Mover),
    (2, Turn::Mover),
    (16, Turn::Mover),
    (1, Turn::Drawn(1)),
    (2, Turn::Drawn(2)),
];

/// Whether this holds of a scenario in each way, with the logs of its run.
fn is_the_run(alloc: Global, text: &[u8], acts: u32) -> Result<bool, Fail> {
    let stage = stage_of(alloc, text)?;
    let scenario = &stage.scenario;
    let logs = logs_of_run(alloc, scenario)?;
    let mut same = true;
    for way in WAYS {
        same = is_the_same(alloc, scenario, way, acts, logs.as_slice())? && same;
    }
    Ok(same)
}

#[test]
fn the_logs_of_the_machine_are_those_of_the_run(rt: HostRuntime) -> Result<(), Fail> {
    for (text, acts) in RUNS {
        assert!(rt; is_the_run(rt.alloc(), text, acts)?);
    }
    Ok(())
}
