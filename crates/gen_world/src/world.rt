//! The run of a scenario, round by round.
ghost use Rattle.std.specs.Prelude.{◌≡◌, ◌<◌, ◌+◌, ◌++◌, [], ◌∷◌, IfOk, OnOk};
ghost use Rattle.std.specs.List.{flat_map, range_with_len};
ghost use Rattle.gen_net.specs.Network.{rounds};
ghost use Rattle.gen_scenario.specs.Deciding.{decisions_of};
ghost use Rattle.gen_general.specs.Recording.{logs_written};
ghost use Rattle.gen_scenario.specs.Rows.{rows_of, rows_in, rows_by, logs_of_all};
ghost use Rattle.gen_scenario.specs.SignedLaw.{IsBounded, AreAlike};
ghost use Rattle.gen_general.specs.DrivenRecords.{RecordsAfter, HasSent, HasHeard, AllRecord, AllHear};
ghost use Rattle.gen_general.specs.Driving.{rows_for};
ghost use Rattle.gen_scenario.specs.SignedWorld.{near_of};

use crate::rows::{FrameRow, WorldRun};
use gen_general::{Recorder, recorder_of};
use gen_log::SealedLog;
use gen_scenario::laws::theorem_holds_of_scenarios;
use gen_scenario::{Decision, Scenario};
use gen_tree::close_ring;
use gen_types::GeneralNo;
use std::alloc::{AllocError, Global};

/// Has one general send another its frame, if they are neighbours, and appends the frame.
fn send_one(
    alloc: Global,
    scenario: &Scenario,
    gone: u8,
    part: &mut Recorder,
    from: GeneralNo,
    to: GeneralNo,
    frames: &mut Vec<FrameRow>,
) -> Result<(), AllocError>
    requires gone { gone < rounds scenario.now.net }
    requires from { from < scenario.now.net.generals }
    requires to { to < scenario.now.net.generals }
    requires sent { HasSent scenario.now gone from
        (near_of scenario.now.net from (range_with_len 0 to)) part.old }
    ensures sent { OnOk result (HasSent scenario.now gone from
        (near_of scenario.now.net from (range_with_len 0 (to + 1))) part.new) }
    ensures frames { OnOk result (frames.new.items ≡ frames.old.items
        ++ rows_for scenario.now gone from (near_of scenario.now.net from (to ∷ []))) }
{
    let _rounds = scenario.header().net().rounds();
    if !scenario.header().net().has_edge(from, to) {
        return Ok(());
    }
    let parcels = part.send(alloc, to)?;
    frames.push(FrameRow {
        round: gone + 1,
        from,
        to,
        parcels,
    })?;
    Ok(())
}

/// Has a general begin the round after the first `gone` rounds and send its neighbours their frames, which
/// are appended.
fn send_all_of(
    alloc: Global,
    scenario: &Scenario,
    gone: u8,
    part: &mut Recorder,
    from: GeneralNo,
    frames: &mut Vec<FrameRow>,
) -> Result<(), AllocError>
    requires gone { gone < rounds scenario.now.net }
    requires from { from < scenario.now.net.generals }
    requires stands { RecordsAfter scenario.now gone from part.old }
    ensures sent { OnOk result (HasHeard scenario.now gone from [] part.new) }
    ensures frames { OnOk result (frames.new.items ≡ frames.old.items ++ rows_by scenario.now (gone + 1) from) }
{
    part.begin_round(alloc)?;
    'receivers: for number in 0..scenario.header().net().generals() {
        let to = GeneralNo::at(number);
        send_one(alloc, scenario, gone, part, from, to, frames)?;
    }
    Ok(())
}

/// Has each general begin the round after the first `gone` rounds and send its neighbours their frames, which
/// are appended.
fn send_all(
    alloc: Global,
    scenario: &Scenario,
    gone: u8,
    parts: &mut Vec<Recorder>,
    frames: &mut Vec<FrameRow>,
) -> Result<(), AllocError>
    requires gone { gone < rounds scenario.now.net }
    requires all { AllRecord scenario.now gone parts.old.items }
    ensures all { OnOk result (AllHear scenario.now gone [] parts.new.items) }
    ensures frames { OnOk result (frames.new.items ≡ frames.old.items ++ rows_in scenario.now (gone + 1)) }
{
    'senders: for number in 0..scenario.header().net().generals() {
        let part = &mut parts[usize::from(number)];
        send_all_of(alloc, scenario, gone, part, GeneralNo::at(number), frames)?;
    }
    Ok(())
}

/// Has the receiver of each frame of the round hear it.
fn hear_all(
    alloc: Global,
    scenario: &Scenario,
    gone: u8,
    parts: &mut Vec<Recorder>,
    rows: &[FrameRow],
) -> Result<(), AllocError>
    requires gone { gone < rounds scenario.now.net }
    requires rows { rows.now ≡ rows_in scenario.now (gone + 1) }
    requires all { AllHear scenario.now gone [] parts.old.items }
    ensures { OnOk result (AllRecord scenario.now (gone + 1) parts.new.items) }
{
    let _lawful = scenario.header();
    'rows: for row in rows {
        let part = &mut parts[usize::from(row.to().get())];
        part.hear(alloc, row.from(), row.parcels())?;
    }
    Ok(())
}

/// Returns the decisions of all generals without scripts after the last round.
fn decide_all(
    alloc: Global,
    scenario: &Scenario,
    parts: &[Recorder],
) -> Result<Vec<Decision>, AllocError>
    requires { AllRecord scenario.now (rounds scenario.now.net) parts.now }
    ensures { IfOk result (λ decisions. decisions.items ≡ decisions_of scenario.now) }
{
    let mut decisions = Vec::new(alloc);
    'parts: for index in 0..parts.len() {
        let part = &parts[index];
        if scenario.has_script(part.me()) {
            continue;
        }
        decisions.push(part.decide())?;
    }
    Ok(decisions)
}

/// Makes the generals in this list, runs all rounds, and ends the generals one after another. In each round all
/// frames are made, and then each is heard. The caller has to close the generals that are left in the list, also if
/// memory is refused.
fn run_rounds(
    alloc: Global,
    scenario: &Scenario,
    parts: &mut Vec<Recorder>,
) -> Result<WorldRun, AllocError>
    requires { parts.old.items ≡ [] }
    ensures frames { IfOk result (λ run. run.frames ≡ rows_of scenario.now) }
    ensures decisions { IfOk result (λ run. run.decisions ≡ decisions_of scenario.now) }
    ensures logs { IfOk result (λ run. run.logs ≡ logs_of_all scenario.now) }
{
    let generals = scenario.header().net().generals();
    parts.reserve(usize::from(generals))?;
    'generals: for number in 0..generals {
        let part = recorder_of(alloc, scenario, GeneralNo::at(number))?;
        parts.push(part).unwrap();
    }
    let mut frames = Vec::new(alloc);
    'rounds: for gone in 0..scenario.header().net().rounds() {
        let first = frames.len();
        send_all(alloc, scenario, gone, parts, &mut frames)?;
        hear_all(alloc, scenario, gone, parts, &frames[first..])?;
    }
    let decisions = decide_all(alloc, scenario, parts.as_slice())?;
    let mut logs = Vec::new(alloc);
    parts.reverse();
    while let Some(part) = parts.pop() {
        match part.finish(alloc) {
            Ok(end) => {
                let (mut own, ring) = end.into_parts();
                close_ring(ring);
                logs.append(&mut own)?;
            }
            Err(ring) => {
                close_ring(ring);
                return Err(AllocError);
            }
        }
    }
    Ok(WorldRun {
        frames,
        decisions,
        logs,
    })
}

/// Runs a scenario, and returns every frame of every round, the decisions of all generals without scripts,
/// and the logs of all generals. A general whose script asks for it has two logs. All rings are closed, also
/// if memory is refused.
///
/// # Errors
///
/// `AllocError` if memory is refused.
pub fn run_world(alloc: Global, scenario: &Scenario) -> Result<WorldRun, AllocError>
    ensures frames { IfOk result (λ run. run.frames ≡ rows_of scenario.now) }
    ensures decisions { IfOk result (λ run. run.decisions ≡ decisions_of scenario.now) }
    // Each of these logs verifies: the law `logs_are_known`.
    ensures logs { IfOk result (λ run. run.logs ≡ logs_of_all scenario.now) }
    // Theorem 4 of the paper of 1982: the rest decide alike. This needs at most m traitors, no raw line in a
    // script, and any two generals of the rest joined inside the rest by at most d edges.
    ensures alike { IsBounded scenario.now
        → IfOk result (λ run. AreAlike scenario.now run.decisions) }
{
    theorem_holds_of_scenarios();
    let _lawful = scenario.header();
    let mut parts = Vec::new(alloc);
    let run = run_rounds(alloc, scenario, &mut parts);
    while let Some(part) = parts.pop() {
        close_ring(part.close());
    }
    parts.destroy_empty();
    run
}
