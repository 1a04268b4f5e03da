//! One round of a general.
ghost use Rattle.std.specs.Prelude.{◌≡◌, ◌<◌, ◌+◌, [], IfErr, OnOk};
ghost use Rattle.std.specs.List.{AllZip};
ghost use Rattle.gen_edge.specs.Frames.{carried};
ghost use Rattle.gen_net.specs.Network.{rounds};
ghost use Rattle.gen_general.specs.DrivenRecords.{HasSent, HasHeard, RecordsAfter};
ghost use Rattle.gen_scenario.specs.Scenario.{header_of};
ghost use Rattle.gen_scenario.specs.SignedWorld.{neighbours_of};
ghost use Rattle.gen_scenario.specs.WorldLogs.{entries_after};
ghost use Rattle.gen_threads.specs.Edges.{ArePassesOf, HasPut, HasTakenBy, HaveCarried, IsPutOn, IsTakeBy};
ghost use Rattle.gen_threads.specs.Ending.{RingComesBack};
ghost use Rattle.gen_threads.specs.Faults.{IsOwnFault};
ghost use Rattle.gen_threads.specs.Rings.{HasSpentOnSigns};
ghost use Rattle.gen_threads.specs.Turns.{IsPutting, IsTaking};

use crate::edges::Edges;
use crate::ends::RunFault;
use crate::run_parts::RunPart;
use crate::waiting::{put_frame, take_frame};
use gen_edge::{Frame, PutPass, TakePass};
use gen_general::Recorder;
use gen_types::GeneralNo;
use std::alloc::{AllocError, Global};
use std::sync::Wait;

/// Puts the frame of the round after the first `gone` rounds to this general, if it is a neighbour. The pass
/// is the one at the index, which then moves on by one.
fn put_to<R: Wait>(
    rt: &R,
    alloc: Global,
    part: &RunPart,
    edges: &Edges,
    gone: u8,
    to: GeneralNo,
    index: &mut usize,
    recorder: &mut Recorder,
    puts: &mut Vec<PutPass>,
) -> Result<(), AllocError>
    requires gone { gone < rounds part.now.scenario.net }
    requires to { to < part.now.scenario.net.generals }
    requires so_far { IsPutting edges.now part.now.scenario gone part.now.me to index.old recorder.old puts.old.items }
    ensures ok { OnOk result
        (IsPutting edges.now part.now.scenario gone part.now.me (to + 1) index.new recorder.new puts.new.items) }
    ensures passes { AllZip (IsPutOn edges.now part.now.me)
        (neighbours_of part.now.scenario.net part.now.me) puts.new.items }
    ensures ring { recorder.new.standing.ring ≡ recorder.old.standing.ring }
{
    let known = part.part();
    if !known.header().net().has_edge(known.me(), to) {
        return Ok(());
    }
    let parcels = recorder.send(alloc, to)?;
    let frame = Frame::Round {
        number: gone + 1,
        parcels,
    };
    let edge = edges.edge(known.me(), to).unwrap();
    put_frame(rt, edge, &mut puts[*index], frame);
    *index += 1;
    Ok(())
}

/// Puts the frame of the round after the first `gone` rounds to each neighbour, in ascending order.
fn put_all<R: Wait>(
    rt: &R,
    alloc: Global,
    part: &RunPart,
    edges: &Edges,
    gone: u8,
    recorder: &mut Recorder,
    puts: &mut Vec<PutPass>,
) -> Result<(), AllocError>
    requires gone { gone < rounds part.now.scenario.net }
    requires begun { HasSent part.now.scenario gone part.now.me [] recorder.old }
    requires passes { AllZip (HasPut edges.now part.now.scenario gone part.now.me)
        (neighbours_of part.now.scenario.net part.now.me) puts.old.items }
    ensures sent { OnOk result (HasHeard part.now.scenario gone part.now.me [] recorder.new) }
    ensures put { OnOk result (AllZip (HasPut edges.now part.now.scenario (gone + 1) part.now.me)
        (neighbours_of part.now.scenario.net part.now.me) puts.new.items) }
    ensures passes { AllZip (IsPutOn edges.now part.now.me)
        (neighbours_of part.now.scenario.net part.now.me) puts.new.items }
    ensures ring { recorder.new.standing.ring ≡ recorder.old.standing.ring }
{
    let mut index = 0;
    'near: for number in 0..part.part().header().net().generals() {
        let to = GeneralNo::at(number);
        put_to(rt, alloc, part, edges, gone, to, &mut index, recorder, puts)?;
    }
    Ok(())
}

/// Takes the frame of the round after the first `gone` rounds from this general, if it is a neighbour. The
/// pass is the one at the index, which then moves on by one.
fn take_from<R: Wait>(
    rt: &R,
    alloc: Global,
    part: &RunPart,
    edges: &Edges,
    gone: u8,
    from: GeneralNo,
    index: &mut usize,
    recorder: &mut Recorder,
    takes: &mut Vec<TakePass>,
) -> Result<(), RunFault>
    requires gone { gone < rounds part.now.scenario.net }
    requires from { from < part.now.scenario.net.generals }
    requires so_far { IsTaking edges.now part.now.scenario gone part.now.me from index.old recorder.old takes.old.items }
    ensures ok { OnOk result
        (IsTaking edges.now part.now.scenario gone part.now.me (from + 1) index.new recorder.new takes.new.items) }
    ensures passes { AllZip (IsTakeBy edges.now part.now.me)
        (neighbours_of part.now.scenario.net part.now.me) takes.new.items }
    ensures fault { IfErr result (IsOwnFault takes.new.items) }
    ensures ring { recorder.new.standing.ring ≡ recorder.old.standing.ring }
{
    let known = part.part();
    if !known.header().net().has_edge(known.me(), from) {
        return Ok(());
    }
    let edge = edges.edge(from, known.me()).unwrap();
    let frame = take_frame(rt, edge, &mut takes[*index]);
    let Frame::Round { parcels, .. } = frame else {
        return Err(RunFault::Gone);
    };
    *index += 1;
    recorder.hear(alloc, from, parcels.as_slice())?;
    Ok(())
}

/// Takes the frame of the round after the first `gone` rounds from each neighbour, in ascending order.
fn take_all<R: Wait>(
    rt: &R,
    alloc: Global,
    part: &RunPart,
    edges: &Edges,
    gone: u8,
    recorder: &mut Recorder,
    takes: &mut Vec<TakePass>,
) -> Result<(), RunFault>
    requires gone { gone < rounds part.now.scenario.net }
    requires sent { HasHeard part.now.scenario gone part.now.me [] recorder.old }
    requires passes { AllZip (HasTakenBy edges.now part.now.scenario gone part.now.me)
        (neighbours_of part.now.scenario.net part.now.me) takes.old.items }
    ensures heard { OnOk result (RecordsAfter part.now.scenario (gone + 1) part.now.me recorder.new) }
    ensures taken { OnOk result (AllZip (HasTakenBy edges.now part.now.scenario (gone + 1) part.now.me)
        (neighbours_of part.now.scenario.net part.now.me) takes.new.items) }
    ensures passes { AllZip (IsTakeBy edges.now part.now.me)
        (neighbours_of part.now.scenario.net part.now.me) takes.new.items }
    ensures fault { IfErr result (IsOwnFault takes.new.items) }
    ensures ring { recorder.new.standing.ring ≡ recorder.old.standing.ring }
{
    let mut index = 0;
    'near: for number in 0..part.part().header().net().generals() {
        let from = GeneralNo::at(number);
        take_from(
            rt, alloc, part, edges, gone, from, &mut index, recorder, takes,
        )?;
    }
    Ok(())
}

/// Runs the round after the first `gone` rounds: the general signs, puts a frame to each neighbour, and takes
/// one from each.
pub(crate) fn run_round<R: Wait>(
    rt: &R,
    alloc: Global,
    part: &RunPart,
    edges: &Edges,
    gone: u8,
    recorder: &mut Recorder,
    puts: &mut Vec<PutPass>,
    takes: &mut Vec<TakePass>,
) -> Result<(), RunFault>
    requires gone { gone < rounds part.now.scenario.net }
    requires records { RecordsAfter part.now.scenario gone part.now.me recorder.old }
    requires passes { HaveCarried edges.now part.now.scenario gone part.now.me puts.old.items takes.old.items }
    ensures records { OnOk result (RecordsAfter part.now.scenario (gone + 1) part.now.me recorder.new) }
    ensures carried { OnOk result
        (HaveCarried edges.now part.now.scenario (gone + 1) part.now.me puts.new.items takes.new.items) }
    ensures passes { ArePassesOf edges.now part.now.scenario part.now.me puts.new.items takes.new.items }
    ensures fault { IfErr result (IsOwnFault takes.new.items) }
    ensures ring { RingComesBack (header_of part.now.scenario) recorder.old.standing.ring recorder.new.standing.ring }
    ensures signed { OnOk result
        (HasSpentOnSigns part.now.scenario part.now.me (entries_after part.now.scenario part.now.me gone)
        recorder.old.standing.ring recorder.new.standing.ring) }
{
    let _lawful = part.part();
    recorder.begin_round(alloc)?;
    put_all(rt, alloc, part, edges, gone, recorder, puts)?;
    take_all(rt, alloc, part, edges, gone, recorder, takes)
}
