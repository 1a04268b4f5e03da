//! Campaigns that are run, and desks.
use crate::again_scenarios::Open;
use crate::desks;
use crate::judging_texts::tell_fault;
use crate::names::Refused;
use crate::rows::Row;
use crate::texts::Answer;
use gen_campaign::{
    Campaign, make_campaign, read_campaign_text, run_campaign, texts_make_campaigns,
};
use gen_tree::LeafSet;
use gen_tree::sizes::MOST_LEAVES;
use gen_types::ReadError;
use std::sync::Wait;
use std::thread::Threads;

/// Answers a call of this module, and returns whether it is one.
pub fn tell<R: AllocGlobal + Threads + Wait + Sync>(
    rt: &R,
    call: &str,
    row: Row<'_>,
    answer: &mut Answer,
) -> Result<bool, Refused> {
    match call {
        "leaves_taken" => tell_taken(rt, row, answer)?,
        "desk" => desks::tell_desk(rt, rt.alloc(), row, answer)?,
        _ => return Ok(false),
    }
    Ok(true)
}

/// Runs the campaign of a text, and tells which leaves were taken from each general's ring; or tells the first fault.
fn tell_taken<R: AllocGlobal + Threads + Wait + Sync>(
    rt: &R,
    row: Row<'_>,
    answer: &mut Answer,
) -> Result<(), Refused> {
    texts_make_campaigns();
    match read_campaign_text(rt.alloc(), row.rest()?) {
        Ok(plans) => {
            let campaign = make_campaign(rt, rt.alloc(), plans)?;
            tell_run(rt, &campaign, answer)
        }
        Err(ReadError::Fault(fault)) => {
            tell_fault(fault, answer);
            Ok(())
        }
        Err(ReadError::Memory) => Err(Refused),
    }
}

/// Runs a campaign over edges that hold one frame, and tells the leaves of each general in a line.
fn tell_run<R: AllocGlobal + Threads + Wait + Sync>(
    rt: &R,
    campaign: &Campaign,
    answer: &mut Answer,
) -> Result<(), Refused> {
    let Ok((_, sets)) = run_campaign(rt, rt.alloc(), campaign, 1, &Open) else {
        return Err(Refused);
    };
    for set in &sets {
        answer.end_line();
        tell_leaves(set, answer);
    }
    Ok(())
}

/// Tells the members of a set of leaves, ascending.
fn tell_leaves(set: &LeafSet, answer: &mut Answer) {
    for leaf in 0..MOST_LEAVES {
        if set.contains(leaf) {
            answer.item(leaf);
        }
    }
    answer.end_list();
}
