//! Calls of desks at which the logs of a run are filed, claimed and reported on.
use crate::names::{Refused, number_of};
use crate::rows::Row;
use crate::texts::Answer;
use gen_desk::{Desk, Filed, Receipt, Row as DeskRow, Slip, Ticket};
use gen_local::{LocalReport, local_report};
use gen_log::SealedLog;
use gen_net::Header;
use gen_scenario::Scenario;
use gen_text::{ScenarioText, read_scenario};
use gen_types::GeneralNo;
use gen_world::run_world;
use std::alloc::{AllocError, Global};
use std::sync::Wait;

/// Gives all slips up.
fn give_up_all(slips: Vec<Slip>) {
    let mut slips = slips;
    while let Some(slip) = slips.pop() {
        let _place = slip.give_up();
    }
    slips.destroy_empty();
}

/// Slips, which are given up where they are let go.
struct Slips {
    all: Vec<Slip>,
}

impl Drop for Slips {
    fn drop(self) {
        let Slips { all } = self;
        give_up_all(all);
    }
}

/// What a desk handed out.
#[derive(Drop)]
struct Hand {
    slips: Slips,
    tickets: Vec<Ticket>,
    receipts: Vec<Receipt>,
}

/// A desk, and what it handed out.
#[derive(Drop)]
struct Side {
    desk: Desk,
    hand: Hand,
}

/// Returns a desk of so many places, and its slips.
fn side_of(alloc: Global, places: usize) -> Result<Side, AllocError> {
    let (desk, all) = Desk::new(alloc, places)?;
    let hand = Hand {
        slips: Slips { all },
        tickets: Vec::new(alloc),
        receipts: Vec::new(alloc),
    };
    Ok(Side { desk, hand })
}

/// The logs of a run, and its header.
#[derive(Drop)]
struct Run {
    scenario: Scenario,
    logs: Vec<SealedLog>,
}

/// Returns the run that a text with a seed tells.
fn run_of(alloc: Global, text: &[u8]) -> Result<Run, Refused> {
    let Ok(ScenarioText::Signed(plan)) = read_scenario(alloc, text) else {
        return Err(Refused);
    };
    let scenario = Scenario::of_plan(alloc, plan)?;
    let logs = run_world(alloc, &scenario)?.into_logs();
    Ok(Run { scenario, logs })
}

/// Tells what a desk answers to acts, and how it ends.
pub(crate) fn tell_desk<R: Wait>(
    rt: &R,
    alloc: Global,
    mut row: Row<'_>,
    answer: &mut Answer,
) -> Result<(), Refused> {
    let places = (row.number()?, row.number()?);
    let (acts, closing) = (row.word()?, row.word()?);
    let run = run_of(alloc, row.rest()?)?;
    tell_acts(rt, alloc, &run, places, acts, closing, answer)
}

/// Tells the same with the logs of a run.
fn tell_acts<R: Wait>(
    rt: &R,
    alloc: Global,
    run: &Run,
    places: (usize, usize),
    acts: &str,
    closing: &str,
    answer: &mut Answer,
) -> Result<(), Refused> {
    let mut own = side_of(alloc, places.0)?;
    let mut other = side_of(alloc, places.1)?;
    for act in acts.split_ascii_whitespace() {
        answer.end_line();
        do_act(rt, alloc, run, &mut own, &mut other, act, answer)?;
    }
    tell_end(run, own, other, closing, answer);
    Ok(())
}

/// Does an act at the first desk, at the other one, or at the first one with what the other one handed out.
fn do_act<R: Wait>(
    rt: &R,
    alloc: Global,
    run: &Run,
    own: &mut Side,
    other: &mut Side,
    act: &str,
    answer: &mut Answer,
) -> Result<(), Refused> {
    match act.split_once('-') {
        None => act_at(rt, alloc, run, &own.desk, &mut own.hand, act, answer),
        Some(("other", act)) => act_at(rt, alloc, run, &other.desk, &mut other.hand, act, answer),
        Some(("strange", act)) => act_at(rt, alloc, run, &own.desk, &mut other.hand, act, answer),
        Some(_) => Err(Refused),
    }
}

/// Does an act at a desk with what was handed out. A number files the log of this number.
fn act_at<R: Wait>(
    rt: &R,
    alloc: Global,
    run: &Run,
    desk: &Desk,
    hand: &mut Hand,
    act: &str,
    answer: &mut Answer,
) -> Result<(), Refused> {
    match act {
        "claim" => claim(rt, desk, &mut hand.tickets, answer),
        "report" => {
            let ticket = hand.tickets.pop().ok_or(Refused)?;
            report(rt, alloc, run.scenario.header(), desk, ticket, answer)
        }
        "mix" => {
            let ticket = hand.tickets.pop().ok_or(Refused)?;
            report_otherwise(rt, alloc, run.scenario.header(), desk, ticket, answer)
        }
        "all" => Ok(answer.yes(desk.all_reported(rt))),
        "knows" => Ok(answer.show(count_known(rt, desk, hand.receipts.as_slice()))),
        number => {
            let number = number_of(number).ok_or(Refused)?;
            let log = run.logs.get(number).ok_or(Refused)?;
            let Some(slip) = hand.slips.all.pop() else {
                return Err(Refused);
            };
            file(rt, desk, slip, log, &mut hand.receipts, answer)
        }
    }
}

/// Files a log by a slip.
fn file<R: Wait>(
    rt: &R,
    desk: &Desk,
    slip: Slip,
    log: &SealedLog,
    receipts: &mut Vec<Receipt>,
    answer: &mut Answer,
) -> Result<(), Refused> {
    match desk.file_shared(rt, slip, log) {
        Ok(receipt) => {
            answer.word("filed");
            receipts.push(receipt)?;
        }
        Err((slip, fault)) => {
            answer.show(fault);
            answer.field("slip", slip.give_up());
        }
    }
    Ok(())
}

/// Claims what is filed.
fn claim<R: Wait>(
    rt: &R,
    desk: &Desk,
    tickets: &mut Vec<Ticket>,
    answer: &mut Answer,
) -> Result<(), Refused> {
    match desk.claim(rt)? {
        Some(ticket) => {
            answer.field("place", ticket.place());
            tickets.push(ticket)?;
        }
        None => answer.word("none"),
    }
    Ok(())
}

/// Reports on what was claimed.
fn report<R: Wait>(
    rt: &R,
    alloc: Global,
    header: &Header,
    desk: &Desk,
    ticket: Ticket,
    answer: &mut Answer,
) -> Result<(), Refused> {
    let exhibit = ticket.exhibit();
    let made = local_report(alloc, header, exhibit.general(), exhibit.log())?;
    hand_in(rt, desk, ticket, made, answer);
    Ok(())
}

/// Reports on a byte that is no log of general 1 in the place of what was claimed.
fn report_otherwise<R: Wait>(
    rt: &R,
    alloc: Global,
    header: &Header,
    desk: &Desk,
    ticket: Ticket,
    answer: &mut Answer,
) -> Result<(), Refused> {
    let made = local_report(alloc, header, GeneralNo::at(1), &[1])?;
    hand_in(rt, desk, ticket, made, answer);
    Ok(())
}

/// Hands in a report.
fn hand_in<R: Wait>(rt: &R, desk: &Desk, ticket: Ticket, report: LocalReport, answer: &mut Answer) {
    match desk.report(rt, ticket, report) {
        Ok(()) => answer.word("reported"),
        Err((ticket, report, fault)) => {
            answer.show(fault);
            answer.field("ticket", ticket.place());
            answer.field("general", report.exhibit().general());
        }
    }
}

/// Returns how many receipts a desk knows.
fn count_known<R: Wait>(rt: &R, desk: &Desk, receipts: &[Receipt]) -> usize {
    let mut count = 0usize;
    for receipt in receipts {
        if desk.knows(rt, receipt) {
            count = count.saturating_add(1);
        }
    }
    count
}

/// Returns the receipts of what a desk handed out.
fn receipts_of(hand: Hand) -> Vec<Receipt> {
    let Hand { receipts, .. } = hand;
    receipts
}

/// Ends the first desk with its own receipts or with those of the other one, and tells what stands at each place.
fn tell_end(run: &Run, own: Side, other: Side, closing: &str, answer: &mut Answer) {
    let Side { desk, hand } = own;
    let Side { hand: strange, .. } = other;
    let receipts = receipts_of(if closing == "own" { hand } else { strange });
    match desk.close(receipts) {
        Ok(filed) => tell_filed(run, &filed, answer),
        Err(strange) => {
            answer.end_line();
            answer.field("strange", strange.first);
        }
    }
}

/// Tells what stands at each place of a desk that has ended.
fn tell_filed(run: &Run, filed: &Filed, answer: &mut Answer) {
    for row in filed.rows() {
        answer.end_line();
        tell_row(run.logs.as_slice(), row, answer);
    }
}

/// Tells which of the logs is filed in a row, if one is, and whether it is claimed and reported on.
fn tell_row(logs: &[SealedLog], row: &DeskRow, answer: &mut Answer) {
    match &row.filed {
        Some(exhibit) => answer.field("log", place_in(logs, exhibit.log())),
        None => answer.word("nothing"),
    }
    if row.claimed {
        answer.word("claimed");
    }
    if row.report.is_some() {
        answer.word("reported");
    }
}

/// Returns the number of the first log with these bytes, or how many logs there are.
fn place_in(logs: &[SealedLog], bytes: &[u8]) -> usize {
    for place in 0..logs.len() {
        if logs[place].bytes() == bytes {
            return place;
        }
    }
    logs.len()
}
