//! Calls of values and texts. Those of networks, choices, numbers and fields stand here, the others in modules beside it.
use crate::names::Refused;
use crate::rows::Row;
use crate::texts::Answer;
use crate::values_parts::{edges_in, tell_net};
use crate::{values_headers, values_rounds, values_scripts, values_walks};
use gen_net::{Header, Net};
use gen_types::{Choice, ChoiceKind, GeneralNo, decimal_number, split_fields};
use std::alloc::Global;

/// Answers a call of this module, and returns whether it is one.
pub(crate) fn tell(
    alloc: Global,
    call: &str,
    row: Row<'_>,
    answer: &mut Answer,
) -> Result<bool, Refused> {
    match call {
        "network" => tell_network(alloc, row, answer)?,
        "choose" => tell_choice(row, answer)?,
        "decimal" => tell_decimal(row, answer)?,
        "fields" => tell_fields(alloc, row, answer)?,
        "header" => values_headers::tell_header(alloc, row.rest()?, answer)?,
        "front" => values_headers::tell_front(alloc, row, answer)?,
        _ => return Ok(false),
    }
    Ok(true)
}

/// Answers a call of this module on a header, and returns whether it is one.
pub(crate) fn tell_under(
    alloc: Global,
    call: &str,
    header: &Header,
    row: Row<'_>,
    answer: &mut Answer,
) -> Result<bool, Refused> {
    let net = header.net();
    match call {
        "neighbours" => tell_neighbours(net, row, answer)?,
        "script" => values_scripts::tell_script(alloc, net, row, answer)?,
        "walks" => values_walks::tell_made(alloc, net, row, answer)?,
        "check_walks" => values_walks::tell_checked(alloc, net, row, answer)?,
        "check_levels" => values_walks::tell_levels(net, row, answer)?,
        "lieutenant" => values_rounds::play(alloc, net, row, answer)?,
        "commander" => values_rounds::command(alloc, net, row, answer)?,
        _ => return Ok(false),
    }
    Ok(true)
}

/// Tells the network of numbers and edges, or its fault.
fn tell_network(alloc: Global, mut row: Row<'_>, answer: &mut Answer) -> Result<(), Refused> {
    let (n, m, d) = (row.byte()?, row.byte()?, row.byte()?);
    let (q, choice) = (row.byte()?, row.byte()?);
    let edges = edges_in(alloc, row.word()?)?;
    match Net::new(alloc, n, edges.as_slice(), m, d, q, choice) {
        Ok(net) => tell_net(&net, answer),
        Err(fault) => answer.show(fault),
    }
    Ok(())
}

/// Tells the neighbours of a general, to whom alone an edge joins the general.
fn tell_neighbours(net: &Net, mut row: Row<'_>, answer: &mut Answer) -> Result<(), Refused> {
    let general = row.general()?;
    let near = net.neighbours(general);
    for number in 0..16u8 {
        let other = GeneralNo::at(number);
        if net.has_edge(general, other) != near.contains(other) {
            answer.word("edges otherwise");
            return Ok(());
        }
    }
    answer.set(&near);
    Ok(())
}

/// Tells the order that a choice chooses from a set, or `none` where the number is no choice's.
fn tell_choice(mut row: Row<'_>, answer: &mut Answer) -> Result<(), Refused> {
    let number = row.byte()?;
    let orders = row.set()?;
    match ChoiceKind::new(number) {
        Some(kind) if kind.number() == number => answer.show(kind.choose(orders)),
        Some(_) => answer.word("written otherwise"),
        None => answer.word("none"),
    }
    Ok(())
}

/// Tells the number that digits spell, or `none`.
fn tell_decimal(row: Row<'_>, answer: &mut Answer) -> Result<(), Refused> {
    match decimal_number(row.rest()?) {
        Some(number) => answer.show(number),
        None => answer.word("none"),
    }
    Ok(())
}

/// Tells the fields of a line, each in brackets.
fn tell_fields(alloc: Global, row: Row<'_>, answer: &mut Answer) -> Result<(), Refused> {
    for field in &split_fields(alloc, row.rest()?)? {
        let Ok(shown) = str::from_utf8(*field) else {
            return Err(Refused);
        };
        answer.push("[");
        answer.push(shown);
        answer.push("]");
    }
    Ok(())
}
