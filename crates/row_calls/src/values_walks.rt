//! Calls of walks and levels.
use crate::names::{Refused, byte_of};
use crate::rows::Row;
use crate::texts::Answer;
use crate::values_parts::generals_in;
use gen_net::Net;
use gen_types::{GeneralNo, GeneralSet};
use gen_walks::{
    BadPair, LevelRow, UNREACHED, Walk, WalkFault, Walks, check_levels, check_walks, make_walks,
};
use std::alloc::Global;

/// Tells the walks of all pairs of a rest, or why there are none.
pub(crate) fn tell_made(
    alloc: Global,
    net: &Net,
    mut row: Row<'_>,
    answer: &mut Answer,
) -> Result<(), Refused> {
    let rest = row.set()?;
    match make_walks(alloc, net, &rest) {
        Ok(walks) => tell_walks(alloc, net, &rest, &walks, answer),
        Err(fault) => tell_reason(net, &rest, &fault, answer),
    }
}

/// Tells walks, of which each pair of the rest has one.
fn tell_walks(
    alloc: Global,
    net: &Net,
    rest: &GeneralSet,
    walks: &Walks,
    answer: &mut Answer,
) -> Result<(), Refused> {
    if check_walks(net, rest, walks).is_err() {
        answer.word("walks that don't hold");
        return Ok(());
    }
    let mut shown = Answer::new(alloc);
    for walk in walks.as_slice() {
        shown.generals(walk.generals());
    }
    answer.output(shown.text()?.as_bytes());
    Ok(())
}

/// Tells why there are no walks.
fn tell_reason(
    net: &Net,
    rest: &GeneralSet,
    fault: &WalkFault,
    answer: &mut Answer,
) -> Result<(), Refused> {
    match fault {
        WalkFault::Memory => return Err(Refused),
        WalkFault::NoWalk { pair, levels } => {
            answer.show(fault);
            tell_pair(net, rest, pair, levels, answer);
        }
        WalkFault::TooLong {
            pair,
            levels,
            edges,
        } => {
            answer.show(fault);
            answer.field("edges", *edges);
            tell_pair(net, rest, pair, levels, answer);
        }
    }
    Ok(())
}

/// Tells a pair and the levels from its lesser general, where they are levels of the rest.
fn tell_pair(net: &Net, rest: &GeneralSet, pair: &BadPair, levels: &LevelRow, answer: &mut Answer) {
    if !check_levels(net, rest, pair.a, levels) {
        return answer.word("levels that don't hold");
    }
    answer.field("pair", pair.a);
    answer.show(pair.b);
    answer.word("levels");
    for number in 0..16u8 {
        answer.item(levels.level(GeneralNo::at(number)));
    }
    answer.end_list();
}

/// Tells whether each pair of a rest has one of these walks, or the least pair that has none.
pub(crate) fn tell_checked(
    alloc: Global,
    net: &Net,
    mut row: Row<'_>,
    answer: &mut Answer,
) -> Result<(), Refused> {
    let rest = row.set()?;
    let walks = walks_in(alloc, row.word()?)?;
    if let Err(pair) = check_walks(net, &rest, &walks) {
        answer.show(pair);
        return Ok(());
    }
    answer.yes(true);
    Ok(())
}

/// Returns the walks with spaces between them; `-` is a walk of nobody.
fn walks_in(alloc: Global, said: &str) -> Result<Walks, Refused> {
    let mut walks = Walks::new(alloc);
    for walk in said.split_ascii_whitespace() {
        walks.push(Walk::new(generals_in(alloc, walk)?))?;
    }
    Ok(walks)
}

/// Tells whether levels from a general hold in a rest.
pub(crate) fn tell_levels(net: &Net, mut row: Row<'_>, answer: &mut Answer) -> Result<(), Refused> {
    let rest = row.set()?;
    let source = row.general()?;
    let levels = levels_in(row.word()?).ok_or(Refused)?;
    answer.yes(check_levels(net, &rest, source, &levels));
    Ok(())
}

/// Returns the levels of these numbers; the others are those of generals to whom no walk leads.
fn levels_in(said: &str) -> Option<LevelRow> {
    let mut levels = [UNREACHED; 16];
    if said != "-" {
        for (level, digits) in levels.iter_mut().zip(said.split(',')) {
            *level = byte_of(digits)?;
        }
    }
    Some(LevelRow::new(levels))
}
