//! The call of the clock: which run of a system a node begins next.
use crate::names::Refused;
use crate::rows::Row;
use crate::texts::Answer;
use gen_node::Timetable;

/// Answers a call of this module, and returns whether it is one.
pub(crate) fn tell(call: &str, row: Row<'_>, answer: &mut Answer) -> Result<bool, Refused> {
    match call {
        "next_run" => tell_next(row, answer)?,
        _ => return Ok(false),
    }
    Ok(true)
}

/// Returns the time that is the next word.
fn time_in(row: &mut Row<'_>) -> Result<i64, Refused> {
    match row.word()?.parse::<i64>() {
        Ok(time) => Ok(time),
        Err(_) => Err(Refused),
    }
}

/// Returns the mark that is the next word, `-` for none.
fn mark_in(row: &mut Row<'_>) -> Result<Option<u32>, Refused> {
    match row.word()? {
        "-" => Ok(None),
        digits => match digits.parse::<u32>() {
            Ok(mark) => Ok(Some(mark)),
            Err(_) => Err(Refused),
        },
    }
}

/// Tells the run that a node begins next, and when it begins, or `none`.
fn tell_next(mut row: Row<'_>, answer: &mut Answer) -> Result<(), Refused> {
    let (now, start) = (time_in(&mut row)?, time_in(&mut row)?);
    let Ok(period) = row.word()?.parse::<u64>() else {
        return Err(Refused);
    };
    let timetable = Timetable { start, period };
    match timetable.next_run(now, mark_in(&mut row)?) {
        Some(next) => {
            answer.field("run", next.number);
            answer.field("begins", next.begins);
        }
        None => answer.word("none"),
    }
    Ok(())
}
