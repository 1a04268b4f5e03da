//! Calls of script lines.
use crate::names::Refused;
use crate::rows::Row;
use crate::texts::Answer;
use gen_net::Net;
use gen_script::{ScriptLine, read_script_bytes, read_script_line};
use gen_types::GeneralNo;
use std::alloc::Global;

/// Tells what a line says in the script of a general of a network, or its fault. A line that is UTF-8 is read as a text.
pub(crate) fn tell_script(
    alloc: Global,
    net: &Net,
    mut row: Row<'_>,
    answer: &mut Answer,
) -> Result<(), Refused> {
    let general = row.general()?;
    if general.get() >= net.generals() {
        return Err(Refused);
    }
    let bytes = row.rest()?;
    let said = match str::from_utf8(bytes) {
        Ok(line) => read_script_line(alloc, net, general, line),
        Err(_) => read_script_bytes(alloc, net, general, bytes),
    };
    match said {
        Ok(said) => tell_line(&said, answer),
        Err(fault) => answer.show(fault),
    }
    Ok(())
}

/// Tells a line as it is spelled with hexadecimal digits of lower case.
fn tell_line(line: &ScriptLine, answer: &mut Answer) {
    match line {
        ScriptLine::Make {
            round,
            to,
            order,
            path,
        } => {
            begin("make", *round, *to, answer);
            answer.show(*order);
            answer.generals(path.generals());
        }
        ScriptLine::Pass {
            round,
            to,
            from,
            order,
            path,
        } => {
            begin("pass", *round, *to, answer);
            answer.show(*from);
            answer.show(*order);
            answer.generals(path.generals());
        }
        ScriptLine::Bend {
            round,
            to,
            from,
            order,
        } => {
            begin("bend", *round, *to, answer);
            answer.show(*from);
            answer.show(*order);
        }
        ScriptLine::Raw { round, to, parcel } => {
            begin("raw", *round, *to, answer);
            answer.hex(parcel.bytes());
        }
        ScriptLine::Hide { round, from, order } => {
            begin("hide", *round, *from, answer);
            answer.show(*order);
        }
        ScriptLine::TwoHeads => answer.word("twohead"),
    }
}

/// Tells the first word of a line, its round, and the general behind these.
fn begin(word: &str, round: u8, general: GeneralNo, answer: &mut Answer) {
    answer.field(word, round);
    answer.show(general);
}
