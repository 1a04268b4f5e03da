//! Files of rows.
use crate::commands;
use row_calls::names::{Names, Refused};
use row_calls::rows::{Asked, Row};
use row_calls::running;
use row_calls::texts::Answer;
use std::alloc::Global;
use std::rt::Files;
use std::sync::Wait;
use std::thread::Threads;
use std::{fs, io};

/// Tries each row of a file. Writes a line for each whose answer is another one, and one for the file.
pub(crate) fn try_file<R: AllocGlobal + Files + Print + Threads + Wait + Sync>(
    rt: &R,
    name: &str,
) -> io::Result<()> {
    let text = fs::read_to_string(rt, name)?;
    let mut names = Names::new(rt.alloc());
    let mut number = 0u64;
    for line in text.lines() {
        number = number.saturating_add(1);
        tell_line(rt, &mut names, name, number, line)?;
    }
    let end = if number == 0 { "nothing" } else { "the end" };
    println!(rt; "{name}: read to {end}")
}

/// Does what a line of a file says, and writes a line if its answer is another one.
fn tell_line<R: AllocGlobal + Files + Print + Threads + Wait + Sync>(
    rt: &R,
    names: &mut Names,
    name: &str,
    number: u64,
    line: &str,
) -> io::Result<()> {
    let mut wrong = Answer::new(rt.alloc());
    try_line(rt, names, line, &mut wrong)?;
    let said = wrong.text()?;
    if !said.is_empty() {
        println!(rt; "{name}, line {number}: {said}")?;
    }
    Ok(())
}

/// What a line of a file is.
#[derive(Clone, Copy)]
enum Line<'a> {
    /// Nothing, or a comment.
    Comment,
    /// A name, and what it stands for.
    Name(&'a str, &'a str),
    /// A row: what it asks, and its answer.
    Row(&'a str, &'a str),
    /// No line of a file of rows.
    Other,
}

/// Returns what a line is.
fn line_of(line: &str) -> Line<'_> {
    if line.is_empty() || line.starts_with('#') {
        return Line::Comment;
    }
    let Some((asked, wanted)) = line.split_once(" = ") else {
        return Line::Other;
    };
    match asked.strip_prefix("let ") {
        Some(name) => Line::Name(name, wanted),
        None => Line::Row(asked, wanted),
    }
}

/// Does what a line says: nothing, gives bytes a name, or tries a row. Tells what is wrong with it.
fn try_line<R: AllocGlobal + Files + Threads + Wait + Sync>(
    rt: &R,
    names: &mut Names,
    line: &str,
    wrong: &mut Answer,
) -> io::Result<()> {
    match line_of(line) {
        Line::Comment => {}
        Line::Name(name, said) => return give_name(rt, names, name, said),
        Line::Row(asked, wanted) => compare(rt, names, asked, wanted, wrong),
        Line::Other => wrong.word("no row"),
    }
    Ok(())
}

/// Gives a name to bytes.
fn give_name<R: AllocGlobal + Files>(
    rt: &R,
    names: &mut Names,
    name: &str,
    said: &str,
) -> io::Result<()> {
    let bytes = bytes_named(rt, names, said)?;
    names.add(rt.alloc(), name, bytes)
}

/// Returns the bytes that are given a name: those of a file behind `@`, or of pieces.
fn bytes_named<R: AllocGlobal + Files>(rt: &R, names: &Names, said: &str) -> io::Result<Vec<u8>> {
    match said.strip_prefix('@') {
        Some(file) => fs::read(rt, file),
        None => {
            let asked = Asked::new(rt.alloc(), names, said)?;
            Ok(asked.row().rest()?.to_vec(rt.alloc())?)
        }
    }
}

/// Tells how the answer to a row is another one than it should be, if it is.
fn compare<R: AllocGlobal + Threads + Wait + Sync>(
    rt: &R,
    names: &Names,
    asked: &str,
    wanted: &str,
    wrong: &mut Answer,
) {
    let mut answer = Answer::new(rt.alloc());
    let told = answer_row(rt, names, asked, &mut answer);
    match answer.text() {
        Ok(found) if told.is_ok() => tell_otherwise(found, wanted, wrong),
        _ => wrong.word("can't be tried"),
    }
}

/// Tells an answer that is another one than it should be.
fn tell_otherwise(found: &str, wanted: &str, wrong: &mut Answer) {
    if found != wanted {
        wrong.push(found);
        wrong.push(", not ");
        wrong.push(wanted);
    }
}

/// Answers what stands in front of a row's answer.
fn answer_row<R: AllocGlobal + Threads + Wait + Sync>(
    rt: &R,
    names: &Names,
    asked: &str,
    answer: &mut Answer,
) -> Result<(), Refused> {
    let asked = Asked::new(rt.alloc(), names, asked)?;
    let mut row = asked.row();
    match row.word()? {
        "cuts" => tell_cuts(rt, row, answer),
        call => tell(rt, call, row, answer),
    }
}

/// Tells what a call answers to the beginnings of its bytes, of lengths from one number on and before another: each answer
/// that is another one than the answer before, behind the length.
fn tell_cuts<R: AllocGlobal + Threads + Wait + Sync>(
    rt: &R,
    mut row: Row<'_>,
    answer: &mut Answer,
) -> Result<(), Refused> {
    let (from, to) = (row.number()?, row.number()?);
    let call = row.word()?;
    let mut before = Answer::new(rt.alloc());
    for len in from..to {
        before = tell_cut(rt, call, row.cut(len), len, &before, answer)?;
    }
    Ok(())
}

/// Tells the answer to the beginning of this length if it is another one than the answer before. Returns it.
fn tell_cut<R: AllocGlobal + Threads + Wait + Sync>(
    rt: &R,
    call: &str,
    row: Row<'_>,
    len: usize,
    before: &Answer,
    answer: &mut Answer,
) -> Result<Answer, Refused> {
    let mut next = Answer::new(rt.alloc());
    tell(rt, call, row, &mut next)?;
    let said = next.text()?;
    if said != before.text()? {
        answer.end_line();
        answer.show(len);
        answer.word(said);
    }
    Ok(next)
}

/// Answers a call.
fn tell<R: AllocGlobal + Threads + Wait + Sync>(
    rt: &R,
    call: &str,
    row: Row<'_>,
    answer: &mut Answer,
) -> Result<(), Refused> {
    let alloc = rt.alloc();
    if row_calls::tell(alloc, call, row, answer)?
        || running::tell(rt, call, row, answer)?
        || commands::tell(rt, call, row, answer)?
    {
        return Ok(());
    }
    tell_under(alloc, call, row, answer)
}

/// Answers a call on a header.
fn tell_under(
    alloc: Global,
    call: &str,
    mut row: Row<'_>,
    answer: &mut Answer,
) -> Result<(), Refused> {
    let header = row.header(alloc)?;
    let is_told = row_calls::tell_under(alloc, call, &header, row, answer)?;
    if !is_told {
        return Err(Refused);
    }
    Ok(())
}
