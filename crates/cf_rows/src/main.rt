//! Plays rows over the top call and objects in memory, and prints for each whether it left what it says. The words are
//! the names of files of rows; `docs/DEVELOPING.md` says how a row is written.
#![tactic(auto)]

mod book;
mod compare;
mod fault;
mod left;
mod octets;
mod packets;
mod reader;
mod row;
mod service;
mod sweep;

use crate::book::Book;
use crate::compare::difference;
use crate::fault::{Fault, Wanted};
use crate::left::play;
use crate::reader::Reader;
use crate::row::{Row, field, row_of};
use crate::sweep::{sweep, sweep_of};
use cf_samples::expand::expanded;
use cf_samples::source::behind_source;
use std::process::ExitCode;
use std::rt::Files;
use std::{env, fs, io};

fn main(rt: HostRuntime) -> io::Result<ExitCode> {
    let mut book = Book::new(rt.alloc());
    let mut wrong = 0_u8;
    for name in env::args(&rt)?.skip(1) {
        wrong |= plays_file(&rt, &mut book, &name)?;
    }
    Ok(ExitCode::from(wrong))
}

/// Plays the rows of a file, and gives 1 where one is not as it says.
fn plays_file(rt: &HostRuntime, book: &mut Book, name: &str) -> io::Result<u8> {
    let text = fs::read_to_string(rt, name)?;
    let mut wrong = 0_u8;
    for block in text.split("\n\n") {
        wrong |= tells(rt, name, block, played(book, block))?;
    }
    Ok(wrong)
}

/// Prints what is said of a block, if it is a row.
fn tells(
    rt: &HostRuntime,
    name: &str,
    block: &str,
    played: Result<Option<String>, Fault>,
) -> io::Result<u8> {
    match played {
        Ok(None) => Ok(0),
        Ok(Some(said)) => {
            println!(rt; "{}: {}", name_of(block), said)?;
            Ok(u8::from(said.as_str() != "same"))
        }
        Err(fault) => {
            println!(rt; "{name}: {}: {fault}", name_of(block))?;
            Ok(1)
        }
    }
}

/// The name of a row, or the first line of another block.
fn name_of(block: &str) -> &str {
    field(block, "row:").unwrap_or(block.lines().next().unwrap_or(""))
}

/// What is said of a row; a block that is none goes into the book.
fn played(book: &mut Book, block: &str) -> Result<Option<String>, Fault> {
    let block = expanded(book.alloc, block)?;
    if field(&block, "row:").is_none() {
        book.take(&block)?;
        return Ok(None);
    }
    match behind_source(&block) {
        Some(lines) => said(book, lines),
        None => Err(Fault::Wanted(Wanted::Source)),
    }
}

/// What is said of the lines of a row.
fn said(book: &Book, lines: &str) -> Result<Option<String>, Fault> {
    let mut reader = Reader::new(book);
    let row = row_of(&mut reader, lines);
    let differs = differs(&mut reader, &row)?;
    match (reader.fault, differs) {
        (Some(fault), _) => Err(fault),
        (None, Some(differs)) => Ok(Some(differs)),
        (None, None) => Ok(Some(String::from_str(book.alloc, "same")?)),
    }
}

/// What a row leaves otherwise than it says, of all its words; without words it is a run over its packets.
fn differs(reader: &mut Reader<'_>, row: &Row) -> Result<Option<String>, Fault> {
    if !row.has("words:") {
        return plays(reader, row, "run p c o l");
    }
    for words in row.all("words:").iter() {
        let found = plays(reader, row, words)?;
        if found.is_some() {
            return Ok(found);
        }
    }
    Ok(None)
}

fn plays(reader: &mut Reader<'_>, row: &Row, words: &str) -> Result<Option<String>, Fault> {
    match sweep_of(reader, row) {
        Some((fake, bytes)) => sweep(reader, row, words, fake, bytes),
        None => {
            let script = row.script(reader);
            let left = play(reader, row, words, &script);
            difference(reader, row, words, &left)
        }
    }
}
