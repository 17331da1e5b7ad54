//! Octets, as a line spells them.

use crate::book::Book;
use crate::fault::{Fault, Wanted};

/// Puts the octets that hexadecimal digits or the names of units spell after others, with spaces between them; `0001*3` is three times
/// `0001`, and `W*3@12..36` the octets 12 to 35 of three times the unit `W`.
pub fn push_octets(book: &Book, spelled: &str, all: &mut Vec<u8>) -> Result<(), Fault> {
    for token in spelled.split(' ') {
        match token.split_once('@') {
            None => push_token(book, token, all)?,
            Some((whole, part)) => push_part(book, whole, part, all)?,
        }
    }
    Ok(())
}

fn size(spelled: &str) -> Result<usize, Fault> {
    match spelled.parse::<usize>() {
        Ok(number) => Ok(number),
        Err(_) => Err(Fault::Wanted(Wanted::Number)),
    }
}

fn push_part(book: &Book, whole: &str, part: &str, all: &mut Vec<u8>) -> Result<(), Fault> {
    let mut octets = Vec::new(book.alloc);
    push_token(book, whole, &mut octets)?;
    push_between(&octets, part, all)
}

/// Puts the octets from a place to another.
fn push_between(octets: &[u8], part: &str, all: &mut Vec<u8>) -> Result<(), Fault> {
    let (from, to) = part.split_once("..").ok_or(Fault::Wanted(Wanted::Part))?;
    let (from, to) = (size(from)?, size(to)?);
    all.extend_from_slice(octets.get(from..to).ok_or(Fault::Wanted(Wanted::Part))?)?;
    Ok(())
}

fn push_token(book: &Book, token: &str, all: &mut Vec<u8>) -> Result<(), Fault> {
    let (unit, times) = token.split_once('*').unwrap_or((token, "1"));
    let times = size(times)?;
    if let Some(bytes) = book.units.get(unit) {
        return push_copies(bytes.as_slice(), times, all);
    }
    match hex::decode(book.alloc, unit.as_bytes()) {
        Ok(bytes) => push_copies(bytes.as_slice(), times, all),
        Err(_) => Err(Fault::Wanted(Wanted::Octets)),
    }
}

fn push_copies(bytes: &[u8], times: usize, all: &mut Vec<u8>) -> Result<(), Fault> {
    for _ in 0..times {
        all.extend_from_slice(bytes)?;
    }
    Ok(())
}
