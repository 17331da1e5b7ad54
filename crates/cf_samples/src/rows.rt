//! Rows of tests as lines of text.
//!
//! A row is `GIVEN = WANTED`. An empty line, and one that begins with `#`, is none. Octets are hexadecimal digits; spaces
//! between them say nothing, and `5a*249` is 249 times `5a`.

use hex::FromHexError;
use std::alloc::Global;

/// What a row gives and what it wants, split at its first ` = `; `None` where the line has no row.
pub fn row(line: &str) -> Option<(&str, &str)> {
    if line.starts_with('#') {
        return None;
    }
    line.split_once(" = ")
}

/// The octets that a text spells.
///
/// # Errors
///
/// The text has something that is no octet or no number of times, or memory ran out.
pub fn octets(alloc: Global, text: &str) -> Result<Vec<u8>, FromHexError> {
    let mut all = Vec::new(alloc);
    for word in text.split_whitespace() {
        push_word(alloc, word, &mut all)?;
    }
    Ok(all)
}

/// Lower-case hexadecimal digits, two for each octet.
///
/// # Errors
///
/// Memory ran out.
pub fn hex(alloc: Global, octets: &[u8]) -> Result<String, FromHexError> {
    hex::encode(alloc, octets).map_err(|_| FromHexError::OutOfMemory)
}

fn push_word(alloc: Global, word: &str, all: &mut Vec<u8>) -> Result<(), FromHexError> {
    let (digits, times) = word.split_once('*').unwrap_or((word, "1"));
    let times = times
        .parse::<usize>()
        .map_err(|_| FromHexError::InvalidStringLength)?;
    let copy = hex::decode(alloc, digits.as_bytes())?;
    for _ in 0..times {
        all.extend_from_slice(copy.as_slice())
            .map_err(|_| FromHexError::OutOfMemory)?;
    }
    Ok(())
}
