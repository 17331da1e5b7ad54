//! The word that somebody may have meant.
use crate::page::Page;
use strsim::osa_distance;

/// The most characters of a word that is looked for.
const LONGEST: usize = 32;

/// The most edits between a word and what was meant.
const EDITS: usize = 2;

/// How many edits are too many between a word and what was meant by it: any, where the word is too long.
pub(crate) fn most_edits(word: &str) -> usize {
    if word.len() > LONGEST {
        0
    } else {
        word.len().min(EDITS + 1)
    }
}

/// Whether fewer edits lie between two words than the least so far, which then are the least.
pub(crate) fn is_nearer(out: &mut Page, word: &str, other: &str, least: &mut usize) -> bool {
    if *least == 0 {
        return false;
    }
    let edits = distance(out, word, other);
    let is_nearer = edits < *least;
    if is_nearer {
        *least = edits;
    }
    is_nearer
}

/// Whether a known word alone may be meant by this one.
pub(crate) fn is_near(out: &mut Page, word: &str, known: &str) -> bool {
    is_nearer(out, word, known, &mut most_edits(word))
}

/// How many edits lie between two words; more than any word has where memory runs out.
fn distance(out: &mut Page, word: &str, other: &str) -> usize {
    match osa_distance(out.alloc, word, other) {
        Ok(edits) => edits,
        Err(_) => {
            out.run_out();
            usize::MAX
        }
    }
}

/// Asks whether the word that is nearest to this one was meant, between marks, if there is one among known words with commas between
/// them.
pub(crate) fn push_meant(out: &mut Page, word: &str, known: &str, mark: &str) {
    if let Some(meant) = nearest_listed(out, word, known) {
        out.push_all(&["; did you mean ", mark, meant, mark, "?"]);
    }
}

/// The first of the known words, with commas between them, that are nearest to this one: at most two letters are added, left out,
/// changed or swapped, and fewer than it has. Where memory runs out, the text does not become whole.
fn nearest_listed<'a>(out: &mut Page, word: &str, known: &'a str) -> Option<&'a str> {
    let mut best = None;
    let mut least = most_edits(word);
    for candidate in known.split(", ") {
        if is_nearer(out, word, candidate, &mut least) {
            best = Some(candidate);
        }
    }
    best
}

/// Whether a word is among known ones with commas between them.
pub(crate) fn has_word(known: &str, word: &str) -> bool {
    for other in known.split(", ") {
        if other == word {
            return true;
        }
    }
    false
}

/// What stands behind a word and a space in one of some rows.
pub(crate) fn row_of(rows: &'static str, word: &str) -> Option<&'static str> {
    for row in rows.lines() {
        if let Some((first, rest)) = row.split_once(' ') {
            if first == word {
                return Some(rest);
            }
        }
    }
    None
}
