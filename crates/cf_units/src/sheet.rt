//! What comes of a line of a row, put together piece by piece, and what differs first.

use cf_samples::rows;
use cf_view::View;
use std::alloc::Global;
use std::fmt::Write;

/// What was found at the line that is played, and what differs first in the row.
#[derive(Drop)]
pub struct Sheet {
    alloc: Global,
    found: String,
    /// What differs first, or why the row is not played; empty while nothing does.
    wrong: String,
    /// Whether a line was looked at.
    is_played: bool,
    /// Whether memory sufficed.
    is_whole: bool,
}

/// A line's call, and what has to come of it: nothing where the line says nothing.
pub fn call_in(line: &str) -> (&str, &str) {
    rows::row(line).unwrap_or((line, ""))
}

/// The first word of a text, and what stands after it.
pub fn parted(text: &str) -> (&str, &str) {
    text.split_once(' ').unwrap_or((text, ""))
}

/// Whether each of these octets is this one.
fn are_all(octets: &[u8], one: u8) -> bool {
    for octet in octets {
        if *octet != one {
            return false;
        }
    }
    true
}

impl Sheet {
    /// Nothing found yet.
    pub fn new(alloc: Global) -> Self {
        Sheet {
            alloc,
            found: String::new(alloc),
            wrong: String::new(alloc),
            is_played: false,
            is_whole: true,
        }
    }

    /// Where the texts of the row are allocated.
    pub fn alloc(&self) -> Global {
        self.alloc
    }

    /// What is said of the row.
    pub fn said(&self) -> &str {
        if !self.is_whole {
            "memory ran out"
        } else if !self.wrong.is_empty() {
            self.wrong.as_str()
        } else if self.is_played {
            "same"
        } else {
            "no line"
        }
    }

    /// Says why the row is not played.
    pub fn refuse(&mut self, why: &str) {
        self.is_whole &= self.wrong.push_str(why).is_ok();
    }

    /// Looks whether what was found is what has to come of a line; the next line begins anew.
    pub fn see(&mut self, line: &str) {
        let (_, wanted) = call_in(line);
        if self.wrong.is_empty() && self.found.as_str() != wanted {
            self.is_whole &= write!(self.wrong, "{line}: {}", self.found.as_str()).is_ok();
        }
        self.found.clear();
        self.is_played = true;
    }

    /// What was found so far, which is taken away.
    pub fn take(&mut self) -> String {
        std::mem::replace(&mut self.found, String::new(self.alloc))
    }

    /// Whether this is what was found, which is taken away where it is.
    pub fn takes(&mut self, wanted: &str) -> bool {
        let is_same = self.found.as_str() == wanted;
        if is_same {
            self.found.clear();
        }
        is_same
    }

    /// Puts a piece to what was found.
    pub fn put(&mut self, piece: &str) {
        self.is_whole &= self.found.push_str(piece).is_ok();
    }

    /// Puts a decimal number behind a piece.
    pub fn put_number(&mut self, piece: &str, number: u64) {
        self.put(piece);
        self.is_whole &= write!(self.found, "{number}").is_ok();
    }

    /// Puts a decimal number, with its sign where that is a minus, behind a piece.
    pub fn put_signed(&mut self, piece: &str, number: i64) {
        self.put(piece);
        self.is_whole &= write!(self.found, "{number}").is_ok();
    }

    /// Puts a number in hexadecimal digits behind a piece, without zeros in front.
    pub fn put_digits(&mut self, piece: &str, number: u32) {
        self.put(piece);
        self.is_whole &= write!(self.found, "{number:x}").is_ok();
    }

    /// Puts octets in hexadecimal digits.
    pub fn put_octets(&mut self, octets: &[u8]) {
        match rows::hex(self.alloc, octets) {
            Ok(digits) => self.put(&digits),
            Err(_) => self.is_whole = false,
        }
    }

    /// Puts the octets of a view in hexadecimal digits.
    pub fn put_view(&mut self, octets: &View<'_>) {
        let (first, second) = octets.pieces();
        self.put_octets(first);
        self.put_octets(second);
    }

    /// Puts octets as a row spells them: many that are all the same once, with their number.
    pub fn put_spelled(&mut self, octets: &View<'_>) {
        let (first, second) = octets.pieces();
        let one = first.first().or(second.first()).copied().unwrap_or(0);
        if octets.len() > 7 && are_all(first, one) && are_all(second, one) {
            self.put_octets(&[one]);
            self.put_number("*", octets.len() as u64);
        } else {
            self.put_view(octets);
        }
    }

    /// The octets that a text spells.
    pub fn octets(&mut self, spelled: &str) -> Vec<u8> {
        match rows::octets(self.alloc, spelled) {
            Ok(octets) => octets,
            Err(_) => {
                self.put("no octets: ");
                Vec::new(self.alloc)
            }
        }
    }

    /// The number that a text spells.
    pub fn number(&mut self, spelled: &str) -> u64 {
        let number = spelled.parse::<u64>();
        if number.is_err() {
            self.put("no number: ");
        }
        number.unwrap_or(0)
    }

    /// The size that a text spells.
    pub fn size(&mut self, spelled: &str) -> usize {
        let number = spelled.parse::<usize>();
        if number.is_err() {
            self.put("no number: ");
        }
        number.unwrap_or(0)
    }

    /// The number with a sign that a text spells.
    pub fn place(&mut self, spelled: &str) -> i64 {
        let number = spelled.parse::<i64>();
        if number.is_err() {
            self.put("no number: ");
        }
        number.unwrap_or(0)
    }

    /// The number below 65,536 that a text spells.
    pub fn word(&mut self, spelled: &str) -> u16 {
        let number = spelled.parse::<u16>();
        if number.is_err() {
            self.put("no number: ");
        }
        number.unwrap_or(0)
    }
}
