//! A text that is put together piece by piece.
use cf_policylang::PolicyRefusal;
use std::alloc::{AllocError, Global};
use std::fmt::Write;

/// A text so far, and whether it has all that was put to it. Once memory ran out nothing more is put to it.
#[derive(Drop)]
pub(crate) struct Page {
    pub(crate) alloc: Global,
    text: String,
    is_whole: bool,
}

impl Page {
    /// An empty text.
    pub(crate) fn new(alloc: Global) -> Page {
        Page {
            alloc,
            text: String::new(alloc),
            is_whole: true,
        }
    }

    /// The text, if memory did not run out.
    pub(crate) fn finish(self) -> Result<String, AllocError> {
        if self.is_whole {
            Ok(self.text)
        } else {
            Err(AllocError)
        }
    }

    /// Takes all of the text away.
    pub(crate) fn clear(&mut self) {
        self.text.clear();
    }

    /// Notes that memory ran out.
    pub(crate) fn run_out(&mut self) {
        self.is_whole = false;
    }

    /// Notes that memory ran out, if it did.
    pub(crate) fn keep(&mut self, is_done: bool) {
        self.is_whole &= is_done;
    }

    /// Puts a piece; from where memory ran out on nothing more is put.
    pub(crate) fn push(&mut self, piece: &str) {
        if self.is_whole {
            self.is_whole = self.text.push_str(piece).is_ok();
        }
    }

    /// Puts one piece after the other.
    pub(crate) fn push_all(&mut self, pieces: &[&str]) {
        for piece in pieces {
            self.push(piece);
        }
    }

    /// Puts pieces with commas between them.
    pub(crate) fn push_list(&mut self, pieces: &[&str]) {
        let mut between = "";
        for piece in pieces {
            self.push(between);
            self.push(piece);
            between = ", ";
        }
    }

    /// Puts a character.
    pub(crate) fn push_char(&mut self, character: char) {
        if self.is_whole {
            self.is_whole = self.text.push(character).is_ok();
        }
    }

    /// Puts a decimal number.
    pub(crate) fn push_number(&mut self, number: u64) {
        if self.is_whole {
            self.is_whole = write!(self.text, "{number}").is_ok();
        }
    }

    /// Puts a decimal number, with its sign where that is a minus.
    pub(crate) fn push_signed(&mut self, number: i64) {
        if self.is_whole {
            self.is_whole = write!(self.text, "{number}").is_ok();
        }
    }

    /// Puts a number behind a piece.
    pub(crate) fn push_number_after(&mut self, piece: &str, number: u64) {
        self.push(piece);
        self.push_number(number);
    }

    /// Puts a number with its sign behind a piece.
    pub(crate) fn push_signed_after(&mut self, piece: &str, number: i64) {
        self.push(piece);
        self.push_signed(number);
    }

    /// Puts a refusal as it is printed.
    pub(crate) fn push_refusal(&mut self, refusal: &PolicyRefusal) {
        if self.is_whole {
            self.is_whole = write!(self.text, "{refusal}").is_ok();
        }
    }
}
