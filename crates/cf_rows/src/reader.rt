//! What rows spell, read over a book. The first fault is kept, and what is spelled wrong stands for nothing, so that no reading has to
//! stop at it: who plays a row asks once, before its words are played.

use crate::book::Book;
use crate::fault::{Fault, Wanted};
use crate::octets::push_octets;
use std::alloc::Global;

/// A book, and the first fault of what was read over it.
#[derive(Clone, Copy)]
pub struct Reader<'a> {
    pub alloc: Global,
    pub book: &'a Book,
    pub fault: Option<Fault>,
}

impl<'a> Reader<'a> {
    /// Nothing is read.
    pub fn new(book: &'a Book) -> Self {
        Reader {
            alloc: book.alloc,
            book,
            fault: None,
        }
    }

    /// Keeps a fault, if it is the first.
    pub fn notes(&mut self, fault: Fault) {
        if self.fault.is_none() {
            self.fault = Some(fault);
        }
    }

    /// This is missing, or stands there in no form.
    pub fn wants(&mut self, what: Wanted) {
        self.notes(Fault::Wanted(what));
    }

    /// The fault is in this line, if there is one that has none yet.
    pub fn is_at(&mut self, line: &str) {
        if let Some(fault) = self.fault {
            self.fault = Some(fault.at(line));
        }
    }

    /// Puts octets after others.
    pub fn puts(&mut self, bytes: &[u8], all: &mut Vec<u8>) {
        if all.extend_from_slice(bytes).is_err() {
            self.notes(Fault::NoMemory);
        }
    }

    /// Puts what a text spells after other octets.
    pub fn spells(&mut self, spelled: &str, all: &mut Vec<u8>) {
        if let Err(fault) = push_octets(self.book, spelled, all) {
            self.notes(fault);
        }
    }

    /// The octets that a text spells.
    pub fn octets(&mut self, spelled: &str) -> Vec<u8> {
        let mut all = Vec::new(self.alloc);
        self.spells(spelled, &mut all);
        all
    }

    /// A text of its own.
    pub fn text(&mut self, text: &str) -> String {
        match String::from_str(self.alloc, text) {
            Ok(text) => text,
            Err(_) => {
                self.notes(Fault::NoMemory);
                String::new(self.alloc)
            }
        }
    }

    /// What stands before and behind the first such letter.
    pub fn parts<'t>(&mut self, text: &'t str, between: char, what: Wanted) -> (&'t str, &'t str) {
        match text.split_once(between) {
            Some(parts) => parts,
            None => {
                self.wants(what);
                (text, "")
            }
        }
    }

    /// A number of calls.
    pub fn word64(&mut self, spelled: &str) -> u64 {
        match spelled.parse::<u64>() {
            Ok(number) => number,
            Err(_) => {
                self.wants(Wanted::Number);
                0
            }
        }
    }

    /// A number below 2^32.
    pub fn word32(&mut self, spelled: &str) -> u32 {
        match spelled.parse::<u32>() {
            Ok(number) => number,
            Err(_) => {
                self.wants(Wanted::Number);
                0
            }
        }
    }

    /// A number below 65,536.
    pub fn word16(&mut self, spelled: &str) -> u16 {
        match spelled.parse::<u16>() {
            Ok(number) => number,
            Err(_) => {
                self.wants(Wanted::Number);
                0
            }
        }
    }

    /// A number of octets, copies or calls.
    pub fn size(&mut self, spelled: &str) -> usize {
        match spelled.parse::<usize>() {
            Ok(number) => number,
            Err(_) => {
                self.wants(Wanted::Number);
                0
            }
        }
    }

    /// A moment in microseconds.
    pub fn moment(&mut self, spelled: &str) -> u64 {
        let (seconds, micros) = self.parts(spelled, '.', Wanted::Moment);
        if micros.len() != 6 {
            self.wants(Wanted::Moment);
        }
        u64::from(self.word32(seconds)) * 1_000_000 + u64::from(self.word32(micros))
    }
}
