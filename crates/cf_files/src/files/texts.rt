//! What was read of files whose text is kept: who says something of one needs not read it a second time, which no pipe allows.

use std::alloc::Global;
use std::io;

/// A file whose text is kept as it is read.
#[derive(Drop)]
struct Text {
    name: String,
    /// How many octets are kept at most.
    most: usize,
    octets: Vec<u8>,
    is_read: bool,
}

impl Text {
    /// Takes octets that were read at a place, where they follow on those before; from place 0 on anew. Where memory runs out for them
    /// none are kept.
    fn take(&mut self, at: u64, given: &[u8]) {
        self.is_read = true;
        if at == 0 {
            self.octets.clear();
        }
        if at != self.octets.len() as u64 {
            return;
        }
        let room = self.most.saturating_sub(self.octets.len());
        let count = room.min(given.len());
        if self.octets.extend_from_slice(&given[..count]).is_err() {
            self.octets.clear();
        }
    }
}

/// The files whose texts are kept.
#[derive(Drop)]
pub(crate) struct Texts {
    kept: Vec<Text>,
}

impl Texts {
    /// No file.
    pub(crate) fn new(alloc: Global) -> Texts {
        Texts {
            kept: Vec::new(alloc),
        }
    }

    /// Keeps the text of a file from now on, so many octets at most. The error is want of memory.
    pub(crate) fn keep(&mut self, alloc: Global, name: &str, most: usize) -> io::Result<()> {
        self.kept.push(Text {
            name: String::from_str(alloc, name)?,
            most,
            octets: Vec::new(alloc),
            is_read: false,
        })?;
        Ok(())
    }

    /// Whether the text of a file is kept.
    pub(crate) fn has(&self, name: &str) -> bool {
        self.text_named(name).is_some()
    }

    fn text_named(&self, name: &str) -> Option<&Text> {
        for text in self.kept.iter() {
            if text.name.as_str() == name {
                return Some(text);
            }
        }
        None
    }

    /// Notes what was read of a file at a place.
    pub(crate) fn note(&mut self, name: &str, at: u64, given: &[u8]) {
        for text in self.kept.iter_mut() {
            if text.name.as_str() == name {
                text.take(at, given);
            }
        }
    }

    /// What was read of a file; nothing where its text is not kept, or no read of it was answered.
    pub(crate) fn of(&self, name: &str) -> Option<&[u8]> {
        match self.text_named(name) {
            Some(text) if text.is_read => Some(text.octets.as_slice()),
            _ => None,
        }
    }
}
