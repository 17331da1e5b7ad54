//! A text that is put together, of which it is kept whether memory lasted.

use arrayvec::ArrayString;
use cf_view::{View, push_hex, push_signed};
use std::alloc::{AllocError, Global};

/// A text so far.
#[derive(Drop)]
pub(crate) struct Writer {
    text: String,
    has_failed: bool,
}

impl Writer {
    /// No text.
    pub(crate) fn new(alloc: Global) -> Writer {
        Writer {
            text: String::new(alloc),
            has_failed: false,
        }
    }

    /// Puts a text behind the others.
    pub(crate) fn put(&mut self, text: &str) {
        if self.text.push_str(text).is_err() {
            self.has_failed = true;
        }
    }

    /// Puts a number.
    pub(crate) fn number(&mut self, number: i64) {
        let mut digits = ArrayString::<32>::new();
        push_signed(&mut digits, number);
        self.put(digits.as_str());
    }

    /// Puts a number of two digits.
    pub(crate) fn two_digits(&mut self, number: u64) {
        if number < 10 {
            self.put("0");
        }
        self.number((number % 100) as i64);
    }

    /// Puts the first 16 of some octets in hexadecimal.
    pub(crate) fn hex(&mut self, octets: &[u8]) {
        let mut digits = ArrayString::<32>::new();
        push_hex(&mut digits, &View::one(octets));
        self.put(digits.as_str());
    }

    /// The text, if memory lasted.
    pub(crate) fn done(self) -> Result<String, AllocError> {
        if self.has_failed {
            return Err(AllocError);
        }
        Ok(self.text)
    }
}
