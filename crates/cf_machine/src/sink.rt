//! Standard output as a sink.
ghost use Rattle.std.specs.Prelude.{◌≡◌, None};

use arrayvec::ArrayVec;
use cf_outside::{Sink, WriteAnswer};
use std::io::Write;

/// How many octets are held back at most.
const MOST_HELD: usize = 300;

/// When what is put is written.
#[derive(Clone, Copy, PartialEq, Eq)]
pub enum Printing {
    /// With its call.
    AtOnce,
    /// What was put last, if it is short, once the files of the work are written: nothing is printed of work that was not done.
    LastAtEnd,
}

/// A writer, as that of standard output. It tells nothing of what was put, and counts its failures.
#[derive(Drop)]
pub struct RealSink<W: Write + Drop> {
    writer: W,
    printing: Printing,
    faults: u64,
    /// What was put last, where it is not written yet.
    held: ArrayVec<u8, MOST_HELD>,
    is_held: bool,
}

impl<W: Write + Drop> RealSink<W> {
    /// A sink over a writer, with nothing held back. Its count of faults is 0.
    pub fn new(writer: W, printing: Printing) -> Self
        ensures { result.faults ≡ 0 }
    {
        RealSink {
            writer,
            printing,
            faults: 0,
            held: ArrayVec::new(),
            is_held: false,
        }
    }

    /// Writes what was held back; whether all of it was written. A sink that is left without it does not write that.
    pub fn finish(&mut self) -> bool
        ensures { self.new.faults ≡ self.old.faults }
    {
        if !self.is_held {
            return true;
        }
        self.is_held = false;
        self.writer.write_all(self.held.as_slice()).is_ok() && self.writer.flush().is_ok()
    }

    /// Writes bytes and flushes, or holds them back: at most 300 octets, of a sink that writes what was put last at the end.
    /// Whether that was done.
    fn take(&mut self, bytes: &[u8]) -> bool
        ensures { self.new.faults ≡ self.old.faults }
    {
        if self.printing == Printing::LastAtEnd {
            self.held.clear();
            self.is_held = self.held.try_extend_from_slice(bytes).is_ok();
        }
        self.is_held || self.writer.write_all(bytes).is_ok() && self.writer.flush().is_ok()
    }
}

impl<W: Write + Drop> Sink for RealSink<W> {
    ghost text = { λ _. None };

    ghost faults = { λ s. s.faults };

    fn put(&mut self, bytes: &[u8]) -> WriteAnswer {
        let faults = self.faults;
        if self.finish() && self.take(bytes) {
            return WriteAnswer::Done;
        }
        self.faults = faults.saturating_add(1);
        WriteAnswer::Failed
    }
}
