//! Real files.
//! A file that has gone between two calls, and a name that is a folder, are read faults like any other.
ghost use Rattle.std.specs.Prelude.{◌≡◌, ◌≤◌, IfErr, IfOk, [], false, length, true};
ghost use Rattle.cf_outside.specs.Faults.{HasCause, times_in};
ghost use Rattle.cf_outside.specs.Files.{untold};

mod order;
mod reader;
mod same;
mod texts;
mod writer;

use crate::files::reader::{Reader, forget, opened, read_from};
use crate::files::same::{Place, Use, first_twins, is_begun, is_printed, place_of};
use crate::files::texts::Texts;
use crate::files::writer::Writers;
use cf_outside::{FailedReads, Files, ReadAnswer, WriteAnswer};
pub use same::Twins;
use std::alloc::Global;
use std::io;
use std::rt::Files as FileSystem;

/// When appended bytes go out to the file.
#[derive(Clone, Copy, PartialEq, Eq)]
pub enum Gather {
    /// Each with its call, as for a log that people follow.
    Nothing,
    /// In pieces of 64 KiB, before a read of the file, before a read that may wait (of a pipe, say), and at the end; over all files in
    /// the order in which they came.
    Pieces,
}

/// A call that failed: the name of its file and what the system said.
#[derive(Drop)]
pub struct Fault {
    pub name: String,
    pub error: io::Error,
}

/// Why an output was not made, though the system would have made it.
#[derive(Drop)]
pub enum Withheld {
    /// It is an input, or another output, under another name.
    Twins(Twins),
    /// Its name is `-`, which other programs read as standard output.
    Dash,
    /// It is what standard output goes to, which has the result.
    Printed(String),
}

/// The files of the machine. They tell nothing of what they hold. Failures are counted. A file stays open between calls, and is
/// read ahead.
/// A file that two of the command's names stand for is never made empty.
#[derive(Drop)]
pub struct RealFiles<'a, R: FileSystem> {
    rt: &'a R,
    alloc: Global,
    gather: Gather,
    reader: Option<Reader<R::File>>,
    texts: Texts,
    writers: Writers<R>,
    /// Which files the command's names stand for.
    places: Vec<Place>,
    fault: Option<Fault>,
    withheld: Option<Withheld>,
    /// What was gathered for a file that was then read could not be written.
    is_short: bool,
    failed_reads: FailedReads,
    write_faults: u64,
}

impl<'a, R: FileSystem> RealFiles<'a, R> {
    /// Files of which none is open, with no name noted. Every count of faults is 0.
    pub fn new(rt: &'a R, alloc: Global, gather: Gather) -> Self
        ensures counts { (result.failed_reads.names ≡ []) × (result.write_faults ≡ 0) }
        ensures whole { result.is_short ≡ false }
    {
        RealFiles {
            rt,
            alloc,
            gather,
            reader: None,
            texts: Texts::new(alloc),
            writers: Writers::new(alloc),
            places: Vec::new(alloc),
            fault: None,
            withheld: None,
            is_short: false,
            failed_reads: FailedReads::new(),
            write_faults: 0,
        }
    }

    /// Notes which file the name of an input stands for before the work begins, so that no output is made empty that is one.
    pub fn expect(&mut self, name: &str) -> io::Result<()>
        ensures reads { self.new.failed_reads.names ≡ self.old.failed_reads.names }
        ensures writes { self.new.write_faults ≡ self.old.write_faults }
    {
        self.note(name, Use::Read)
    }

    /// Notes which file the name of an output stands for before the work begins. The first output that is made is withheld where
    /// any of them is an input, or another output, under another name.
    pub fn expect_output(&mut self, name: &str) -> io::Result<()>
        ensures reads { self.new.failed_reads.names ≡ self.old.failed_reads.names }
        ensures writes { self.new.write_faults ≡ self.old.write_faults }
    {
        self.note(name, Use::Output)
    }

    /// Keeps what is read of a file from now on, from its beginning up to so many octets. The error is want of memory.
    pub fn keep_text(&mut self, name: &str, most: usize) -> io::Result<()>
        ensures reads { self.new.failed_reads.names ≡ self.old.failed_reads.names }
        ensures writes { self.new.write_faults ≡ self.old.write_faults }
    {
        self.texts.keep(self.alloc, name, most)
    }

    /// What was read last of a file whose text is kept; nothing where nothing was read of it.
    pub fn text_of(&self, name: &str) -> Option<&[u8]> {
        self.texts.of(name)
    }

    /// Notes a name, what it leads to now, and what is done with it. The error is want of memory.
    fn note(&mut self, name: &str, used: Use) -> io::Result<()>
        ensures reads { self.new.failed_reads.names ≡ self.old.failed_reads.names }
        ensures writes { self.new.write_faults ≡ self.old.write_faults }
    {
        let place = place_of(self.rt, self.alloc, name, used)?;
        self.places.push(place)?;
        Ok(())
    }

    /// Whether the file of this name was made anew by this work, and so is no longer as it was.
    pub fn is_begun(&self, name: &str) -> bool {
        is_begun(&self.places, name)
    }

    /// The last call that failed, if one did, with the error of the system; nothing where memory ran out for its name.
    pub fn fault(&self) -> Option<&Fault> {
        self.fault.as_ref()
    }

    /// Why an output was not made, though the system would have made it.
    pub fn withheld(&self) -> Option<&Withheld> {
        self.withheld.as_ref()
    }

    /// Writes what was gathered; says whether all of it was written, before a read too.
    pub fn finish(&mut self) -> bool
        ensures short { self.old.is_short ≡ true → result ≡ false }
        ensures kept { self.new.is_short ≡ self.old.is_short }
    {
        match self.writers.flush() {
            Ok(()) => !self.is_short,
            Err(fault) => {
                self.fault = fault;
                false
            }
        }
    }

    /// Reads at a place, once what was gathered is written where it is for this file, or the read may have to wait. It stands apart from
    /// the octets that were read ahead, so that these cost no more than their copy.
    #[inline(never)]
    fn read(&mut self, name: &str, at: u64, buf: &mut [u8]) -> io::Result<usize>
        ensures inside { IfOk result (λ n. n ≤ length buf.new) }
        ensures reads { self.new.failed_reads.names ≡ self.old.failed_reads.names }
        ensures writes { self.new.write_faults ≡ self.old.write_faults }
        ensures short { self.old.is_short ≡ true → self.new.is_short ≡ true }
    {
        if self.writers.holds_of(name) {
            self.write_before_read()?;
        }
        let is_kept = self.texts.has(name);
        let (mut reader, may_wait) = opened(self.rt, self.alloc, &mut self.reader, name, is_kept)?;
        if may_wait {
            self.write_before_read()?;
        }
        let count = read_from(&mut reader, at, buf)?;
        self.reader = Some(reader);
        if is_kept {
            self.texts.note(name, at, &buf[..count]);
        }
        Ok(count)
    }

    /// Writes all that was gathered, before a read of it or one that may wait, and notes where that failed.
    fn write_before_read(&mut self) -> io::Result<()>
        ensures reads { self.new.failed_reads.names ≡ self.old.failed_reads.names }
        ensures writes { self.new.write_faults ≡ self.old.write_faults }
        ensures fails { IfErr result (λ _. self.new.is_short ≡ true) }
        ensures kept { IfOk result (λ _. self.new.is_short ≡ self.old.is_short) }
    {
        match self.writers.flush() {
            Ok(()) => Ok(()),
            Err(fault) => {
                self.is_short = true;
                match fault {
                    Some(fault) => Err(fault.error),
                    None => Err(io::Error::from(io::ErrorKind::OutOfMemory)),
                }
            }
        }
    }

    /// Makes a file empty, unless that is withheld.
    fn create_new(&mut self, name: &str) -> Result<(), Option<Fault>>
        ensures reads { self.new.failed_reads.names ≡ self.old.failed_reads.names }
        ensures writes { self.new.write_faults ≡ self.old.write_faults }
    {
        self.see_allowed(name)?;
        forget(&mut self.reader, name);
        self.writers.create(self.rt, name)?;
        let noted = self.note(name, Use::Begun);
        self.named(name, noted)
    }

    /// Makes a file ready to be gone on with, unless that is withheld.
    fn open_kept(&mut self, name: &str) -> Result<(), Option<Fault>>
        ensures reads { self.new.failed_reads.names ≡ self.old.failed_reads.names }
        ensures writes { self.new.write_faults ≡ self.old.write_faults }
    {
        self.see_allowed(name)?;
        forget(&mut self.reader, name);
        self.writers.go_on(self.rt, name)
    }

    /// Fails where a file is not to be made, and notes why.
    fn see_allowed(&mut self, name: &str) -> Result<(), Option<Fault>>
        ensures reads { self.new.failed_reads.names ≡ self.old.failed_reads.names }
        ensures writes { self.new.write_faults ≡ self.old.write_faults }
    {
        let found = match self.reason_against(name) {
            Ok(None) => return Ok(()),
            Ok(Some(withheld)) => {
                self.withheld = Some(withheld);
                Err(io::Error::from(io::ErrorKind::InvalidInput))
            }
            Err(error) => Err(error),
        };
        self.named(name, found)
    }

    /// What came of a call, with the file's name where it failed; without a fault where memory ran out for the name.
    fn named(&self, name: &str, done: io::Result<()>) -> Result<(), Option<Fault>> {
        match done {
            Ok(()) => Ok(()),
            Err(error) => Err(fault_of(self.alloc, name, error)),
        }
    }

    /// Why a file is not made: two of the command's names are one file, its name is `-`, or what is printed goes there. A log that
    /// people follow may be printed.
    fn reason_against(&self, name: &str) -> io::Result<Option<Withheld>> {
        if let Some(twins) = first_twins(self.rt, self.alloc, &self.places)? {
            return Ok(Some(Withheld::Twins(twins)));
        }
        if name == "-" {
            return Ok(Some(Withheld::Dash));
        }
        if self.gather == Gather::Pieces && is_printed(self.rt, name) {
            return Ok(Some(Withheld::Printed(String::from_str(self.alloc, name)?)));
        }
        Ok(None)
    }

    /// What a call that writes answers; where it failed, that is kept and counted.
    fn answer(&mut self, done: Result<(), Option<Fault>>) -> WriteAnswer
        ensures cause { HasCause self.old.write_faults self.new.write_faults (result ≡ WriteAnswer.Failed) }
        ensures reads { self.new.failed_reads.names ≡ self.old.failed_reads.names }
    {
        match done {
            Ok(()) => WriteAnswer::Done,
            Err(fault) => {
                self.fault = fault;
                self.write_faults = self.write_faults.saturating_add(1);
                WriteAnswer::Failed
            }
        }
    }
}

/// A fault with its name; nothing where memory ran out.
pub(crate) fn fault_of(alloc: Global, name: &str, error: io::Error) -> Option<Fault> {
    match String::from_str(alloc, name) {
        Ok(name) => Some(Fault { name, error }),
        Err(_) => None,
    }
}

impl<R: FileSystem> Files for RealFiles<'_, R> {
    ghost content = { λ _ _. untold };

    ghost read_faults = { λ f. times_in f.failed_reads.names };

    ghost write_faults = { λ f. f.write_faults };

    /// Octets that were read ahead are given at once: nothing was gathered for their file since, as that would have closed it.
    fn read_at(&mut self, name: &str, at: u64, buf: &mut [u8]) -> ReadAnswer {
        if let Some(reader) = &mut self.reader {
            let count = reader.take_ahead(name, at, buf);
            if count > 0 {
                return ReadAnswer::Got(count);
            }
        }
        match self.read(name, at, buf) {
            Ok(0) => ReadAnswer::End,
            Ok(count) => ReadAnswer::Got(count),
            Err(error) => {
                self.fault = fault_of(self.alloc, name, error);
                self.failed_reads.note(name);
                ReadAnswer::Failed
            }
        }
    }

    fn create(&mut self, name: &str) -> WriteAnswer {
        let done = self.create_new(name);
        self.answer(done)
    }

    /// What only has to be gathered for the file that was appended to last is gathered at once.
    fn append(&mut self, name: &str, bytes: &[u8]) -> WriteAnswer {
        forget(&mut self.reader, name);
        if self.gather == Gather::Pieces && self.writers.hold(name, bytes) {
            return WriteAnswer::Done;
        }
        let done = self.writers.append(self.rt, self.gather, name, bytes);
        self.answer(done)
    }

    fn go_on(&mut self, name: &str) -> WriteAnswer {
        let done = self.open_kept(name);
        self.answer(done)
    }
}
