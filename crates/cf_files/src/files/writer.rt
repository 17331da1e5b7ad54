//! Files that are written.
ghost use Rattle.std.specs.Prelude.{◌<◌, IfSome, length};

use crate::files::order::Order;
use crate::files::same::{Node, node_of};
use crate::files::{Fault, Gather, fault_of};
use libc::types::timespec;
use std::alloc::Global;
use std::fs::{OpenFile, OpenOptions};
use std::io;
use std::io::{Read, Seek, SeekFrom, Write};
use std::os::unix::fs::MetadataExt;
use std::rt::Files as FileSystem;

/// How many files are kept open for writing.
const WRITERS: usize = 4;

/// How many bytes of a file are gathered at most.
const PIECE: usize = 65_536;

/// A file that is kept open between calls, and what was appended to it and is not written yet.
#[derive(Drop)]
struct Writer<F: Drop> {
    name: String,
    file: F,
    held: Vec<u8>,
    /// How many octets of what is held were written, amid the writing of all.
    put: usize,
    /// How many octets the file had when it was opened, and what was written since.
    length: u64,
    /// The second in which it was last seen that the name leads to the file.
    seen: i64,
}

impl<F: OpenFile + Write + Drop> Writer<F> {
    /// Whether it is the file of this name, and bytes fit beside what is held.
    fn has_room(&self, name: &str, bytes: &[u8]) -> bool {
        bytes.len() < PIECE - self.held.len().min(PIECE) && self.name.as_str() == name
    }

    /// Writes bytes at once, where nothing is held.
    fn write(&mut self, bytes: &[u8]) -> io::Result<()> {
        self.file.write_all(bytes)?;
        self.length = self.length.saturating_add(bytes.len() as u64);
        Ok(())
    }

    /// Writes the first octets of what is held, and notes how many were written.
    fn put(&mut self, share: usize) -> io::Result<()> {
        let share = share.min(self.held.len());
        let written = self.file.write_all(&self.held[..share]);
        self.put = match written {
            Ok(()) => share,
            Err(_) => self.behind().min(share),
        };
        written
    }

    /// How many octets the file has behind those that were written before.
    fn behind(&self) -> usize {
        match self.file.metadata() {
            Ok(found) if found.is_file() => found.len().saturating_sub(self.length) as usize,
            _ => 0,
        }
    }

    /// Takes back what was written beyond the first octets of what is held, where the file is one that can be cut.
    fn keep(&mut self, share: usize) -> io::Result<()> {
        if self.put > share && self.file.metadata()?.is_file() {
            self.file.set_len(self.length.saturating_add(share as u64))?;
        }
        Ok(())
    }

    /// Holds nothing any more.
    fn clear(&mut self) {
        self.length = self.length.saturating_add(self.put as u64);
        self.put = 0;
        self.held.clear();
    }
}

/// The files that are open for writing, and what was appended to them and is not written yet.
#[derive(Drop)]
pub(crate) struct Writers<R: FileSystem> {
    alloc: Global,
    open: Vec<Writer<R::File>>,
    /// In which order it came what is held.
    order: Order,
    /// The place of the file that was appended to last among those that are open. What stands there may be another by now.
    latest: usize,
}

impl<R: FileSystem> Writers<R> {
    /// Writers of which none is open; at most four will be.
    pub(crate) fn new(alloc: Global) -> Self {
        Writers {
            alloc,
            open: Vec::new(alloc),
            order: Order::new(alloc),
            latest: 0,
        }
    }

    /// Holds bytes, if they are for the file that was appended to last and there is room for them; whether it does.
    pub(crate) fn hold(&mut self, name: &str, bytes: &[u8]) -> bool {
        let latest = self.latest;
        match self.open.get_mut(latest) {
            Some(writer) => {
                writer.has_room(name, bytes)
                    && self.order.note(latest, bytes.len())
                    && writer.held.extend_from_slice(bytes).is_ok()
            }
            None => false,
        }
    }

    /// Whether octets of the file of this name are held.
    pub(crate) fn holds_of(&self, name: &str) -> bool {
        for writer in self.open.iter() {
            if writer.name.as_str() == name && !writer.held.is_empty() {
                return true;
            }
        }
        false
    }

    /// Writes what is held of every file. Where an octet cannot be written, what came behind it in other files is not written either, or
    /// taken back where the file is one that can be cut; and the fault is told.
    pub(crate) fn flush(&mut self) -> Result<(), Option<Fault>> {
        let mut first = usize::MAX;
        let mut done = Ok(());
        for (place, writer) in self.open.iter_mut().enumerate() {
            if let Err(error) = writer.put(self.order.share(place, first)) {
                first = self.order.before(place, writer.put);
                done = Err(fault_of(self.alloc, writer.name.as_str(), error));
            }
        }
        self.keep_first(first);
        done
    }

    /// Takes back what was written beyond the first octets of all files, and holds nothing any more.
    fn keep_first(&mut self, first: usize) {
        for (place, writer) in self.open.iter_mut().enumerate() {
            // Where it cannot be taken back it stays.
            let _ = writer.keep(self.order.share(place, first));
            writer.clear();
        }
        self.order.clear();
    }

    /// Makes a file empty, or anew where it is not there, and keeps it open as the latest.
    pub(crate) fn create(&mut self, rt: &R, name: &str) -> Result<(), Option<Fault>> {
        self.close(name)?;
        let opened = OpenOptions::new()
            .write(true)
            .create(true)
            .truncate(true)
            .open(rt, name);
        self.keep_open(name, opened)
    }

    /// Opens a file at its end, made where it is not there, gives its last line the line feed that it may lack, and keeps it open.
    pub(crate) fn go_on(&mut self, rt: &R, name: &str) -> Result<(), Option<Fault>> {
        self.close(name)?;
        self.keep_open(name, opened_at_end(rt, name))
    }

    /// Puts bytes at the end of a file that is there: at once, or in pieces, in the order in which the bytes of all files come.
    pub(crate) fn append(
        &mut self,
        rt: &R,
        gather: Gather,
        name: &str,
        bytes: &[u8],
    ) -> Result<(), Option<Fault>> {
        self.turn_to(rt, name)?;
        if gather == Gather::Pieces {
            if self.hold(name, bytes) {
                return Ok(());
            }
            self.flush()?;
            if self.hold(name, bytes) {
                return Ok(());
            }
        }
        let written = match self.open.get_mut(self.latest) {
            Some(writer) => write_followed(rt, gather, writer, bytes),
            None => Err(io::Error::from(io::ErrorKind::NotFound)),
        };
        self.told(name, written)
    }

    /// Sees to it that the file of this name is the latest, opened at its end where it is not open.
    fn turn_to(&mut self, rt: &R, name: &str) -> Result<(), Option<Fault>> {
        if let Some(place) = find_writer(&self.open, name) {
            self.latest = place;
            return Ok(());
        }
        self.close(name)?;
        let opened = OpenOptions::new().append(true).open(rt, name);
        self.keep_open(name, opened)
    }

    /// Closes a file that is open, or the oldest where there are many, once all that is held is written.
    fn close(&mut self, name: &str) -> Result<(), Option<Fault>> {
        let place = match find_writer(&self.open, name) {
            Some(place) => place,
            None if self.open.len() < WRITERS => return Ok(()),
            None => 0,
        };
        self.flush()?;
        if place < self.open.len() {
            self.open.remove(place);
        }
        Ok(())
    }

    /// Keeps a file open that was opened, as the latest.
    fn keep_open(&mut self, name: &str, opened: io::Result<R::File>) -> Result<(), Option<Fault>> {
        let kept = match opened {
            Ok(file) => writer_of(self.alloc, name, file),
            Err(error) => Err(error),
        };
        match kept {
            Ok(writer) => {
                self.latest = self.open.len();
                match self.open.push(writer) {
                    Ok(()) => Ok(()),
                    Err(_) => Err(None),
                }
            }
            Err(error) => self.told(name, Err(error)),
        }
    }

    /// What came of a call, with the file's name where it failed.
    fn told(&self, name: &str, done: io::Result<()>) -> Result<(), Option<Fault>> {
        match done {
            Ok(()) => Ok(()),
            Err(error) => Err(fault_of(self.alloc, name, error)),
        }
    }
}

/// Writes bytes at once to a file that is open; of one that people follow, to which its name leads.
fn write_followed<R: FileSystem>(
    rt: &R,
    gather: Gather,
    writer: &mut Writer<R::File>,
    bytes: &[u8],
) -> io::Result<()> {
    if gather == Gather::Nothing {
        follow(rt, writer)?;
    }
    writer.write(bytes)
}

/// Opens a file at its end, made where it is not there, and gives its last line the line feed that it may lack.
fn opened_at_end<R: FileSystem>(rt: &R, name: &str) -> io::Result<R::File> {
    let mut file = OpenOptions::new().append(true).create(true).open(rt, name)?;
    end_line(rt, name, &mut file)?;
    Ok(file)
}

/// Gives the last line of a file that is open at its end the line feed that it may lack.
fn end_line<R: FileSystem>(rt: &R, name: &str, file: &mut R::File) -> io::Result<()> {
    if file.metadata()?.is_file() && lacks_feed(rt, name)? {
        file.write_all(b"\n")?;
    }
    Ok(())
}

/// Goes on with the file that a name leads to now, where that is not the open one: a log that is renamed away is begun anew. It looks
/// once a second at most. Where no file can be opened, it goes on with the open one for as long as that has a name.
fn follow<R: FileSystem>(rt: &R, writer: &mut Writer<R::File>) -> io::Result<()> {
    let now = second();
    if writer.seen == now {
        return Ok(());
    }
    let open = writer.file.metadata()?;
    if node_of(rt, writer.name.as_str()) != Some(Node::of(&open)) {
        match opened_at_end(rt, writer.name.as_str()) {
            Ok(file) => writer.file = file,
            Err(error) if open.nlink() == 0 => return Err(error),
            Err(_) => {}
        }
    }
    writer.seen = now;
    Ok(())
}

/// The second by `CLOCK_MONOTONIC`, which only goes forward.
fn second() -> i64 {
    let mut now = timespec {
        tv_sec: 0,
        tv_nsec: 0,
    };
    libc::clock_gettime(libc::CLOCK_MONOTONIC, &mut now);
    now.tv_sec
}

/// Whether a file has octets, and the last of them is no line feed.
fn lacks_feed<R: FileSystem>(rt: &R, name: &str) -> io::Result<bool> {
    let mut file = OpenOptions::new().read(true).open(rt, name)?;
    ends_amid_line(&mut file)
}

fn ends_amid_line<F: Read + Seek>(file: &mut F) -> io::Result<bool> {
    if file.seek(SeekFrom::End(0))? == 0 {
        return Ok(false);
    }
    file.seek(SeekFrom::End(-1))?;
    let mut last = [b'\n'];
    file.read_exact(&mut last)?;
    Ok(last[0] != b'\n')
}

/// The place of a file among those that are open.
fn find_writer<F: Drop>(writers: &[Writer<F>], name: &str) -> Option<usize>
    ensures { IfSome result (λ place. place < length writers.now) }
{
    for (place, writer) in writers.iter().enumerate() {
        if writer.name.as_str() == name {
            return Some(place);
        }
    }
    None
}

/// An open file, of which nothing is held.
fn writer_of<F: OpenFile + Drop>(alloc: Global, name: &str, file: F) -> io::Result<Writer<F>> {
    Ok(Writer {
        name: String::from_str(alloc, name)?,
        held: Vec::with_capacity(alloc, PIECE)?,
        put: 0,
        length: file.metadata()?.len(),
        seen: second(),
        file,
    })
}
