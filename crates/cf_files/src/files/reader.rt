//! A file that is read.
//! Of a pipe a header can be read before the first record: what was read ahead is kept, and the last 64 octets that it gave.
ghost use Rattle.std.specs.Prelude.{◌≤◌, IfOk, length};

use arrayvec::ArrayVec;
use std::alloc::Global;
use std::fs::{OpenFile, OpenOptions};
use std::io;
use std::io::{BufRead, BufReader, Read, Seek, SeekFrom};
use std::rt::Files as FileSystem;

/// How many bytes are read ahead at most.
const PIECE: usize = 65_536;

/// How many octets that a pipe gave last are kept: who reads a capture looks at its first 28 octets, and at those of each block of
/// pcapng, and goes on from where these end that were asked for.
const KEPT: usize = 64;

/// A file that is kept open between calls, with its name and the place at which it stands for whoever reads it.
#[derive(Drop)]
pub(crate) struct Reader<F: Drop> {
    name: String,
    at: u64,
    file: BufReader<F>,
    /// It is a pipe, a terminal or another thing whose octets may be waited for, and which does not go back.
    is_live: bool,
    /// Its text is kept as it is read.
    is_kept: bool,
    /// Of such a thing, what it gave last, and how many of these octets are given once more.
    last: ArrayVec<u8, KEPT>,
    again: usize,
}

impl<F: Read + Drop> Reader<F> {
    /// Gives octets that were read ahead, if it is the file of this name and stands at this place, and its text is not kept; how many,
    /// which is 0 where it is not so, or there are none.
    pub(crate) fn take_ahead(&mut self, name: &str, at: u64, buf: &mut [u8]) -> usize
        ensures { result ≤ length buf.new }
    {
        if self.at != at || self.again > 0 || self.is_kept || self.name.as_str() != name {
            return 0;
        }
        let ahead = self.file.buffer();
        let count = ahead.len().min(buf.len());
        buf[..count].copy_from_slice(&ahead[..count]);
        self.file.consume(count);
        self.note(&buf[..count]);
        count
    }

    /// Reads on from where it stands.
    fn read_on(&mut self, buf: &mut [u8]) -> io::Result<usize>
        ensures { IfOk result (λ n. n ≤ length buf.new) }
    {
        if self.again > 0 {
            return Ok(self.read_again(buf));
        }
        let count = self.file.read(buf)?;
        self.note(&buf[..count]);
        Ok(count)
    }

    /// Gives octets once more that were given last; how many.
    fn read_again(&mut self, buf: &mut [u8]) -> usize
        ensures { result ≤ length buf.new }
    {
        let from = self.last.len().saturating_sub(self.again);
        let given = self.last.as_slice().get(from..).unwrap_or(&[]);
        let count = given.len().min(buf.len());
        buf[..count].copy_from_slice(&given[..count]);
        self.again = self.again.saturating_sub(count);
        self.at = self.at.saturating_add(count as u64);
        count
    }

    /// Notes octets that the file gave.
    fn note(&mut self, given: &[u8]) {
        self.at = self.at.saturating_add(given.len() as u64);
        if self.is_live {
            let kept = KEPT.saturating_sub(given.len());
            let mut last = ArrayVec::new();
            let _ = last.try_extend_from_slice(end_of(self.last.as_slice(), kept));
            let _ = last.try_extend_from_slice(end_of(given, KEPT));
            self.last = last;
        }
    }

    /// Steps back to a place among the octets that were given last; whether it does.
    fn step_back(&mut self, at: u64) -> bool {
        let behind = self.at.saturating_add(self.again as u64);
        let back = behind.saturating_sub(at);
        if at > behind || back > self.last.len() as u64 {
            return false;
        }
        self.again = back as usize;
        self.at = at;
        true
    }

    /// Whether the next read may wait for octets that are not there yet.
    fn may_wait(&self) -> bool {
        self.is_live && self.again == 0 && self.file.buffer().is_empty()
    }
}

/// The file of this name, by the one that is open if it is this one. A read of it may have to wait where the second is true.
pub(crate) fn opened<R: FileSystem>(
    rt: &R,
    alloc: Global,
    kept: &mut Option<Reader<R::File>>,
    name: &str,
    is_kept: bool,
) -> io::Result<(Reader<R::File>, bool)> {
    let reader = match kept.take() {
        Some(reader) if reader.name.as_str() == name => reader,
        _ => open(rt, alloc, name, is_kept)?,
    };
    let may_wait = reader.may_wait();
    Ok((reader, may_wait))
}

fn open<R: FileSystem>(
    rt: &R,
    alloc: Global,
    name: &str,
    is_kept: bool,
) -> io::Result<Reader<R::File>> {
    let file = OpenOptions::new().read(true).open(rt, name)?;
    let is_live = !file.metadata()?.is_file();
    Ok(Reader {
        name: String::from_str(alloc, name)?,
        at: 0,
        file: BufReader::with_capacity(alloc, PIECE, file)?,
        is_live,
        is_kept,
        last: ArrayVec::new(),
        again: 0,
    })
}

/// The last octets of some, so many at most.
fn end_of(octets: &[u8], most: usize) -> &[u8] {
    let from = octets.len().saturating_sub(most);
    octets.get(from..).unwrap_or(&[])
}

/// Reads at a place. A step back into what was read ahead, or of a pipe into what it gave last, asks nothing of the file.
pub(crate) fn read_from<F: Read + Seek + Drop>(
    reader: &mut Reader<F>,
    at: u64,
    buf: &mut [u8],
) -> io::Result<usize>
    ensures { IfOk result (λ n. n ≤ length buf.new) }
{
    if at == reader.at || reader.step_back(at) {
        return reader.read_on(buf);
    }
    if at < reader.at && reader.at - at <= PIECE as u64 {
        reader.file.seek_relative(-((reader.at - at) as i64))?;
    } else {
        reader.file.seek(SeekFrom::Start(at))?;
    }
    reader.at = at;
    reader.again = 0;
    reader.last.clear();
    reader.read_on(buf)
}

/// Closes the file if it has this name, so that nothing that was read ahead is told once other bytes stand in it.
pub(crate) fn forget<F: Drop>(reader: &mut Option<Reader<F>>, name: &str) {
    if let Some(opened) = reader
        && opened.name.as_str() == name
    {
        *reader = None;
    }
}
