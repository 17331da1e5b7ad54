//! A command that is played, and what it left.
ghost use Rattle.std.specs.Prelude.{◌≡◌, false, ℕ};
ghost use Rattle.cf_links.specs.MemoryLinks.{serves_in};

use crate::book::Book;
use crate::fault::{Fault, Wanted};
use crate::packets::capture;
use crate::reader::Reader;
use crate::row::{Row, with_line_feeds};
use crate::service::links_of;
use cf_box::{box_main, serve_main};
use cf_links::MemoryLinks;
use cf_outside::{Fail, MemoryFiles, MemoryPair, MemorySink};
use cf_view::Endpoint;
use std::alloc::Global;

/// The moment that the pair tells, in microseconds.
const MOMENT: u64 = 1_000_000;

/// The calls of the files, of the sink and of the pair that fail.
#[derive(Clone, Copy)]
pub struct Script {
    pub file: Option<Fail>,
    pub put: Option<Fail>,
    pub pair: Option<Fail>,
}

/// What a command left: its status, what was printed, and the objects.
#[derive(Drop)]
pub struct Left {
    pub status: u8,
    pub out: MemorySink,
    pub files: MemoryFiles,
    pub pair: MemoryPair,
    pub links: MemoryLinks,
}

impl Left {
    /// What is there before a command.
    pub fn new(alloc: Global) -> Self {
        Left {
            status: 0,
            out: MemorySink::new(alloc),
            files: MemoryFiles::new(alloc),
            pair: MemoryPair::new(alloc),
            links: MemoryLinks::new(alloc),
        }
    }

    /// The bytes of a file, if it is there.
    pub fn file(&self, name: &str) -> Option<&[u8]> {
        match self.files.files.get(name) {
            Some(bytes) => Some(bytes.as_slice()),
            None => None,
        }
    }
}

impl Row {
    /// The calls that the row has fail.
    pub fn script(&self, reader: &mut Reader<'_>) -> Script {
        Script {
            file: self.fail(reader, "file fails:"),
            put: self.fail(reader, "put fails:"),
            pair: self.fail(reader, "pair fails:"),
        }
    }
}

/// Whether the words are for a service, which is no command of the other main.
pub fn is_service(words: &str) -> bool {
    words.starts_with("serve ")
}

/// Has a call fail, if one does.
fn fail_at(reader: &mut Reader<'_>, fail: Option<Fail>, fails: &mut Vec<Fail>) {
    if let Some(fail) = fail {
        if fails.push(fail).is_err() {
            reader.notes(Fault::NoMemory);
        }
    }
}

/// Plays words, separated by spaces, over the policies, the stream `s` and the capture `c`, and over what the words before them left.
/// The clients of the row come to the places of a service, and behind its rounds a wait fails.
pub fn play(reader: &mut Reader<'_>, row: &Row, words: &str, script: &Script) -> Left {
    let mut left = Left::new(reader.alloc);
    put_files(reader, row, &mut left.files);
    for words in row.all("before:").iter() {
        plays_before(reader, row, words, &mut left.files);
    }
    fail_at(reader, script.file, &mut left.files.fails);
    fail_at(reader, script.put, &mut left.out.fails);
    fail_at(reader, script.pair, &mut left.pair.fails);
    set_pair(reader, row, &mut left.pair);
    left.links = links_of(reader, row, words);
    let spelled = spelled(reader, row, words);
    if reader.fault.is_some() {
        return left;
    }
    left.status = ends(
        reader.book,
        words,
        &spelled,
        &mut left.files,
        &mut left.out,
        &mut left.pair,
        &mut left.links,
    );
    left
}

/// Plays the words before those of the row.
fn plays_before(reader: &mut Reader<'_>, row: &Row, words: &str, files: &mut MemoryFiles) {
    let mut out = MemorySink::new(reader.alloc);
    let mut pair = MemoryPair::new(reader.alloc);
    let mut links = MemoryLinks::new(reader.alloc);
    let spelled = spelled(reader, row, words);
    ends(
        reader.book,
        words,
        &spelled,
        files,
        &mut out,
        &mut pair,
        &mut links,
    );
}

/// The status with which the program ends.
fn ends(
    book: &Book,
    words: &str,
    spelled: &[String],
    files: &mut MemoryFiles,
    out: &mut MemorySink,
    pair: &mut MemoryPair,
    links: &mut MemoryLinks,
) -> u8
    requires free { (session : ℕ) → serves_in links.old session ≡ false }
{
    if is_service(words) {
        serve_main(book.alloc, spelled, files, out, links)
    } else {
        box_main(book.alloc, spelled, files, out, pair, &mut None)
    }
}

/// The words, of which `''` is an empty one; the places of the row are the last words of a service.
fn spelled(reader: &mut Reader<'_>, row: &Row, words: &str) -> Vec<String> {
    let mut spelled = Vec::new(reader.alloc);
    for word in words.split(' ') {
        push_word(reader, if word == "''" { "" } else { word }, &mut spelled);
    }
    for place in row.all("place:").iter() {
        push_word(reader, place, &mut spelled);
    }
    spelled
}

fn push_word(reader: &mut Reader<'_>, word: &str, words: &mut Vec<String>) {
    let word = reader.text(word);
    if words.push(word).is_err() {
        reader.notes(Fault::NoMemory);
    }
}

/// Puts a file to those that are there before.
fn put_file(reader: &mut Reader<'_>, name: &str, bytes: Vec<u8>, files: &mut MemoryFiles) {
    let name = reader.text(name);
    if files.files.insert(name, bytes).is_err() {
        reader.notes(Fault::NoMemory);
    }
}

/// Puts the files that are there before.
fn put_files(reader: &mut Reader<'_>, row: &Row, files: &mut MemoryFiles) {
    for (name, policy) in reader.book.policies.iter() {
        let mut bytes = Vec::new(reader.alloc);
        reader.puts(policy.as_bytes(), &mut bytes);
        put_file(reader, name, bytes, files);
    }
    if let Some(edit) = row.field("edit:") {
        let policy = edited(reader, edit);
        put_file(reader, "p", policy, files);
    }
    let stream = row.octets(reader, "stream:");
    put_file(reader, "s", stream, files);
    let capture = capture_of(reader, row);
    put_file(reader, "c", capture, files);
}

/// The policy `p`, with the text before `=>` replaced by that after it, in which `/` stands for a line feed.
fn edited(reader: &mut Reader<'_>, edit: &str) -> Vec<u8> {
    let mut edited = Vec::new(reader.alloc);
    let Some((front, new, back)) = edit_of(reader.book, edit) else {
        reader.wants(Wanted::Edit);
        return edited;
    };
    reader.puts(new.as_bytes(), &mut edited);
    with_line_feeds(&mut edited);
    let mut policy = Vec::new(reader.alloc);
    reader.puts(front.as_bytes(), &mut policy);
    reader.puts(&edited, &mut policy);
    reader.puts(back.as_bytes(), &mut policy);
    policy
}

/// What stands in the policy `p` before the text that is replaced, what replaces it, and what stands behind it.
fn edit_of<'a>(book: &'a Book, edit: &'a str) -> Option<(&'a str, &'a str, &'a str)> {
    let (old, new) = edit.split_once("=>")?;
    let (front, back) = book.policies.get("p")?.split_once(old)?;
    Some((front, new, back))
}

/// The capture of the packets, or the octets that stand for it, as the row changes it.
fn capture_of(reader: &mut Reader<'_>, row: &Row) -> Vec<u8> {
    let mut capture = if row.has("capture:") {
        row.octets(reader, "capture:")
    } else {
        capture(reader, row)
    };
    row.spells(reader, "tail:", &mut capture);
    if let Some(change) = row.field("octet:") {
        set_octet(reader, change, &mut capture);
    }
    if let Some(len) = row.field("first:") {
        capture.truncate(reader.size(len));
    }
    capture
}

/// Sets the octet of a line `PLACE OCTET`.
fn set_octet(reader: &mut Reader<'_>, change: &str, capture: &mut [u8]) {
    let (place, octet) = reader.parts(change, ' ', Wanted::Change);
    let octet = reader.octets(octet);
    match (capture.get_mut(reader.size(place)), octet.first()) {
        (Some(at), Some(octet)) => *at = *octet,
        _ => reader.wants(Wanted::Change),
    }
}

/// The pair of a client at 10.0.0.5:49152; what the clients of a service send is not its.
fn set_pair(reader: &mut Reader<'_>, row: &Row, pair: &mut MemoryPair) {
    pair.client = Endpoint {
        address: 0x0A00_0005,
        port: 49152,
    };
    if pair.moments.push(MOMENT).is_err() {
        reader.notes(Fault::NoMemory);
    }
    if row.has("arrives:") {
        return;
    }
    row.spells(reader, "client sends:", &mut pair.from_client);
    row.spells(reader, "controller sends:", &mut pair.from_controller);
    if let Some(last) = row.field("idle to:") {
        for call in 0..reader.word64(last) {
            if pair.idle.push(call).is_err() {
                reader.notes(Fault::NoMemory);
            }
        }
    }
}
