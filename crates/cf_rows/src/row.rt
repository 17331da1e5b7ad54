//! A row: the lines of its block after those of the exchange that it comes after.

use crate::fault::{Fault, Wanted};
use crate::reader::Reader;
use cf_outside::Fail;
use cf_view::Endpoint;
use std::collections::BTreeMap;

/// How the lines of a row begin.
const KEYS: &str = "\
>
<
log
stream:
REPLIES:
after:
before:
words:
place:
origins:
controller:
link:
edit:
capture:
octet:
tail:
first:
client sends:
controller sends:
idle to:
arrives:
listen fails:
rounds:
moments:
ends:
reached:
file fails:
put fails:
pair fails:
sweep:
once:
status:
printed:
counted:
outputs: none
OUT:
LOG:
CONTROLLER:
CLIENT:
answers:";

/// What stands after each key of a row, line by line, and whom its packets come from.
#[derive(Drop)]
pub struct Row {
    lines: BTreeMap<String, Vec<String>>,
    /// Whom `k` stands for.
    pub controller: Endpoint,
    /// The sequence numbers of the SYN of every client and of the controller.
    pub client_origin: u32,
    pub controller_origin: u32,
}

/// The rest of a line that begins so, without the space between.
fn rest<'a>(line: &'a str, key: &str) -> Option<&'a str> {
    let rest = line.strip_prefix(key)?;
    Some(rest.strip_prefix(' ').unwrap_or(rest))
}

/// The rest of the first line that begins so.
pub fn field<'a>(lines: &'a str, key: &str) -> Option<&'a str> {
    lines.lines().find_map(|line| rest(line, key))
}

/// The row of a block.
pub fn row_of(reader: &mut Reader<'_>, block: &str) -> Row {
    let origins = field(block, "origins:").unwrap_or("1000 5000");
    let (client, controller) = reader.parts(origins, ' ', Wanted::Number);
    let mut row = Row {
        lines: BTreeMap::new(reader.alloc),
        controller: endpoint(
            reader,
            field(block, "controller:").unwrap_or("10.0.0.9:502"),
        ),
        client_origin: reader.word32(client),
        controller_origin: reader.word32(controller),
    };
    if let Some(name) = field(block, "after:") {
        match reader.book.exchanges.get(name) {
            Some(exchange) => row.takes(reader, exchange),
            None => reader.wants(Wanted::Exchange),
        }
    }
    row.takes(reader, block);
    row
}

/// The first key with which a line begins, and what stands behind it.
fn parted(line: &str) -> Option<(&'static str, &str)> {
    for key in KEYS.lines() {
        if let Some(behind) = rest(line, key) {
            return Some((key, behind));
        }
    }
    None
}

/// An address and a port.
fn endpoint(reader: &mut Reader<'_>, spelled: &str) -> Endpoint {
    let (address, port) = reader.parts(spelled, ':', Wanted::Endpoint);
    let mut value = 0_u32;
    for part in address.split('.') {
        match part.parse::<u8>() {
            Ok(part) => value = (value << 8) | u32::from(part),
            Err(_) => reader.wants(Wanted::Endpoint),
        }
    }
    Endpoint {
        address: value,
        port: reader.word16(port),
    }
}

impl Row {
    /// Puts each line of a block to those of its key.
    fn takes(&mut self, reader: &mut Reader<'_>, block: &str) {
        for line in block.lines() {
            if let Some((key, behind)) = parted(line) {
                self.puts(reader, key, behind);
            } else if !line.is_empty() {
                reader.wants(Wanted::Key);
                reader.is_at(line);
            }
        }
    }

    /// Puts what stands behind a key to the lines of that.
    fn puts(&mut self, reader: &mut Reader<'_>, key: &str, behind: &str) {
        let behind = reader.text(behind);
        if let Some(others) = self.lines.get_mut(key) {
            if others.push(behind).is_err() {
                reader.notes(Fault::NoMemory);
            }
            return;
        }
        let key = reader.text(key);
        let mut first = Vec::new(reader.alloc);
        if first.push(behind).is_err() || self.lines.insert(key, first).is_err() {
            reader.notes(Fault::NoMemory);
        }
    }

    /// What stands after a key, line by line.
    pub fn all(&self, key: &str) -> &[String] {
        match self.lines.get(key) {
            Some(lines) => lines.as_slice(),
            None => &[],
        }
    }

    /// What stands after a key first.
    pub fn field(&self, key: &str) -> Option<&str> {
        self.all(key).first().map(|line| line.as_str())
    }

    /// Whether a line of a key is there.
    pub fn has(&self, key: &str) -> bool {
        !self.all(key).is_empty()
    }

    /// Puts the octets that all lines of a key spell together after others.
    pub fn spells(&self, reader: &mut Reader<'_>, key: &str, all: &mut Vec<u8>) {
        for spelled in self.all(key).iter() {
            reader.spells(spelled, all);
            reader.is_at(spelled);
        }
    }

    /// The octets that all lines of a key spell together; none where there is no line.
    pub fn octets(&self, reader: &mut Reader<'_>, key: &str) -> Vec<u8> {
        let mut all = Vec::new(reader.alloc);
        self.spells(reader, key, &mut all);
        all
    }

    /// The text that all lines of a key spell together; `/` stands for a line feed.
    pub fn text(&self, reader: &mut Reader<'_>, key: &str) -> Vec<u8> {
        let mut all = Vec::new(reader.alloc);
        for spelled in self.all(key).iter() {
            reader.puts(spelled.as_bytes(), &mut all);
        }
        with_line_feeds(&mut all);
        all
    }

    /// A call that fails, and how many bytes it leaves.
    pub fn fail(&self, reader: &mut Reader<'_>, key: &str) -> Option<Fail> {
        let spelled = self.field(key)?;
        let (call, left) = spelled.split_once(' ').unwrap_or((spelled, "0"));
        Some(Fail {
            call: reader.word64(call),
            left: reader.size(left),
        })
    }
}

/// Puts a line feed where `/` stands for one.
pub fn with_line_feeds(text: &mut [u8]) {
    for octet in text.iter_mut() {
        if *octet == b'/' {
            *octet = b'\n';
        }
    }
}
