//! The blocks of a file, read one after the other.
//! The first section header is tested before outputs are made, and read again as the first block; fewer than 28 octets of a later
//! one are a cut. The place of a cut or a refusal is the block's own.
ghost use Rattle.std.specs.Prelude.{◌≡◌, IfOk, slice_get};
ghost use Rattle.cf_pcapng.specs.Answers.{HasLimits, IsInside, answer_of, block_answer_value, block_size_value};
ghost use Rattle.cf_pcapng.specs.Block.{block_at, size_at};
ghost use Rattle.cf_pcapng.specs.Blocks.{after_found};
ghost use Rattle.cf_pcapng.specs.Section.{before_sections};

use crate::block::{
    BlockSize, INTERFACE_LIMIT, Interface, REFUSED_BLOCK, WholeBlock, differs, order_in, size_in,
    whole_in,
};
use crate::options::MICROSECONDS;
use cf_view::{LinkKind, LinkSet, NoMemory};
use std::alloc::Global;
use std::marker::Model;

/// What octets of a file say about the block that they begin. draft-ietf-opsawg-pcapng, section 4.
#[derive(Drop)]
pub enum BlockAnswer<'a> {
    /// An enhanced packet.
    Record {
        /// Its moment in microseconds since the epoch.
        stamp: u64,
        /// What stands before the IPv4 packet.
        link: LinkKind,
        /// The captured octets.
        body: &'a [u8],
        /// How many octets the block takes.
        used: usize,
    },
    /// Any other block, of so many octets.
    Passed(usize),
    /// The block goes on after the octets. It takes so many in all: 12, or 28 of a section header, while its length is not told.
    Need(usize),
    /// The block is refused, by this number.
    Refused(u8),
}

/// Reads a file block by block, and keeps the byte order and the interfaces of a section.
/// draft-ietf-opsawg-pcapng, section 3.
#[derive(Drop)]
pub struct Reader {
    kinds: LinkSet,
    big_endian: bool,
    slots: Vec<Interface>,
    count: usize,
}

impl Model for Reader {
    ghost use Rattle.std.specs.Prelude.{◌≡◌, ◌≤◌, length, take};
    ghost use Rattle.cf_pcapng.specs.Section.{Section};

    ghost Value = { Section };

    ghost view = { λ r. record { kinds = r.kinds; big_endian = r.big_endian; interfaces = take r.count r.slots.items } };

    ghost invariant = { λ r. (length r.slots.items ≡ 64) × (r.count ≤ 64) };
}

impl Reader {
    /// Before the first section header of a file in which these link types are read. Has room for 64 interfaces.
    pub fn new(alloc: Global, kinds: LinkSet) -> Result<Reader, NoMemory>
        ensures { IfOk result (λ r. r ≡ before_sections kinds) }
    {
        let none = Interface {
            link: 0,
            resolution: MICROSECONDS,
        };
        match Vec::from_elem(alloc, none, INTERFACE_LIMIT) {
            Ok(slots) => Ok(Reader {
                kinds,
                big_endian: false,
                slots,
                count: 0,
            }),
            Err(_) => Err(NoMemory),
        }
    }

    /// The interface of a number, counted from 0 in the section that the blocks so far leave.
    pub fn interface(&self, number: u32) -> Option<Interface>
        ensures { result ≡ slice_get self.now.interfaces number }
    {
        self.slots[..self.count].get(number as usize).copied()
    }

    /// How many octets the block takes that begins these, which follow the blocks that were read: the tests that its first 12 octets
    /// decide, or 28 of a section header.
    pub fn block_size(&self, bytes: &[u8]) -> BlockSize
        ensures size { block_size_value result ≡ size_at self.now bytes.now }
        ensures limits { HasLimits result }
    {
        size_in(order_in(self.big_endian, bytes), bytes)
    }

    /// The block that begins these octets, which follow the blocks that were read; a file's first block is a section header.
    /// draft-ietf-opsawg-pcapng, section 3.1. Takes no memory. A refusal and `Need` change nothing.
    pub fn next_block<'a>(&mut self, bytes: &'a [u8]) -> BlockAnswer<'a>
        ensures found { block_answer_value result ≡ answer_of (block_at self.old bytes.now) }
        ensures section { self.new ≡ after_found self.old (block_at self.old bytes.now) }
        ensures inside { IsInside bytes.now result }
    {
        let big_endian = order_in(self.big_endian, bytes);
        let used = match size_in(big_endian, bytes) {
            BlockSize::Size(used) => used,
            BlockSize::Need(count) => return BlockAnswer::Need(count),
            BlockSize::Refused(number) => return BlockAnswer::Refused(number),
        };
        if bytes.len() < used {
            return BlockAnswer::Need(used);
        }
        if differs(big_endian, bytes, used) {
            return BlockAnswer::Refused(REFUSED_BLOCK);
        }
        match whole_in(
            self.kinds,
            &self.slots[..self.count],
            big_endian,
            bytes,
            used,
        ) {
            WholeBlock::Begins(big_endian) => {
                self.big_endian = big_endian;
                self.count = 0;
                BlockAnswer::Passed(used)
            }
            WholeBlock::Describes(interface) => {
                self.slots[self.count] = interface;
                self.count += 1;
                BlockAnswer::Passed(used)
            }
            WholeBlock::Holds { stamp, link, body } => BlockAnswer::Record {
                stamp,
                link,
                body,
                used,
            },
            WholeBlock::Other => BlockAnswer::Passed(used),
            WholeBlock::Refused(number) => BlockAnswer::Refused(number),
        }
    }
}
