//! The tests of a block, and what it says.
//! Place 2^40 is tested on a block's type and first length before its own tests, and on its other octets once its length is
//! allowed.
ghost use Rattle.std.specs.Prelude.{◌≡◌, ◌≤◌, ◌↔◌, ◌∷◌, [], IsTrue, Some, None, if◌then◌else◌, length, take};
ghost use Rattle.cf_pcapng.specs.Answers.{HasLimits, HasRoom, HoldsPlaced, SizesRight, block_size_value, whole_block_value};
ghost use Rattle.cf_pcapng.specs.Block.{captured_at, differs, is_allowed, is_section, is_served, is_wrong_section, kind_at};
ghost use Rattle.cf_pcapng.specs.Block.{last_of, least_length, least_told, length_at, link_of, number_at, order_at, size_in, ticks_at};

use crate::options::{padded, resolution_in};
use crate::packet::stamp;
use cf_pcap::{CAPTURED_LIMIT, u16_at, u32_at};
use cf_view::{LinkKind, LinkSet, View, link_kind};

/// The type of a section header. draft-ietf-opsawg-pcapng, section 4.1.
pub const SECTION_HEADER: u32 = 0x0A0D_0D0A;
/// The type of an interface description. Section 4.2.
pub const INTERFACE_DESCRIPTION: u32 = 1;
/// The type of an enhanced packet. Section 4.3.
pub const ENHANCED_PACKET: u32 = 6;
/// The magic of a section header, in the byte order of its section. draft-ietf-opsawg-pcapng, section 4.1.
pub const BYTE_ORDER: u32 = 0x1A2B_3C4D;

/// The octets that a block has at most. This project's own.
pub const BLOCK_LIMIT: u32 = 16_777_216;
/// The interfaces that a section has at most. This project's own.
pub const INTERFACE_LIMIT: usize = 64;

/// The captured length of a packet is above `CAPTURED_LIMIT`. This project's own number.
pub const REFUSED_LENGTH: u8 = 5;
/// The length of a block is not allowed, its second length differs, or the bytes of a packet do not fit it.
/// This project's own number.
pub const REFUSED_BLOCK: u8 = 9;
/// A section header has a wrong magic, or another major version than 1. This project's own number.
pub const REFUSED_SECTION: u8 = 10;
/// A section has too many interfaces; or a packet's is not described, or of a link type that is not read.
/// This project's own number.
pub const REFUSED_INTERFACE: u8 = 11;
/// The unit of time of a packet's interface is not read. This project's own number.
pub const REFUSED_RESOLUTION: u8 = 12;

/// An interface of a section. draft-ietf-opsawg-pcapng, section 4.2.
#[derive(Clone, Copy)]
pub struct Interface {
    /// What stands before the IPv4 packets, as `cf_view::link_kind` reads it.
    pub link: u16,
    /// The unit of time is 10 to the power of −this seconds, up to 9. Others are not read.
    pub resolution: u8,
}

/// What octets of a file say about the length of the block that they begin. draft-ietf-opsawg-pcapng, section 3.1.
#[derive(Clone, Copy)]
pub enum BlockSize {
    /// The block takes so many octets.
    Size(usize),
    /// So many octets are needed to tell it.
    Need(usize),
    /// The block is refused, by this number.
    Refused(u8),
}

/// What a block says whose octets are all there. draft-ietf-opsawg-pcapng, section 4.
#[derive(Drop)]
pub enum WholeBlock<'a> {
    /// A section begins, in this byte order.
    Begins(bool),
    /// The next interface of the section.
    Describes(Interface),
    /// An enhanced packet.
    Holds {
        stamp: u64,
        link: LinkKind,
        body: &'a [u8],
    },
    /// Nothing that is read.
    Other,
    /// It is refused, by this number.
    Refused(u8),
}

/// The types of blocks that are read. draft-ietf-opsawg-pcapng, section 4.
#[derive(Clone, Copy)]
pub enum BlockKind {
    /// A section header.
    Section,
    /// An interface description.
    Interface,
    /// An enhanced packet.
    Packet,
    /// Any other.
    Other,
}

/// Whether octets begin with the type of a section header, as a pcapng file does.
#[tactic(auto, unfolding(crate::specs::Block::is_section))]
pub fn is_section(bytes: &[u8]) -> bool
    ensures value { result ≡ is_section bytes.now }
    ensures octets { IsTrue result ↔ (take 4 bytes.now ≡ 0x0A ∷ 0x0D ∷ 0x0D ∷ 0x0A ∷ []) }
{
    bytes.len() >= 4 && View::one(bytes).u32_be(0) == SECTION_HEADER
}

/// The byte order of the block that begins the octets, in a section of this one.
#[tactic(auto, unfolding(crate::specs::Block::order_at))]
pub fn order_in(big_endian: bool, bytes: &[u8]) -> bool
    ensures { result ≡ order_at big_endian bytes.now }
{
    if is_section(bytes) {
        bytes.len() >= 12 && View::one(bytes).u32_be(8) == BYTE_ORDER
    } else {
        big_endian
    }
}

/// How many octets the block takes that begins these, in its byte order.
#[tactic(auto, unfolding(crate::specs::Block::size_in))]
pub fn size_in(big_endian: bool, bytes: &[u8]) -> BlockSize
    ensures size { block_size_value result ≡ size_in big_endian bytes.now }
    ensures right { SizesRight big_endian bytes.now result }
    ensures limits { HasLimits result }
{
    let least = least_told(bytes);
    if bytes.len() < least {
        return BlockSize::Need(least);
    }
    if is_wrong_section(big_endian, bytes) {
        return BlockSize::Refused(REFUSED_SECTION);
    }
    let length = length_in(big_endian, bytes);
    if !is_allowed(length, kind_in(big_endian, bytes)) {
        return BlockSize::Refused(REFUSED_BLOCK);
    }
    BlockSize::Size(length as usize)
}

/// How many octets tell a block's length: those of a section header reach to its options.
#[tactic(auto, unfolding(crate::specs::Block::least_told))]
fn least_told(bytes: &[u8]) -> usize
    ensures value { result ≡ least_told bytes.now }
    ensures least { 12 ≤ result }
{
    if is_section(bytes) { 28 } else { 12 }
}

/// Whether a section header has another magic, or another major version than 1.
#[tactic(auto, unfolding(crate::specs::Block::is_wrong_section, crate::specs::Block::least_told))]
fn is_wrong_section(big_endian: bool, bytes: &[u8]) -> bool
    requires { least_told bytes.now ≤ length bytes.now }
    ensures { result ≡ is_wrong_section big_endian bytes.now }
{
    if !is_section(bytes) {
        return false;
    }
    let head = View::one(bytes);
    !(u32_at(&head, 8, big_endian) == BYTE_ORDER && u16_at(&head, 12, big_endian) == 1)
}

/// The length of a block, as its first octets tell it.
#[tactic(auto, unfolding(crate::specs::Block::length_at))]
fn length_in(big_endian: bool, bytes: &[u8]) -> u32
    requires { 8 ≤ length bytes.now }
    ensures { result ≡ length_at big_endian bytes.now }
{
    u32_at(&View::one(bytes), 4, big_endian)
}

/// The type of a block.
#[tactic(auto, unfolding(crate::specs::Block::kind_at))]
fn kind_in(big_endian: bool, bytes: &[u8]) -> BlockKind
    requires { 8 ≤ length bytes.now }
    ensures { result ≡ kind_at big_endian bytes.now }
{
    if is_section(bytes) {
        return BlockKind::Section;
    }
    match u32_at(&View::one(bytes), 0, big_endian) {
        INTERFACE_DESCRIPTION => BlockKind::Interface,
        ENHANCED_PACKET => BlockKind::Packet,
        _ => BlockKind::Other,
    }
}

/// Whether a length is whole groups of four octets, and neither too great nor too small.
#[tactic(auto, unfolding(crate::specs::Block::is_allowed))]
fn is_allowed(length: u32, kind: BlockKind) -> bool
    ensures value { result ≡ is_allowed length kind }
    ensures limits { IsTrue result → (12 ≤ length) × (least_length kind ≤ length) × (length ≤ 16777216) }
{
    length % 4 == 0 && length <= BLOCK_LIMIT && length >= least_length(kind)
}

/// The least length of a block of its type.
fn least_length(kind: BlockKind) -> u32
    ensures value { result ≡ least_length kind }
    ensures least { 12 ≤ result }
{
    match kind {
        BlockKind::Section => 28,
        BlockKind::Interface => 20,
        BlockKind::Packet => 32,
        BlockKind::Other => 12,
    }
}

/// Whether the second length of a block differs from the first, which is so much.
#[tactic(auto, unfolding(crate::specs::Block::differs))]
pub fn differs(big_endian: bool, bytes: &[u8], used: usize) -> bool
    requires told { used ≡ length_at big_endian bytes.now }
    requires least { 12 ≤ used }
    requires inside { used ≤ length bytes.now }
    ensures { result ≡ differs big_endian bytes.now }
{
    u32_at(&View::one(bytes), used - 4, big_endian) as usize != used
}

/// What the block says that begins these octets, of which it takes so many, in its byte order. Its two lengths are the same.
pub fn whole_in<'a>(
    kinds: LinkSet,
    interfaces: &[Interface],
    big_endian: bool,
    bytes: &'a [u8],
    used: usize,
) -> WholeBlock<'a>
    requires told { used ≡ length_at big_endian bytes.now }
    requires least { least_length (kind_at big_endian bytes.now) ≤ used }
    requires most { used ≤ 16777216 }
    requires inside { used ≤ length bytes.now }
    ensures found { whole_block_value used result ≡ last_of kinds interfaces.now big_endian bytes.now (kind_at big_endian bytes.now) }
    ensures room { HasRoom (length interfaces.now) result }
    ensures placed { HoldsPlaced bytes.now used result }
{
    match kind_in(big_endian, bytes) {
        BlockKind::Section => WholeBlock::Begins(big_endian),
        BlockKind::Interface => interface_in(interfaces, big_endian, bytes, used),
        BlockKind::Packet => packet_in(kinds, interfaces, big_endian, bytes, used),
        BlockKind::Other => WholeBlock::Other,
    }
}

/// What an interface description says.
#[tactic(auto, unfolding(crate::specs::Block::interface_at))]
fn interface_in<'a>(
    interfaces: &[Interface],
    big_endian: bool,
    bytes: &'a [u8],
    used: usize,
) -> WholeBlock<'a>
    requires told { used ≡ length_at big_endian bytes.now }
    requires least { 20 ≤ used }
    requires inside { used ≤ length bytes.now }
    ensures found { (kinds : LinkSet) → whole_block_value used result ≡ last_of kinds interfaces.now big_endian bytes.now BlockKind.Interface }
    ensures room { HasRoom (length interfaces.now) result }
    ensures placed { HoldsPlaced bytes.now used result }
{
    if interfaces.len() >= INTERFACE_LIMIT {
        return WholeBlock::Refused(REFUSED_INTERFACE);
    }
    WholeBlock::Describes(Interface {
        link: u16_at(&View::one(bytes), 8, big_endian),
        resolution: resolution_in(&bytes[16..used - 4], big_endian),
    })
}

/// What an enhanced packet says.
fn packet_in<'a>(
    kinds: LinkSet,
    interfaces: &[Interface],
    big_endian: bool,
    bytes: &'a [u8],
    used: usize,
) -> WholeBlock<'a>
    requires told { used ≡ length_at big_endian bytes.now }
    requires least { 32 ≤ used }
    requires most { used ≤ 16777216 }
    requires inside { used ≤ length bytes.now }
    ensures found { whole_block_value used result ≡ last_of kinds interfaces.now big_endian bytes.now BlockKind.Packet }
    ensures room { HasRoom (length interfaces.now) result }
    ensures placed { HoldsPlaced bytes.now used result }
{
    let Some(interface) = interfaces.get(number_in(big_endian, bytes) as usize) else {
        return WholeBlock::Refused(REFUSED_INTERFACE);
    };
    let Some(link) = link_in(kinds, interface) else {
        return WholeBlock::Refused(REFUSED_INTERFACE);
    };
    let captured = captured_in(big_endian, bytes);
    if captured > CAPTURED_LIMIT {
        return WholeBlock::Refused(REFUSED_LENGTH);
    }
    let captured = captured as usize;
    if used < 32 + padded(captured) {
        return WholeBlock::Refused(REFUSED_BLOCK);
    }
    if interface.resolution > 9 {
        return WholeBlock::Refused(REFUSED_RESOLUTION);
    }
    WholeBlock::Holds {
        stamp: stamp(interface.resolution, ticks_in(big_endian, bytes)),
        link,
        body: &bytes[28..28 + captured],
    }
}

/// The link kind of an interface, if it is one that is read.
fn link_in(kinds: LinkSet, interface: &Interface) -> Option<LinkKind>
    ensures { result ≡ (if is_served kinds (Some interface.now) then Some (link_of kinds (Some interface.now)) else None) }
{
    link_kind(kinds, u32::from(interface.link))
}

/// The number of a packet's interface.
#[tactic(auto, unfolding(crate::specs::Block::number_at))]
fn number_in(big_endian: bool, bytes: &[u8]) -> u32
    requires { 32 ≤ length bytes.now }
    ensures { result ≡ number_at big_endian bytes.now }
{
    u32_at(&View::one(bytes), 8, big_endian)
}

/// The time of a packet, in units of its interface: the high half and the low half.
#[tactic(auto, unfolding(crate::specs::Block::ticks_at))]
fn ticks_in(big_endian: bool, bytes: &[u8]) -> u64
    requires { 32 ≤ length bytes.now }
    ensures { result ≡ ticks_at big_endian bytes.now }
{
    let view = View::one(bytes);
    u64::from(u32_at(&view, 12, big_endian)) * 4_294_967_296
        + u64::from(u32_at(&view, 16, big_endian))
}

/// The captured length of a packet.
#[tactic(auto, unfolding(crate::specs::Block::captured_at))]
fn captured_in(big_endian: bool, bytes: &[u8]) -> u32
    requires { 32 ≤ length bytes.now }
    ensures { result ≡ captured_at big_endian bytes.now }
{
    u32_at(&View::one(bytes), 20, big_endian)
}
