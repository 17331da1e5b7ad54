//! The header of a capture file.
ghost use Rattle.std.specs.Prelude.{◌≡◌, ◌+◌, ◌≤◌, length};
ghost use Rattle.cf_pcap.specs.Header.{fields_of, header_in, is_magic, u16_at, u32_at};

use cf_view::{LinkKind, LinkSet, View, link_kind};

/// What the header of a capture file says about its records. draft-ietf-opsawg-pcap, section 4.
#[derive(Clone, Copy)]
pub struct Header {
    /// Whether numbers stand with their high octet first.
    pub big_endian: bool,
    /// Whether fractions of a second are nanoseconds; else they are microseconds.
    pub nanos: bool,
    /// What stands before the IPv4 packet of a record.
    pub link: LinkKind,
}

/// Why octets begin no capture file that is read. They are tested in this order. The order is this project's own.
#[derive(Clone, Copy, PartialEq, Eq, Debug)]
pub enum HeaderRefusal {
    /// There are fewer than 24 octets.
    Short,
    /// The magic is neither A1B2C3D4 nor A1B23C4D, in either byte order.
    Magic,
    /// The version is not 2.4.
    Version,
    /// The link type is none of those that are read.
    LinkType,
}

/// The magic of files whose fractions are microseconds. draft-ietf-opsawg-pcap, section 4.
pub const MICROSECONDS: u32 = 0xA1B2_C3D4;
/// The magic of files whose fractions are nanoseconds. draft-ietf-opsawg-pcap, section 4.
pub const NANOSECONDS: u32 = 0xA1B2_3C4D;

/// The header that begins a capture file of these octets, of one of these link types. draft-ietf-opsawg-pcap, section 4; zone, accuracy and
/// snap length are not used.
pub fn read_header(kinds: LinkSet, bytes: &[u8]) -> Result<Header, HeaderRefusal>
    ensures { result ≡ header_in kinds bytes.now }
{
    if bytes.len() < 24 {
        return Err(HeaderRefusal::Short);
    }
    let bytes = View::one(bytes);
    if is_magic(bytes.u32_be(0)) {
        return fields(kinds, &bytes, true);
    }
    if is_magic(bytes.u32_le(0)) {
        return fields(kinds, &bytes, false);
    }
    Err(HeaderRefusal::Magic)
}

/// Whether a number is the magic of a capture file.
fn is_magic(n: u32) -> bool
    ensures { result ≡ is_magic n }
{
    n == MICROSECONDS || n == NANOSECONDS
}

/// What the fields of a header in this byte order say.
fn fields(kinds: LinkSet, bytes: &View<'_>, big_endian: bool) -> Result<Header, HeaderRefusal>
    requires { 24 ≤ length bytes.now.bytes }
    ensures { result ≡ fields_of kinds big_endian bytes.now.bytes }
{
    if u16_at(bytes, 4, big_endian) != 2 || u16_at(bytes, 6, big_endian) != 4 {
        return Err(HeaderRefusal::Version);
    }
    let nanos = u32_at(bytes, 0, big_endian) == NANOSECONDS;
    match link_kind(kinds, u32_at(bytes, 20, big_endian)) {
        Some(link) => Ok(Header {
            big_endian,
            nanos,
            link,
        }),
        None => Err(HeaderRefusal::LinkType),
    }
}

/// The number of two octets in a file's byte order.
pub fn u16_at(bytes: &View<'_>, i: usize, big_endian: bool) -> u16
    requires { i + 2 ≤ length bytes.now.bytes }
    ensures { result ≡ u16_at big_endian bytes.now.bytes i }
{
    if big_endian {
        bytes.u16_be(i)
    } else {
        bytes.u16_le(i)
    }
}

/// The number of four octets in a file's byte order.
pub fn u32_at(bytes: &View<'_>, i: usize, big_endian: bool) -> u32
    requires { i + 4 ≤ length bytes.now.bytes }
    ensures { result ≡ u32_at big_endian bytes.now.bytes i }
{
    if big_endian {
        bytes.u32_be(i)
    } else {
        bytes.u32_le(i)
    }
}
