//! The information elements of commands, by type identification.
ghost use Rattle.std.specs.Prelude.{◌≡◌, ◌+◌, ◌≤◌, length};
ghost use Rattle.cf_asdu.specs.Types.{element_of, number_at, number_octets, signed};

use cf_view::View;

/// The number that an element writes.
#[derive(Clone, Copy)]
pub(crate) enum Number {
    /// The lowest bit of the first octet: off or on.
    Bit,
    /// The two lowest bits of the first octet: a double or a step command.
    TwoBits,
    /// The first octet: a qualifier.
    Octet,
    /// 16 bits, the low octet first, the highest bit the sign.
    Signed,
    /// 32 bits, the low octet first.
    Unsigned,
    /// None that is read.
    Absent,
}

/// The information element of a type: its octets, with qualifier and time, and its number.
#[derive(Clone, Copy)]
pub(crate) struct Element {
    pub octets: u8,
    pub number: Number,
}

/// The element of a type identification; none of a type that is not served. IEC 60870-5-104, section 8.
pub(crate) fn element_of(kind: u8) -> Option<Element>
    ensures { result ≡ element_of kind }
{
    let (octets, number) = match kind {
        45 => (1, Number::Bit),
        46 | 47 => (1, Number::TwoBits),
        48 | 49 | 110 | 111 => (3, Number::Signed),
        50 | 112 => (5, Number::Absent),
        51 => (4, Number::Unsigned),
        58 => (8, Number::Bit),
        59 | 60 => (8, Number::TwoBits),
        61 | 62 => (10, Number::Signed),
        63 => (12, Number::Absent),
        64 => (11, Number::Unsigned),
        100 | 101 | 105 | 113 => (1, Number::Octet),
        102 => (0, Number::Absent),
        103 => (7, Number::Absent),
        107 => (9, Number::Absent),
        _ => return None,
    };
    Some(Element { octets, number })
}

/// The number of the element that begins at `place`.
pub(crate) fn number_at(number: Number, octets: &View<'_>, place: usize) -> Option<i64>
    requires { place + number_octets number ≤ length octets.now.bytes }
    ensures { result ≡ number_at number octets.now.bytes place }
{
    match number {
        Number::Bit => Some(i64::from(octets.at(place) % 2)),
        Number::TwoBits => Some(i64::from(octets.at(place) % 4)),
        Number::Octet => Some(i64::from(octets.at(place))),
        Number::Signed => Some(signed(octets.u16_le(place))),
        Number::Unsigned => Some(i64::from(octets.u32_le(place))),
        Number::Absent => None,
    }
}

/// The number of 16 bits the highest of which is the sign.
fn signed(n: u16) -> i64
    ensures { result ≡ signed n }
{
    if n < 32_768 {
        i64::from(n)
    } else {
        i64::from(n) - 65_536
    }
}
