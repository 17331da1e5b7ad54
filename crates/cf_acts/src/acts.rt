//! The acts that commands can have: those of each code. `docs/POLICY.md` has them in words.
ghost use Rattle.std.specs.Prelude.{◌≡◌};
ghost use Rattle.cf_acts.specs.Acts.{kinds, modbus_kinds, dnp3_kinds, iec104_kinds};

use cf_policy::{Protocol, Span};

/// Groups of acts.
#[derive(Clone, Copy, PartialEq, Eq, Debug)]
pub enum Groups {
    /// Those of a span.
    Span(Span),
    /// The causes of transmission request, activation and deactivation: 5, 6 and 8.
    Causes,
}

/// Acts of a code: their groups and points, and their values, where they write a number that rules can name.
#[derive(Clone, Copy, PartialEq, Eq, Debug)]
pub struct Kind {
    pub groups: Groups,
    pub points: Span,
    pub values: Option<Span>,
}

const ZERO: Span = Span { low: 0, high: 0 };

const ONE: Span = Span { low: 1, high: 1 };

const BIT: Span = Span { low: 0, high: 1 };

const TWO_BITS: Span = Span { low: 0, high: 3 };

const OCTET: Span = Span { low: 0, high: 255 };

const UNSIGNED_16: Span = Span {
    low: 0,
    high: 65_535,
};

const SIGNED_16: Span = Span {
    low: -32_768,
    high: 32_767,
};

const UNSIGNED_24: Span = Span {
    low: 0,
    high: 16_777_215,
};

const UNSIGNED_32: Span = Span {
    low: 0,
    high: 4_294_967_295,
};

const SIGNED_32: Span = Span {
    low: -2_147_483_648,
    high: 2_147_483_647,
};

const G12V1: Span = Span {
    low: 3073,
    high: 3073,
};

const G41V1: Span = Span {
    low: 10_497,
    high: 10_497,
};

const G41V2: Span = Span {
    low: 10_498,
    high: 10_498,
};

const G41V3_TO_4: Span = Span {
    low: 10_499,
    high: 10_500,
};

const G50V1: Span = Span {
    low: 12_801,
    high: 12_801,
};

const G50V3: Span = Span {
    low: 12_803,
    high: 12_803,
};

const G80V1: Span = Span {
    low: 20_481,
    high: 20_481,
};

const READ: Kind = Kind {
    groups: Groups::Span(ZERO),
    points: UNSIGNED_16,
    values: None,
};

const COIL: Kind = Kind {
    groups: Groups::Span(ZERO),
    points: UNSIGNED_16,
    values: Some(BIT),
};

const REGISTER: Kind = Kind {
    groups: Groups::Span(ZERO),
    points: UNSIGNED_16,
    values: Some(UNSIGNED_16),
};

/// The writes of function 23.
const WRITE_PART: Kind = Kind {
    groups: Groups::Span(ONE),
    points: UNSIGNED_16,
    values: Some(UNSIGNED_16),
};

/// The control code of a relay output block.
const RELAY: Kind = Kind {
    groups: Groups::Span(G12V1),
    points: UNSIGNED_16,
    values: Some(OCTET),
};

const ANALOG_32: Kind = Kind {
    groups: Groups::Span(G41V1),
    points: UNSIGNED_16,
    values: Some(SIGNED_32),
};

const ANALOG_16: Kind = Kind {
    groups: Groups::Span(G41V2),
    points: UNSIGNED_16,
    values: Some(SIGNED_16),
};

const ANALOG_FLOAT: Kind = Kind {
    groups: Groups::Span(G41V3_TO_4),
    points: UNSIGNED_16,
    values: None,
};

const TIME: Kind = Kind {
    groups: Groups::Span(G50V1),
    points: ZERO,
    values: None,
};

const LAST_TIME: Kind = Kind {
    groups: Groups::Span(G50V3),
    points: ZERO,
    values: None,
};

const INDICATIONS: Kind = Kind {
    groups: Groups::Span(G80V1),
    points: ZERO,
    values: None,
};

/// Object headers of a request that only names them, or none.
const NAMED: Kind = Kind {
    groups: Groups::Span(UNSIGNED_16),
    points: ZERO,
    values: None,
};

const STATE: Kind = Kind {
    groups: Groups::Causes,
    points: UNSIGNED_24,
    values: Some(BIT),
};

const DOUBLE_STATE: Kind = Kind {
    groups: Groups::Causes,
    points: UNSIGNED_24,
    values: Some(TWO_BITS),
};

const SIGNED_NUMBER: Kind = Kind {
    groups: Groups::Causes,
    points: UNSIGNED_24,
    values: Some(SIGNED_16),
};

const BITS: Kind = Kind {
    groups: Groups::Causes,
    points: UNSIGNED_24,
    values: Some(UNSIGNED_32),
};

const QUALIFIER: Kind = Kind {
    groups: Groups::Causes,
    points: UNSIGNED_24,
    values: Some(OCTET),
};

const NO_NUMBER: Kind = Kind {
    groups: Groups::Causes,
    points: UNSIGNED_24,
    values: None,
};

const CONTROLS: [Kind; 4] = [RELAY, ANALOG_32, ANALOG_16, ANALOG_FLOAT];

const WRITTEN: [Kind; 3] = [TIME, LAST_TIME, INDICATIONS];

const BOTH_PARTS: [Kind; 2] = [WRITE_PART, READ];

/// The kinds of acts that commands with a code have; none where the protocol does not serve it.
pub fn kinds(protocol: Protocol, code: u16) -> &'static [Kind]
    ensures { result.now ≡ kinds protocol code }
{
    match protocol {
        Protocol::Modbus => modbus_kinds(code),
        Protocol::Dnp3 => dnp3_kinds(code),
        Protocol::Iec104 => iec104_kinds(code),
    }
}

/// MODBUS Application Protocol Specification V1.1b3, section 6.
fn modbus_kinds(code: u16) -> &'static [Kind]
    ensures { result.now ≡ modbus_kinds code }
{
    match code {
        1..=4 | 22 => &[READ],
        5 | 15 => &[COIL],
        6 | 16 => &[REGISTER],
        23 => &BOTH_PARTS,
        _ => &[],
    }
}

/// IEEE 1815-2012, section 4.4 and annex A.
fn dnp3_kinds(code: u16) -> &'static [Kind]
    ensures { result.now ≡ dnp3_kinds code }
{
    match code {
        2 => &WRITTEN,
        3..=6 => &CONTROLS,
        1 | 7..=10 | 13 | 14 | 20..=24 => &[NAMED],
        _ => &[],
    }
}

/// IEC 60870-5-101, sections 7.3.2, 7.3.4 and 7.3.5, and IEC 60870-5-104, section 8.
fn iec104_kinds(code: u16) -> &'static [Kind]
    ensures { result.now ≡ iec104_kinds code }
{
    match code {
        45 | 58 => &[STATE],
        46 | 47 | 59 | 60 => &[DOUBLE_STATE],
        48 | 49 | 61 | 62 | 110 | 111 => &[SIGNED_NUMBER],
        51 | 64 => &[BITS],
        100 | 101 | 105 | 113 => &[QUALIFIER],
        50 | 63 | 102 | 103 | 107 | 112 => &[NO_NUMBER],
        _ => &[],
    }
}
