//! Files that are no policies, by their first octets.

/// The first octets of captures, four each: of classic ones in both byte orders, with microseconds and with nanoseconds, and of
/// pcapng. draft-ietf-opsawg-pcap, section 4; draft-ietf-opsawg-pcapng, section 4.1.
const CAPTURES: &[u8; 20] =
    b"\xD4\xC3\xB2\xA1\xA1\xB2\xC3\xD4\x4D\x3C\xB2\xA1\xA1\xB2\x3C\x4D\x0A\x0D\x0D\x0A";

/// What a file begins as that is no TOML, and what to do, where its first octets say it. No text in UTF-8 begins as the captures but
/// for those of pcapng, and no TOML as any of these.
pub(crate) fn foreign(text: &[u8]) -> Option<&'static str> {
    if is_capture(text) {
        Some(
            ": it begins as a capture does, and a policy is a text\n  \
             in the words of a command POLICY stands before CAPTURE, as cmdwall judge POLICY CAPTURE",
        )
    } else if is_of_16_bits(text) {
        Some(
            ": it begins as a text in UTF-16 does, and a policy is a text in UTF-8\n  save it as UTF-8",
        )
    } else {
        None
    }
}

fn is_capture(text: &[u8]) -> bool {
    for mark in CAPTURES.chunks(4) {
        if text.starts_with(mark) {
            return true;
        }
    }
    false
}

/// Whether a file begins with the byte order mark of UTF-16, or with a printed character of ASCII in two octets.
fn is_of_16_bits(text: &[u8]) -> bool {
    match text {
        [0xFF, 0xFE, ..] | [0xFE, 0xFF, ..] => true,
        [0, octet, ..] | [octet, 0, ..] => is_of_text(octet),
        _ => false,
    }
}

/// Whether an octet is a letter, a blank or another character of ASCII that is printed.
pub(crate) fn is_of_text(octet: &u8) -> bool {
    octet.is_ascii_graphic() || octet.is_ascii_whitespace()
}
