//! Acts of commands, as a row spells them.

use crate::sheet::Sheet;
use cf_view::{Act, Break, Reason};

/// Puts an act: its code, its group in hexadecimal digits, its point, and the value that it writes, if it writes one.
pub fn put_act(sheet: &mut Sheet, act: &Act) {
    sheet.put_number(" ", u64::from(act.code));
    sheet.put_digits("/", u32::from(act.group));
    sheet.put_number("/", u64::from(act.point));
    if let Some(value) = act.value {
        sheet.put_signed("=", value);
    }
}

/// The word for a reason.
pub fn reason_word(reason: &Reason) -> &'static str {
    match reason {
        Reason::Station => "station",
        Reason::Function => "function",
        Reason::Point => "point",
        Reason::Value => "value",
    }
}

/// The reason of a word.
pub fn reason_of(word: &str) -> Option<Reason> {
    match word {
        "station" => Some(Reason::Station),
        "function" => Some(Reason::Function),
        "point" => Some(Reason::Point),
        "value" => Some(Reason::Value),
        _ => None,
    }
}

/// What is said of octets that no unit begins.
pub fn break_words(broken: &Break) -> &'static str {
    match broken {
        Break::Protocol => "broken: MBAP protocol",
        Break::Length => "broken: MBAP length",
        Break::Start => "broken: start of a frame",
        Break::FrameLength => "broken: length of a frame",
        Break::HeaderCrc => "broken: CRC of the header",
        Break::BlockCrc => "broken: CRC of a block",
        Break::ApduStart => "broken: start of an APDU",
        Break::ApduLength => "broken: length of an APDU",
        Break::Control => "broken: control field",
    }
}
