//! Values of a policy's text, as a message shows them.
use crate::page::Page;
use toml::Value;

/// How many characters of a text are shown.
const SHOWN: usize = 48;

/// A text cut after `SHOWN` characters. A control character stands as its escape.
pub(crate) fn push_shown(out: &mut Page, text: &str) {
    let mut left = SHOWN;
    for character in text.chars() {
        if left == 0 {
            out.push("..");
            return;
        }
        push_character(out, character);
        left -= 1;
    }
}

fn push_character(out: &mut Page, character: char) {
    if !character.is_control() {
        out.push_char(character);
        return;
    }
    for part in character.escape_default() {
        out.push_char(part);
    }
}

/// The same between quotation marks.
pub(crate) fn push_quoted(out: &mut Page, text: &str) {
    out.push("\"");
    push_shown(out, text);
    out.push("\"");
}

/// What a word says that a thing is, with its number and its name.
pub(crate) fn push_titled(out: &mut Page, word: &str, number: u64, name: &str) {
    out.push_number_after(word, number);
    out.push(" ");
    push_quoted(out, name);
}

/// A value with its kind.
pub(crate) fn push_value(out: &mut Page, value: &Value) {
    out.push(kind_of(value));
    match value {
        Value::String(text) => push_quoted(out, text.as_str()),
        Value::Integer(number) => out.push_signed(*number),
        _ => {}
    }
}

/// What a value is, before the text or the number itself.
fn kind_of(value: &Value) -> &'static str {
    match value {
        Value::String(_) => "the text ",
        Value::Integer(_) => "the number ",
        Value::Boolean(true) => "the boolean true",
        Value::Boolean(false) => "the boolean false",
        Value::Float(_) => "a number with a point",
        Value::Datetime(_) => "a date or a time",
        Value::Array(_) => "a list",
        Value::Table(_) => "a table",
    }
}
