//! Names of files and numbers among the words.
ghost use Rattle.std.specs.Prelude.{◌≡◌, ◌↔◌, IsTrue, bytes_eq, decimal, map, string_bytes};
ghost use Rattle.std.specs.List.{list_any};
ghost use Rattle.cf_words.specs.Names.{are_names, printed_number, printed_number_in};

use itoa::Buffer;

/// The number that the text is, from `low` to `high`, in decimal without sign or leading zeros.
pub fn printed_number_in(low: u64, high: u64, text: &str) -> Option<u64>
    ensures { result ≡ printed_number_in low high text.now }
{
    let number = printed_number(text)?;
    if number < low || high < number {
        return None;
    }
    Some(number)
}

/// The number of 64 bits that the text is, as it is printed.
fn printed_number(text: &str) -> Option<u64>
    ensures { result ≡ printed_number text.now }
{
    match text.parse::<u64>() {
        Ok(number) => {
            if is_printed(number, text) {
                Some(number)
            } else {
                None
            }
        }
        Err(_) => None,
    }
}

/// Whether a number is printed so.
fn is_printed(number: u64, text: &str) -> bool
    ensures { IsTrue result ↔ (text.now ≡ decimal number) }
{
    let mut buffer = Buffer::new();
    buffer.format(number) == text
}

/// Whether no name is empty, and no two are equal.
#[tactic(auto, using(crate::proofs::FileNames::list_any_of_map))]
pub fn are_names(names: &[&str]) -> bool
    ensures { result ≡ are_names (map (λ n. n.now) names.now) }
{
    let Some((name, rest)) = names.split_first() else {
        return true;
    };
    if name.is_empty() {
        return false;
    }
    if is_among(name, rest) {
        return false;
    }
    are_names(rest)
}

/// Whether no word is empty, and no two are equal.
#[tactic(auto, using(crate::proofs::FileNames::list_any_of_map))]
pub(crate) fn are_all_names(words: &[String]) -> bool
    ensures { result ≡ are_names (map string_bytes words.now) }
{
    let Some((word, rest)) = words.split_first() else {
        return true;
    };
    let text = word.as_str();
    if text.is_empty() {
        return false;
    }
    if is_among_words(text, rest) {
        return false;
    }
    are_all_names(rest)
}

fn is_among_words(name: &str, words: &[String]) -> bool
    ensures { result ≡ list_any (λ w. bytes_eq name.now (string_bytes w)) words.now }
{
    words.iter().any(|other| name == other.as_str())
}

fn is_among(name: &str, names: &[&str]) -> bool
    ensures { result ≡ list_any (λ n. bytes_eq name.now n.now) names.now }
{
    names.iter().any(|other| name == *other)
}
