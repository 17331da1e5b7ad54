//! Words that are no command.
use crate::entries::address_fault;
use crate::nearest::{push_meant, row_of};
use crate::page::Page;
use crate::quote::push_quoted;
use cf_policylang::address;
use std::alloc::{AllocError, Global};

/// What a word after a command is.
#[derive(Clone, Copy)]
enum Role {
    /// The name of a file, which is not empty and differs from the others.
    File,
    /// The name of an asset: any text.
    Asset,
    /// An IPv4 address.
    Client,
    /// A decimal number from a lowest to a highest, without leading zeros.
    Number(u64, u64),
    /// An asset and an endpoint, `NAME=A.B.C.D:PORT`.
    Place,
}

const COMMANDS: &str =
    "sift, check, compare, learn, draft, migrate, packets, judge, review, run, relay, serve, world";

/// What stands behind the word of a form of which there may be more.
const MORE: &str = "..";

/// The most captures of a recording.
const CAPTURE_LIMIT: usize = 64;

/// The most places of a service.
const PLACE_LIMIT: usize = 256;

/// Each command, and behind it what help calls its words, with a space between two.
const FORMS: &str = "\
sift POLICY ASSET CLIENT STREAM OUT REPLIES LOG
check POLICY
compare POLICY OTHER
learn POLICY CAPTURE OUT
draft POLICY OUT CAPTURE..
migrate POLICY OUT
judge POLICY CAPTURE
review POLICY CAPTURE.. LOG
packets CAPTURE
run POLICY CAPTURE OUT LOG
relay POLICY ASSET PORT IDLES LOG
serve POLICY SECONDS LOG NAME=A.B.C.D:PORT..
world SEED SESSIONS POLICY CAPTURE OUT LOG";

/// How many words a form has.
fn count_of(form: &str) -> usize {
    form.split(' ').count()
}

/// A word after a command: what help calls it, what it is, and its text.
#[derive(Clone, Copy)]
struct Word<'a> {
    name: &'static str,
    role: Role,
    text: &'a str,
}

/// The words that have a form: those that there are more of stand at one place of it.
fn named<'a>(out: &mut Page, form: &'static str, words: &'a [String]) -> Vec<Word<'a>> {
    let mut named = Vec::new(out.alloc);
    let mut more = words.len().saturating_sub(count_of(form));
    let mut place = 0usize;
    for word in words {
        let name = form.split(' ').nth(place).unwrap_or("");
        if more > 0 && name.ends_with(MORE) {
            more -= 1;
        } else {
            place = place.saturating_add(1);
        }
        let word = word_of(name, word.as_str());
        out.keep(named.push(word).is_ok());
    }
    named
}

fn word_of<'a>(name: &'static str, text: &'a str) -> Word<'a> {
    let name = name.strip_suffix(MORE).unwrap_or(name);
    let role = role_of(name);
    Word { name, role, text }
}

/// What a word is, by what help calls it.
fn role_of(name: &str) -> Role {
    match name {
        "ASSET" => Role::Asset,
        "CLIENT" => Role::Client,
        "PORT" => Role::Number(1, 65_535),
        "IDLES" => Role::Number(1, 1_000_000),
        "SECONDS" => Role::Number(2, 1_000_000),
        "SEED" => Role::Number(0, 18_446_744_073_709_551_615),
        "SESSIONS" => Role::Number(1, 200),
        "NAME=A.B.C.D:PORT" => Role::Place,
        _ => Role::File,
    }
}

/// What is wrong with words that are no command: which word, and why. After it stands the form of the command that the
/// first word names, or the commands. Words that are a command get a message all the same.
pub fn words_message(alloc: Global, words: &[String]) -> Result<String, AllocError> {
    let mut out = Page::new(alloc);
    match words.split_first() {
        Some((command, rest)) => push_asked(&mut out, command.as_str(), rest),
        None => {
            out.push("there are no words; a first one names the command\n  ");
            push_commands(&mut out);
        }
    }
    out.finish()
}

/// What is wrong with a word and those after it. After `help` stands the command that is asked for.
fn push_asked(out: &mut Page, word: &str, rest: &[String]) {
    match rest {
        [asked] if word == "help" => push_no_command(out, asked.as_str()),
        _ => push_command(out, word, rest),
    }
}

fn push_command(out: &mut Page, command: &str, words: &[String]) {
    match row_of(FORMS, command) {
        Some(form) => push_command_fault(out, command, form, words),
        None => push_no_command(out, command),
    }
}

fn push_commands(out: &mut Page) {
    out.push_all(&["commands are ", COMMANDS, "; 'cmdwall --help' says more"]);
}

fn push_no_command(out: &mut Page, word: &str) {
    push_quoted(out, word);
    out.push(" is no command");
    push_meant(out, word, COMMANDS, "");
    out.push("\n  ");
    push_commands(out);
}

/// What is wrong with the words after a command, and its form.
fn push_command_fault(out: &mut Page, command: &str, form: &'static str, words: &[String]) {
    let wanted = count_of(form);
    if wanted == words.len() || (wanted < words.len() && form.contains(MORE)) {
        let named = named(out, form, words);
        push_words_fault(out, command, form, named.as_slice());
    } else {
        push_wrong_count(out, command, form, words.len());
    }
    out.push_all(&["\n  cmdwall ", command, " ", form]);
}

/// Too few or too many words.
fn push_wrong_count(out: &mut Page, command: &str, form: &str, count: usize) {
    let wanted = count_of(form);
    let takes = if form.contains(MORE) {
        " takes at least "
    } else {
        " takes "
    };
    let has = if wanted == 1 {
        " word, and has "
    } else {
        " words, and has "
    };
    out.push(command);
    out.push_number_after(takes, wanted as u64);
    out.push_number_after(has, count as u64);
}

/// The first of these that holds: a word that is none of its role, two files of one name, one place twice, too many of a kind.
fn push_words_fault(out: &mut Page, command: &str, form: &str, words: &[Word<'_>]) {
    if !push_word_faults(out, words)
        && !push_twins(out, words)
        && !push_again(out, words)
        && !push_too_many(out, form, words.len())
    {
        out.push_all(&["the words behind ", command, " have no form"]);
    }
}

/// Says what is wrong with the first word that is none of its role, if there is one, and whether it did.
fn push_word_faults(out: &mut Page, words: &[Word<'_>]) -> bool {
    for word in words {
        if !has_role(word.role, word.text) {
            push_word_fault(out, word);
            push_exchange(out, words, word);
            return true;
        }
    }
    false
}

/// Whether a word can be what stands there.
fn has_role(role: Role, word: &str) -> bool {
    match role {
        Role::Asset => true,
        Role::File => !word.is_empty(),
        Role::Client => address(word).is_some(),
        Role::Number(low, high) => is_number(low, high, word),
        Role::Place => is_place(word),
    }
}

/// Whether a word is a name, an address and a port.
fn is_place(word: &str) -> bool {
    match endpoint_of(word).split_once(':') {
        Some((host, port)) => address(host).is_some() && is_number(1, 65_535, port),
        None => false,
    }
}

/// What stands behind the name of a place; an empty text where it has none.
fn endpoint_of(word: &str) -> &str {
    match word.split_once('=') {
        Some((_, endpoint)) => endpoint,
        None => "",
    }
}

/// Says what is wrong with a word.
fn push_word_fault(out: &mut Page, word: &Word<'_>) {
    if word.text.is_empty() && is_file(word) {
        out.push_all(&["the name of ", word.name, " is empty"]);
        return;
    }
    out.push_all(&[word.name, " is "]);
    push_quoted(out, word.text);
    push_role(out, word.role, word.text);
}

/// Asks whether a word that is none of its role was exchanged with that of a file or an asset: each can be what the other is not.
fn push_exchange(out: &mut Page, words: &[Word<'_>], word: &Word<'_>) {
    if word.text.is_empty() {
        return;
    }
    for other in words {
        if is_free(other) && has_role(word.role, other.text) {
            out.push_all(&["; ", other.name, " is "]);
            push_quoted(out, other.text);
            out.push(": are the two exchanged?");
            return;
        }
    }
}

/// Whether any word, if it is not empty, can stand where this one does.
fn is_free(word: &Word<'_>) -> bool {
    matches!(word.role, Role::File | Role::Asset)
}

fn is_file(word: &Word<'_>) -> bool {
    matches!(word.role, Role::File)
}

/// What a word has to be that is an address or a number.
fn push_role(out: &mut Page, role: Role, word: &str) {
    match role {
        Role::Number(low, high) => {
            out.push_number_after(", no whole number from ", low);
            out.push_number_after(" to ", high);
        }
        Role::Place => out.push(
            ", no asset with an address and a port from 1 to 65535, as pump=127.0.0.1:5020",
        ),
        _ => out.push_all(&[
            ", no IPv4 address as 10.0.0.5: ",
            address_fault(word).unwrap_or(""),
        ]),
    }
}

/// Whether a word is a number in the range, as it is printed.
fn is_number(low: u64, high: u64, word: &str) -> bool {
    if word.starts_with("+") || (word.len() > 1 && word.starts_with("0")) {
        return false;
    }
    match word.parse::<u64>() {
        Ok(number) => low <= number && number <= high,
        Err(_) => false,
    }
}

/// Says which two files have one name, if two have, and whether it did.
fn push_twins(out: &mut Page, words: &[Word<'_>]) -> bool {
    for (index, word) in words.iter().enumerate() {
        let earlier = words.get(..index).unwrap_or(words);
        if let Some(name) = twin_of(earlier, word) {
            out.push_all(&[name, " and ", word.name, " are both "]);
            push_quoted(out, word.text);
            out.push(", and each file has a name of its own");
            return true;
        }
    }
    false
}

/// What help calls the first earlier word that is the same, if both are files.
fn twin_of(earlier: &[Word<'_>], word: &Word<'_>) -> Option<&'static str> {
    for other in earlier {
        if other.text == word.text {
            let are_files = is_file(other) && is_file(word);
            return are_files.then_some(other.name);
        }
    }
    None
}

/// Says that there are too many captures or places, and whether it did.
fn push_too_many(out: &mut Page, form: &str, count: usize) -> bool {
    let many = count.saturating_sub(count_of(form)).saturating_add(1);
    let said = if many > PLACE_LIMIT && form.contains("PORT..") {
        "there are more than 256 places"
    } else if many > CAPTURE_LIMIT && form.contains("CAPTURE..") {
        "there are more than 64 captures"
    } else {
        return false;
    };
    out.push(said);
    true
}

/// Says which asset or endpoint stands twice among the places, and whether it did.
fn push_again(out: &mut Page, words: &[Word<'_>]) -> bool {
    for (index, word) in words.iter().enumerate() {
        let earlier = words.get(..index).unwrap_or(words);
        if let Some(part) = again(earlier, word) {
            push_quoted(out, part);
            out.push(" stands twice among the places");
            return true;
        }
    }
    false
}

/// The asset of a place that an earlier place has, else such an endpoint.
fn again<'a>(earlier: &[Word<'_>], word: &Word<'a>) -> Option<&'a str> {
    let (name, endpoint) = word.text.split_once('=')?;
    if !matches!(word.role, Role::Place) {
        None
    } else if some_has(earlier, name) {
        Some(name)
    } else if some_has(earlier, endpoint) {
        Some(endpoint)
    } else {
        None
    }
}

/// Whether one of the places has this asset or endpoint.
fn some_has(words: &[Word<'_>], part: &str) -> bool {
    for word in words {
        if let Role::Place = word.role {
            let (name, endpoint) = word.text.split_once('=').unwrap_or((part, part));
            if name == part || endpoint == part {
                return true;
            }
        }
    }
    false
}
