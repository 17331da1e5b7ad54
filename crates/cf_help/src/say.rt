//! Lines on standard error.

use std::alloc::AllocError;
use std::io;

/// Says a message, where there was memory for it.
pub(crate) fn say<R: Eprint>(rt: &R, message: Result<String, AllocError>) -> io::Result<()> {
    let message = message?;
    say_of(rt, "", message.as_str(), "")
}

/// Says a name with what stands before it and behind it.
pub(crate) fn say_of<R: Eprint>(rt: &R, before: &str, name: &str, behind: &str) -> io::Result<()> {
    eprintln!(rt; "cmdwall: {before}{name}{behind}")
}

/// Says each line of a text, where there was memory for it.
pub(crate) fn say_lines<R: Eprint>(rt: &R, text: Result<String, AllocError>) -> io::Result<()> {
    print_lines(rt, &text?)
}

/// Says each line of a text.
pub(crate) fn print_lines<R: Eprint>(rt: &R, text: &str) -> io::Result<()> {
    for line in text.lines() {
        say_of(rt, "", line, "")?;
    }
    Ok(())
}
