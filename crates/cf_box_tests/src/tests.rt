//! Relays, sifts and worlds over objects in memory as rows of text, the files and streams of the machine, and what is said on standard
//! error of what was printed.
mod machine;
mod relays;
mod remarks;
mod sifts;
mod texts;
mod worlds;

use std::process::Abort;

/// Asserts that what was found is what a row wants.
fn same(rt: &impl Abort, row: &str, found: &str, wanted: &str) {
    assert!(rt; found == wanted, "{row}\nfound\n{found}");
}

/// What stands after a word at the front of a line of a row; nothing where no line begins so.
fn field<'a>(row: &'a str, word: &str) -> &'a str {
    for line in row.lines() {
        if let Some(rest) = line.strip_prefix(word) {
            return rest.trim_start();
        }
    }
    ""
}
