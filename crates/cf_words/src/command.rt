//! The words that the program takes.
ghost use Rattle.std.specs.Prelude.{◌≡◌, IfSome, map, option_map, string_bytes};
ghost use Rattle.cf_words.specs.Words.{HasFitWords, command_of, command_value};

use crate::captures::{read_draft, read_review};
use crate::files::{read_check, read_compare, read_judge, read_learn, read_migrate, read_packets};
use crate::relay::read_relay;
use crate::run::read_run;
use crate::sift::read_sift;
use crate::world::read_world;
use cf_run::RunNames;
use cf_sift::SiftNames;

/// What the words ask for. Names of files are not empty, and no two of one command are equal.
#[derive(Clone, Copy)]
pub enum Command<'a> {
    /// Read a policy.
    Check {
        policy: &'a str,
    },
    /// Compare a policy with another.
    Compare {
        policy: &'a str,
        other: &'a str,
    },
    /// Write a first policy that allows what 1 to `MOST_CAPTURES` captures show.
    Draft {
        policy: &'a str,
        out: &'a str,
        captures: &'a [String],
    },
    /// Judge what clients sent in a capture.
    Judge {
        policy: &'a str,
        capture: &'a str,
    },
    /// Write a policy that allows exactly what a capture shows.
    Learn {
        policy: &'a str,
        capture: &'a str,
        out: &'a str,
    },
    /// Write a policy as a document of version 2.
    Migrate {
        policy: &'a str,
        out: &'a str,
    },
    /// List the records of a capture.
    Packets {
        capture: &'a str,
    },
    /// Write all that a policy objects to in 1 to `MOST_CAPTURES` captures.
    Review {
        policy: &'a str,
        captures: &'a [String],
        log: &'a str,
    },
    /// Run a policy over a capture.
    Run {
        policy: &'a str,
        names: RunNames<'a>,
    },
    /// Stand between two streams: a listening port from 1 to 65,535, and 1 to 1,000,000 idle turns.
    Relay {
        policy: &'a str,
        asset: &'a str,
        port: u64,
        idles: u64,
        log: &'a str,
    },
    /// Make a policy and a capture of 1 to 200 sessions from a number, and run the policy over the capture.
    World {
        seed: u64,
        sessions: u64,
        policy: &'a str,
        names: RunNames<'a>,
    },
    /// Filter the stored stream of a client with this address, a number of 32 bits whose first octet is the highest.
    Sift {
        policy: &'a str,
        asset: &'a str,
        client: u32,
        names: SiftNames<'a>,
    },
}

/// The command that the words are, if they are one: the first names it. Takes no memory.
pub fn read_words(words: &[String]) -> Option<Command<'_>>
    ensures command { option_map command_value result ≡ command_of (map string_bytes words.now) }
    ensures fit { IfSome result HasFitWords }
{
    let [name, rest @ ..] = words else {
        return None;
    };
    if name.as_str() == "check" {
        return read_check(rest);
    }
    if name.as_str() == "compare" {
        return read_compare(rest);
    }
    if name.as_str() == "draft" {
        return read_draft(rest);
    }
    if name.as_str() == "judge" {
        return read_judge(rest);
    }
    if name.as_str() == "learn" {
        return read_learn(rest);
    }
    if name.as_str() == "migrate" {
        return read_migrate(rest);
    }
    if name.as_str() == "packets" {
        return read_packets(rest);
    }
    if name.as_str() == "review" {
        return read_review(rest);
    }
    if name.as_str() == "run" {
        return read_run(rest);
    }
    if name.as_str() == "relay" {
        return read_relay(rest);
    }
    if name.as_str() == "world" {
        return read_world(rest);
    }
    if name.as_str() == "sift" {
        return read_sift(rest);
    }
    None
}
