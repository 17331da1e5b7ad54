//! The program `cmdwall`: the words that it was given, over the files, the standard output and the streams of the machine.
//! `--help` and `--version`, alone, are answered here: for `box_main` they are words of no form. A word that is not UTF-8 makes
//! the words unreadable, which is 2.
#![tactic(auto)]

mod service;

use crate::service::{is_service, serve};
use cf_box::box_main;
use cf_help::{Asked, expect_files, explain, print_help, print_topic, print_version, question_of};
use cf_machine::{Gather, LinkPair, Printing, RealFiles, RealSink, fill_descriptors};
use cf_words::status::{NO_MEMORY, WRITE_FAULT};
use cf_words::{Command, read_words};
use std::env::Env;
use std::process::ExitCode;
use std::{env, io};

fn main(rt: HostRuntime) -> ExitCode {
    fill_descriptors();
    match words_of(&rt) {
        Ok(words) => answer(&rt, &words),
        Err(error) if matches!(error.kind(), io::ErrorKind::OutOfMemory) => {
            ExitCode::from(NO_MEMORY)
        }
        // Words that cannot be read are words of no form.
        Err(_) => answer(&rt, &[]),
    }
}

/// Does what the words ask for.
fn answer(rt: &HostRuntime, words: &[String]) -> ExitCode {
    match question_of(words) {
        Asked::Help => printed(print_help(rt)),
        Asked::HelpOf(topic) => printed(print_topic(rt, topic)),
        Asked::Version => printed(print_version(rt)),
        Asked::Work if is_service(words) => serve(rt, words),
        Asked::Work => work(rt, words),
    }
}

/// Does the work of a command over the files of the machine.
fn work(rt: &HostRuntime, words: &[String]) -> ExitCode {
    let command = read_words(words);
    let mut files = RealFiles::new(rt, rt.alloc(), gather_of(&command));
    let printing = printing_of(&command);
    let status = match command {
        Some(command) if expect_files(&command, &mut files).is_err() => NO_MEMORY,
        _ => run_box(rt, words, &mut files, printing),
    };
    ExitCode::from(status)
}

/// People follow the log of a relay.
fn gather_of(command: &Option<Command<'_>>) -> Gather {
    match command {
        Some(Command::Relay { .. }) => Gather::Nothing,
        _ => Gather::Pieces,
    }
}

/// What is printed of work that makes files waits for them.
fn printing_of(command: &Option<Command<'_>>) -> Printing {
    match command {
        Some(
            Command::Check { .. }
            | Command::Compare { .. }
            | Command::Packets { .. }
            | Command::Judge { .. },
        )
        | None => Printing::AtOnce,
        Some(_) => Printing::LastAtEnd,
    }
}

/// Runs the proved program, and says on standard error what there is to say.
fn run_box(
    rt: &HostRuntime,
    words: &[String],
    files: &mut RealFiles<'_, HostRuntime>,
    printing: Printing,
) -> u8 {
    let mut out = RealSink::new(io::writer(rt), printing);
    let mut pair = LinkPair::new(rt);
    let mut told = None;
    let done = box_main(rt.alloc(), words, files, &mut out, &mut pair, &mut told);
    pair.leave();
    // What was gathered is part of the work: where it cannot be written, the work is not done, and nothing of it is printed.
    let status = if files.finish() && out.finish() {
        done
    } else {
        WRITE_FAULT
    };
    explain(rt, words, told.as_ref(), status, files, pair.fault());
    status
}

/// The words after the program's name.
fn words_of(rt: &(impl Env + AllocGlobal)) -> io::Result<Vec<String>> {
    let mut words = Vec::new(rt.alloc());
    for word in env::args(rt)?.skip(1) {
        words.push(word)?;
    }
    Ok(words)
}

/// Status 0, or that of a write fault where printing failed.
fn printed(done: io::Result<()>) -> ExitCode {
    match done {
        Ok(()) => ExitCode::from(0),
        Err(_) => ExitCode::from(WRITE_FAULT),
    }
}
