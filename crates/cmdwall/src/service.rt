//! `serve`: the words of a service, over the files and the network of the machine.

use cf_box::serve_main;
use cf_help::{announce_service, expect_service_files, explain_service};
use cf_machine::{Gather, Printing, RealFiles, RealLinks, RealSink, Supervisor, takes_lines};
use cf_words::status::{LINK_FAULT, NO_MEMORY};
use std::io;
use std::process::ExitCode;

/// Whether the words are for a service.
pub fn is_service(words: &[String]) -> bool {
    match words {
        [word, ..] => word.as_str() == "serve",
        [] => false,
    }
}

/// Serves until that ends, and says on standard error why it did.
pub fn serve(rt: &HostRuntime, words: &[String]) -> ExitCode {
    let mut files = RealFiles::new(rt, rt.alloc(), Gather::Nothing);
    let status = match expect_service_files(words, &mut files) {
        Ok(()) => serve_files(rt, words, &mut files),
        Err(_) => NO_MEMORY,
    };
    ExitCode::from(status)
}

/// Serves with these files. Nothing waits for standard error, also where the service ends.
fn serve_files(rt: &HostRuntime, words: &[String], files: &mut RealFiles<'_, HostRuntime>) -> u8 {
    let announced = match announce_service(rt, words, files) {
        Ok(announced) => announced,
        Err(error) => return not_begun(rt, &error),
    };
    match RealLinks::new(rt, rt.alloc(), announced, Supervisor::of_environment(rt)) {
        Ok(mut links) => {
            let mut out = RealSink::new(io::writer(rt), Printing::AtOnce);
            let status = serve_main(rt.alloc(), words, files, &mut out, &mut links);
            if takes_lines() {
                let _ = explain_service(rt, words, status, files);
            }
            status
        }
        Err(error) => not_begun(rt, &error),
    }
}

/// Says why a service cannot begin.
fn not_begun(rt: &HostRuntime, error: &io::Error) -> u8 {
    if takes_lines() {
        let _ = eprintln!(rt; "cmdwall: {error}");
    }
    LINK_FAULT
}
