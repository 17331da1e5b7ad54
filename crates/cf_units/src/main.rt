//! Plays rows over the public calls of the lower crates, and prints for each whether they answer as it says. The words are the
//! names of files of rows; `docs/DEVELOPING.md` says how a row is written.
#![tactic(auto)]

mod acts;
mod blocks;
mod calls;
mod captures;
mod desks;
mod files;
mod fragments;
mod frames;
mod numbers;
mod packets;
mod pairs;
mod parts;
mod printed;
mod queues;
mod requests;
mod segments;
mod sheet;
mod stations;
mod windows;

use crate::calls::tell_each;
use crate::sheet::Sheet;
use cf_samples::expand::expanded;
use cf_samples::source::behind_source;
use std::alloc::Global;
use std::process::ExitCode;
use std::rt::Files;
use std::{env, fs, io};

fn main(rt: HostRuntime) -> io::Result<ExitCode> {
    let mut wrong = 0_u8;
    for name in env::args(&rt)?.skip(1) {
        let text = fs::read_to_string(&rt, name.as_str())?;
        for block in text.split("\n\n") {
            if block.starts_with('#') {
                continue;
            }
            let mut sheet = Sheet::new(rt.alloc());
            play(&mut sheet, block);
            println!(rt; "{}: {}", name_of(block), sheet.said())?;
            wrong |= u8::from(sheet.said() != "same");
        }
    }
    Ok(ExitCode::from(wrong))
}

/// The name of a row, or the first line of what is none.
fn name_of(block: &str) -> &str {
    let first = block.lines().next().unwrap_or("");
    first.strip_prefix("row: ").unwrap_or(first)
}

/// Plays the row of a block, whose first line behind its source names what is read or called.
fn play(sheet: &mut Sheet, block: &str) {
    let Some(behind) = behind_source(block) else {
        return sheet.refuse("no line of its source below its name");
    };
    let Ok(lines) = expanded(sheet.alloc(), behind) else {
        return sheet.refuse("a repetition without its number, its end or a sum");
    };
    let Some(lines) = joined(sheet.alloc(), &lines) else {
        return sheet.refuse("memory ran out");
    };
    let (first, lines) = lines.split_once('\n').unwrap_or((lines.as_str(), ""));
    match first.strip_prefix("unit: ") {
        Some(unit) => tell_each(sheet, unit, lines),
        None => sheet.refuse("no unit below its source"),
    }
}

/// The lines of a row without remarks: one that begins with a space goes on with the line before it, without that space. Nothing where memory
/// ran out.
fn joined(alloc: Global, text: &str) -> Option<String> {
    let mut all = String::new(alloc);
    let mut is_whole = true;
    for line in text.lines() {
        if line.starts_with('#') {
            continue;
        }
        if let Some(rest) = line.strip_prefix(' ') {
            is_whole &= all.push_str(rest).is_ok();
        } else {
            is_whole &= all.is_empty() || all.push('\n').is_ok();
            is_whole &= all.push_str(line).is_ok();
        }
    }
    is_whole.then_some(all)
}
