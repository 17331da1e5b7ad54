//! How often commands of a rule were seen, from when to when, and how the last looked.

use crate::cover::Cover;
use crate::repeats::Repeats;
use arrayvec::ArrayVec;
use cf_dnptrans::Assembly;
use cf_learn::{Seen, push_front};
use cf_policy::Asset;
use cf_view::{Act, View, push_view};
use cf_watch::Flow;
use std::alloc::{AllocError, Global};

/// How many octets of a command are shown at most. This project's own, as a review shows them.
pub(crate) const SHOWN: usize = 16;

/// From a byte of a flow on, counted from 0, up to the next moment's, bytes came at this time, in microseconds since the epoch.
#[derive(Clone, Copy)]
pub struct Moment {
    pub place: usize,
    pub stamp: u64,
}

/// What is told of a rule.
#[derive(Drop)]
pub(crate) struct Note {
    /// How many commands it has an act of.
    pub(crate) commands: u64,
    /// When the first and the last of them were whole, in microseconds since the epoch.
    pub(crate) first: u64,
    pub(crate) last: u64,
    /// The first octets of the last: of its ADU or APDU, or of the last frame of its fragment; and whether it has more.
    pub(crate) octets: ArrayVec<u8, SHOWN>,
    pub(crate) goes_on: bool,
    /// The number of the last command that was counted.
    counted: u64,
}

/// A command in hand.
#[derive(Drop)]
struct Command<'a> {
    /// Its number among all, from 1.
    number: u64,
    client: u32,
    stamp: u64,
    octets: View<'a>,
}

/// The notes of the rules of an asset of the site at a place, by flows and when the bytes of each came.
pub(crate) fn notes_of(
    alloc: Global,
    asset: &Asset,
    place: u32,
    flows: &[Flow],
    moments: &[Vec<Moment>],
    covers: &[Cover],
) -> Result<Vec<Note>, AllocError> {
    let mut notes = Vec::new(alloc);
    for _ in covers {
        notes.push(Note {
            commands: 0,
            first: u64::MAX,
            last: 0,
            octets: ArrayVec::new(),
            goes_on: false,
            counted: 0,
        })?;
    }
    let mut number: u64 = 0;
    for (flow, own) in flows.iter().zip(moments.iter()) {
        if flow.asset == place {
            number = note_flow(
                alloc,
                asset,
                flow,
                own.as_slice(),
                covers,
                &mut notes,
                number,
            )?;
        }
    }
    Ok(notes)
}

/// Notes the commands of a flow, and answers how many there are with those before.
fn note_flow(
    alloc: Global,
    asset: &Asset,
    flow: &Flow,
    moments: &[Moment],
    covers: &[Cover],
    notes: &mut Vec<Note>,
    before: u64,
) -> Result<u64, AllocError> {
    let Ok(mut assembly) = Assembly::new(alloc) else {
        return Err(AllocError);
    };
    let bytes = flow.bytes.as_slice();
    let client = flow.client.address;
    let mut seen = Vec::new(alloc);
    let mut repeats = Repeats::new(alloc, asset.protocol)?;
    let mut number = before;
    let mut at: usize = 0;
    for _ in 0..bytes.len() {
        let rest = rest_of(bytes, at);
        if let (false, Some(repeat)) = (assembly.unfinished(), repeats.find(rest)) {
            let used = repeat.used();
            number = number.saturating_add(1);
            let command = command_at(number, client, moments, at, used, rest);
            if let Some(note) = notes.get_mut(repeat.note) {
                note_at(&command, note);
            }
            at = at.saturating_add(used);
            continue;
        }
        let view = View::one(rest);
        let Some(used) = push_front(&mut seen, &mut assembly, asset, client, &view)? else {
            return Ok(number);
        };
        if !seen.is_empty() {
            number = number.saturating_add(1);
            let command = command_at(number, client, moments, at, used, rest);
            let only = note_command(&command, seen.as_slice(), covers, notes);
            if let Some(note) = only {
                repeats.put(first_of(rest, used), note);
            }
            seen.clear();
        }
        at = at.saturating_add(used);
    }
    Ok(number)
}

/// The command of these octets at a place.
fn command_at<'a>(
    number: u64,
    client: u32,
    moments: &[Moment],
    at: usize,
    used: usize,
    rest: &'a [u8],
) -> Command<'a> {
    Command {
        number,
        client,
        stamp: stamp_at(moments, at.saturating_add(used)),
        octets: View::one(first_of(rest, used)),
    }
}

/// The first bytes, so many or all.
fn first_of(bytes: &[u8], count: usize) -> &[u8] {
    &bytes[..count.min(bytes.len())]
}

/// The bytes from a place on, or none.
fn rest_of(bytes: &[u8], at: usize) -> &[u8] {
    &bytes[at.min(bytes.len())..]
}

/// When the bytes up to a place came.
fn stamp_at(moments: &[Moment], end: usize) -> u64 {
    let behind = moments.partition_point(|moment| moment.place < end);
    match moments.get(behind.saturating_sub(1)) {
        Some(moment) => moment.stamp,
        None => 0,
    }
}

/// Notes a command with these acts: at each rule that has one, once. Answers the place of the note, if it is one for all of them.
fn note_command(
    command: &Command<'_>,
    seen: &[Seen],
    covers: &[Cover],
    notes: &mut Vec<Note>,
) -> Option<usize> {
    let mut only = None;
    let mut is_one = true;
    for one in seen {
        let act = Act {
            code: one.kind.code,
            group: one.kind.group,
            point: one.point,
            value: one.kind.value,
        };
        let found = covers
            .iter()
            .position(|cover| cover.takes(command.client, &act));
        if let Some(place) = found {
            if let Some(note) = notes.get_mut(place) {
                note_at(command, note);
            }
        }
        is_one = is_one && (only.is_none() || only == found);
        only = found;
    }
    if is_one { only } else { None }
}

fn note_at(command: &Command<'_>, note: &mut Note) {
    if note.counted == command.number {
        return;
    }
    note.counted = command.number;
    note.commands = note.commands.saturating_add(1);
    note.first = note.first.min(command.stamp);
    if command.stamp >= note.last {
        note.last = command.stamp;
        note.octets.clear();
        let shown = SHOWN.min(command.octets.len());
        push_view(&mut note.octets, &command.octets.sub(0, shown));
        note.goes_on = shown < command.octets.len();
    }
}
