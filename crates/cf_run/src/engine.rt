//! The engine: the table of sessions, one event at a time.
ghost use Rattle.std.specs.Prelude.{◌≡◌, ℕ, ◌+◌, ◌^◌, ◌<◌, ◌≤◌, true, [], List, IfOk, IsErrOf, OnOk, length, pos};
ghost use Rattle.std.specs.Prelude.{◌≤ℤ◌};
ghost use Rattle.cf_outside.specs.Desk.{DeskValue, KeepsDesk};
ghost use Rattle.cf_outside.specs.Faults.{HasCause};
ghost use Rattle.cf_outside.specs.Frames.{EmitsAndLogs};
ghost use Rattle.cf_packet.specs.Packet.{read_record};
ghost use Rattle.cf_policy.specs.Within.{AreAssetsWithin};
ghost use Rattle.cf_session.specs.Broken.{KeepsParts};
ghost use Rattle.cf_session.specs.Told.{told};
ghost use Rattle.cf_run.specs.Engine.{AreAll, AreDueFrom, AreSound};
ghost use Rattle.cf_run.specs.Half.{has_failed, ReceiveRecordBreaks, StepBreaks, StepStops, StopsBeginning};
ghost use Rattle.cf_run.specs.Receiving.{IsSized, MayBegin};
ghost use Rattle.cf_run.specs.Step.{EngineValue, IsEngineOf, IsSoundEngine, ReceivesRecordOne, Steps, StepsOn};
ghost use Rattle.cf_run.specs.Table.{Session as Known};
ghost use Rattle.cf_run.specs.Trace.{RunEvent, table_after};
ghost use Rattle.cf_view.specs.Moment.{moment_limit};

use crate::entry::Table;
use crate::first_half::tick_all;
use crate::matching::TABLE_SIZE;
use crate::second_half::{Outcome, receive};
use crate::summary::{Happened, Summary};
use cf_outside::Desk;
use cf_packet::read_packet;
use cf_policy::{Asset, Policy};
use cf_view::{LinkKind, NoMemory};
use std::alloc::Global;
use std::marker::Model;
use thiserror::Error;

/// Why a step was not made.
#[derive(Clone, Copy, PartialEq, Eq, Debug, Error)]
pub enum StepFault {
    /// Memory ran out as a session began.
    #[error("out of memory")]
    NoMemory,
    /// The desk failed.
    #[error("a packet or a line could not be written")]
    Write,
}

/// The table of sessions, and what was counted.
#[derive(Drop)]
pub struct Engine {
    table: Table,
    limit: u64,
    last: u64,
    summary: Summary,
}

impl Model for Engine {
    ghost use Rattle.cf_run.specs.Step.{EngineValue};

    ghost Value = { EngineValue };

    ghost view = { λ e. record { table = e.table.sessions.items; due = e.table.due; limit = e.limit; last = e.last; summary = e.summary } };
}

impl Engine {
    /// An engine without sessions, with room for 256 of them. A stream of as many letters as the limit, from 1 to 2^30, cuts
    /// its session.
    pub fn new(alloc: Global, limit: i64) -> Result<Engine, NoMemory>
        requires limit { (pos 1 ≤ℤ limit) × (limit ≤ℤ pos (2 ^ 30)) }
        ensures sound { IfOk result (λ engine. (assets : List Asset) → IsSoundEngine assets engine) }
        ensures stands { IfOk result (λ engine. (assets : List Asset) → IsEngineOf assets engine []) }
        ensures limit { IfOk result (λ engine. limit ≡ pos (EngineValue.limit engine)) }
        ensures last { IfOk result (λ engine. EngineValue.last engine ≡ 0) }
    {
        let Ok(sessions) = Vec::with_capacity(alloc, TABLE_SIZE) else {
            return Err(NoMemory);
        };
        Ok(Engine {
            table: Table {
                sessions,
                due: u64::MAX,
            },
            limit: limit as u64,
            last: 0,
            summary: Summary::default(),
        })
    }

    /// One event: the timers that are due a microsecond before the record's moment, and then the packet in its octets. The
    /// moment is in microseconds, and at least 2 later than that of the event before. Each call is handed the same policy.
    ///
    /// `NoMemory`: memory ran out, and the packet would have begun a session. `Write`: the desk failed.
    pub fn step<D: Desk>(
        &mut self,
        alloc: Global,
        policy: &Policy,
        moment: u64,
        link: &LinkKind,
        bytes: &[u8],
        desk: &mut D,
    ) -> Result<(), StepFault>
        requires within { AreAssetsWithin policy.now.assets }
        requires sound { IsSoundEngine policy.now.assets self.old }
        requires later { self.old.last + 2 ≤ moment }
        requires moment { moment < moment_limit }
        requires whole { DeskValue.whole (D.value desk.old) ≡ true }
        ensures steps { OnOk result ((events : List RunEvent) → IsEngineOf policy.now.assets self.old events →
            (event : RunEvent) × StepsOn policy.now.assets moment (read_record link.now bytes.now) events self.new
            (told (D.value desk.old)) (told (D.value desk.new)) event) }
        ensures broken { IsErrOf result StepFault.Write → (events : List RunEvent) → IsEngineOf policy.now.assets self.old events
            → StepBreaks policy.now.assets self.old.limit (table_after events)
            (record { moment = moment; packet = read_record link.now bytes.now })
            (D.value desk.old) (D.value desk.new) }
        ensures stops { IsErrOf result StepFault.NoMemory → (events : List RunEvent) → IsEngineOf policy.now.assets self.old events
            → StepStops policy.now.assets (table_after events) (record { moment = moment; packet = read_record link.now bytes.now })
            (told (D.value desk.old)) (told (D.value desk.new)) }
        ensures stops_whole { IsErrOf result StepFault.NoMemory → DeskValue.whole (D.value desk.new) ≡ true }
        ensures parts { OnOk result (KeepsParts (D.value desk.old) (D.value desk.new)) }
        ensures sound { OnOk result (IsSoundEngine policy.now.assets self.new) }
        ensures last { OnOk result (self.new.last ≡ moment) }
        ensures limit { self.new.limit ≡ self.old.limit }
        ensures memory { IsErrOf result StepFault.NoMemory → MayBegin policy.now.assets (read_record link.now bytes.now) }
        ensures keeps { KeepsDesk (D.value desk.old) (D.value desk.new) }
        ensures whole { OnOk result (DeskValue.whole (D.value desk.new) ≡ true) }
        ensures cause { HasCause (DeskValue.faults (D.value desk.old)) (DeskValue.faults (D.value desk.new))
            (IsErrOf result StepFault.Write) }
    {
        let happened = match step_table(
            &mut self.table,
            alloc,
            policy.assets.as_slice(),
            moment,
            self.limit,
            link,
            bytes,
            desk,
        ) {
            Ok(happened) => happened,
            Err(fault) => return Err(fault),
        };
        self.summary.count(&happened);
        self.last = moment;
        Ok(())
    }

    /// What was counted over all events.
    pub fn summary(&self) -> Summary
        ensures { result ≡ self.now.summary }
    {
        self.summary
    }
}

/// One event over the table.
fn step_table<D: Desk>(
    table: &mut Table,
    alloc: Global,
    assets: &[Asset],
    moment: u64,
    limit: u64,
    link: &LinkKind,
    bytes: &[u8],
    desk: &mut D,
) -> Result<Happened, StepFault>
    requires within { AreAssetsWithin assets.now }
    requires sound { AreSound assets.now limit table.old.sessions.items }
    requires due { AreDueFrom table.old.due table.old.sessions.items }
    requires size { length table.old.sessions.items ≤ 256 }
    requires limit { (1 ≤ limit) × (limit ≤ 2 ^ 30) }
    requires moment { (2 ≤ moment) × (moment < moment_limit) }
    requires whole { DeskValue.whole (D.value desk.old) ≡ true }
    ensures steps { IfOk result (λ happened. (before : List Known) (last : ℕ) → last + 1 ≤ moment
        → AreAll assets.now last table.old.sessions.items before →
        (event : RunEvent) × Steps assets.now limit moment (read_record link.now bytes.now) before table.new.sessions.items
        (told (D.value desk.old)) (told (D.value desk.new)) happened event) }
    ensures broken { IsErrOf result StepFault.Write → (before : List Known) (last : ℕ) → last + 1 ≤ moment
        → AreAll assets.now last table.old.sessions.items before
        → StepBreaks assets.now limit before (record { moment = moment; packet = read_record link.now bytes.now }) (D.value desk.old)
        (D.value desk.new) }
    ensures stops { IsErrOf result StepFault.NoMemory → (before : List Known) (last : ℕ) → last + 1 ≤ moment
        → AreAll assets.now last table.old.sessions.items before
        → StepStops assets.now before (record { moment = moment; packet = read_record link.now bytes.now }) (told (D.value desk.old))
        (told (D.value desk.new)) }
    ensures sound { OnOk result (AreSound assets.now limit table.new.sessions.items) }
    ensures due { OnOk result (AreDueFrom table.new.due table.new.sessions.items) }
    ensures size { OnOk result (length table.new.sessions.items ≤ 256) }
    ensures memory { IsErrOf result StepFault.NoMemory → MayBegin assets.now (read_record link.now bytes.now) }
    ensures frame { EmitsAndLogs (D.value desk.old) (D.value desk.new) (has_failed result) }
{
    let cuts = match tick_all(table, assets, moment - 1, limit, desk) {
        Ok(cuts) => cuts,
        Err(_) => return Err(StepFault::Write),
    };
    match receive_record(table, alloc, assets, moment, limit, link, bytes, desk) {
        Ok(outcome) => Ok(Happened { cuts, outcome }),
        Err(fault) => Err(fault),
    }
}

/// The second half of an event, with the octets of a record.
fn receive_record<D: Desk>(
    table: &mut Table,
    alloc: Global,
    assets: &[Asset],
    moment: u64,
    limit: u64,
    link: &LinkKind,
    bytes: &[u8],
    desk: &mut D,
) -> Result<Outcome, StepFault>
    requires within { AreAssetsWithin assets.now }
    requires sound { AreSound assets.now limit table.old.sessions.items }
    requires due { AreDueFrom table.old.due table.old.sessions.items }
    requires size { length table.old.sessions.items ≤ 256 }
    requires limit { (1 ≤ limit) × (limit ≤ 2 ^ 30) }
    requires moment { (1 ≤ moment) × (moment < moment_limit) }
    requires whole { DeskValue.whole (D.value desk.old) ≡ true }
    ensures received { IfOk result (λ outcome. ReceivesRecordOne assets.now limit moment (read_record link.now bytes.now)
        table.old.sessions.items table.new.sessions.items
        (told (D.value desk.old)) (told (D.value desk.new)) outcome) }
    ensures broken { IsErrOf result StepFault.Write
        → ReceiveRecordBreaks assets.now limit moment (read_record link.now bytes.now) table.old.sessions.items (D.value desk.old)
        (D.value desk.new) }
    ensures nothing { IsErrOf result StepFault.NoMemory → desk.new ≡ desk.old }
    ensures beginning { IsErrOf result StepFault.NoMemory
        → StopsBeginning assets.now moment (read_record link.now bytes.now) table.old.sessions.items }
    ensures sound { OnOk result (AreSound assets.now limit table.new.sessions.items) }
    ensures due { OnOk result (AreDueFrom table.new.due table.new.sessions.items) }
    ensures size { IfOk result (λ outcome. IsSized outcome (length table.old.sessions.items) (length table.new.sessions.items)) }
    ensures memory { IsErrOf result StepFault.NoMemory → MayBegin assets.now (read_record link.now bytes.now) }
    ensures frame { EmitsAndLogs (D.value desk.old) (D.value desk.new) (has_failed result) }
{
    match read_packet(link, bytes) {
        Ok(packet) => receive(table, alloc, assets, moment, limit, &packet, desk),
        Err(_) => Ok(Outcome::Dropped),
    }
}
