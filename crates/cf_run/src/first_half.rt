//! The first half of an event: the clock calls of all sessions.
ghost use Rattle.std.specs.Prelude.{◌≡◌, ◌+◌, ◌<◌, ◌≤◌, List, Some, true, IfOk, OnErr, OnOk, ◌∷◌, drop, length, slice_get, take};
ghost use Rattle.std.specs.Result.{is_err};
ghost use Rattle.cf_outside.specs.Desk.{DeskValue};
ghost use Rattle.cf_outside.specs.Frames.{EmitsAndLogs};
ghost use Rattle.cf_policy.specs.Site.{site_from};
ghost use Rattle.cf_session.specs.Broken.{BreaksTick};
ghost use Rattle.cf_session.specs.Session.{Flow, SessionEvent};
ghost use Rattle.cf_session.specs.Stands.{IsSessionOf};
ghost use Rattle.cf_session.specs.Told.{told};
ghost use Rattle.cf_run.specs.Engine.{AreAll, AreDueFrom, AreSound, TickAll, TickAt};
ghost use Rattle.cf_run.specs.Entries.{cuts_by, stays_by};
ghost use Rattle.cf_run.specs.Half.{TicksBreak};
ghost use Rattle.cf_run.specs.Table.{Session as Known};
ghost use Rattle.cf_run.specs.declared.entry.Entry.{Entry as KnownEntry};
ghost use Rattle.cf_view.specs.Moment.{moment_limit};

use crate::entry::{Entry, Table, cuts, stays};
use cf_outside::Desk;
use cf_policy::{Asset, site_at_place};
use cf_session::{Life, each_session_has_a_tick, sessions_are_quiet_before_due};
use cf_view::WriteFault;

/// The clock call of the session at a place.
fn tick_at<D: Desk>(
    table: &mut Vec<Entry>,
    place: usize,
    assets: &[Asset],
    moment: u64,
    limit: u64,
    desk: &mut D,
) -> Result<Life, WriteFault>
    requires inside { place < length table.old.items }
    requires sound { AreSound assets.now limit table.old.items }
    requires moment { moment < moment_limit }
    requires whole { DeskValue.whole (D.value desk.old) ≡ true }
    ensures before { take place table.new.items ≡ take place table.old.items }
    ensures after { drop (place + 1) table.new.items ≡ drop (place + 1) table.old.items }
    ensures length { length table.new.items ≡ length table.old.items }
    ensures sound { IfOk result (λ life. stays_by life ≡ true → AreSound assets.now limit table.new.items) }
    ensures ticks { IfOk result (λ life. (before after : KnownEntry) → slice_get table.old.items place ≡ Some before
        → slice_get table.new.items place ≡ Some after
        → TickAt assets.now moment before after (told (D.value desk.old)) (told (D.value desk.new)) (stays_by life) (cuts_by life)) }
    ensures broken { OnErr result ((before : KnownEntry) → slice_get table.old.items place ≡ Some before
        → (flow : Flow) (earlier : List SessionEvent) (event : SessionEvent) → IsSessionOf flow earlier event before.session
        → site_from assets.now before.asset ≡ Some flow.site
        → BreaksTick flow (event ∷ earlier) moment (D.value desk.old) (D.value desk.new)) }
    ensures frame { EmitsAndLogs (D.value desk.old) (D.value desk.new) (is_err result) }
{
    let entry = &mut table[place];
    let site = site_at_place(assets, entry.asset);
    let life = entry.session.on_clock(&site, moment, desk)?;
    entry.due = entry.session.due();
    Ok(life)
}

/// The first half of an event: those that have expired and those that are cut leave the table. Answers how many were cut. Before a
/// session is due its clock call does nothing, and is not made; before any is due the table is not looked at.
pub fn tick_all<D: Desk>(
    table: &mut Table,
    assets: &[Asset],
    moment: u64,
    limit: u64,
    desk: &mut D,
) -> Result<u64, WriteFault>
    requires sound { AreSound assets.now limit table.old.sessions.items }
    requires due { AreDueFrom table.old.due table.old.sessions.items }
    requires size { length table.old.sessions.items ≤ 256 }
    requires moment { moment < moment_limit }
    requires whole { DeskValue.whole (D.value desk.old) ≡ true }
    ensures ticks { IfOk result (λ cuts. (known : List Known) → AreAll assets.now moment table.old.sessions.items known →
        TickAll assets.now moment known table.new.sessions.items (told (D.value desk.old)) (told (D.value desk.new)) cuts) }
    ensures broken { OnErr result ((known : List Known) → AreAll assets.now moment table.old.sessions.items known
        → TicksBreak moment known (D.value desk.old) (D.value desk.new)) }
    ensures sound { OnOk result (AreSound assets.now limit table.new.sessions.items) }
    ensures due { OnOk result (AreDueFrom table.new.due table.new.sessions.items) }
    ensures fewer { IfOk result (λ cuts. cuts + length table.new.sessions.items ≤ length table.old.sessions.items) }
    ensures frame { EmitsAndLogs (D.value desk.old) (D.value desk.new) (is_err result) }
{
    sessions_are_quiet_before_due();
    if moment < table.due {
        return Ok(0);
    }
    each_session_has_a_tick();
    let mut due = u64::MAX;
    let mut count = 0;
    let mut place = 0;
    'sessions: while place < table.sessions.len() {
        let next = table.sessions[place].due;
        if moment < next {
            due = due.min(next);
            place += 1;
        } else {
            let life = tick_at(&mut table.sessions, place, assets, moment, limit, desk)?;
            count += cuts(&life);
            if stays(&life) {
                due = due.min(table.sessions[place].due);
                place += 1;
            } else {
                table.sessions.remove(place);
            }
        }
    }
    table.due = due;
    Ok(count)
}
