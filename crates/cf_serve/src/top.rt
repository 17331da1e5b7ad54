//! The service: the places are opened, and then round follows round.
//! Room for all sessions is taken before anything is asked of the links; the queues and the lane of one as its controller is
//! reached.
ghost use Rattle.std.specs.Prelude.{◌≡◌, ◌≤◌, ◌*◌, Err, OnOk, false, length, true, ℕ};
ghost use Rattle.std.specs.List.{AllByRecursion};
ghost use Rattle.cf_lane.specs.Handled.{WritesLog};
ghost use Rattle.cf_links.specs.Links.{LinksPlace};
ghost use Rattle.cf_outside.specs.Desk.{DeskValue};
ghost use Rattle.cf_outside.specs.Faults.{HasCause};
ghost use Rattle.cf_outside.specs.Files.{KeepsOthers, content_gone_on};
ghost use Rattle.cf_outside.specs.Lines.{file_lines};
ghost use Rattle.cf_outside.specs.Pair.{FaultsBy};
ghost use Rattle.cf_policy.specs.Site.{IsSiteWithin};
ghost use Rattle.cf_serve.specs.Broken.{Breaks, BreaksLog};
ghost use Rattle.cf_serve.specs.Served.{HasMade, OpensDo, Serves};
ghost use Rattle.cf_serve.specs.Table.{IfWhole};
ghost use Rattle.cf_serve.specs.declared.table.Place.{Place as PlaceOf};

use crate::fault::ServeFault;
use crate::table::{Place, Table, place_of};
use cf_audit::What;
use cf_driver::log_line;
use cf_links::Service;
use cf_outside::{Desk, Files, LineDesk, MomentAnswer, WriteAnswer};
use std::alloc::Global;

/// Listens at each place, and says so in the log.
fn open_places<L: Service, D: Desk>(
    places: &[Place<'_>],
    links: &mut L,
    desk: &mut D,
) -> Result<(), ServeFault>
    requires few { length places.now ≤ 256 }
    requires within { AllByRecursion (λ place. IsSiteWithin (PlaceOf.site place)) places.now }
    requires whole { DeskValue.whole (D.value desk.old) ≡ true }
    ensures served { LinksPlace.serves (L.place links.new) ≡ LinksPlace.serves (L.place links.old) }
    ensures all { OnOk result (OpensDo places.now (length places.now) (L.told links.old) (L.told links.new)
        (DeskValue.lines (D.value desk.old)) (DeskValue.lines (D.value desk.new))) }
    ensures does { IfWhole result ((count : ℕ) × OpensDo places.now count (L.told links.old) (L.told links.new)
        (DeskValue.lines (D.value desk.old)) (DeskValue.lines (D.value desk.new))) }
    ensures breaks { result ≡ Err ServeFault.Write → (most : ℕ) → Breaks places.now most (L.told links.old) (L.told links.new)
        (DeskValue.lines (D.value desk.old)) (DeskValue.lines (D.value desk.new)) (DeskValue.line_part (D.value desk.new)) }
    ensures whole { OnOk result (DeskValue.whole (D.value desk.new) ≡ true) }
    ensures log { WritesLog (D.value desk.old) (D.value desk.new) }
    ensures write { HasCause (DeskValue.faults (D.value desk.old)) (DeskValue.faults (D.value desk.new))
        (result ≡ Err ServeFault.Write) }
    ensures loops { FaultsBy (LinksPlace.round_faults (L.place links.old)) (LinksPlace.round_faults (L.place links.new))
        (result ≡ Err ServeFault.Loop) }
    ensures memory { result ≡ Err ServeFault.NoMemory → ⊥ }
{
    for number in 0..places.len() {
        let place = place_of(places, number);
        let moment = match links.listen(number as u32, place.at) {
            MomentAnswer::Told(moment) => moment,
            MomentAnswer::Failed => return Err(ServeFault::Loop),
        };
        match log_line(&place.site, place.at, moment, What::Listen, desk) {
            Ok(()) => {}
            Err(_) => return Err(ServeFault::Write),
        }
    }
    Ok(())
}

/// Serves the clients that come at some places, each session between its client and the controller of its site, until a line of the
/// log fails, or a place cannot be listened at, or the wait fails, or 2^64 - 1 rounds were made. Each line goes to the desk as it comes.
/// A session in which nothing moves goes after twice `seconds` answers `Idle` of its own in a row. At most 256 sessions stand, and 32 of
/// one place. `seconds` is from 1 to 1,000,000; there are at most 256 places. Sessions that still stand are left as it stops; behind a
/// line that failed nothing else is done. This project's own.
pub fn serve_desk<L: Service, D: Desk>(
    alloc: Global,
    places: &[Place<'_>],
    seconds: u32,
    links: &mut L,
    desk: &mut D,
) -> Result<(), ServeFault>
    requires few { length places.now ≤ 256 }
    requires within { AllByRecursion (λ place. IsSiteWithin (PlaceOf.site place)) places.now }
    requires seconds { (1 ≤ seconds) × (seconds ≤ 1000000) }
    requires free { (session : ℕ) → LinksPlace.serves (L.place links.old) session ≡ false }
    requires whole { DeskValue.whole (D.value desk.old) ≡ true }
    ensures serves { IfWhole result (Serves places.now (2 * seconds) (HasMade result) (L.told links.old) (L.told links.new)
        (DeskValue.lines (D.value desk.old)) (DeskValue.lines (D.value desk.new))) }
    ensures breaks { result ≡ Err ServeFault.Write → Breaks places.now (2 * seconds) (L.told links.old) (L.told links.new)
        (DeskValue.lines (D.value desk.old)) (DeskValue.lines (D.value desk.new)) (DeskValue.line_part (D.value desk.new)) }
    ensures log { WritesLog (D.value desk.old) (D.value desk.new) }
    ensures write { HasCause (DeskValue.faults (D.value desk.old)) (DeskValue.faults (D.value desk.new))
        (result ≡ Err ServeFault.Write) }
    ensures loops { FaultsBy (LinksPlace.round_faults (L.place links.old)) (LinksPlace.round_faults (L.place links.new))
        (result ≡ Err ServeFault.Loop) }
    ensures memory { result ≡ Err ServeFault.NoMemory → (L.told links.new ≡ L.told links.old)
        × (D.value desk.new ≡ D.value desk.old) }
{
    let mut table = match Table::new(alloc) {
        Ok(table) => table,
        Err(_) => return Err(ServeFault::NoMemory),
    };
    match open_places(places, links, desk) {
        Ok(()) => {}
        Err(fault) => return Err(fault),
    }
    let most = 2 * u64::from(seconds);
    let ended = table.rounds(alloc, places, most, links, desk);
    table.leave_all(links);
    ended
}

/// Serves as `serve_desk` does, with a log that is gone on with: it is made where it is not there, and a last line without a line feed
/// gets one first. `Write`: the log could not be gone on with, or a line of it failed. `Loop`: a place cannot be listened at, or the
/// wait failed. `NoMemory`: memory was wanting before anything was asked of the links. This project's own.
pub fn serve<L: Service, F: Files>(
    alloc: Global,
    places: &[Place<'_>],
    seconds: u32,
    log: &str,
    links: &mut L,
    files: &mut F,
) -> Result<(), ServeFault>
    requires few { length places.now ≤ 256 }
    requires within { AllByRecursion (λ place. IsSiteWithin (PlaceOf.site place)) places.now }
    requires seconds { (1 ≤ seconds) × (seconds ≤ 1000000) }
    requires free { (session : ℕ) → LinksPlace.serves (L.place links.old) session ≡ false }
    ensures serves { IfWhole result (Serves places.now (2 * seconds) (HasMade result) (L.told links.old) (L.told links.new)
        (file_lines (content_gone_on (F.content files.old log.now))) (file_lines (F.content files.new log.now))) }
    ensures breaks { result ≡ Err ServeFault.Write → BreaksLog places.now (2 * seconds) (L.told links.old) (L.told links.new)
        (F.content files.old log.now) (F.content files.new log.now) }
    ensures write { HasCause (F.write_faults files.old) (F.write_faults files.new) (result ≡ Err ServeFault.Write) }
    ensures reads { F.read_faults files.new ≡ F.read_faults files.old }
    ensures others { KeepsOthers log.now (F.content files.old) (F.content files.new) }
    ensures loops { FaultsBy (LinksPlace.round_faults (L.place links.old)) (LinksPlace.round_faults (L.place links.new))
        (result ≡ Err ServeFault.Loop) }
    ensures memory { result ≡ Err ServeFault.NoMemory → (L.told links.new ≡ L.told links.old)
        × (F.content files.new log.now ≡ content_gone_on (F.content files.old log.now)) }
{
    match files.go_on(log) {
        WriteAnswer::Done => {}
        WriteAnswer::Failed => return Err(ServeFault::Write),
    }
    let mut desk = LineDesk {
        files,
        log,
        failed: false,
    };
    serve_desk(alloc, places, seconds, links, &mut desk)
}
