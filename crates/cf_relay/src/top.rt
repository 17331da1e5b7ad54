//! The relay: a pair of streams through the lane, in turns.
ghost use Rattle.std.specs.Prelude.{◌≡◌, ℕ, ◌*◌, ◌<◌, ◌≤◌, ◌∷◌, [], Err, List, Option, true};
ghost use Rattle.cf_audit.specs.Line.{Begun};
ghost use Rattle.cf_lane.specs.Caller.{none_before};
ghost use Rattle.cf_lane.specs.Handled.{WritesLog};
ghost use Rattle.cf_lane.specs.Log.{line_about, with_lines};
ghost use Rattle.cf_outq.specs.SendQueue.{empty};
ghost use Rattle.cf_outside.specs.Desk.{DeskValue};
ghost use Rattle.cf_outside.specs.Faults.{HasCause};
ghost use Rattle.cf_outside.specs.Files.{Content, KeepsOthers, content_after_create};
ghost use Rattle.cf_outside.specs.Pair.{Entry, FaultsBy, Moment, met_at};
ghost use Rattle.cf_policy.specs.Site.{IsSiteWithin};
ghost use Rattle.cf_relay.specs.Answers.{with_answers};
ghost use Rattle.cf_relay.specs.Closing.{ClosesWith, IsCutLost, StopsWith, desk_log};
ghost use Rattle.cf_relay.specs.Ends.{IdlesRose, RelayEnds, file_log};
ghost use Rattle.cf_relay.specs.Relaying.{AreClosed, IsSound, relaying_value};
ghost use Rattle.cf_relay.specs.Scene.{RoseBy};
ghost use Rattle.cf_relay.specs.Stands.{StandsFor};
ghost use Rattle.cf_relay.specs.Taken.{StaysWhole};

use crate::done::{RelayDone, RelayEnd, RelayFault};
use crate::limit::MOST_BYTES;
use crate::relaying::Relaying;
use crate::stop::Stop;
use cf_audit::What;
use cf_driver::log_line;
use cf_lane::Lane;
use cf_outq::Outq;
use cf_outside::{Desk, Files, LineDesk, MeetAnswer, MomentAnswer, Pair, WriteAnswer};
use cf_policy::Site;
use cf_view::Endpoint;
use std::alloc::Global;

/// Relays between a client, for which it waits on the port `listen`, and the controller of a site, until both sides have ended and
/// were given all, or the session is cut, or twice `idles` answers `Idle` came with no answer between them that moves a
/// letter. `idles` is from 1 to 1,000,000. The log is created before the client is met. It gets a line as the session begins,
/// one for each command that is refused and each stray or partial item, and one as the session closes or is cut, each with
/// the greatest moment that the pair has told so far, in microseconds. This project's own.
///
/// After a fault every line that the log was to get before stands there: `Link`: a call on the pair failed, and no further
/// was made. `Write`: the log could not be created or appended to; it may have a beginning of the line that failed.
/// `NoMemory`: memory was wanting, before the log was created, or for the client that was met; then the log is empty.
pub fn relay<P: Pair, F: Files>(
    alloc: Global,
    site: &Site<'_>,
    listen: u16,
    idles: u32,
    log: &str,
    pair: &mut P,
    files: &mut F,
) -> Result<RelayDone, RelayFault>
    requires within { IsSiteWithin site.now }
    requires idles { (1 ≤ idles) × (idles ≤ 1000000) }
    ensures ends { (answers : List Entry) × (P.told pair.new ≡ with_answers (P.told pair.old) answers)
        × RelayEnds site.now listen (2 * idles) (file_log (F.content files.old log.now) (F.content files.new log.now))
        (F.content files.new log.now ≡ F.content files.old log.now) answers result }
    ensures idle { IdlesRose (2 * idles) (P.idles pair.old) (P.idles pair.new) result }
    ensures link { FaultsBy (P.faults pair.old) (P.faults pair.new) (result ≡ Err RelayFault.Link) }
    ensures write { HasCause (F.write_faults files.old) (F.write_faults files.new) (result ≡ Err RelayFault.Write) }
    ensures reads { F.read_faults files.new ≡ F.read_faults files.old }
    ensures others { KeepsOthers log.now (F.content files.old) (F.content files.new) }
{
    let Ok(to_client) = Outq::new(alloc) else {
        return Err(RelayFault::NoMemory);
    };
    let Ok(to_controller) = Outq::new(alloc) else {
        return Err(RelayFault::NoMemory);
    };
    match files.create(log) {
        WriteAnswer::Done => {}
        WriteAnswer::Failed => return Err(RelayFault::Write),
    }
    let most = 2 * u64::from(idles);
    relay_logged(
        alloc,
        site,
        listen,
        most,
        to_client,
        to_controller,
        log,
        pair,
        files,
    )
}

/// Relays, over a log that was created.
fn relay_logged<P: Pair, F: Files>(
    alloc: Global,
    site: &Site<'_>,
    listen: u16,
    most: u64,
    to_client: Outq,
    to_controller: Outq,
    log: &str,
    pair: &mut P,
    files: &mut F,
) -> Result<RelayDone, RelayFault>
    requires within { IsSiteWithin site.now }
    requires most { 0 < most }
    requires to_client { to_client ≡ empty }
    requires to_controller { to_controller ≡ empty }
    requires created { (first : Content) × (F.content files.old log.now ≡ content_after_create first) }
    ensures ends { (first : Content) → F.content files.old log.now ≡ content_after_create first → (answers : List Entry) ×
        (P.told pair.new ≡ with_answers (P.told pair.old) answers)
        × RelayEnds site.now listen most (file_log first (F.content files.new log.now)) ⊥ answers result }
    ensures idle { IdlesRose most (P.idles pair.old) (P.idles pair.new) result }
    ensures link { FaultsBy (P.faults pair.old) (P.faults pair.new) (result ≡ Err RelayFault.Link) }
    ensures write { HasCause (F.write_faults files.old) (F.write_faults files.new) (result ≡ Err RelayFault.Write) }
    ensures reads { F.read_faults files.new ≡ F.read_faults files.old }
    ensures others { KeepsOthers log.now (F.content files.old) (F.content files.new) }
{
    let mut desk = LineDesk {
        files,
        log,
        failed: false,
    };
    relay_desk(
        alloc,
        site,
        listen,
        most,
        to_client,
        to_controller,
        pair,
        &mut desk,
    )
}

/// Relays, over a desk: the client is met, the lane is made, and the line of the beginning is put.
fn relay_desk<P: Pair, D: Desk>(
    alloc: Global,
    site: &Site<'_>,
    listen: u16,
    most: u64,
    to_client: Outq,
    to_controller: Outq,
    pair: &mut P,
    desk: &mut D,
) -> Result<RelayDone, RelayFault>
    requires within { IsSiteWithin site.now }
    requires most { 0 < most }
    requires whole { DeskValue.whole (D.value desk.old) ≡ true }
    requires to_client { to_client ≡ empty }
    requires to_controller { to_controller ≡ empty }
    ensures ends { (answers : List Entry) × (P.told pair.new ≡ with_answers (P.told pair.old) answers)
        × RelayEnds site.now listen most (desk_log (DeskValue.lines (D.value desk.old)) (D.value desk.new)) ⊥ answers result }
    ensures idle { IdlesRose most (P.idles pair.old) (P.idles pair.new) result }
    ensures link { FaultsBy (P.faults pair.old) (P.faults pair.new) (result ≡ Err RelayFault.Link) }
    ensures write { HasCause (DeskValue.faults (D.value desk.old)) (DeskValue.faults (D.value desk.new))
        (result ≡ Err RelayFault.Write) }
    ensures log { WritesLog (D.value desk.old) (D.value desk.new) }
{
    let client = match pair.meet(listen, site.first().endpoint) {
        MeetAnswer::Met(client) => client,
        MeetAnswer::Failed => return Err(RelayFault::Link),
    };
    let lane = match Lane::new(alloc, site, client, None) {
        Ok(lane) => lane,
        Err(_no_memory) => return Err(RelayFault::NoMemory),
    };
    let moment = match pair.moment() {
        MomentAnswer::Told(moment) => moment,
        MomentAnswer::Failed => return Err(RelayFault::Link),
    };
    match log_line(site, client, moment, What::Begun, desk) {
        Ok(()) => {}
        Err(_fault) => return Err(RelayFault::Write),
    }
    let relaying = Relaying::begun(moment, lane, to_client, to_controller);
    relay_turns(relaying, site, client, most, pair, desk)
}

/// Makes the turns, and puts the last line.
fn relay_turns<P: Pair, D: Desk>(
    mut relaying: Relaying,
    site: &Site<'_>,
    client: Endpoint,
    most: u64,
    pair: &mut P,
    desk: &mut D,
) -> Result<RelayDone, RelayFault>
    requires within { IsSiteWithin site.now }
    requires sound { IsSound site.now most (relaying_value relaying) }
    requires still { AreClosed (relaying_value relaying) → ⊥ }
    requires whole { DeskValue.whole (D.value desk.old) ≡ true }
    ensures ends { (base : Option (List (List ℕ))) (listen m : ℕ)
        → StandsFor site.now none_before (with_lines base (line_about site.now.first client m Begun ∷ []))
        (met_at listen site.now.first.endpoint client ∷ Moment m ∷ [])
        (relaying_value relaying) (DeskValue.lines (D.value desk.old))
        → (answers : List Entry) × (P.told pair.new ≡ with_answers (P.told pair.old) answers)
        × RelayEnds site.now listen most (desk_log base (D.value desk.new)) ⊥
        (met_at listen site.now.first.endpoint client ∷ Moment m ∷ answers) result }
    ensures idle { (base : Option (List (List ℕ))) (listen m : ℕ)
        → StandsFor site.now none_before (with_lines base (line_about site.now.first client m Begun ∷ []))
        (met_at listen site.now.first.endpoint client ∷ Moment m ∷ [])
        (relaying_value relaying) (DeskValue.lines (D.value desk.old))
        → (start : ℕ) → RoseBy relaying.idle start (P.idles pair.old) → IdlesRose most start (P.idles pair.new) result }
    ensures link { FaultsBy (P.faults pair.old) (P.faults pair.new) (result ≡ Err RelayFault.Link) }
    ensures write { HasCause (DeskValue.faults (D.value desk.old)) (DeskValue.faults (D.value desk.new))
        (result ≡ Err RelayFault.Write) }
    ensures log { WritesLog (D.value desk.old) (D.value desk.new) }
{
    let mut buf = [0u8; MOST_BYTES];
    match relaying.run_pair(site, most, &mut buf, pair, desk) {
        Ok(()) => relaying.close(site, client, desk),
        Err(stop) => relaying.stopped(site, client, stop, desk),
    }
}

impl Relaying {
    /// What was done.
    fn done(&self, end: RelayEnd) -> RelayDone
        ensures { result ≡ record { end = end; admitted = (self.now.lane).admitted; refused = (self.now.lane).refused } }
    {
        RelayDone {
            end,
            admitted: self.lane.admitted(),
            refused: self.lane.refused(),
        }
    }

    /// Writes the close line.
    fn close<D: Desk>(
        &self,
        site: &Site<'_>,
        client: Endpoint,
        desk: &mut D,
    ) -> Result<RelayDone, RelayFault>
        requires within { IsSiteWithin site.now }
        requires whole { DeskValue.whole (D.value desk.old) ≡ true }
        ensures closes { ClosesWith site.now client (relaying_value self.now) (D.value desk.old) (D.value desk.new) result }
        ensures log { WritesLog (D.value desk.old) (D.value desk.new) }
        ensures write { HasCause (DeskValue.faults (D.value desk.old)) (DeskValue.faults (D.value desk.new))
            (result ≡ Err RelayFault.Write) }
    {
        let what = What::Close {
            admitted: self.lane.admitted(),
            refused: self.lane.refused(),
        };
        match log_line(site, client, self.moment, what, desk) {
            Ok(()) => Ok(self.done(RelayEnd::Done)),
            Err(_fault) => Err(RelayFault::Write),
        }
    }

    /// Answers why the relay stopped; a cut has its line.
    fn stopped<D: Desk>(
        &self,
        site: &Site<'_>,
        client: Endpoint,
        stop: Stop,
        desk: &mut D,
    ) -> Result<RelayDone, RelayFault>
        requires within { IsSiteWithin site.now }
        requires whole { StaysWhole (Err stop) (D.value desk.old) }
        ensures stops { StopsWith site.now client (relaying_value self.now) stop (D.value desk.old) (D.value desk.new) result }
        ensures log { WritesLog (D.value desk.old) (D.value desk.new) }
        ensures later { DeskValue.faults (D.value desk.old) ≤ DeskValue.faults (D.value desk.new) }
        ensures write { IsCutLost stop (DeskValue.faults (D.value desk.old)) (DeskValue.faults (D.value desk.new))
            (result ≡ Err RelayFault.Write) }
    {
        match stop {
            Stop::Idle => Ok(self.done(RelayEnd::IdleEnd)),
            Stop::Link => Err(RelayFault::Link),
            Stop::Write => Err(RelayFault::Write),
            Stop::Cut(reason) => {
                match log_line(site, client, self.moment, What::Cut(reason), desk) {
                    Ok(()) => Ok(self.done(RelayEnd::Cut(reason))),
                    Err(_fault) => Err(RelayFault::Write),
                }
            }
        }
    }
}
