//! The second half of an event: the packet.
ghost use Rattle.std.specs.Prelude.{◌≡◌, ◌+◌, ◌-◌, ◌^◌, ◌<◌, ◌≤◌, true, IfOk, IfSome, IsErrOf, Ok, OnErr, OnOk, Some, length, pos};
ghost use Rattle.std.specs.Prelude.{vec_capacity, vec_len};
ghost use Rattle.cf_outside.specs.Desk.{DeskValue};
ghost use Rattle.cf_outside.specs.Frames.{EmitsAndLogs};
ghost use Rattle.cf_packet.specs.Packet.{packet_value};
ghost use Rattle.cf_policy.specs.Site.{site_from};
ghost use Rattle.cf_policy.specs.Within.{AreAssetsWithin};
ghost use Rattle.cf_session.specs.Broken.{BreaksBeginning};
ghost use Rattle.cf_session.specs.Session.{Flow};
ghost use Rattle.cf_session.specs.Told.{told};
ghost use Rattle.cf_run.specs.Engine.{AreDueFrom, AreSound};
ghost use Rattle.cf_run.specs.Entries.{others, without_at};
ghost use Rattle.cf_run.specs.Half.{has_failed, GoBreaks, ReceiveBreaks, StopsBeginning};
ghost use Rattle.cf_run.specs.Receiving.{BeginsOne, GoesOne, IsSized, ReceivesOne, may_begin_one};
ghost use Rattle.cf_view.specs.Moment.{moment_limit};

use crate::engine::StepFault;
use crate::entry::{Entry, Table, closes, cuts, stays};
use crate::fitting::{is_above, is_beyond, is_foreign, one_if};
use crate::matching::{Match, match_packet};
use cf_outside::Desk;
use cf_packet::Packet;
use cf_policy::{Asset, site_at_place};
use cf_session::{BeginFault, Session};
use cf_view::Side;
use std::alloc::Global;

/// What became of a packet, as the counts have it.
#[derive(Clone, Copy)]
pub enum Outcome {
    /// Its octets are no packet.
    Dropped,
    /// It would begin a session, and the table had no room.
    Full,
    /// It is of no session.
    Outside {
        /// Packets of which neither end, or both, is an asset's: this one or none.
        foreign: u64,
    },
    /// A session began.
    Begun,
    /// It went to a session, which decided so many commands, and was cut or closed, or was not. Of all other counts each is one or none:
    /// that session, or this packet.
    Went {
        /// Commands admitted.
        admitted: u64,
        /// Commands refused.
        refused: u64,
        /// Sessions cut.
        cuts: u64,
        /// Sessions closed.
        closed: u64,
        /// Packets that acknowledged what the box had not sent.
        above: u64,
        /// Packets that ended beyond the edge that the box had told.
        beyond: u64,
    },
}

/// The second half of an event.
pub fn receive<D: Desk>(
    table: &mut Table,
    alloc: Global,
    assets: &[Asset],
    moment: u64,
    limit: u64,
    packet: &Packet<'_>,
    desk: &mut D,
) -> Result<Outcome, StepFault>
    requires within { AreAssetsWithin assets.now }
    requires sound { AreSound assets.now limit table.old.sessions.items }
    requires due { AreDueFrom table.old.due table.old.sessions.items }
    requires size { length table.old.sessions.items ≤ 256 }
    requires limit { (1 ≤ limit) × (limit ≤ 2 ^ 30) }
    requires moment { (1 ≤ moment) × (moment < moment_limit) }
    requires text { length packet.now.text.now ≤ 65535 }
    requires whole { DeskValue.whole (D.value desk.old) ≡ true }
    ensures received { IfOk result (λ outcome. ReceivesOne assets.now limit moment (packet_value packet.now) table.old.sessions.items
        table.new.sessions.items
        (told (D.value desk.old)) (told (D.value desk.new)) outcome) }
    ensures broken { IsErrOf result StepFault.Write → ReceiveBreaks assets.now limit moment (packet_value packet.now)
        table.old.sessions.items
        (D.value desk.old) (D.value desk.new) }
    ensures nothing { IsErrOf result StepFault.NoMemory → desk.new ≡ desk.old }
    ensures sound { OnOk result (AreSound assets.now limit table.new.sessions.items) }
    ensures due { OnOk result (AreDueFrom table.new.due table.new.sessions.items) }
    ensures size { IfOk result (λ outcome. IsSized outcome (length table.old.sessions.items) (length table.new.sessions.items)) }
    ensures memory { IsErrOf result StepFault.NoMemory → may_begin_one assets.now (packet_value packet.now) ≡ true }
    ensures beginning { IsErrOf result StepFault.NoMemory
        → StopsBeginning assets.now moment (Ok (packet_value packet.now)) table.old.sessions.items }
    ensures frame { EmitsAndLogs (D.value desk.old) (D.value desk.new) (has_failed result) }
{
    match match_packet(&table.sessions, assets, packet) {
        Match::Begins { asset, closed } => {
            match begin(
                table, alloc, assets, asset, closed, moment, limit, packet, desk,
            ) {
                Ok(()) => Ok(Outcome::Begun),
                Err(fault) => Err(fault),
            }
        }
        Match::Goes { place, side } => {
            match go_on(table, assets, place, moment, side, limit, packet, desk) {
                Ok(outcome) => Ok(outcome),
                Err(fault) => Err(fault),
            }
        }
        Match::Full => Ok(Outcome::Full),
        Match::Outside => Ok(Outcome::Outside {
            foreign: one_if(is_foreign(assets, packet)),
        }),
    }
}

/// A session begins with the site whose first asset is at a place, and stands last; the closed one of its flow leaves the table.
fn begin<D: Desk>(
    table: &mut Table,
    alloc: Global,
    assets: &[Asset],
    asset: usize,
    closed: Option<usize>,
    moment: u64,
    limit: u64,
    packet: &Packet<'_>,
    desk: &mut D,
) -> Result<(), StepFault>
    requires within { AreAssetsWithin assets.now }
    requires sound { AreSound assets.now limit table.old.sessions.items }
    requires due { AreDueFrom table.old.due table.old.sessions.items }
    requires inside { asset < length assets.now }
    requires closed { IfSome closed (λ place. place < length table.old.sessions.items) }
    requires room { others (length table.old.sessions.items) closed < 256 }
    requires limit { (1 ≤ limit) × (limit ≤ 2 ^ 30) }
    requires moment { (1 ≤ moment) × (moment < moment_limit) }
    requires whole { DeskValue.whole (D.value desk.old) ≡ true }
    ensures begins { OnOk result (BeginsOne assets.now moment asset closed (packet_value packet.now) table.old.sessions.items
        table.new.sessions.items
        (told (D.value desk.old)) (told (D.value desk.new))) }
    ensures broken { IsErrOf result StepFault.Write → (flow : Flow) → site_from assets.now asset ≡ Some flow.site
        → flow.syn ≡ packet_value packet.now → BreaksBeginning flow (moment - 1) (D.value desk.old) (D.value desk.new) }
    ensures nothing { IsErrOf result StepFault.NoMemory → desk.new ≡ desk.old }
    ensures sound { OnOk result (AreSound assets.now limit table.new.sessions.items) }
    ensures due { OnOk result (AreDueFrom table.new.due table.new.sessions.items) }
    ensures size { OnOk result ((length table.new.sessions.items ≤ length table.old.sessions.items + 1)
        × (length table.new.sessions.items ≤ 256)) }
    ensures frame { EmitsAndLogs (D.value desk.old) (D.value desk.new) (has_failed result) }
{
    make_way(&mut table.sessions, closed);
    make_room(&mut table.sessions)?;
    let served = site_at_place(assets, asset);
    let session = match Session::begin(alloc, &served, moment, signed(limit), packet, desk) {
        Ok(session) => session,
        Err(BeginFault::NoMemory) => return Err(StepFault::NoMemory),
        Err(BeginFault::Write) => return Err(StepFault::Write),
    };
    let due = session.due();
    if table
        .sessions
        .push(Entry {
            session,
            asset,
            due,
        })
        .is_err()
    {
        return Err(StepFault::NoMemory);
    }
    table.due = table.due.min(due);
    Ok(())
}

/// Room for one more session is taken, before anything is sent.
fn make_room(table: &mut Vec<Entry>) -> Result<(), StepFault>
    ensures same { table.new.items ≡ table.old.items }
    ensures room { OnOk result (vec_len table.new < vec_capacity table.new) }
    ensures memory { OnErr result (IsErrOf result StepFault.NoMemory) }
{
    if table.try_reserve(1).is_err() {
        return Err(StepFault::NoMemory);
    }
    Ok(())
}

/// A limit as a number with a sign.
fn signed(limit: u64) -> i64
    requires { limit ≤ 2 ^ 30 }
    ensures { result ≡ pos limit }
{
    limit as i64
}

/// A closed session leaves the table.
fn make_way(table: &mut Vec<Entry>, closed: Option<usize>)
    requires { IfSome closed (λ place. place < length table.old.items) }
    ensures { table.new.items ≡ without_at table.old.items closed }
{
    if let Some(place) = closed {
        table.remove(place);
    }
}

/// The event of the session at a place goes on with a packet from a side; a session that is cut leaves the table.
fn go_on<D: Desk>(
    table: &mut Table,
    assets: &[Asset],
    place: usize,
    moment: u64,
    side: Side,
    limit: u64,
    packet: &Packet<'_>,
    desk: &mut D,
) -> Result<Outcome, StepFault>
    requires sound { AreSound assets.now limit table.old.sessions.items }
    requires due { AreDueFrom table.old.due table.old.sessions.items }
    requires inside { place < length table.old.sessions.items }
    requires moment { (1 ≤ moment) × (moment < moment_limit) }
    requires text { length packet.now.text.now ≤ 65535 }
    requires whole { DeskValue.whole (D.value desk.old) ≡ true }
    ensures goes { IfOk result (λ outcome. GoesOne assets.now limit moment place side (packet_value packet.now) table.old.sessions.items
        table.new.sessions.items
        (told (D.value desk.old)) (told (D.value desk.new)) outcome) }
    ensures broken { IsErrOf result StepFault.Write → GoBreaks assets.now limit moment place side (packet_value packet.now)
        table.old.sessions.items (D.value desk.old) (D.value desk.new) }
    ensures sound { OnOk result (AreSound assets.now limit table.new.sessions.items) }
    ensures due { OnOk result (AreDueFrom table.new.due table.new.sessions.items) }
    ensures size { IfOk result (λ outcome. IsSized outcome (length table.old.sessions.items) (length table.new.sessions.items)) }
    ensures memory { IsErrOf result StepFault.NoMemory → ⊥ }
    ensures frame { EmitsAndLogs (D.value desk.old) (D.value desk.new) (has_failed result) }
{
    let entry = &mut table.sessions[place];
    let site = site_at_place(assets, entry.asset);
    let admitted = entry.session.admitted();
    let refused = entry.session.refused();
    let was_closed = entry.session.is_closed();
    let misfit = entry.session.misfit(side, packet);
    let life = match entry.session.on_packet(&site, moment, side, packet, desk) {
        Ok(life) => life,
        Err(_) => return Err(StepFault::Write),
    };
    let outcome = Outcome::Went {
        admitted: entry.session.admitted().saturating_sub(admitted),
        refused: entry.session.refused().saturating_sub(refused),
        cuts: cuts(&life),
        closed: closes(was_closed, &life),
        above: one_if(is_above(misfit)),
        beyond: one_if(is_beyond(misfit)),
    };
    let due = entry.session.due();
    entry.due = due;
    table.due = table.due.min(due);
    if !stays(&life) {
        table.sessions.remove(place);
    }
    Ok(outcome)
}
