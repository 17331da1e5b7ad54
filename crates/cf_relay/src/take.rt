//! What comes from a side of a session, handed to the lane.
ghost use Rattle.std.specs.Prelude.{◌≡◌, ◌+◌, ◌^◌, ◌<◌, ◌≤◌, Err, IsTrue, ◌↔◌, ℕ, length, true};
ghost use Rattle.cf_links.specs.LinkValue.{told_of};
ghost use Rattle.cf_links.specs.Links.{LinksPlace};
ghost use Rattle.cf_outq.specs.SendQueue.{queue_length};
ghost use Rattle.cf_outside.specs.Desk.{DeskValue};
ghost use Rattle.cf_outside.specs.Faults.{HasCause};
ghost use Rattle.cf_outside.specs.Pair.{FaultsBy};
ghost use Rattle.cf_policy.specs.Site.{IsSiteWithin};
ghost use Rattle.cf_lane.specs.Handled.{IsLaneOf, WritesLog, debt, debt_limit, rest_limit, state};
ghost use Rattle.cf_relay.specs.declared.limit.TheConstants.{MOST_BYTES};
ghost use Rattle.cf_relay.specs.Reading.{most_back};
ghost use Rattle.cf_relay.specs.Scene.{RoseBy};
ghost use Rattle.cf_relay.specs.Taken.{MayTakeNow, StaysWhole, TakesBy, WaitAtMost, take_state};

use crate::directions::Directions;
use crate::stop::{Stop, count_idle};
use cf_driver::Heard;
use cf_lane::Lane;
use cf_links::Links;
use cf_outq::Outq;
use cf_outside::{Desk, TakeAnswer};
use cf_policy::{Protocol, Site};
use cf_view::Side;

/// How many letters may wait in the queue that a side's bytes go to as it is read, and, where the directions are together, in the
/// one back to it.
const SMALL: u32 = 16_384;

/// How many may wait in the one back to it where they are separate, at a site of one asset: so many of its 131,072 that what both sides
/// of a turn put there finds room. Each puts there at most twice the 4,096 octets that are taken of it, and 8,192 more.
const ROOMY: u32 = 131_072 - 2 * (2 * 4_096 + 8_192);

/// How many may wait there at any site, without what unfinished fragments may still put out: each side of a turn puts there at most twice
/// the 4,096 octets that are taken of it and the 300 that were left of it.
const ROOMY_WITH_DEBT: u32 = 131_072 - 2 * (2 * (4_096 + 300));

/// The octets that the unfinished fragments of an asset of DNP3 may still put out, at most.
const OWED_BY_ONE: u32 = 5_300;

/// Whether at most so many letters of a queue wait, End counted.
fn wait_at_most(queue: &Outq, most: u32) -> bool
    requires some { 0 < most }
    ensures { IsTrue result ↔ WaitAtMost most queue.now }
{
    queue.unacked() <= i64::from(most)
}

/// The octets that the unfinished fragments of a site's assets may still put out, at most: of eight assets of DNP3 42,400.
#[tactic(auto, using(crate::proofs::Owing::few_assets, crate::proofs::Owing::owes_each, crate::proofs::Owing::owes_none, cf_driver::proofs::Limits::owed_most))]
fn most_owed(site: &Site<'_>) -> u32
    requires within { IsSiteWithin site.now }
    ensures value { result ≡ debt_limit site.now }
    ensures most { result ≤ 42400 }
{
    match site.first().protocol {
        Protocol::Modbus | Protocol::Iec104 => 0,
        Protocol::Dnp3 => OWED_BY_ONE * site.len() as u32,
    }
}

/// How many letters may wait in the queue back to a side as it is read.
#[tactic(auto, using(crate::proofs::Owing::back_is))]
fn most_back(directions: Directions, site: &Site<'_>) -> u32
    requires within { IsSiteWithin site.now }
    ensures value { result ≡ most_back directions site.now }
    ensures some { 0 < result }
{
    match directions {
        Directions::Together => SMALL,
        Directions::Separate => ROOMY.min(ROOMY_WITH_DEBT - most_owed(site)),
    }
}

/// Whether a side has not ended, and neither queue has more letters than it may have as the side is read.
fn may_take(
    directions: Directions,
    site: &Site<'_>,
    side: Side,
    to_client: &Outq,
    to_controller: &Outq,
) -> bool
    requires within { IsSiteWithin site.now }
    ensures { IsTrue result ↔ MayTakeNow directions site.now side to_client.now to_controller.now }
{
    let most = most_back(directions, site);
    match side {
        Side::Client => {
            !to_controller.is_ended()
                && wait_at_most(to_controller, SMALL)
                && wait_at_most(to_client, most)
        }
        Side::Controller => {
            !to_client.is_ended()
                && wait_at_most(to_client, SMALL)
                && wait_at_most(to_controller, most)
        }
    }
}

/// Asks a side once for bytes, where it may be read, and hands the lane what comes.
pub(crate) fn take_from<L: Links, D: Desk>(
    site: &Site<'_>,
    directions: Directions,
    moment: u64,
    side: Side,
    lane: &mut Lane,
    heard: &mut Heard,
    to_client: &mut Outq,
    to_controller: &mut Outq,
    idle: &mut u64,
    most: u64,
    buf: &mut [u8],
    session: u64,
    links: &mut L,
    desk: &mut D,
) -> Result<(), Stop>
    requires serves { LinksPlace.serves (L.place links.old) session ≡ true }
    requires of_site { IsLaneOf site.now lane.old }
    requires within { IsSiteWithin site.now }
    requires whole { DeskValue.whole (D.value desk.old) ≡ true }
    requires debt { debt lane.old ≤ debt_limit site.now }
    requires client_limit { queue_length to_client.old < 2 ^ 30 }
    requires controller_limit { queue_length to_controller.old < 2 ^ 30 }
    requires little { length heard.old.rest.items < rest_limit }
    requires counts { lane.old.admitted + lane.old.refused < 2 ^ 40 }
    requires letters { heard.old.letters < 2 ^ 30 }
    requires few { idle.old < most }
    requires buffer { length buf.old ≡ MOST_BYTES }
    ensures place { L.place links.new ≡ L.place links.old }
    ensures takes { TakesBy directions site.now moment most side
        (take_state (state lane.old to_client.old to_controller.old
        (DeskValue.lines (D.value desk.old))) heard.old.rest.items heard.old.letters idle.old (told_of L.Links session links.old))
        (take_state (state lane.new to_client.new to_controller.new
        (DeskValue.lines (D.value desk.new))) heard.new.rest.items heard.new.letters idle.new (told_of L.Links session links.new))
        (D.value desk.new) result }
    ensures whole { StaysWhole result (D.value desk.new) }
    ensures log { WritesLog (D.value desk.old) (D.value desk.new) }
    ensures write { HasCause (DeskValue.faults (D.value desk.old)) (DeskValue.faults (D.value desk.new))
        (result ≡ Err Stop.Write) }
    ensures link { FaultsBy (L.faults links.old) (L.faults links.new) (result ≡ Err Stop.Link) }
    ensures idles { (start : ℕ) → RoseBy idle.old start (L.idles links.old) → RoseBy idle.new start (L.idles links.new) }
    ensures buffer { length buf.new ≡ MOST_BYTES }
{
    if !may_take(directions, site, side, to_client, to_controller) {
        return Ok(());
    }
    match links.take(session, side, &mut *buf) {
        TakeAnswer::Failed => Err(Stop::Link),
        TakeAnswer::Idle => count_idle(idle, most),
        TakeAnswer::Got(n) => {
            *idle = 0;
            match heard.feed(
                site,
                moment,
                side,
                &buf[..n],
                lane,
                to_client,
                to_controller,
                desk,
            ) {
                Err(_fault) => Err(Stop::Write),
                Ok(cut) => match cut {
                    Some(reason) => Err(Stop::Cut(reason)),
                    None => Ok(()),
                },
            }
        }
        TakeAnswer::End => {
            *idle = 0;
            match heard.end(site, moment, side, lane, to_client, to_controller, desk) {
                Err(_fault) => Err(Stop::Write),
                Ok(()) => Ok(()),
            }
        }
    }
}
