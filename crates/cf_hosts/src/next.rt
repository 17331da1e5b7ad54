//! What comes next in a capture.
ghost use Rattle.std.specs.Prelude.{◌≡◌, ◌≤◌, ◌<◌, ◌+◌, ◌*◌, length};
ghost use Rattle.cf_hosts.specs.Sessions.{IsSyn};
ghost use Rattle.cf_hosts.specs.Next.{IsNext, Speaks, made_record};
ghost use Rattle.cf_hosts.specs.declared.next.Next.TheVariants as next;

use crate::flows::{client_endpoint, controller_endpoint, first_number};
use crate::hosts::{Hosts, Voice};
use crate::message::message;
use crate::packet::write_segment;
use crate::segment::{Purpose, Segment};
use crate::sending::Chance;
use arrayvec::ArrayVec;
use cf_view::Side;

/// The moment at which the first client begins, and how much later each other one does, in microseconds.
const FIRST_BEGINNING: u64 = 1_000_000;

const BETWEEN_BEGINNINGS: u64 = 20_000;

/// How far records are apart at least, and at most, in microseconds. No host waits so long as the most.
const LEAST_GAP: u64 = 2_000;

const MOST_GAP: u64 = 10_000_000;

/// How many segments are lost at most between two records: more than there are hosts, each of which loses one of four at most.
pub(crate) const MOST_LOSSES: u32 = 1_000;

/// What comes next.
#[derive(Clone, Copy)]
pub enum Next {
    /// A packet is sent at a moment, in microseconds, with which so many sessions have begun.
    Sends { moment: u64, begun: u32 },
    /// A segment is lost.
    Loses,
    /// Nobody has anything to say.
    Ends,
}

/// What comes next, after a record at the moment `last`, where so many sessions have begun of so many and so many segments were
/// lost since then. A packet that is sent stands in place of what `packet` held.
pub fn comes_next(
    hosts: &mut Hosts,
    begun: u32,
    sessions: u32,
    last: u64,
    losses: u32,
    packet: &mut ArrayVec<u8, 1500>,
) -> Next
    requires begun { begun ≤ sessions }
    requires sessions { sessions ≤ 200 }
    requires last { last ≤ 10000000000000 }
    requires losses { losses ≤ 1000 }
    requires near { 20000 * begun ≤ last + 9000000 }
    ensures { IsNext begun sessions last losses packet.new.items result }
{
    let beginning = FIRST_BEGINNING + u64::from(begun) * BETWEEN_BEGINNINGS;
    match hosts.first_voice() {
        Some(voice) if begun >= sessions || voice.ready <= beginning => {
            let moment = moment_of(voice.ready, last);
            speaks(hosts, &voice, begun, moment, chance_after(losses), packet)
        }
        _ if begun < sessions => begins(hosts, begun, moment_of(beginning, last), packet),
        _ => Next::Ends,
    }
}

/// Whether a segment may be lost after so many that were.
fn chance_after(losses: u32) -> Chance
    ensures { result ≡ Chance.MayLose → losses < MOST_LOSSES }
{
    if losses < MOST_LOSSES {
        Chance::MayLose
    } else {
        Chance::Keeps
    }
}

/// The moment of a record after one at the moment `last`, of a segment that is ready at a moment.
fn moment_of(ready: u64, last: u64) -> u64
    requires { last ≤ 10000000000000 }
    ensures later { last + 2000 ≤ result }
    ensures soon { result ≤ last + 10000000 }
    ensures ready { ready ≤ last + 10000000 → ready ≤ result }
{
    ready.clamp(last + LEAST_GAP, last + MOST_GAP)
}

/// The SYN of a session's client, at a moment.
fn begins(hosts: &mut Hosts, session: u32, moment: u64, packet: &mut ArrayVec<u8, 1500>) -> Next
    requires few { session < 200 }
    requires begun { 1000000 + 20000 * session ≤ moment }
    ensures sends { result ≡ next.Sends moment (session + 1) }
    ensures syn { IsSyn session (made_record moment packet.new.items) }
    ensures short { length packet.new.items ≤ 1500 }
{
    let number = session as usize;
    hosts.begin(number, moment);
    let syn = Segment {
        ready: moment,
        purpose: Purpose::Syn,
        seq: first_number(number),
        ack: 0,
        text: message(&[]),
    };
    write_segment(
        client_endpoint(number),
        controller_endpoint(number),
        &syn,
        packet,
    );
    Next::Sends {
        moment,
        begun: session + 1,
    }
}

/// The next segment of a host, at a moment.
fn speaks(
    hosts: &mut Hosts,
    voice: &Voice,
    begun: u32,
    moment: u64,
    chance: Chance,
    packet: &mut ArrayVec<u8, 1500>,
) -> Next
    requires inside { voice.now.session < hosts.old }
    requires few { voice.now.session < 200 }
    ensures { Speaks moment begun chance packet.new.items result }
{
    let Some(segment) = hosts.next_segment(voice, moment, chance) else {
        return Next::Loses;
    };
    let client = client_endpoint(voice.session);
    let controller = controller_endpoint(voice.session);
    match voice.side {
        Side::Client => write_segment(client, controller, &segment, packet),
        Side::Controller => write_segment(controller, client, &segment, packet),
    }
    Next::Sends { moment, begun }
}
