//! The hosts of a world: a client and a controller for each session.
//! The client speaks behind an empty segment, and closes behind the answer to its last command, the controller as it hears that.
ghost use Rattle.std.specs.Prelude.{◌≡◌, ◌≤◌, ◌<◌, ◌⊎◌, IfSome, IsSome, Some, length};
ghost use Rattle.cf_hosts.specs.SilentDesk.{silent_desk};

use crate::dnp3::{Dnp3Master, Outstation};
use crate::draws::Draws;
use crate::end::HostEnd;
use crate::flows::{first_number, session_of};
use crate::iec104::{Iec104Client, Substation};
use crate::modbus::{ModbusDevice, ModbusMaster};
use crate::segment::Segment;
use crate::sending::Chance;
use crate::speaker::Speaker;
use cf_outside::{Desk, WriteAnswer};
use cf_packet::{Packet, read_packet};
use cf_view::{LinkKind, Side};
use std::alloc::{AllocError, Global};
use std::marker::Model;

/// How much the sequence number of a controller's SYN is above that of its client's.
const CONTROLLERS: u32 = 500_000;

/// The hosts of one session.
#[derive(Drop)]
struct Pair {
    client: HostEnd,
    controller: HostEnd,
}

/// The hosts of a world, and the draws by which they send. Contracts see the number of sessions, at most 200.
#[derive(Drop)]
pub struct Hosts {
    pairs: Vec<Pair>,
    draws: Draws,
}

impl Model for Hosts {
    ghost use Rattle.std.specs.Prelude.{◌≤◌, ℕ, length};

    ghost Value = { ℕ };

    ghost view = { λ h. length h.pairs.items };

    ghost invariant = { λ h. length h.pairs.items ≤ 200 };
}

/// A host that has a segment ready.
#[derive(Clone, Copy)]
pub(crate) struct Voice {
    /// The moment at which it is ready, in microseconds.
    pub(crate) ready: u64,
    /// The number of the session.
    pub(crate) session: usize,
    /// Which of its two hosts.
    pub(crate) side: Side,
}

impl Hosts {
    /// The hosts of so many sessions.
    pub fn new(alloc: Global, seed: u64, sessions: u32) -> Result<Hosts, AllocError>
        requires { sessions ≤ 200 }
    {
        let mut pairs = Vec::with_capacity(alloc, sessions as usize)?;
        for session in 0..sessions as usize {
            pairs.push(hosts_of(session))?;
        }
        Ok(Hosts {
            pairs,
            draws: Draws::new(seed),
        })
    }

    /// The host whose next segment is ready first; of those ready at the same moment the one with the lower session, and in it
    /// the client. None where nobody has anything to say.
    pub(crate) fn first_voice(&self) -> Option<Voice>
        ensures { IfSome result (λ voice. (voice.session < self.now) × (self.now ≤ 200)) }
    {
        let mut first: Option<Voice> = None;
        for session in 0..self.pairs.len() {
            let pair = &self.pairs[session];
            first = earlier(first, pair.client.ready(), session, Side::Client);
            first = earlier(first, pair.controller.ready(), session, Side::Controller);
        }
        first
    }

    /// The client of a session sends its SYN at a moment.
    pub(crate) fn begin(&mut self, session: usize, moment: u64) {
        if let Some(pair) = self.pairs.get_mut(session) {
            pair.client.begin(moment);
        }
    }

    /// The next segment of a host, which is sent at a moment. None where it is lost, which it is only where it may be.
    pub(crate) fn next_segment(
        &mut self,
        voice: &Voice,
        moment: u64,
        chance: Chance,
    ) -> Option<Segment>
        requires { voice.now.session < self.old }
        ensures { chance ≡ Chance.Keeps → IsSome result }
    {
        let pair = &mut self.pairs[voice.session];
        let host = match voice.side {
            Side::Client => &mut pair.client,
            Side::Controller => &mut pair.controller,
        };
        host.next_segment(moment, &mut self.draws, chance)
    }

    /// Hands a packet to the host that it is for.
    fn hear(&mut self, moment: u64, packet: &Packet<'_>)
        requires { length packet.now.text.now ≤ 65535 }
    {
        if let Some(session) = session_of(&packet.dest) {
            if let Some(pair) = self.pairs.get_mut(session) {
                pair.client.hear(moment, packet, &mut self.draws);
            }
        } else if let Some(session) = session_of(&packet.source) {
            if let Some(pair) = self.pairs.get_mut(session) {
                pair.controller.hear(moment, packet, &mut self.draws);
            }
        }
    }
}

/// The earlier of two voices.
fn earlier(first: Option<Voice>, ready: Option<u64>, session: usize, side: Side) -> Option<Voice>
    ensures { IfSome result (λ voice. (voice.session ≡ session) ⊎ (first ≡ Some voice)) }
{
    let Some(ready) = ready else {
        return first;
    };
    match first {
        Some(voice) if voice.ready <= ready => Some(voice),
        _ => Some(Voice {
            ready,
            session,
            side,
        }),
    }
}

/// The hosts of a session, whose asset is that of its number modulo 3.
fn hosts_of(session: usize) -> Pair
    requires { session ≤ 200 }
{
    let (client, controller) = match session % 3 {
        0 => (
            Speaker::ModbusMaster(ModbusMaster::new()),
            Speaker::ModbusDevice(ModbusDevice),
        ),
        1 => (
            Speaker::Dnp3Master(Dnp3Master::new()),
            Speaker::Outstation(Outstation::new()),
        ),
        _ => (
            Speaker::Iec104Client(Iec104Client::new()),
            Speaker::Substation(Substation::new()),
        ),
    };
    Pair {
        client: HostEnd::client(first_number(session), client),
        controller: HostEnd::controller(CONTROLLERS + first_number(session), controller),
    }
}

impl Desk for Hosts {
    ghost value = { λ h. silent_desk };

    /// Hands the packet to the host that it is for.
    fn emit(&mut self, moment: u64, packet: &[u8]) -> WriteAnswer {
        if let Ok(packet) = read_packet(&LinkKind::RawIp, packet) {
            self.hear(moment, &packet);
        }
        WriteAnswer::Done
    }

    /// Does nothing.
    fn line(&mut self, _text: &str) -> WriteAnswer {
        WriteAnswer::Done
    }
}
