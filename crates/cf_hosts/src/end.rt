//! A host's end of a TCP connection. RFC 9293; it keeps to what the hosts of a world need: one text at a time is under way, all
//! is repeated 300 milliseconds after it was sent, and of what is heard whole units alone are taken.
//! A host takes nothing of what it hears while its own text is under way, and acknowledges what it had before; its acknowledgment
//! number stands behind the last whole unit, and is that of the moment at which a segment became ready.
ghost use Rattle.std.specs.Prelude.{◌≡◌, ◌≢◌, ◌≤◌, ◌<◌, ◌↔◌, true, IsSome, length};
ghost use Rattle.arrayvec.specs.ArrayVec.{array_vec_len};
ghost use Rattle.cf_hosts.specs.Hosts.{StaysOwed, TakesInside};

use crate::draws::Draws;
use crate::message::{Message, inverted, message};
use crate::segment::{Purpose, Segment};
use crate::sending::{Chance, Losses, Sending};
use crate::speaker::{Reaction, Speaker};
use arrayvec::ArrayVec;
use cf_packet::{ACK, FIN, Packet, RST, SYN};

/// After how long without an acknowledgement a host repeats, in microseconds.
const PATIENCE: u64 = 300_000;

/// How many segments of a host wait at most.
const ROOM: usize = 8;

/// How far a connection is.
#[derive(Clone, Copy)]
enum Phase {
    /// The controller waits for a SYN.
    Listens,
    /// The client waits for the answer to its SYN.
    Opens,
    /// Both are heard.
    Talks,
    /// It was reset.
    Reset,
}

/// What a host said and is not acknowledged.
#[derive(Drop)]
enum Said {
    Nothing,
    Syn,
    SynAck,
    Text(Message),
    End,
}

/// What a host took of a text.
#[derive(Clone, Copy)]
enum Taken {
    /// No whole unit stands there.
    Nothing,
    /// A unit of so many octets, to which it said something or not.
    Unit { used: usize, said: bool },
}

/// A host's end of a connection.
#[derive(Drop)]
pub(crate) struct HostEnd {
    phase: Phase,
    /// The sequence number after all that it said.
    next: u32,
    /// The sequence number of the next octet that it takes.
    expected: u32,
    said: Said,
    /// When it repeats what it said.
    repeat_at: u64,
    losses: Losses,
    /// Whether it said its end, and whether the other end's was heard.
    ended: bool,
    heard_end: bool,
    waiting: ArrayVec<Segment, 8>,
    speaker: Speaker,
}

impl HostEnd {
    /// A client whose SYN has this sequence number; `begin` sends it.
    pub(crate) fn client(number: u32, speaker: Speaker) -> Self {
        HostEnd::new(Phase::Opens, number, speaker)
    }

    /// A controller that listens, and whose SYN has this sequence number.
    pub(crate) fn controller(number: u32, speaker: Speaker) -> Self {
        HostEnd::new(Phase::Listens, number, speaker)
    }

    /// An end that said and heard nothing.
    fn new(phase: Phase, number: u32, speaker: Speaker) -> Self {
        HostEnd {
            phase,
            next: number,
            expected: 0,
            said: Said::Nothing,
            repeat_at: 0,
            losses: Losses::new(),
            ended: false,
            heard_end: false,
            waiting: ArrayVec::new(),
            speaker,
        }
    }

    /// The client sent its SYN at a moment.
    pub(crate) fn begin(&mut self, moment: u64)
        ensures { self.new.said ≡ Said.Syn }
    {
        self.next = self.next.wrapping_add(1);
        self.said = Said::Syn;
        self.repeat_at = moment.saturating_add(PATIENCE);
    }

    /// When its next segment is ready, if there is one.
    pub(crate) fn ready(&self) -> Option<u64>
        ensures owed { self.now.said ≢ Said.Nothing → IsSome result }
    {
        match self.waiting.first() {
            Some(segment) => Some(segment.ready),
            None => match self.said {
                Said::Nothing => None,
                _ => Some(self.repeat_at),
            },
        }
    }

    /// Its next segment, which is sent at a moment: one that waits, or what it repeats. None where that is lost, which it is only
    /// where it may be.
    pub(crate) fn next_segment(
        &mut self,
        moment: u64,
        draws: &mut Draws,
        chance: Chance,
    ) -> Option<Segment>
        ensures sent { chance ≡ Chance.Keeps → IsSome result }
        ensures owed { self.new.said ≡ self.old.said }
    {
        if self.waiting.is_empty() {
            self.repeat(draws, chance);
        }
        let segment = if self.waiting.is_empty() {
            None
        } else {
            Some(self.waiting.remove(0))
        };
        if self.waiting.is_empty() {
            self.repeat_at = moment.saturating_add(PATIENCE);
        }
        segment
    }

    /// Makes what it said ready again.
    fn repeat(&mut self, draws: &mut Draws, chance: Chance)
        ensures waits { chance ≡ Chance.Keeps → 0 < array_vec_len self.new.waiting }
        ensures owed { self.new.said ≡ self.old.said }
    {
        let ready = self.repeat_at;
        let last = self.next.wrapping_sub(1);
        match &self.said {
            Said::Nothing => self.put(ready, Purpose::Acknowledges, self.next, &[]),
            Said::Syn => self.put(ready, Purpose::Syn, last, &[]),
            Said::SynAck => self.put(ready, Purpose::SynAck, last, &[]),
            Said::End => self.put(ready, Purpose::Ends, last, &[]),
            Said::Text(text) => {
                let text = message(text);
                self.send(ready, &text, draws, chance);
            }
        }
    }

    /// A segment waits, where there is room.
    fn put(&mut self, ready: u64, purpose: Purpose, seq: u32, text: &[u8])
        ensures waits { 0 < array_vec_len self.new.waiting }
        ensures owed { self.new.said ≡ self.old.said }
    {
        if self.waiting.len() < ROOM {
            self.waiting.push(Segment {
                ready,
                purpose,
                seq,
                ack: self.expected,
                text: message(text),
            });
        }
    }

    /// Sends a text that ends where it said last, as it is drawn.
    fn send(&mut self, ready: u64, text: &[u8], draws: &mut Draws, chance: Chance)
        requires { length text.now ≤ 64 }
        ensures waits { chance ≡ Chance.Keeps → 0 < array_vec_len self.new.waiting }
        ensures owed { self.new.said ≡ self.old.said }
    {
        let first = self.next.wrapping_sub(text.len() as u32);
        let half = text.len() / 2;
        let middle = first.wrapping_add(half as u32);
        match self.losses.sending(draws.draw(), chance) {
            Sending::Whole => self.put(ready, Purpose::Brings, first, text),
            Sending::InTwo => {
                self.put(ready, Purpose::Brings, first, &text[..half]);
                self.put(ready, Purpose::Brings, middle, &text[half..]);
            }
            Sending::Turned => {
                self.put(ready, Purpose::Brings, middle, &text[half..]);
                self.put(ready, Purpose::Brings, first, &text[..half]);
            }
            Sending::Twice => {
                self.put(ready, Purpose::Brings, first, text);
                self.put(ready, Purpose::Brings, first, text);
            }
            Sending::Disturbed => {
                self.put(ready, Purpose::Brings, first, text);
                self.put(ready, Purpose::Brings, middle, &inverted(&text[half..]));
            }
            Sending::Lost => self.repeat_at = ready.saturating_add(PATIENCE),
        }
    }

    /// Says a text, which is owed until it is acknowledged, lost or not. Nothing else that it said is under way.
    fn say(&mut self, moment: u64, text: Message, draws: &mut Draws)
        requires { self.old.said ≡ Said.Nothing }
        ensures { self.new.said ≡ Said.Text text }
    {
        self.next = self.next.wrapping_add(text.len() as u32);
        self.send(moment, &text, draws, Chance::MayLose);
        self.said = Said::Text(text);
    }

    /// Says its end. Nothing else that it said is under way.
    fn close(&mut self, moment: u64)
        requires { self.old.said ≡ Said.Nothing }
        ensures { self.new.said ≡ Said.End }
    {
        self.ended = true;
        self.put(moment, Purpose::Ends, self.next, &[]);
        self.next = self.next.wrapping_add(1);
        self.said = Said::End;
    }

    /// Acknowledges what it took.
    fn acknowledge(&mut self, moment: u64)
        ensures { self.new.said ≡ self.old.said }
    {
        self.put(moment, Purpose::Acknowledges, self.next, &[]);
    }

    /// Hears a packet of the other end.
    pub(crate) fn hear(&mut self, moment: u64, packet: &Packet<'_>, draws: &mut Draws)
        requires { length packet.now.text.now ≤ 65535 }
        ensures { self.old.said ≢ Said.Nothing → packet.now.ack ≢ self.old.next → StaysOwed self.old.said self.new }
    {
        if packet.flags & RST != 0 {
            self.phase = Phase::Reset;
            self.said = Said::Nothing;
            self.waiting.clear();
            return;
        }
        match self.phase {
            Phase::Listens => self.accept(moment, packet),
            Phase::Opens => self.open(moment, packet, draws),
            Phase::Talks => self.converse(moment, packet, draws),
            Phase::Reset => {}
        }
    }

    /// The controller hears a SYN, and answers it.
    fn accept(&mut self, moment: u64, packet: &Packet<'_>)
        ensures { self.old.said ≢ Said.Nothing → self.new.said ≡ self.old.said }
    {
        if packet.flags & SYN == 0 || self.is_owing() {
            return;
        }
        self.expected = packet.seq.wrapping_add(1);
        self.put(moment, Purpose::SynAck, self.next, &[]);
        self.next = self.next.wrapping_add(1);
        self.said = Said::SynAck;
        self.phase = Phase::Talks;
    }

    /// The client hears the answer to its SYN, acknowledges it, and speaks.
    fn open(&mut self, moment: u64, packet: &Packet<'_>, draws: &mut Draws)
        ensures { packet.now.ack ≢ self.old.next → self.new.said ≡ self.old.said }
    {
        if packet.flags & SYN == 0 || packet.flags & ACK == 0 || packet.ack != self.next {
            return;
        }
        self.expected = packet.seq.wrapping_add(1);
        self.said = Said::Nothing;
        self.phase = Phase::Talks;
        self.acknowledge(moment);
        if let Some(text) = self.speaker.greet() {
            self.say(moment, text, draws);
        }
    }

    /// Whether something that it said is not acknowledged.
    fn is_owing(&self) -> bool
        ensures { result ≡ true ↔ self.now.said ≢ Said.Nothing }
    {
        match self.said {
            Said::Nothing => false,
            _ => true,
        }
    }

    /// Hears a packet of an open connection. Nothing of it is taken while something that was said is not acknowledged.
    fn converse(&mut self, moment: u64, packet: &Packet<'_>, draws: &mut Draws)
        requires { length packet.now.text.now ≤ 65535 }
        ensures { self.old.said ≢ Said.Nothing → packet.now.ack ≢ self.old.next → self.new.said ≡ self.old.said }
    {
        if packet.flags & ACK == 0 || packet.flags & SYN != 0 {
            return;
        }
        if packet.ack == self.next {
            self.said = Said::Nothing;
        }
        let earlier = self.expected.wrapping_sub(packet.seq) as usize;
        let mut answered = false;
        if !self.is_owing() && earlier < packet.text.len() {
            answered = self.take(moment, &packet.text[earlier..], draws);
        }
        if !self.is_owing() && packet.flags & FIN != 0 {
            let end = packet.seq.wrapping_add(packet.text.len() as u32);
            answered = self.hear_end(moment, end);
        }
        if !answered && (!packet.text.is_empty() || packet.flags & FIN != 0) {
            self.acknowledge(moment);
        }
    }

    /// Takes the whole units at the front of a text, up to the first one to which it says something, and answers whether it did.
    fn take(&mut self, moment: u64, text: &[u8], draws: &mut Draws) -> bool
        requires short { length text.now ≤ 65535 }
        requires free { self.old.said ≡ Said.Nothing }
    {
        let mut place = 0;
        'units: while place < text.len() {
            match self.take_unit(moment, &text[place..], draws) {
                Taken::Nothing => return false,
                Taken::Unit { said: true, .. } => return true,
                Taken::Unit { used, said: false } => place += used,
            }
        }
        false
    }

    /// Takes the unit at the front of a text that is not empty, if a whole one stands there.
    fn take_unit(&mut self, moment: u64, text: &[u8], draws: &mut Draws) -> Taken
        requires some { 0 < length text.now }
        requires short { length text.now ≤ 65535 }
        requires free { self.old.said ≡ Said.Nothing }
        ensures { TakesInside (length text.now) self.new.said result }
    {
        let reaction = self.speaker.hear(text);
        let used = match &reaction {
            Reaction::Waits => return Taken::Nothing,
            Reaction::Passes { used } => *used,
            Reaction::Says { used, .. } => *used,
            Reaction::Closes { used } => *used,
        };
        let used = used.clamp(1, text.len());
        self.expected = self.expected.wrapping_add(used as u32);
        let said = match reaction {
            Reaction::Says { message, .. } => {
                self.say(moment, message, draws);
                true
            }
            Reaction::Closes { .. } if !self.ended => {
                self.close(moment);
                true
            }
            _ => false,
        };
        Taken::Unit { used, said }
    }

    /// The end of the other side stands at a sequence number. Answers whether it said its own end to it.
    fn hear_end(&mut self, moment: u64, end: u32) -> bool
        requires { self.old.said ≡ Said.Nothing }
    {
        if self.heard_end || end != self.expected {
            return false;
        }
        self.heard_end = true;
        self.expected = self.expected.wrapping_add(1);
        if self.ended {
            return false;
        }
        self.close(moment);
        true
    }
}
