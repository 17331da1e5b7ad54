//! The hosts that speak IEC 60870-5-104: a client that sends single commands, and a substation that confirms them. Each
//! acknowledges all frames that it received in each I frame, and nowhere else.
ghost use Rattle.cf_apci.specs.Apdu.{Fits, apdu_value};

use crate::commands::{Commands, point_of};
use crate::message::{Message, message};
use crate::speaker::{Reaction, first_unit};
use arrayvec::ArrayVec;
use cf_apci::{Apdu, next_apdu, write_apdu};
use cf_view::{View, push_bytes};

/// STARTDT act and con. IEC 60870-5-104, section 5.
const START_ACT: u8 = 0x07;

const START_CON: u8 = 0x0B;

/// A single command, and its causes activation and activation confirmation. IEC 60870-5-101, section 7.2.
const SINGLE_COMMAND: u8 = 45;

const ACTIVATION: u8 = 6;

const CONFIRMATION: u8 = 7;

/// The common address of the asset, low octet first.
const STATION: [u8; 2] = [1, 0];

/// The least object address that is commanded.
const FIRST_OBJECT: u16 = 1000;

/// The numbers of I frames that a host sent and received, modulo 32,768.
#[derive(Drop)]
struct Frames {
    sent: u16,
    received: u16,
}

impl Frames {
    /// None.
    fn new() -> Self {
        Frames {
            sent: 0,
            received: 0,
        }
    }

    /// One more was received.
    fn receive(&mut self) {
        self.received = self.received.wrapping_add(1) % 32_768;
    }

    /// The next I frame, with an ASDU of which the first 249 octets count.
    fn send(&mut self, asdu: &[u8]) -> Message {
        let frame = Apdu::Info {
            send: self.sent % 32_768,
            receive: self.received % 32_768,
            asdu: View::one(&asdu[..asdu.len().min(249)]),
        };
        self.sent = self.sent.wrapping_add(1) % 32_768;
        spelled(&frame)
    }
}

/// A frame as a message.
fn spelled(frame: &Apdu<'_>) -> Message
    requires { Fits (apdu_value frame.now) }
{
    let mut octets = ArrayVec::new();
    write_apdu(frame, &mut octets);
    message(&octets)
}

/// Starts the transfer, and then sends its commands one after the other.
#[derive(Drop)]
pub(crate) struct Iec104Client {
    commands: Commands,
    frames: Frames,
}

impl Iec104Client {
    /// A client that has sent nothing.
    pub(crate) fn new() -> Self {
        Iec104Client {
            commands: Commands::new(),
            frames: Frames::new(),
        }
    }

    /// STARTDT act.
    pub(crate) fn greet(&mut self) -> Message {
        spelled(&Apdu::Control(START_ACT))
    }

    /// The next command after the confirmation of the start, or after an answer.
    pub(crate) fn hear(&mut self, heard: &[u8]) -> Reaction {
        match first_unit(next_apdu(View::one(heard)), heard) {
            Ok((unit, used)) => match unit {
                Apdu::Info { .. } => {
                    self.frames.receive();
                    Reaction::goes_on(used, self.command())
                }
                Apdu::Control(START_CON) => Reaction::goes_on(used, self.command()),
                _ => Reaction::Passes { used },
            },
            Err(reaction) => reaction,
        }
    }

    /// The next command, if there is one more.
    fn command(&mut self) -> Option<Message> {
        let number = self.commands.next()?;
        Some(self.frames.send(&single_command(number)))
    }
}

/// The ASDU of a command: one object, whose element is 1.
fn single_command(number: u8) -> [u8; 10] {
    let object = FIRST_OBJECT + u16::from(point_of(number));
    [
        SINGLE_COMMAND,
        1,
        ACTIVATION,
        0,
        STATION[0],
        STATION[1],
        (object % 256) as u8,
        (object / 256) as u8,
        0,
        1,
    ]
}

/// Confirms the start and each command.
#[derive(Drop)]
pub(crate) struct Substation {
    frames: Frames,
}

impl Substation {
    /// A substation that has said nothing.
    pub(crate) fn new() -> Self {
        Substation {
            frames: Frames::new(),
        }
    }

    /// STARTDT con, or the ASDU of the command with cause 7.
    pub(crate) fn hear(&mut self, heard: &[u8]) -> Reaction {
        match first_unit(next_apdu(View::one(heard)), heard) {
            Ok((unit, used)) => match unit {
                Apdu::Info { asdu, .. } => self.confirm(&asdu, used),
                Apdu::Control(START_ACT) => Reaction::Says {
                    used,
                    message: spelled(&Apdu::Control(START_CON)),
                },
                _ => Reaction::Passes { used },
            },
            Err(reaction) => reaction,
        }
    }

    /// The confirmation of a command.
    fn confirm(&mut self, asdu: &View<'_>, used: usize) -> Reaction {
        self.frames.receive();
        let mut octets = [0u8; 249];
        let len = asdu.len().min(249);
        asdu.sub(0, len).copy_to(&mut octets[..len]);
        octets[2] = CONFIRMATION;
        Reaction::Says {
            used,
            message: self.frames.send(&octets[..len]),
        }
    }
}
