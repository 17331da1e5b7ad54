//! The hosts that speak DNP3: a master that operates relays directly, and an outstation that answers with the objects.
//! A response has its request's sequence number, and the relay is latched on once for 100 milliseconds.
ghost use Rattle.cf_dnplink.specs.LinkFrame.{IsFrame, frame_value};

use crate::commands::{Commands, point_of};
use crate::message::{Message, message};
use crate::speaker::{Reaction, first_unit};
use arrayvec::ArrayVec;
use cf_dnplink::{Frame, copy_user, next_frame, user_len, write_frame};
use cf_dnptrans::segment_octet;
use cf_view::{View, push_bytes};

/// The link address of the master, and that of the asset.
const MASTER: u16 = 1;

const STATION: u16 = 10;

/// Unconfirmed user data from the master, and to it. IEEE 1815-2012, section 9.2.4.1.
const FROM_MASTER: u8 = 0xC4;

const TO_MASTER: u8 = 0x44;

/// The first octet of an application fragment that is alone, without its sequence number. IEEE 1815-2012, section 4.2.2.4.
const FIRST_AND_FINAL: u8 = 0xC0;

/// Direct operate, and response. IEEE 1815-2012, section 4.2.2.5.
const DIRECT_OPERATE: u8 = 5;

const RESPONSE: u8 = 129;

/// Sends its commands one after the other: command j has sequence number j.
#[derive(Drop)]
pub(crate) struct Dnp3Master {
    commands: Commands,
}

impl Dnp3Master {
    /// A master that has sent nothing.
    pub(crate) fn new() -> Self {
        Dnp3Master {
            commands: Commands::new(),
        }
    }

    /// The next command, if there is one more.
    pub(crate) fn command(&mut self) -> Option<Message> {
        Some(direct_operate(self.commands.next()?))
    }

    /// The next command after an answer.
    pub(crate) fn hear(&mut self, heard: &[u8]) -> Reaction {
        match first_unit(next_frame(View::one(heard)), heard) {
            Ok((_, used)) => Reaction::goes_on(used, self.command()),
            Err(reaction) => reaction,
        }
    }
}

/// The command of a number: one control relay output block, g12v1, with an index of one octet. It latches on, once, for 100
/// milliseconds.
fn direct_operate(number: u8) -> Message {
    let fragment = [
        FIRST_AND_FINAL + number % 16,
        DIRECT_OPERATE,
        12,
        1,
        0x17,
        1,
        point_of(number),
        // the control code, the count, the time on and off, and the status
        3,
        1,
        100,
        0,
        0,
        0,
        0,
        0,
        0,
        0,
        0,
    ];
    framed(FROM_MASTER, STATION, MASTER, number % 64, &fragment)
}

/// A frame with a fragment in one segment of that sequence.
fn framed(control: u8, dest: u16, source: u16, sequence: u8, fragment: &[u8]) -> Message {
    let fragment = &fragment[..fragment.len().min(249)];
    let mut user: ArrayVec<u8, 250> = ArrayVec::new();
    user.push(segment_octet(fragment.len().max(1), 0, sequence % 64));
    push_bytes(&mut user, fragment);
    let mut frame = ArrayVec::new();
    write_frame(control, dest, source, &View::one(&user), &mut frame);
    message(&frame)
}

/// Answers each request with no indication and the objects of the request.
#[derive(Drop)]
pub(crate) struct Outstation {
    answered: u8,
}

impl Outstation {
    /// An outstation that has answered nothing.
    pub(crate) fn new() -> Self {
        Outstation { answered: 0 }
    }

    /// The response to a request.
    pub(crate) fn hear(&mut self, heard: &[u8]) -> Reaction {
        match first_unit(next_frame(View::one(heard)), heard) {
            Ok((unit, used)) => self.answer(&unit, used),
            Err(reaction) => reaction,
        }
    }

    /// The response to the request in a frame: its user octets are the transport octet, the application control, the function
    /// code and the objects.
    fn answer(&mut self, frame: &Frame<'_>, used: usize) -> Reaction
        requires { IsFrame (frame_value frame.now) }
    {
        let mut user = [0u8; 250];
        let len = user_len(frame);
        copy_user(frame, &mut user[..len]);
        if len < 3 {
            return Reaction::Passes { used };
        }
        let mut fragment: ArrayVec<u8, 256> = ArrayVec::new();
        push_bytes(
            &mut fragment,
            &[FIRST_AND_FINAL + user[1] % 16, RESPONSE, 0, 0],
        );
        push_bytes(&mut fragment, &user[3..len]);
        let sequence = self.answered;
        self.answered = sequence.wrapping_add(1) % 64;
        Reaction::Says {
            used,
            message: framed(TO_MASTER, MASTER, STATION, sequence, &fragment),
        }
    }
}
