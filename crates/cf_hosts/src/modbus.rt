//! The hosts that speak Modbus: a master that writes single registers, and a device that echoes.

use crate::commands::{Commands, point_of};
use crate::message::{Message, message};
use crate::speaker::{Reaction, first_unit};
use arrayvec::ArrayVec;
use cf_modbus::{Adu, next_adu, write_adu};
use cf_view::View;

/// The station of the asset.
const STATION: u8 = 1;

/// Write single register. MODBUS Application Protocol Specification V1.1b3, section 6.6.
const WRITE_REGISTER: u8 = 6;

/// Sends its commands one after the other: command j has transaction j and writes value j.
#[derive(Drop)]
pub(crate) struct ModbusMaster {
    commands: Commands,
}

impl ModbusMaster {
    /// A master that has sent nothing.
    pub(crate) fn new() -> Self {
        ModbusMaster {
            commands: Commands::new(),
        }
    }

    /// The next command, if there is one more.
    pub(crate) fn command(&mut self) -> Option<Message> {
        Some(write_register(self.commands.next()?))
    }

    /// The next command after an answer.
    pub(crate) fn hear(&mut self, heard: &[u8]) -> Reaction {
        match first_unit(next_adu(View::one(heard)), heard) {
            Ok((_, used)) => Reaction::goes_on(used, self.command()),
            Err(reaction) => reaction,
        }
    }
}

/// The command of a number.
fn write_register(number: u8) -> Message {
    let pdu = [WRITE_REGISTER, 0, point_of(number), 0, number];
    let adu = Adu {
        transaction: u16::from(number),
        unit: STATION,
        pdu: View::one(&pdu),
    };
    let mut octets = ArrayVec::new();
    write_adu(&adu, &mut octets);
    message(&octets)
}

/// Echoes each ADU.
#[derive(Drop)]
pub(crate) struct ModbusDevice;

impl ModbusDevice {
    /// The same ADU.
    pub(crate) fn hear(&mut self, heard: &[u8]) -> Reaction {
        match first_unit(next_adu(View::one(heard)), heard) {
            Ok((_, used)) => Reaction::Says {
                used,
                message: message(&heard[..used.min(heard.len())]),
            },
            Err(reaction) => reaction,
        }
    }
}
