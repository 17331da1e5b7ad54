//! Who speaks at a host's end of a connection.
ghost use Rattle.std.specs.Prelude.{◌≡◌, IfOk};

use crate::dnp3::{Dnp3Master, Outstation};
use crate::iec104::{Iec104Client, Substation};
use crate::message::Message;
use crate::modbus::{ModbusDevice, ModbusMaster};
use cf_view::Framed;

/// What a host does about the octets that it heard.
#[derive(Drop)]
pub(crate) enum Reaction {
    /// No whole unit begins them.
    Waits,
    /// It has nothing to say to the unit, which takes so many octets.
    Passes { used: usize },
    /// It says this to the unit.
    Says { used: usize, message: Message },
    /// All commands are answered: it closes.
    Closes { used: usize },
}

impl Reaction {
    /// A client goes on after a unit of so many octets: it says its next message, or closes where there is none.
    pub(crate) fn goes_on(used: usize, next: Option<Message>) -> Self {
        match next {
            Some(message) => Reaction::Says { used, message },
            None => Reaction::Closes { used },
        }
    }
}

/// The unit that begins what a host heard, and how many octets it takes; where none does, what the host does.
pub(crate) fn first_unit<U>(front: Framed<U>, heard: &[u8]) -> Result<(U, usize), Reaction>
    ensures { IfOk result (λ found. front ≡ Framed.Unit found.0 found.1) }
{
    match front {
        Framed::Unit { unit, used } => Ok((unit, used)),
        Framed::More => Err(Reaction::Waits),
        Framed::Broken(_) => Err(Reaction::Passes { used: heard.len() }),
    }
}

/// A host, by its protocol and side.
#[derive(Drop)]
pub(crate) enum Speaker {
    ModbusMaster(ModbusMaster),
    ModbusDevice(ModbusDevice),
    Dnp3Master(Dnp3Master),
    Outstation(Outstation),
    Iec104Client(Iec104Client),
    Substation(Substation),
}

impl Speaker {
    /// What it says as the connection opens, if it is the one who speaks first.
    pub(crate) fn greet(&mut self) -> Option<Message> {
        match self {
            Speaker::ModbusMaster(master) => master.command(),
            Speaker::Dnp3Master(master) => master.command(),
            Speaker::Iec104Client(client) => Some(client.greet()),
            Speaker::ModbusDevice(_) => None,
            Speaker::Outstation(_) => None,
            Speaker::Substation(_) => None,
        }
    }

    /// What it does about the first unit of what it heard.
    pub(crate) fn hear(&mut self, heard: &[u8]) -> Reaction {
        match self {
            Speaker::ModbusMaster(master) => master.hear(heard),
            Speaker::ModbusDevice(device) => device.hear(heard),
            Speaker::Dnp3Master(master) => master.hear(heard),
            Speaker::Outstation(outstation) => outstation.hear(heard),
            Speaker::Iec104Client(client) => client.hear(heard),
            Speaker::Substation(substation) => substation.hear(heard),
        }
    }
}
