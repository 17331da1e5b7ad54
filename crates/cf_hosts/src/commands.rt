//! The commands of a client: 15 of them, of which the last of each three is to be refused.

/// How many commands a client sends.
const COMMANDS: u8 = 15;

/// A client's commands, counted from 0.
#[derive(Drop)]
pub(crate) struct Commands {
    sent: u8,
}

impl Commands {
    /// None is sent.
    pub(crate) fn new() -> Self {
        Commands { sent: 0 }
    }

    /// The number of the next command, if there is one more.
    pub(crate) fn next(&mut self) -> Option<u8> {
        let number = self.sent;
        if number >= COMMANDS {
            return None;
        }
        self.sent = number + 1;
        Some(number)
    }
}

/// The point of a command: one of the ten that are allowed, or 20, which is not.
pub(crate) fn point_of(number: u8) -> u8 {
    if number % 3 == 2 { 20 } else { number % 10 }
}
