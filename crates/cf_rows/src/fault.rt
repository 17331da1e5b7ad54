//! Why a row cannot be played.

use arrayvec::ArrayString;
use cf_samples::expand::ExpandFault;
use std::alloc::{AllocError, AllocFailed};
use std::fmt;

/// Why a row cannot be played.
#[derive(Clone, Copy)]
pub enum Fault {
    /// Memory ran out.
    NoMemory,
    /// This is missing, or stands there in no form.
    Wanted(Wanted),
    /// The same, with the front of the line.
    WantedIn(Wanted, ArrayString<80>),
}

/// What a line must have.
#[derive(Clone, Copy)]
pub enum Wanted {
    Block,
    Key,
    Source,
    Exchange,
    Repeat,
    Field,
    Moment,
    Flag,
    Number,
    Octets,
    Part,
    Record,
    Endpoint,
    Edit,
    Change,
    Object,
    Place,
    End,
}

impl Fault {
    /// The fault with the line in which it is, where it has none yet.
    pub fn at(self, line: &str) -> Fault {
        let Fault::Wanted(what) = self else {
            return self;
        };
        let mut front = ArrayString::new();
        for letter in line.chars() {
            if front.try_push(letter).is_err() {
                break;
            }
        }
        Fault::WantedIn(what, front)
    }
}

impl From<AllocError> for Fault {
    fn from(_error: AllocError) -> Fault {
        Fault::NoMemory
    }
}

impl<T: Drop> From<AllocFailed<T>> for Fault {
    fn from(_error: AllocFailed<T>) -> Fault {
        Fault::NoMemory
    }
}

impl From<ExpandFault> for Fault {
    fn from(fault: ExpandFault) -> Fault {
        match fault {
            ExpandFault::NoMemory => Fault::NoMemory,
            ExpandFault::Repeat => Fault::Wanted(Wanted::Repeat),
            ExpandFault::Number => Fault::Wanted(Wanted::Number),
        }
    }
}

impl fmt::Display for Fault {
    fn fmt<W: fmt::Write>(&self, f: &mut fmt::Formatter<W>) -> fmt::Result {
        let (what, between, line) = match self {
            Fault::NoMemory => ("memory ran out", "", ""),
            Fault::Wanted(what) => (what.words(), "", ""),
            Fault::WantedIn(what, line) => (what.words(), ": ", line.as_str()),
        };
        write!(f, "{what}{between}{line}")
    }
}

impl Wanted {
    /// That it is missing, in words.
    fn words(self) -> &'static str {
        match self {
            Wanted::Block => "no kind of block",
            Wanted::Key => "no known key",
            Wanted::Source => "no line of its source below its name",
            Wanted::Exchange => "no exchange of that name",
            Wanted::Repeat => "a repetition without its number, its end or a sum",
            Wanted::Field => "a field of a record is missing",
            Wanted::Moment => "no moment with six digits behind its point",
            Wanted::Flag => "no flag",
            Wanted::Number => "no number that fits",
            Wanted::Octets => "neither digits nor a unit",
            Wanted::Part => "no part of these octets",
            Wanted::Record => "a record that is too long or too late",
            Wanted::Endpoint => "no address with a port",
            Wanted::Edit => "no edit of the policy p",
            Wanted::Change => "no octet of the capture",
            Wanted::Object => "no object whose calls fail",
            Wanted::Place => "no place of that asset",
            Wanted::End => "no end of a session",
        }
    }
}
