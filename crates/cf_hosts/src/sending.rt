//! How the text of a host is sent, by a draw.
ghost use Rattle.std.specs.Prelude.{◌≡◌, ◌≢◌};

/// How the text of a segment is sent.
#[derive(Clone, Copy, PartialEq, Eq)]
pub(crate) enum Sending {
    /// Whole.
    Whole,
    /// In two parts, cut at its middle.
    InTwo,
    /// In two parts, the second first.
    Turned,
    /// Twice.
    Twice,
    /// Whole, and then its second half with all bits inverted.
    Disturbed,
    /// Not at all.
    Lost,
}

/// Whether the text of a segment may be lost.
#[derive(Clone, Copy, PartialEq, Eq)]
pub(crate) enum Chance {
    /// By its draw.
    MayLose,
    /// It is sent, whatever is drawn.
    Keeps,
}

/// How many segments of a host with text are sent after one that was lost, before another may be lost.
const APART: u8 = 3;

/// The losses of a host.
#[derive(Drop)]
pub(crate) struct Losses {
    /// How many of its segments with text were sent since one was lost, up to 3.
    since: u8,
}

impl Losses {
    /// None.
    pub(crate) fn new() -> Self {
        Losses { since: APART }
    }

    /// How a segment is sent by a draw; one that would be lost is sent whole where it may not be, or where one of the last three
    /// was lost.
    pub(crate) fn sending(&mut self, draw: u8, chance: Chance) -> Sending
        ensures { chance ≡ Chance.Keeps → result ≢ Sending.Lost }
    {
        let sending = match draw {
            3 => Sending::InTwo,
            4 => Sending::Turned,
            5 => Sending::Twice,
            6 => Sending::Disturbed,
            7 => Sending::Lost,
            _ => Sending::Whole,
        };
        if sending == Sending::Lost && chance == Chance::MayLose && self.since >= APART {
            self.since = 0;
            return Sending::Lost;
        }
        self.since = self.since.saturating_add(1).min(APART);
        if sending == Sending::Lost {
            Sending::Whole
        } else {
            sending
        }
    }
}
