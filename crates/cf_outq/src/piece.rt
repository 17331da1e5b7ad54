//! Pieces: runs of letters that fit one segment.
ghost use Rattle.std.specs.Prelude.{◌≡◌, ◌<◌, ◌^◌};
ghost use Rattle.cf_outq.specs.SendQueue.{piece_letters};

/// The letters of one segment: `len` bytes from place `at` on, counted from the first byte ever pushed, and after them
/// End where `end` holds. RFC 9293, section 3.4: its sequence number is that of the SYN, and `at` + 1 more.
#[derive(Clone, Copy)]
pub struct Piece {
    pub at: i64,
    pub len: usize,
    pub end: bool,
}

impl Piece {
    /// The number of its letters, End counted.
    pub(crate) fn letters(&self) -> u64
        requires { self.now.len < 2 ^ 63 }
        ensures { result ≡ piece_letters self.now }
    {
        self.len as u64 + u64::from(self.end)
    }
}
