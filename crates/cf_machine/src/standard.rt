//! Standard error, for which nothing waits, and the descriptors that every program begins with.
//! Before each line `poll` is asked whether standard error takes octets; then it goes out in one write of at most 240, since a
//! pipe that takes any has a page free, a socket three quarters of its buffer, a terminal 256 octets. What is left is that
//! another program writes to the same pipe meanwhile. The signal of a pipe that nobody reads is not taken.

use arrayvec::ArrayString;
use libc::net as c;
use libc::types::pollfd;
use std::fmt::{Display, Write};

/// How many octets a line has at most, its line feed among them: a pipe, a socket or a terminal that takes any takes as many.
const LONGEST_LINE: usize = 240;

/// Lines on standard error. One that would have to wait, or fails, is dropped and counted, and the count is said before the next
/// line that is taken.
#[derive(Drop)]
pub(crate) struct ErrorLines {
    dropped: u64,
}

impl ErrorLines {
    /// Lines of which none was dropped yet.
    pub fn new() -> Self {
        ErrorLines { dropped: 0 }
    }

    /// Says a line, of which the end is cut where it is long. The name of the program is put before it.
    pub fn say<D: Display + Drop>(&mut self, line: D) {
        if self.says_dropped() && puts_line(line) {
            return;
        }
        self.dropped = self.dropped.saturating_add(1);
    }

    /// Says how many lines were dropped, if any were; whether nothing of that is left to say.
    fn says_dropped(&mut self) -> bool {
        let is_said = match self.dropped {
            0 => true,
            1 => puts_line("a line was dropped"),
            dropped => puts_line(format_args!("{dropped} lines were dropped")),
        };
        if is_said {
            self.dropped = 0;
        }
        is_said
    }
}

/// Whether a line on standard error would not have to wait, as `poll` says of descriptor 2.
pub fn takes_lines() -> bool {
    let mut asked = [pollfd {
        fd: libc::STDERR_FILENO,
        events: c::POLLOUT,
        revents: 0,
    }];
    c::poll(&mut asked, 0) > 0 && asked[0].revents & c::POLLOUT != 0
}

/// Writes a line in one call, where that does not have to wait; whether it was taken.
fn puts_line<D: Display + Drop>(line: D) -> bool {
    if !takes_lines() {
        return false;
    }
    let mut text = ArrayString::<LONGEST_LINE>::new();
    // What does not fit is left out.
    let _ = write!(text, "cmdwall: {line}");
    if text.is_full() {
        text.pop();
    }
    let _ = text.try_push('\n');
    libc::write(libc::STDERR_FILENO, text.as_str().as_bytes()) > 0
}

/// Opens the null device in the place of descriptors 0, 1 and 2 that are closed, so that no file of the work gets their numbers. It is
/// open for reading alone: a write to it fails, as to a descriptor that is closed.
pub fn fill_descriptors() {
    for _ in 0..3 {
        let opened = os::open_read(b"/dev/null");
        if opened > libc::STDERR_FILENO {
            libc::close(opened);
            return;
        }
    }
}
