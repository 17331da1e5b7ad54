//! A desk: where packets and log lines go.
//! One over a log is whole where nothing stands behind the log's last line feed: one that ends in `abc` and gets `x` and a line
//! feed has the line `abcx`.
ghost use Rattle.std.specs.Prelude.{◌≡◌, ◌<◌, ◌≤◌, ◌↔◌, IsTrue, true, length};
ghost use Rattle.cf_outside.specs.Desk.{DeskValue, Emits, PutsLine, line_desk};
ghost use Rattle.cf_outside.specs.Files.{Appends};
ghost use Rattle.cf_outside.specs.Lines.{is_line};
ghost use Rattle.cf_view.specs.Moment.{moment_limit};

use crate::files::{Files, WriteAnswer};

/// Where packets and log lines go. Of each of the two lists an object tells all or nothing. A count of faults never falls,
/// and stays where a `u64` ends. After `Failed` a desk is no longer whole, and no further call is made on it. This
/// project's own interface.
pub trait Desk {
    /// What the object tells.
    ghost value: { Self → DeskValue };

    /// Emits a packet of at most 1,500 octets at a moment in microseconds, below 2^32 seconds. After `Failed` it may have
    /// been emitted all the same.
    fn emit(&mut self, moment: u64, packet: &[u8]) -> WriteAnswer
        requires whole { DeskValue.whole (value self.old) ≡ true }
        requires moment { moment < moment_limit }
        requires packet { length packet.now ≤ 1500 }
        ensures { Emits moment packet.now (value self.old) (value self.new) result };

    /// Puts a line, whose only line feed is its last byte. After `Failed` it may have been put all the same.
    fn line(&mut self, text: &str) -> WriteAnswer
        requires whole { DeskValue.whole (value self.old) ≡ true }
        requires line { is_line text.now ≡ true }
        ensures { PutsLine text.now (value self.old) (value self.new) result };
}

/// Writes a log alone, through lent files, and counts their failed writes. It tells the lines of the log, and no packets. It
/// is whole where `failed` is false and nothing stands after the last line feed of the log, which the next line would else
/// join. This project's own.
#[derive(Drop)]
pub struct LineDesk<'a, F> {
    /// The files that it writes through.
    pub files: &'a mut F,
    /// The name of the log.
    pub log: &'a str,
    /// Whether a call failed: false as the desk is made.
    pub failed: bool,
}

#[tactic(auto, using(crate::proofs::Lines::line_laws))]
impl<'a, F: Files> Desk for LineDesk<'a, F> {
    ghost value = { λ d. line_desk d.failed d.files.ghost_name (F.write_faults d.files.now) (F.read_faults d.files.now)
        d.log.now (F.content d.files.now) };

    /// Does nothing.
    fn emit(&mut self, _moment: u64, _packet: &[u8]) -> WriteAnswer
        ensures desk { Emits _moment _packet.now (⟦<Self as Desk>⟧.value self.old) (⟦<Self as Desk>⟧.value self.new) result }
        ensures done { result ≡ WriteAnswer.Done }
        ensures same { self.new ≡ self.old }
    {
        WriteAnswer::Done
    }

    /// Appends the line to the log. The desk is no longer whole where that failed.
    fn line(&mut self, text: &str) -> WriteAnswer
        requires whole { DeskValue.whole (⟦<Self as Desk>⟧.value self.old) ≡ true }
        requires line { is_line text.now ≡ true }
        ensures desk { PutsLine text.now (⟦<Self as Desk>⟧.value self.old) (⟦<Self as Desk>⟧.value self.new) result }
        ensures log { Appends text.now (F.content self.old.files.now self.old.log.now) (F.content self.new.files.now self.new.log.now)
            result }
        ensures failed { IsTrue self.new.failed ↔ (result ≡ WriteAnswer.Failed) }
    {
        match self.files.append(self.log, text.as_bytes()) {
            WriteAnswer::Done => WriteAnswer::Done,
            WriteAnswer::Failed => {
                self.failed = true;
                WriteAnswer::Failed
            }
        }
    }
}
