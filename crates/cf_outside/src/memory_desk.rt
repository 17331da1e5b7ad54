//! A desk in memory, whose failures are scripted.
ghost use Rattle.std.specs.Prelude.{◌≡◌, ◌≤◌, ◌<◌, ◌∷◌, ◌++◌, [], true, length, map, string_bytes, OnOk, OnErr};
ghost use Rattle.cf_outside.specs.Faults.{counted};
ghost use Rattle.cf_outside.specs.Desk.{DeskValue, Emits, PutsLine};
ghost use Rattle.cf_outside.specs.Lines.{is_line};
ghost use Rattle.cf_outside.specs.MemoryDesk.{MemoryEmits, MemoryPutsLine, desk_in_memory, empty_desk, memory_desk_value, sent_value};
ghost use Rattle.cf_view.specs.Moment.{moment_limit};

use crate::desk::Desk;
use crate::files::WriteAnswer;
use crate::script::{Fail, left_by};
use std::alloc::{AllocError, Global};

/// A packet that was emitted, and its moment in microseconds.
#[derive(Drop)]
pub struct Sent {
    /// In microseconds.
    pub moment: u64,
    /// The packet, of at most 1,500 octets.
    pub bytes: Vec<u8>,
}

/// A desk in memory. Calls are numbered from 1; those that `fails` names fail, and add the packet or line all the same
/// where their `left` is above 0. A call fails besides where memory ran out, which raises `lacks` too. It is whole where
/// `faults` is 0. This project's own.
#[derive(Drop)]
pub struct MemoryDesk {
    /// The packets that were emitted, in their order.
    pub packets: Vec<Sent>,
    /// The lines that were put, in their order.
    pub lines: Vec<String>,
    /// The calls that fail, by their numbers.
    pub fails: Vec<Fail>,
    /// How many calls there were.
    pub calls: u64,
    /// How many calls failed.
    pub faults: u64,
    /// How many of them failed for want of memory.
    pub lacks: u64,
}

impl MemoryDesk {
    /// Nothing emitted, no line, no script, and every count 0. Takes no memory.
    pub fn new(alloc: Global) -> Self
        ensures { memory_desk_value result ≡ empty_desk }
    {
        MemoryDesk {
            packets: Vec::new(alloc),
            lines: Vec::new(alloc),
            fails: Vec::new(alloc),
            calls: 0,
            faults: 0,
            lacks: 0,
        }
    }

    fn failed(&mut self) -> WriteAnswer
        ensures answer { result ≡ WriteAnswer.Failed }
        ensures later { self.old.faults ≤ self.new.faults }
        ensures broken { 0 < self.new.faults }
        ensures counts { self.new ≡ record self.old { faults = counted self.old.faults } }
    {
        self.faults = self.faults.saturating_add(1);
        WriteAnswer::Failed
    }

    fn lacked(&mut self) -> WriteAnswer
        ensures answer { result ≡ WriteAnswer.Failed }
        ensures later { self.old.faults ≤ self.new.faults }
        ensures broken { 0 < self.new.faults }
        ensures counts { self.new ≡ record self.old { faults = counted self.old.faults; lacks = counted self.old.lacks } }
    {
        self.lacks = self.lacks.saturating_add(1);
        self.failed()
    }
}

impl Desk for MemoryDesk {
    ghost value = { λ d. desk_in_memory d };

    fn emit(&mut self, moment: u64, packet: &[u8]) -> WriteAnswer
        requires whole { DeskValue.whole (desk_in_memory self.old) ≡ true }
        requires moment { moment < moment_limit }
        requires packet { length packet.now ≤ 1500 }
        ensures emit { MemoryEmits moment packet.now (memory_desk_value self.old) (memory_desk_value self.new) result }
        ensures desk { Emits moment packet.now (desk_in_memory self.old) (desk_in_memory self.new) result }
    {
        self.calls = self.calls.saturating_add(1);
        match left_by(&self.fails, self.calls) {
            Some(0) => self.failed(),
            Some(_) => match keep_packet(&mut self.packets, moment, packet) {
                Ok(()) => self.failed(),
                Err(_) => self.lacked(),
            },
            None => match keep_packet(&mut self.packets, moment, packet) {
                Ok(()) => WriteAnswer::Done,
                Err(_) => self.lacked(),
            },
        }
    }

    fn line(&mut self, text: &str) -> WriteAnswer
        requires whole { DeskValue.whole (desk_in_memory self.old) ≡ true }
        requires line { is_line text.now ≡ true }
        ensures line { MemoryPutsLine text.now (memory_desk_value self.old) (memory_desk_value self.new) result }
        ensures desk { PutsLine text.now (desk_in_memory self.old) (desk_in_memory self.new) result }
    {
        self.calls = self.calls.saturating_add(1);
        match left_by(&self.fails, self.calls) {
            Some(0) => self.failed(),
            Some(_) => match keep_line(&mut self.lines, text) {
                Ok(()) => self.failed(),
                Err(_) => self.lacked(),
            },
            None => match keep_line(&mut self.lines, text) {
                Ok(()) => WriteAnswer::Done,
                Err(_) => self.lacked(),
            },
        }
    }
}

/// Adds a packet.
#[tactic(auto, using(std::proofs::lemmas::Grind::common_steps))]
fn keep_packet(packets: &mut Vec<Sent>, moment: u64, packet: &[u8]) -> Result<(), AllocError>
    ensures ok { OnOk result (map sent_value packets.new.items ≡
        map sent_value packets.old.items ++ record { moment = moment; bytes = packet.now } ∷ []) }
    ensures err { OnErr result (map sent_value packets.new.items ≡ map sent_value packets.old.items) }
{
    let bytes = packet.to_vec(*packets.allocator())?;
    packets.push(Sent { moment, bytes })?;
    Ok(())
}

/// Adds a line.
#[tactic(auto, using(std::proofs::lemmas::Grind::common_steps))]
fn keep_line(lines: &mut Vec<String>, text: &str) -> Result<(), AllocError>
    ensures ok { OnOk result (map string_bytes lines.new.items ≡ map string_bytes lines.old.items ++ text.now ∷ []) }
    ensures err { OnErr result (map string_bytes lines.new.items ≡ map string_bytes lines.old.items) }
{
    let line = String::from_str(*lines.allocator(), text)?;
    lines.push(line)?;
    Ok(())
}
