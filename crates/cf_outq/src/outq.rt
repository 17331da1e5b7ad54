//! The queue over a ring of bytes.
ghost use Rattle.std.specs.Prelude.{◌≡◌, ◌+◌, ◌-◌, ◌^◌, ◌<◌, ◌≤◌, ◌↔◌, IfOk, IfSome, IsNone, false, length, min, take, drop, pos, ◌≤ℤ◌};
ghost use Rattle.cf_stream.specs.Position.{place_or_zero};
ghost use Rattle.cf_stream.specs.Stream.{Stream, letter_count, no_letters, with_bytes, with_end, Carries};
ghost use Rattle.cf_outq.specs.SendQueue.{IsQueue, IsQueueOf, IsAnswer, IsUnacked, queue_length, piece_letters, carried, empty, after_push};
ghost use Rattle.cf_outq.specs.SendQueue.{after_end, after_shown, after_acked, after_sent, queue_size};

use crate::piece::Piece;
use cf_view::{NoMemory, View};
use circular_buffer::HeapCircularBuffer;
use std::alloc::Global;
use std::marker::Model;

/// The most bytes that are not acknowledged. This project's own choice.
const CAPACITY: usize = 131_072;

/// The letters that one TCP end has to send: bytes, and then End once it is closed. It keeps what was not acknowledged.
///
/// Places count letters from 0, in the order in which they were pushed. No call but `new` takes memory.
/// RFC 9293, sections 3.3.1 and 3.8; its room is this project's own.
#[derive(Drop)]
pub struct Outq {
    /// The bytes from SND.UNA on: those that were pushed and not acknowledged.
    ring: HeapCircularBuffer<u8>,
    /// How many bytes were ever pushed.
    pushed: u64,
    /// End was pushed, the letter that FIN carries.
    ended: bool,
    /// SND.UNA as a place (RFC 9293, section 3.3.1): how many letters the peer has acknowledged.
    acked: u64,
    /// SND.NXT as a place: how many letters went out at least once.
    sent: u64,
    /// The greatest SND.UNA + SND.WND that the peer has shown, as a place: no letter at or past it goes out.
    shown: u64,
}

impl Model for Outq {
    ghost use Rattle.std.specs.Prelude.{◌≡◌};
    ghost use Rattle.cf_outq.specs.SendQueue.{IsQueue, Queue, queue_size};

    ghost Value = { Queue };

    ghost view = { λ a. record {
      kept = a.ring.items;
      pushed = a.pushed;
      ended = a.ended;
      acked = a.acked;
      sent = a.sent;
      shown = a.shown;
    } };

    ghost invariant = { λ a. (a.ring.capacity ≡ queue_size)
        × IsQueue (record { kept = a.ring.items; pushed = a.pushed; ended = a.ended; acked = a.acked; sent = a.sent; shown = a.shown }) };
}

impl Outq {
    /// An empty queue, with room for 131,072 bytes.
    pub fn new(alloc: Global) -> Result<Outq, NoMemory>
        ensures value { IfOk result (λ q. q ≡ empty) }
        ensures stands { IfOk result (λ q. IsQueueOf q no_letters) }
    {
        match HeapCircularBuffer::with_capacity(alloc, CAPACITY) {
            Ok(ring) => Ok(Outq {
                ring,
                pushed: 0,
                ended: false,
                acked: 0,
                sent: 0,
                shown: 0,
            }),
            Err(_error) => Err(NoMemory),
        }
    }

    /// The number of bytes that `push` can take now.
    pub fn room(&self) -> usize
        ensures { result + length self.now.kept ≡ queue_size }
    {
        CAPACITY - self.ring.len()
    }

    /// The number of bytes that wait: pushed and not acknowledged.
    pub fn waiting(&self) -> usize
        ensures { result ≡ length self.now.kept }
    {
        self.ring.len()
    }

    /// The number of letters ever pushed.
    pub fn length(&self) -> i64
        ensures value { result ≡ pos (queue_length self.now) }
        ensures stands { (whole : Stream) → IsQueueOf self.now whole → result ≡ pos (letter_count whole) }
        ensures bounds { IsQueue self.now }
    {
        (self.pushed + u64::from(self.ended)) as i64
    }

    /// The number of letters that went out at least once.
    pub fn sent(&self) -> i64
        ensures value { result ≡ pos self.now.sent }
        ensures bounds { IsQueue self.now }
    {
        self.sent as i64
    }

    /// The number of letters pushed and not acknowledged.
    pub fn unacked(&self) -> i64
        ensures value { result ≡ pos (queue_length self.now - self.now.acked) }
        ensures bounds { IsQueue self.now }
    {
        (self.pushed + u64::from(self.ended) - self.acked) as i64
    }

    /// Whether End was pushed.
    pub fn is_ended(&self) -> bool
        ensures value { result ≡ self.now.ended }
        ensures stands { (whole : Stream) → IsQueueOf self.now whole → result ≡ whole.ended }
    {
        self.ended
    }

    /// Adds bytes at the end of the list.
    pub fn push(&mut self, bytes: &[u8])
        requires open { self.old.ended ≡ false }
        requires room { length bytes.now + length self.old.kept ≤ queue_size }
        requires limit { self.old.pushed + length bytes.now ≤ 2 ^ 31 }
        ensures new { self.new ≡ after_push self.old bytes.now }
        ensures stands { (whole : Stream) → IsQueueOf self.old whole → IsQueueOf self.new (with_bytes whole bytes.now) }
    {
        self.ring.fill_from_slice(bytes);
        self.pushed += bytes.len() as u64;
    }

    /// Adds End.
    pub fn end(&mut self)
        requires open { self.old.ended ≡ false }
        requires limit { self.old.pushed < 2 ^ 31 }
        ensures new { self.new ≡ after_end self.old }
        ensures stands { (whole : Stream) → IsQueueOf self.old whole → IsQueueOf self.new (with_end whole) }
    {
        self.ended = true;
    }

    /// Notes that the peer lets in the letters below `edge`. An edge that is not above the greatest one changes nothing.
    pub fn shown(&mut self, edge: i64)
        ensures new { self.new ≡ after_shown self.old edge }
        ensures stands { (whole : Stream) → IsQueueOf self.old whole → IsQueueOf self.new whole }
    {
        if edge > self.shown as i64 {
            self.shown = edge as u64;
        }
    }

    /// Notes that the peer has the letters below `position`, whose bytes go. A position that is not above the old one
    /// changes nothing.
    pub fn acked(&mut self, position: i64)
        requires { position ≤ℤ pos self.old.sent }
        ensures new { self.new ≡ after_acked self.old position }
        ensures stands { (whole : Stream) → IsQueueOf self.old whole → IsQueueOf self.new whole }
    {
        if position > self.acked as i64 {
            let acked = position as u64;
            let gone = (acked - self.acked) as usize;
            self.ring
                .truncate_front(self.ring.len().saturating_sub(gone));
            self.acked = acked;
        }
    }

    /// The next letters that were never sent and are below the greatest edge shown, at most `mss` bytes; End goes with
    /// the last byte where it is below the edge too. They count as sent from now on.
    pub fn next_piece(&mut self, mss: usize) -> Option<Piece>
        requires { 0 < mss }
        ensures answer { IsAnswer self.old mss self.old.sent self.old.shown result }
        ensures new { self.new ≡ after_sent self.old result }
        ensures letters { IfSome result (λ p. 0 < piece_letters p) }
        ensures unacked { IfSome result (λ p. IsUnacked self.new p) }
        ensures stands { (whole : Stream) → IsQueueOf self.old whole → IsQueueOf self.new whole }
        ensures carries { IfSome result (λ p. (whole : Stream) → IsQueueOf self.old whole → Carries whole p.at (carried whole p)) }
    {
        let piece = self.piece(mss, self.sent, self.shown)?;
        self.sent += piece.letters();
        Some(piece)
    }

    /// The oldest letters that are not acknowledged, at most `mss` bytes, all of them sent before; End goes with the last
    /// byte where it was sent too.
    pub fn first_piece(&self, mss: usize) -> Option<Piece>
        requires { 0 < mss }
        ensures answer { IsAnswer self.now mss self.now.acked self.now.sent result }
        ensures none { IsNone result ↔ (self.now.sent ≡ self.now.acked) }
        ensures letters { IfSome result (λ p. 0 < piece_letters p) }
        ensures unacked { IfSome result (λ p. IsUnacked self.now p) }
        ensures carries { IfSome result (λ p. (whole : Stream) → IsQueueOf self.now whole → Carries whole p.at (carried whole p)) }
    {
        self.piece(mss, self.acked, self.sent)
    }

    /// Copies the bytes of a piece to `out`, which has its length.
    pub fn copy(&self, piece: Piece, out: &mut [u8])
        requires unacked { IsUnacked self.now piece }
        requires len { length out.old ≡ piece.len }
        ensures value { out.new ≡ take piece.len (drop (place_or_zero piece.at - self.now.acked) self.now.kept) }
        ensures stands { (whole : Stream) → IsQueueOf self.now whole → out.new ≡ (carried whole piece).bytes }
    {
        let from = (piece.at as u64 - self.acked) as usize;
        let (first, second) = self.ring.as_slices();
        View::two(first, second)
            .sub(from, from + piece.len)
            .copy_to(out);
    }

    /// The letters from `from` on below `limit`, at most `mss` bytes.
    fn piece(&self, mss: usize, from: u64, limit: u64) -> Option<Piece>
        requires mss { 0 < mss }
        requires from { (self.now.acked ≤ from) × (from ≤ queue_length self.now) }
        ensures answer { IsAnswer self.now mss from limit result }
        ensures letters { IfSome result (λ p. 0 < piece_letters p) }
        ensures within { IfSome result (λ p. (from + p.len ≤ self.now.pushed)
            × (from + piece_letters p ≤ min limit (queue_length self.now))) }
    {
        let len = limit.min(self.pushed).saturating_sub(from).min(mss as u64);
        let end = self.ended && from + len == self.pushed && self.pushed < limit;
        if len == 0 && !end {
            return None;
        }
        Some(Piece {
            at: from as i64,
            len: len as usize,
            end,
        })
    }
}
