//! The records of a capture file, read one after the other.
//! An octet that the file does not have stands nowhere, so a file that ends is cut (7), and not too large.
ghost use Rattle.std.specs.Prelude.{◌≡◌, ℕ, ◌^◌, ◌≤◌, IsErrOf, length};
ghost use Rattle.cf_outside.specs.Frames.{OnlyReads};
ghost use Rattle.cf_records.specs.Form.{interface_of, room_of};
ghost use Rattle.cf_records.specs.Pieces.{FindsBehind, FindsPiece, IsPastRecord, IsPieceInside};
ghost use Rattle.cf_records.specs.Reader.{FindsRecord, OpensAs, OpensIn};
ghost use Rattle.cf_records.specs.declared.record_reader.NextRecord.TheVariants as next;
ghost use Rattle.cf_records.specs.declared.record_reader.Piece.TheVariants as piece;

use crate::blocks::{BlockRefusal, block_piece};
use crate::classic::classic_piece;
use crate::form::{FORM_OCTETS, Form, FormRefusal, first_place, read_form, room};
use cf_outside::{Files, fill};
use cf_pcapng::Interface;
use cf_view::{LinkKind, LinkSet};
use std::alloc::Global;
use std::marker::Model;

/// The place from which on no octet of a capture file is read: 2^40. This project's own.
pub const PLACE_LIMIT: u64 = 1_099_511_627_776;

/// Why a capture file was not opened.
#[derive(Clone, Copy, Debug)]
pub enum OpenFault {
    /// Memory ran out.
    NoMemory,
    /// A read failed.
    Read,
    /// The file is refused by its header, or by its first section header.
    Refused(FormRefusal),
}

/// What stands at the place of a reader.
#[derive(Clone, Copy)]
pub enum NextRecord {
    /// A record, with its stamp in microseconds since the epoch. The reader lends its captured octets.
    Whole(u64),
    /// The end of the file.
    End,
    /// The file ends inside the record or the block.
    Cut,
    /// The captured length is above `CAPTURED_LIMIT`.
    TooLong,
    /// A block is refused.
    Refused(BlockRefusal),
    /// An octet of the record or the block stands at place 2^40 or above.
    Large,
    /// A read failed.
    Failed,
}

/// What stands at a place of a file: a record whose captured octets stand in the buffer, a block that is passed over, or neither.
#[derive(Clone, Copy)]
pub enum Piece {
    Record {
        stamp: u64,
        link: LinkKind,
        from: usize,
        to: usize,
        used: usize,
    },
    Passed(usize),
    Ends(NextRecord),
}

/// Reads a capture file record by record, into one buffer: of 262,160 octets, or of 16,777,216 for a pcapng file. The file itself is
/// lent to each call.
#[derive(Drop)]
pub struct RecordReader {
    buffer: Vec<u8>,
    form: Form,
    place: u64,
    link: LinkKind,
    from: usize,
    to: usize,
}

impl Model for RecordReader {
    ghost use Rattle.std.specs.Prelude.{◌≡◌, ◌≤◌, ◌^◌, length, slice_range};
    ghost use Rattle.cf_records.specs.Form.{room_of};
    ghost use Rattle.cf_records.specs.Reader.{ReaderValue};

    ghost Value = { ReaderValue };

    ghost view = { λ r. record { form = r.form; place = r.place; link = r.link; body = slice_range r.buffer.items r.from r.to } };

    ghost invariant = { λ r. (length r.buffer.items ≡ room_of r.form) × (r.place ≤ 2 ^ 40) × (r.from ≤ r.to)
        × (r.to ≤ length r.buffer.items) };
}

impl RecordReader {
    /// Reads what form a file has, of Ethernet or raw IP, and takes the buffer. Changes no file.
    pub fn open<F: Files>(
        alloc: Global,
        name: &str,
        files: &mut F,
    ) -> Result<RecordReader, OpenFault>
        ensures opened { OpensAs (F.content files.old name.now) result }
        ensures reads { OnlyReads name.now F.content F.read_faults F.write_faults files.old files.new (IsErrOf result OpenFault.Read) }
    {
        RecordReader::open_in(alloc, LinkSet::Plain, name, files)
    }

    /// Reads what form a file has, of one of these link types, and takes the buffer. Changes no file.
    pub fn open_in<F: Files>(
        alloc: Global,
        kinds: LinkSet,
        name: &str,
        files: &mut F,
    ) -> Result<RecordReader, OpenFault>
        ensures opened { OpensIn kinds (F.content files.old name.now) result }
        ensures reads { OnlyReads name.now F.content F.read_faults F.write_faults files.old files.new (IsErrOf result OpenFault.Read) }
    {
        let mut head = [0u8; FORM_OCTETS];
        let Some(have) = fill(name, 0, 0, FORM_OCTETS, &mut head, files) else {
            return Err(OpenFault::Read);
        };
        let form = match read_form(alloc, kinds, &head[..have]) {
            Ok(form) => form,
            Err(fault) => return Err(fault),
        };
        let Ok(buffer) = Vec::from_elem(alloc, 0, room(&form)) else {
            return Err(OpenFault::NoMemory);
        };
        Ok(RecordReader {
            buffer,
            place: first_place(&form),
            form,
            link: LinkKind::RawIp,
            from: 0,
            to: 0,
        })
    }

    /// Where the next record or block begins, in octets from the front of the file.
    pub fn place(&self) -> u64
        ensures { result ≡ self.now.place }
    {
        self.place
    }

    /// What stands before the IPv4 packet of the last record that was read.
    pub fn link(&self) -> LinkKind
        ensures { result ≡ self.now.link }
    {
        self.link
    }

    /// The interface of a number, counted from 0 in the section of a pcapng file that was read so far; none of a classic file.
    pub fn interface(&self, number: u32) -> Option<Interface>
        ensures { result ≡ interface_of self.now.form number }
    {
        match &self.form {
            Form::Classic(_) => None,
            Form::Blocks(reader) => reader.interface(number),
        }
    }

    /// The captured octets of the last record that was read, and none before the first.
    pub fn body(&self) -> &[u8]
        ensures { result.now ≡ self.now.body }
    {
        &self.buffer[self.from..self.to]
    }

    /// Reads the next record, and goes on after it. Blocks that are none are passed over. Changes no file. Where no record is there,
    /// the place is that of what is there.
    pub fn next<F: Files>(&mut self, name: &str, files: &mut F) -> NextRecord
        ensures found { FindsRecord (F.content files.old name.now) self.old self.new result }
        ensures near { self.new.place ≤ 2 ^ 40 }
        ensures on { IsPastRecord result self.old.place self.new.place }
        ensures reads { OnlyReads name.now F.content F.read_faults F.write_faults files.old files.new (result ≡ next.Failed) }
    {
        let piece = piece_behind(
            name,
            &mut self.form,
            &mut self.place,
            &mut self.buffer,
            files,
        );
        match piece {
            Piece::Record {
                stamp,
                link,
                from,
                to,
                used,
            } => {
                self.place += used as u64;
                self.link = link;
                self.from = from;
                self.to = to;
                NextRecord::Whole(stamp)
            }
            Piece::Passed(_) => NextRecord::End,
            Piece::Ends(answer) => answer,
        }
    }
}

/// Passes blocks over from a place on, and reads what stands after them.
fn piece_behind<F: Files>(
    name: &str,
    form: &mut Form,
    place: &mut u64,
    buffer: &mut [u8],
    files: &mut F,
) -> Piece
    requires near { place.old ≤ 2 ^ 40 }
    requires room { length buffer.old ≡ room_of form.old }
    ensures found { FindsBehind (F.content files.old name.now) form.old place.old form.new place.new buffer.new result }
    ensures inside { IsPieceInside place.new (length buffer.new) result }
    ensures near { place.new ≤ 2 ^ 40 }
    ensures on { place.old ≤ place.new }
    ensures none { (used : ℕ) → result ≡ piece.Passed used → ⊥ }
    ensures room { length buffer.new ≡ length buffer.old }
    ensures form { room_of form.new ≡ room_of form.old }
    ensures reads { OnlyReads name.now F.content F.read_faults F.write_faults files.old files.new (result ≡ piece.Ends next.Failed) }
{
    'pieces: loop {
        match piece_at(name, form, *place, buffer, files) {
            Piece::Passed(used) => *place += used as u64,
            piece => return piece,
        }
    }
}

/// Reads what stands at a place of a file.
fn piece_at<F: Files>(
    name: &str,
    form: &mut Form,
    place: u64,
    buffer: &mut [u8],
    files: &mut F,
) -> Piece
    requires near { place ≤ 2 ^ 40 }
    requires room { length buffer.old ≡ room_of form.old }
    ensures found { FindsPiece (F.content files.old name.now) form.old place form.new buffer.new result }
    ensures inside { IsPieceInside place (length buffer.new) result }
    ensures length { length buffer.new ≡ length buffer.old }
    ensures form { room_of form.new ≡ room_of form.old }
    ensures reads { OnlyReads name.now F.content F.read_faults F.write_faults files.old files.new (result ≡ piece.Ends next.Failed) }
{
    match form {
        Form::Classic(header) => classic_piece(name, header, place, buffer, files),
        Form::Blocks(reader) => block_piece(name, reader, place, buffer, files),
    }
}
