//! The two forms of capture files.
//! One that begins with 0A0D0D0A is pcapng; one of fewer than four octets is refused with 1 as either.
ghost use Rattle.std.specs.Prelude.{◌≡◌, Err, true};
ghost use Rattle.cf_pcapng.specs.Block.{is_section};
ghost use Rattle.cf_records.specs.Form.{FormsAs, classic_form, first_place, room_of};

use crate::record_reader::OpenFault;
use cf_pcap::{CAPTURED_LIMIT, Header, HeaderRefusal, read_header};
use cf_pcapng::{BLOCK_LIMIT, BlockSize, REFUSED_SECTION, Reader, is_section};
use cf_view::LinkSet;
use std::alloc::Global;

/// How many octets tell a file's form, and whether it is refused: those of a section header before its options.
pub const FORM_OCTETS: usize = 28;

/// How many octets the header of a classic file has. draft-ietf-opsawg-pcap, section 4.
const HEADER_OCTETS: usize = 24;

/// What a capture file is, and what its octets so far say of the next ones.
#[derive(Drop)]
pub enum Form {
    /// A classic file: one header, and then records.
    Classic(Header),
    /// A pcapng file: sections of blocks.
    Blocks(Reader),
}

/// Why octets begin no capture file that is read. They are tested in this order.
#[derive(Clone, Copy, PartialEq, Eq, Debug)]
pub enum FormRefusal {
    /// There are fewer than 24 octets, or fewer than 28 of a pcapng file.
    Short,
    /// The magic of a classic file is neither A1B2C3D4 nor A1B23C4D, in either byte order.
    Magic,
    /// Its version is not 2.4.
    Version,
    /// Its link type is none of those that are read.
    LinkType,
    /// A pcapng file begins with a section header of another magic, or of another major version than 1.
    Section,
}

/// What file of these link types the octets begin; of one of more than 28, its first 28.
pub fn read_form(alloc: Global, kinds: LinkSet, bytes: &[u8]) -> Result<Form, OpenFault>
    ensures { FormsAs kinds bytes.now result }
{
    if is_section(bytes) {
        read_section(alloc, kinds, bytes)
    } else {
        match read_header(kinds, bytes) {
            Ok(header) => Ok(Form::Classic(header)),
            Err(refusal) => Err(OpenFault::Refused(refusal_of(refusal))),
        }
    }
}

/// What pcapng file these octets begin.
fn read_section(alloc: Global, kinds: LinkSet, bytes: &[u8]) -> Result<Form, OpenFault>
    requires { is_section bytes.now ≡ true }
    ensures { FormsAs kinds bytes.now result }
{
    let Ok(reader) = Reader::new(alloc, kinds) else {
        return Err(OpenFault::NoMemory);
    };
    match reader.block_size(bytes) {
        BlockSize::Need(_) => Err(OpenFault::Refused(FormRefusal::Short)),
        BlockSize::Refused(number) => {
            // Other faults of the first block are found when it is read.
            if number == REFUSED_SECTION {
                Err(OpenFault::Refused(FormRefusal::Section))
            } else {
                Ok(Form::Blocks(reader))
            }
        }
        BlockSize::Size(_) => Ok(Form::Blocks(reader)),
    }
}

/// Why a classic file is refused, as a refusal of either form.
fn refusal_of(refusal: HeaderRefusal) -> FormRefusal
    ensures { classic_form (Err refusal) ≡ Err result }
{
    match refusal {
        HeaderRefusal::Short => FormRefusal::Short,
        HeaderRefusal::Magic => FormRefusal::Magic,
        HeaderRefusal::Version => FormRefusal::Version,
        HeaderRefusal::LinkType => FormRefusal::LinkType,
    }
}

/// Where the first record or block of a file stands.
pub fn first_place(form: &Form) -> u64
    ensures { result ≡ first_place form.now }
{
    match form {
        Form::Classic(_) => HEADER_OCTETS as u64,
        Form::Blocks(_) => 0,
    }
}

/// How many octets a record or a block has at most.
pub fn room(form: &Form) -> usize
    ensures { result ≡ room_of form.now }
{
    match form {
        Form::Classic(_) => 16 + CAPTURED_LIMIT as usize,
        Form::Blocks(_) => BLOCK_LIMIT as usize,
    }
}
