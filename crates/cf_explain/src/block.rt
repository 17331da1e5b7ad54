//! Why a block of a pcapng file was refused.

use crate::link::link_name;
use crate::page::Page;
use cf_outside::Files;
use cf_pcap::u32_at;
use cf_records::{BlockRefusal, RecordReader};
use cf_view::View;

/// The type of an enhanced packet block. draft-ietf-opsawg-pcapng, section 4.3.
const ENHANCED_PACKET: u32 = 6;

/// Says why the block at the place of a reader is refused, and what to do.
pub(crate) fn push_refused<F: Files>(
    out: &mut Page,
    reader: &RecordReader,
    file: &str,
    refusal: BlockRefusal,
    files: &mut F,
) {
    match refusal {
        BlockRefusal::Block => out.push(
            ", has a length that is not allowed, another one at its end, or a packet that does not fit it",
        ),
        BlockRefusal::Section => out.push(
            ", begins a section whose byte order is not known, or whose version is not 1",
        ),
        BlockRefusal::Interface => match packet_interface(reader.place(), file, files) {
            Some(number) => push_interface(out, reader, number),
            None => out.push(", describes one interface more than 64, which a section has at most"),
        },
        BlockRefusal::Resolution => out.push(
            ", has a packet of an interface whose unit of time is no power of ten from a second to a nanosecond\n  \
             'editcap -F pcap IN OUT' writes its times in microseconds",
        ),
    }
}

/// Says why packets of an interface are not read.
fn push_interface(out: &mut Page, reader: &RecordReader, number: u32) {
    out.push_number_after(", has a packet of interface ", u64::from(number));
    let Some(interface) = reader.interface(number) else {
        out.push(", which its section does not describe");
        return;
    };
    out.push_number_after(", whose link type is ", u64::from(interface.link));
    out.push_all(&[
        link_name(u32::from(interface.link)),
        "; only 1 (Ethernet) and 101 (raw IP) are read\n  \
         'tshark -r IN -Y \"frame.interface_id == 0\" -w OUT' writes the packets of interface 0",
    ]);
}

/// The number of the interface of the enhanced packet at a place of a file, in the byte order in which its type stands; none where
/// another block stands there.
fn packet_interface<F: Files>(place: u64, file: &str, files: &mut F) -> Option<u32> {
    let mut head = [0u8; 12];
    files.read_at(file, place, &mut head);
    let head = View::one(&head);
    let is_big = u32_at(&head, 0, true) == ENHANCED_PACKET;
    if is_big || u32_at(&head, 0, false) == ENHANCED_PACKET {
        Some(u32_at(&head, 8, is_big))
    } else {
        None
    }
}
