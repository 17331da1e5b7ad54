//! Blocks of pcapng files.

use crate::captures::link_word;
use crate::sheet::{Sheet, call_in, parted};
use cf_pcapng::{BlockAnswer, BlockSize, Reader, is_section};
use cf_view::LinkSet;

/// Plays lines over a reader, anew from each `new` on. `section` is whether octets begin as a pcapng file; `new` and `next` the block that they
/// begin; `size` its length; `all` how many octets are left after the blocks there that are passed over; `interface` what is described of
/// the interface of that number.
pub fn play(sheet: &mut Sheet, lines: &str) {
    let Ok(mut reader) = Reader::new(sheet.alloc(), LinkSet::Plain) else {
        return sheet.refuse("memory ran out");
    };
    for line in lines.lines() {
        let (given, _) = call_in(line);
        let (call, spelled) = parted(given);
        if call == "new" {
            let Ok(new) = Reader::new(sheet.alloc(), LinkSet::Plain) else {
                return sheet.refuse("memory ran out");
            };
            reader = new;
        }
        let octets = sheet.octets(spelled);
        tell(sheet, &mut reader, call, octets.as_slice());
        sheet.see(line);
    }
}

fn tell(sheet: &mut Sheet, reader: &mut Reader, call: &str, octets: &[u8]) {
    match call {
        "section" => sheet.put(if is_section(octets) { "yes" } else { "no" }),
        "size" => put_size(sheet, reader.block_size(octets)),
        "all" => sheet.put_number("left ", left(reader, octets) as u64),
        "interface" => {
            let number = octets.first().copied().unwrap_or(0);
            match reader.interface(u32::from(number)) {
                None => sheet.put("none"),
                Some(described) => {
                    sheet.put_number("link ", u64::from(described.link));
                    sheet.put_number(" unit ", u64::from(described.resolution));
                }
            }
        }
        "new" | "next" => put_block(sheet, reader.next_block(octets)),
        _ => sheet.put("no call of that name"),
    }
}

fn put_block(sheet: &mut Sheet, answer: BlockAnswer<'_>) {
    match answer {
        BlockAnswer::Record {
            stamp,
            link,
            body,
            used,
        } => {
            sheet.put_number("record ", stamp);
            sheet.put(" ");
            sheet.put(link_word(&link));
            sheet.put_number(" ", used as u64);
            sheet.put(" [");
            sheet.put_octets(body);
            sheet.put("]");
        }
        BlockAnswer::Passed(used) => sheet.put_number("passed ", used as u64),
        BlockAnswer::Need(count) => sheet.put_number("need ", count as u64),
        BlockAnswer::Refused(number) => sheet.put_number("refused ", u64::from(number)),
    }
}

fn put_size(sheet: &mut Sheet, size: BlockSize) {
    match size {
        BlockSize::Size(used) => sheet.put_number("size ", used as u64),
        BlockSize::Need(count) => sheet.put_number("need ", count as u64),
        BlockSize::Refused(number) => sheet.put_number("refused ", u64::from(number)),
    }
}

/// How many octets are left after the blocks that follow each other in these and are passed over.
fn left(reader: &mut Reader, octets: &[u8]) -> usize {
    let mut rest = octets;
    for _ in 0..octets.len() {
        let BlockAnswer::Passed(used) = reader.next_block(rest) else {
            break;
        };
        rest = rest.get(used..).unwrap_or(b"");
    }
    rest.len()
}
