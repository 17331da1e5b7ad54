//! The units that rows name: what reads their lines, or plays them one after the other.

use crate::parts::tell_parted;
use crate::sheet::{Sheet, call_in};
use crate::{
    blocks, captures, desks, files, frames, numbers, packets, pairs, printed, queues, segments,
    stations, windows,
};

/// Plays the lines of a row: those of an object one after the other over a new one, each of the others by itself.
pub fn tell_each(sheet: &mut Sheet, unit: &str, lines: &str) {
    match unit {
        "numbers" => numbers::play(sheet, lines),
        "packet" => packets::play(sheet, lines),
        "block" => blocks::play(sheet, lines),
        "files" => files::play(sheet, lines),
        "sink" => desks::play_sink(sheet, lines),
        "desk" => desks::play_desk(sheet, lines),
        "pair" => pairs::play(sheet, lines),
        "queue" => queues::play(sheet, lines),
        "window" => windows::play(sheet, lines),
        _ => {
            for line in lines.lines() {
                let (given, _) = call_in(line);
                tell(sheet, unit, given);
                sheet.see(line);
            }
        }
    }
}

/// What comes of a line by itself.
fn tell(sheet: &mut Sheet, unit: &str, given: &str) {
    match unit {
        "APDU written" => stations::tell_written(sheet, given),
        "link frame written" => frames::tell_written(sheet, given),
        "link frame known" => frames::tell_known(sheet, given),
        "segments" => segments::tell(sheet, given),
        "first octets of segments" => segments::tell_first_octets(sheet, given),
        "view" => printed::tell_view(sheet, given),
        "octets put" => printed::tell_put(sheet, given),
        "text put" => printed::tell_printed(sheet, given),
        "packet read" => packets::tell_whole(sheet, given),
        "packet written" => packets::tell_written(sheet, given),
        "position" => packets::tell_position(sheet, given),
        "sequence number" => packets::tell_sequence_number(sheet, given),
        "capture header" => captures::tell_header(sheet, given),
        "record" => captures::tell_record(sheet, given),
        "record written" => captures::tell_written(sheet, given),
        "line desk" => desks::tell_line_desk(sheet, given),
        _ => tell_parted(sheet, unit, given),
    }
}
