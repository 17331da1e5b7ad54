//! Link types of captures that are not read.

/// The name of a link type that is not read, in brackets, where it has one here. draft-ietf-opsawg-pcaplinktype, section 2.
pub(crate) fn link_name(link: u32) -> &'static str {
    match link {
        0 => " (BSD loopback)",
        105 => " (802.11)",
        113 | 276 => " (Linux cooked, that of '-i any')",
        127 => " (802.11 with radiotap)",
        228 => " (raw IPv4)",
        229 => " (raw IPv6)",
        _ => {
            if has_check_sequence(link) {
                " (Ethernet with a frame check sequence)"
            } else {
                ""
            }
        }
    }
}

/// What to do with a capture of a link type that is not read.
pub(crate) fn link_hint(link: u32) -> &'static str {
    if link == 228 {
        return "\n  'editcap -F pcap -T rawip IN OUT' writes it as raw IP";
    }
    if has_check_sequence(link) {
        return "\n  'editcap -F pcap -T ether IN OUT' writes it as Ethernet";
    }
    if link == 113 || link == 276 {
        return "\n  'cmdwall review' reads it; for others capture on one interface, as 'tcpdump -i eth0 -w OUT'";
    }
    "\n  capture on one interface, as 'tcpdump -i eth0 -w OUT'"
}

/// Whether the link type of a classic file's header is Ethernet with more in its upper half: the length of a frame check sequence.
/// draft-ietf-opsawg-pcap, section 4.
fn has_check_sequence(link: u32) -> bool {
    link > 65_535 && link % 65_536 == 1
}
