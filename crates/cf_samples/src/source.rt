//! The source of a row, which stands below its name: the section of a standard, or a rule of this project's own.

/// The standards that rows cite by a section.
const STANDARDS: [&str; 12] = [
    "RFC 791",
    "RFC 1071",
    "RFC 9293",
    "IEEE 802.1Q-2018",
    "IEEE 1815-2012",
    "IEC 60870-5-101",
    "IEC 60870-5-104",
    "Modbus application protocol V1.1b3",
    "Modbus TCP guide V1.0b",
    "draft-ietf-opsawg-pcap",
    "draft-ietf-opsawg-pcapng",
    "draft-ietf-opsawg-pcaplinktype",
];

/// The lines of a row behind its name and its source, which is `# STANDARD, SECTION: WORDS` or `# own: WORDS`; `None` where one of both is
/// not there.
pub fn behind_source(block: &str) -> Option<&str> {
    let (name, below) = block.split_once('\n').unwrap_or((block, ""));
    let (source, lines) = below.split_once('\n').unwrap_or((below, ""));
    let is_row = name.starts_with("row:") && source.strip_prefix("# ").is_some_and(is_source);
    is_row.then_some(lines)
}

/// Whether words stand behind a section of a standard, or behind `own`.
fn is_source(line: &str) -> bool {
    match line.split_once(": ") {
        Some((cited, words)) => !words.is_empty() && (cited == "own" || is_section(cited)),
        None => false,
    }
}

/// Whether this is one of the standards, with a section or an annex.
fn is_section(cited: &str) -> bool {
    match cited.split_once(", ") {
        Some((standard, section)) => {
            STANDARDS.contains(&standard)
                && section.starts_with(|letter: char| letter.is_ascii_digit() || letter == 'A')
        }
        None => false,
    }
}
