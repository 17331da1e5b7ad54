//! What the standards call the commands with a code.
use cf_policy::Protocol;
use cf_policylang::code_name;

/// What the commands of a protocol with a code are called, if it serves the code: its name in a policy, and of
/// IEC 60870-5-104, whose names are identifiers, the words of the standard.
pub(crate) fn code_words(protocol: Protocol, code: u16) -> Option<&'static str> {
    match protocol {
        Protocol::Modbus | Protocol::Dnp3 => code_name(protocol, code),
        Protocol::Iec104 => iec104_words(code),
    }
}

/// IEC 60870-5-101, section 7.3, and IEC 60870-5-104, section 8.
fn iec104_words(code: u16) -> Option<&'static str> {
    Some(match code {
        45 | 58 => "single command",
        46 | 59 => "double command",
        47 | 60 => "regulating step command",
        48 | 61 => "set-point command, normalized value",
        49 | 62 => "set-point command, scaled value",
        50 | 63 => "set-point command, short floating point number",
        51 | 64 => "bitstring of 32 bits",
        100 => "interrogation command",
        101 => "counter interrogation command",
        102 => "read command",
        103 => "clock synchronization command",
        105 => "reset process command",
        107 => "test command",
        110 => "parameter of measured values, normalized value",
        111 => "parameter of measured values, scaled value",
        112 => "parameter of measured values, short floating point number",
        113 => "parameter activation",
        _ => return None,
    })
}
