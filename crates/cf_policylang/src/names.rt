//! The names of codes and groups in policies of version 3.
//! They are spent while the text is read, as sets are. A group is read as a number first, and as a name where it is none: no text
//! is both.
ghost use Rattle.std.specs.Prelude.{◌≡◌, option_map};
ghost use Rattle.cf_policylang.specs.Names.{cause_named, code_name, code_named, group_named, is_called, variation_named, variation_of};
ghost use Rattle.cf_policy.specs.declared.policy.Protocol.{Protocol};

use crate::numbers::{octet, split_at_mark};
use cf_policy::Protocol;

/// The name of a code of the protocol: of Modbus and DNP3 what their standards call the function, of IEC 60870-5-104 the
/// identifier of the type. Codes that are not served have none.
pub fn code_name(protocol: Protocol, code: u16) -> Option<&'static str>
    ensures { option_map (λ n. n.now) result ≡ code_name protocol code }
{
    match protocol {
        Protocol::Modbus => modbus_name(code),
        Protocol::Dnp3 => dnp3_name(code),
        Protocol::Iec104 => iec104_name(code),
    }
}

/// MODBUS Application Protocol Specification V1.1b3, section 6.
fn modbus_name(code: u16) -> Option<&'static str>
    ensures { option_map (λ n. n.now) result ≡ code_name Protocol.Modbus code }
{
    Some(match code {
        1 => "read coils",
        2 => "read discrete inputs",
        3 => "read holding registers",
        4 => "read input registers",
        5 => "write single coil",
        6 => "write single register",
        15 => "write multiple coils",
        16 => "write multiple registers",
        22 => "mask write register",
        23 => "read/write multiple registers",
        _ => return None,
    })
}

/// IEEE 1815-2012, section 4.4.
fn dnp3_name(code: u16) -> Option<&'static str>
    ensures { option_map (λ n. n.now) result ≡ code_name Protocol.Dnp3 code }
{
    Some(match code {
        1 => "read",
        2 => "write",
        3 => "select",
        4 => "operate",
        5 => "direct operate",
        6 => "direct operate, no response",
        7 => "immediate freeze",
        8 => "immediate freeze, no response",
        9 => "freeze and clear",
        10 => "freeze and clear, no response",
        13 => "cold restart",
        14 => "warm restart",
        20 => "enable unsolicited responses",
        21 => "disable unsolicited responses",
        22 => "assign class",
        23 => "delay measurement",
        24 => "record current time",
        _ => return None,
    })
}

/// IEC 60870-5-101, section 7.2.1, and IEC 60870-5-104, section 8.
fn iec104_name(code: u16) -> Option<&'static str>
    ensures { option_map (λ n. n.now) result ≡ code_name Protocol.Iec104 code }
{
    Some(match code {
        45 => "C_SC_NA_1",
        46 => "C_DC_NA_1",
        47 => "C_RC_NA_1",
        48 => "C_SE_NA_1",
        49 => "C_SE_NB_1",
        50 => "C_SE_NC_1",
        51 => "C_BO_NA_1",
        58 => "C_SC_TA_1",
        59 => "C_DC_TA_1",
        60 => "C_RC_TA_1",
        61 => "C_SE_TA_1",
        62 => "C_SE_TB_1",
        63 => "C_SE_TC_1",
        64 => "C_BO_TA_1",
        100 => "C_IC_NA_1",
        101 => "C_CI_NA_1",
        102 => "C_RD_NA_1",
        103 => "C_CS_NA_1",
        105 => "C_RP_NA_1",
        107 => "C_TS_TA_1",
        110 => "P_ME_NA_1",
        111 => "P_ME_NB_1",
        112 => "P_ME_NC_1",
        113 => "P_AC_NA_1",
        _ => return None,
    })
}

/// The code of the protocol that has the name: the whole text, in its case.
#[tactic(auto, using(crate::proofs::Called::not_this))]
pub fn code_named(protocol: Protocol, name: &str) -> Option<u16>
    ensures { result ≡ code_named protocol name.now }
{
    for code in 0..256u16 {
        if is_called(protocol, code, name) {
            return Some(code);
        }
    }
    None
}

fn is_called(protocol: Protocol, code: u16, name: &str) -> bool
    ensures { result ≡ is_called protocol code name.now }
{
    match code_name(protocol, code) {
        Some(own) => own == name,
        None => false,
    }
}

/// The group of the protocol that has the name: of DNP3 `gNvM`, an object group and its variation, which is N × 256 + M, of
/// IEC 60870-5-104 a cause of transmission. Modbus has none.
pub fn group_named(protocol: Protocol, name: &str) -> Option<u16>
    ensures { result ≡ group_named protocol name.now }
{
    match protocol {
        Protocol::Modbus => None,
        Protocol::Dnp3 => variation_named(name),
        Protocol::Iec104 => cause_named(name),
    }
}

fn variation_named(name: &str) -> Option<u16>
    ensures { result ≡ variation_named name.now }
{
    let (group, variation) = split_at_mark("v", name.strip_prefix("g")?)?;
    variation_of(group, variation)
}

fn variation_of(group: &str, variation: &str) -> Option<u16>
    ensures { result ≡ variation_of group.now variation.now }
{
    let group = octet(group)?;
    let variation = octet(variation)?;
    Some((group * 256 + variation) as u16)
}

/// IEC 60870-5-101, section 7.2.3.
fn cause_named(name: &str) -> Option<u16>
    ensures { result ≡ cause_named name.now }
{
    match name {
        "request" => Some(5),
        "activation" => Some(6),
        "deactivation" => Some(8),
        _ => None,
    }
}
