//! What is allowed at a key.
use crate::naming::Scope;
use crate::nearest::row_of;
use crate::unknown::Level;
use cf_policy::Protocol;
use cf_policylang::Key;
use toml::{Table, Value};

/// What is allowed at keys, as a policy's text writes it. Ranges stand as `docs/POLICY.md` has them.
const ALLOWED: &str = "\
version write version = 1 above the first table, version = 2 where rules name sets of points, or version = 3 where rules have a log or names of codes and groups, or assets one address and port
set each set of points is a table [[set]] with a name and points, at most 64
asset each controller is a table [[asset]], at most 256; a policy of none has asset = []
name a name has 1 to 32 of the letters a to z, the digits, _ and -, as name = \"pump\"
address an address is four numbers from 0 to 255, without leading zeros, as address = \"10.0.0.9\"
port a port is a whole number from 1 to 65535, as port = 502
protocol a protocol is \"modbus\", \"dnp3\" or \"iec104\"
master a DNP3 asset has its master's link address, 0 to 65519, as master = 1
rule each rule is a table [[asset.rule]] below its [[asset]], at most 1024 of an asset
action an action is \"allow\" or \"refuse\"
clients clients are 1 to 64 addresses or ranges, as clients = [\"10.0.0.5\", \"10.0.0.8..10.0.0.9\"]
points points are 1 to 64 numbers or ranges from 0 to 4294967295, as points = [\"7\", \"40..49\"]
most a rule that allows may have a rate, most 1 to 64 in seconds 1 to 86400, as most = 2 and seconds = 60; at most 16 rules
seconds the time of a rate is 1 to 86400 seconds, as seconds = 60, beside most = 2
log a rule that allows may have log = true, by which each command that it lets through has a line in the log
values values are 1 to 64 numbers or ranges from -2147483648 to 4294967295, as values = [\"-5..5\"]";

/// What is allowed at a key.
pub(crate) fn allowed(key: Key, scope: &Scope, table: &Table) -> &'static str {
    match key {
        Key::Station => station(table),
        Key::Codes => codes(scope),
        Key::Groups => groups(scope),
        _ => row_of(ALLOWED, key.as_str()).unwrap_or("keys are in docs/POLICY.md"),
    }
}

/// What has to differ at a key, or to be the same.
pub(crate) fn apart(key: Key, level: Level, scope: &Scope) -> &'static str {
    match (key, level) {
        (Key::Port | Key::Protocol | Key::Station, _) => at_endpoint(scope),
        (_, Level::Set) => "no two sets have the same name",
        (_, Level::Rule) =>
            "no two rules of an asset have the same name, and none has the name default, station or form",
        _ => "no two assets have the same name",
    }
}

/// What assets with one address and port have to keep.
fn at_endpoint(scope: &Scope) -> &'static str {
    if scope.shares_endpoints {
        "assets with the same address and port stand one behind the other, with one protocol and stations that differ"
    } else {
        "no two assets have the same address and port; in version 3 those of a gateway may, each with a station of its own"
    }
}

/// The codes of a rule, with names where its version reads them.
fn codes(scope: &Scope) -> &'static str {
    match (scope.names_codes, scope.protocol) {
        (true, Some(Protocol::Modbus)) => {
            "codes are 1 to 64 whole numbers from 0 to 255 or names of functions, as codes = [3, \"write single register\"]"
        }
        (true, Some(Protocol::Dnp3)) => {
            "codes are 1 to 64 whole numbers from 0 to 255 or names of functions, as codes = [1, \"direct operate\"]"
        }
        (true, Some(Protocol::Iec104)) => {
            "codes are 1 to 64 whole numbers from 0 to 255 or names of types, as codes = [100, \"C_SC_NA_1\"]"
        }
        _ => "codes are 1 to 64 whole numbers from 0 to 255, as codes = [3, 16]",
    }
}

/// The groups of a rule, with names where its version reads them.
fn groups(scope: &Scope) -> &'static str {
    match (scope.names_codes, scope.protocol) {
        (true, Some(Protocol::Dnp3)) => {
            "groups are 1 to 64 numbers or ranges from 0 to 65535 or names, as groups = [\"3073\", \"g60v1..g60v4\"]"
        }
        (true, Some(Protocol::Iec104)) => {
            "groups are 1 to 64 numbers or ranges from 0 to 65535 or names, as groups = [\"6\", \"deactivation\"]"
        }
        _ => "groups are 1 to 64 numbers or ranges from 0 to 65535, as groups = [\"1\", \"3..5\"]",
    }
}

/// The stations of an asset's protocol.
fn station(table: &Table) -> &'static str {
    match table.get("protocol") {
        Some(Value::String(protocol)) => match protocol.as_str() {
            "modbus" => "the station of Modbus is its unit identifier, 0 to 255, as station = 1",
            "dnp3" =>
                "the station of DNP3 is the outstation's link address, 0 to 65519, as station = 10",
            _ => "the station of IEC 60870-5-104 is its common address, 1 to 65534, as station = 1",
        },
        _ => "a station is a whole number, as station = 1",
    }
}
