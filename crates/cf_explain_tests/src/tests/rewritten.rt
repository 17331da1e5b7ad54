//! Policies as they are written anew: by hand from what a document of version 2 is said to have, in the layout of `toml`.
use crate::tests::changes::policy_octets;
use cf_policylang::{migrated_text, read_policy};
use std::alloc::Global;
use std::test::Fail;

/// A policy with a word before each line that the rows replace.
const LINES: &str = r#"version: version = 1
: [[asset]]
: name = "pump"
: address = "10.0.0.9"
: port = 502
protocol: protocol = "modbus"
: station = 1
master:
: [[asset.rule]]
: name = "poll"
: action = "allow"
: codes = [3]
poll:
: [[asset.rule]]
: name = "set"
: action = "allow"
: codes = [6, 16]
points: points = ["40..49"]
values: values = ["0..500"]
last:"#;

/// A row: the changes of the policy, `-` for none, and the text that it is written as, with ` / ` for a line end and ` | ` for one
/// before an empty line. A line that begins with four spaces goes on with the one before it.
pub(super) const ROWS: &str = r#"- => version = 2
    | [[asset]] / address = "10.0.0.9" / name = "pump" / port = 502 / protocol = "modbus" / station = 1
    | [[asset.rule]] / action = "allow" / codes = [3] / name = "poll"
    | [[asset.rule]] / action = "allow" / codes = [6, 16] / name = "set" / points = ["40..49"] / values = ["0..500"]
text: version = 1 / asset = [] => asset = [] / version = 2
version: version = 3 | protocol: protocol = "iec104" | last: [[asset.rule]] / name = "switch" / action = "allow" / codes =
    ["C_SC_NA_1", 46] / groups = ["activation", "request..8"] => version = 2
    | [[asset]] / address = "10.0.0.9" / name = "pump" / port = 502 / protocol = "iec104" / station = 1
    | [[asset.rule]] / action = "allow" / codes = [3] / name = "poll"
    | [[asset.rule]] / action = "allow" / codes = [6, 16] / name = "set" / points = ["40..49"] / values = ["0..500"]
    | [[asset.rule]] / action = "allow" / codes = [45, 46] / groups = ["6", "5..8"] / name = "switch"
version: version = 3 | protocol: protocol = "iec104" | last: [[asset.rule]] / name = "switch" / action = "allow" / codes =
    ["C_SC_NA_1", 46] / groups = ["activation", "request..8"] / log = true => version = 3
    | [[asset]] / address = "10.0.0.9" / name = "pump" / port = 502 / protocol = "iec104" / station = 1
    | [[asset.rule]] / action = "allow" / codes = [3] / name = "poll"
    | [[asset.rule]] / action = "allow" / codes = [6, 16] / name = "set" / points = ["40..49"] / values = ["0..500"]
    | [[asset.rule]] / action = "allow" / codes = [45, 46] / groups = ["6", "5..8"] / log = true / name = "switch"
version: version = 3 | last: [[asset]] / name = "valve" / address = "10.0.0.9" / port = 502 / protocol = "modbus" / station = 0
    => version = 3
    | [[asset]] / address = "10.0.0.9" / name = "pump" / port = 502 / protocol = "modbus" / station = 1
    | [[asset.rule]] / action = "allow" / codes = [3] / name = "poll"
    | [[asset.rule]] / action = "allow" / codes = [6, 16] / name = "set" / points = ["40..49"] / values = ["0..500"]
    | [[asset]] / address = "10.0.0.9" / name = "valve" / port = 502 / protocol = "modbus" / station = 0
version: version = 3 | last: [[asset]] / name = "valve" / address = "10.0.0.9" / port = 503 / protocol = "modbus" / station = 1
    => version = 2
    | [[asset]] / address = "10.0.0.9" / name = "pump" / port = 502 / protocol = "modbus" / station = 1
    | [[asset.rule]] / action = "allow" / codes = [3] / name = "poll"
    | [[asset.rule]] / action = "allow" / codes = [6, 16] / name = "set" / points = ["40..49"] / values = ["0..500"]
    | [[asset]] / address = "10.0.0.9" / name = "valve" / port = 503 / protocol = "modbus" / station = 1
poll: points = ["40..49"] => version = 2
    | [[asset]] / address = "10.0.0.9" / name = "pump" / port = 502 / protocol = "modbus" / station = 1
    | [[asset.rule]] / action = "allow" / codes = [3] / name = "poll" / points = ["@set1"]
    | [[asset.rule]] / action = "allow" / codes = [6, 16] / name = "set" / points = ["@set1"] / values = ["0..500"]
    | [[set]] / name = "set1" / points = ["40..49"]
poll: points = ["7..7", "8..9", "4294967295"] / clients = ["10.0.0.5..10.0.0.5", "0.0.0.0..255.255.255.255"] | points: groups
    = ["0..65535"] | values: values = ["-2147483648..4294967295", "-7", "-9..-8"] => version = 2
    | [[asset]] / address = "10.0.0.9" / name = "pump" / port = 502 / protocol = "modbus" / station = 1
    | [[asset.rule]] / action = "allow" / clients = ["10.0.0.5", "0.0.0.0..255.255.255.255"] / codes = [3] / name = "poll" / points =
    ["7", "8..9", "4294967295"]
    | [[asset.rule]] / action = "allow" / codes = [6, 16] / groups = ["0..65535"] / name = "set" / values =
    ["-2147483648..4294967295", "-7", "-9..-8"]
protocol: protocol = "dnp3" | master: master = 65519 | values: most = 64 / seconds = 86400 | last: [[asset.rule]] / name = "no"
    / action = "refuse" / codes = [0] / points = ["40..49"] => version = 2
    | [[asset]] / address = "10.0.0.9" / master = 65519 / name = "pump" / port = 502 / protocol = "dnp3" / station = 1
    | [[asset.rule]] / action = "allow" / codes = [3] / name = "poll"
    | [[asset.rule]] / action = "allow" / codes = [6, 16] / most = 64 / name = "set" / points = ["@set1"] / seconds = 86400
    | [[asset.rule]] / action = "refuse" / codes = [0] / name = "no" / points = ["@set1"]
    | [[set]] / name = "set1" / points = ["40..49"]
poll: points = ["1", "2"] | points: points = ["2", "1"] | values: | last: [[asset]] / name = "valve" / address = "10.0.0.9" / port
    = 2404 / protocol = "iec104" / station = 65534 / [[asset.rule]] / name = "a" / action = "allow" / codes = [45] / points = ["1",
    "2..2"] / [[asset.rule]] / name = "b" / action = "allow" / codes = [46] / points = ["1..2"] => version = 2
    | [[asset]] / address = "10.0.0.9" / name = "pump" / port = 502 / protocol = "modbus" / station = 1
    | [[asset.rule]] / action = "allow" / codes = [3] / name = "poll" / points = ["@set1"]
    | [[asset.rule]] / action = "allow" / codes = [6, 16] / name = "set" / points = ["2", "1"]
    | [[asset]] / address = "10.0.0.9" / name = "valve" / port = 2404 / protocol = "iec104" / station = 65534
    | [[asset.rule]] / action = "allow" / codes = [45] / name = "a" / points = ["@set1"]
    | [[asset.rule]] / action = "allow" / codes = [46] / name = "b" / points = ["1..2"]
    | [[set]] / name = "set1" / points = ["1", "2"]
version: version = 2 / set = [{ name = "low", points = ["9"] }, { name = "one", points = ["5"] }, { name = "none", points = ["6"] }] |
    poll: points = ["@one"] | points: points = ["@low"] | values: | last: [[asset.rule]] / name = "c" / action = "allow" / codes =
    [5] / points = ["@low", "@one"] / [[asset.rule]] / name = "d" / action = "allow" / codes = [4] / points = ["9", "5"] /
    [[asset.rule]] / name = "e" / action = "allow" / codes = [2] / points = ["9"] => version = 2
    | [[asset]] / address = "10.0.0.9" / name = "pump" / port = 502 / protocol = "modbus" / station = 1
    | [[asset.rule]] / action = "allow" / codes = [3] / name = "poll" / points = ["5"]
    | [[asset.rule]] / action = "allow" / codes = [6, 16] / name = "set" / points = ["@set1"]
    | [[asset.rule]] / action = "allow" / codes = [5] / name = "c" / points = ["@set2"]
    | [[asset.rule]] / action = "allow" / codes = [4] / name = "d" / points = ["@set2"]
    | [[asset.rule]] / action = "allow" / codes = [2] / name = "e" / points = ["@set1"]
    | [[set]] / name = "set1" / points = ["9"] | [[set]] / name = "set2" / points = ["9", "5"]"#;

/// The text that a policy is written as, which is the text that its own meaning is written as.
pub(super) fn rewritten(alloc: Global, changes: &str) -> Result<String, Fail> {
    let octets = policy_octets(alloc, LINES, changes)?;
    let text = anew(alloc, octets.as_slice())?;
    let again = anew(alloc, text.as_bytes())?;
    if again.as_str() != text.as_str() {
        return Ok(again);
    }
    let lines = text.strip_suffix("\n").unwrap_or("no line end");
    Ok(
        lines
            .replace(alloc, "\n\n", " | ")?
            .replace(alloc, "\n", " / ")?,
    )
}

/// What the policy that octets mean is written as.
fn anew(alloc: Global, octets: &[u8]) -> Result<String, Fail> {
    let policy = read_policy(alloc, octets)?;
    match migrated_text(alloc, &policy) {
        Ok(text) => Ok(text),
        Err(_) => Err("no memory".into()),
    }
}
