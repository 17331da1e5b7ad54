//! Warnings about rules.
use crate::tests::changes::policy_octets;
use cf_explain::policy_warnings;
use cf_policylang::read_policy;
use std::alloc::Global;
use std::test::Fail;

/// A policy of one asset, with a word before each line that the rows replace.
const LINES: &str = r#"version: version = 1
: [[asset]]
: name = "x"
: address = "10.0.0.9"
: port = 1
: station = 1
protocol: protocol = "modbus"
: [[asset.rule]]
: name = "a"
action: action = "allow"
lists:
more:"#;

/// A row: the protocol, the lists of rule 1 and what stands after it, and then each warning and a point.
pub(super) const ROWS: &str = r#"lists: codes = [99]
p:8:1: warning: asset 1 "x", rule 1 "a": no command meets it: code 99 is not served; codes of Modbus are 1 to 6, 15, 16, 22 and 23
.

lists: codes = [3, 99]
p:8:1: warning: asset 1 "x", rule 1 "a": no command with code 99 meets it: code 99 is not served; codes of Modbus are 1 to 6, 15, 16, 22
    and 23
.

lists: codes = [3] / values = ["0..5"]
p:8:1: warning: asset 1 "x", rule 1 "a": no command meets it: code 3 has no value there, and the rule states values
.

lists: codes = [3, 6] / values = ["0..5"]
p:8:1: warning: asset 1 "x", rule 1 "a": no command with code 3 meets it: code 3 has no value there, and the rule states values
.

lists: codes = [6] / points = ["65536..70000"]
p:8:1: warning: asset 1 "x", rule 1 "a": no command meets it: code 6 has no points but 0 to 65535
.

lists: codes = [6] / groups = ["1"]
p:8:1: warning: asset 1 "x", rule 1 "a": no command meets it: code 6 has no groups but 0
.

lists: codes = [5] / values = ["2..65280"]
p:8:1: warning: asset 1 "x", rule 1 "a": no command meets it: code 5 has no values but 0 to 1
.

lists: codes = [23] / values = ["0..9"]
p:8:1: warning: asset 1 "x", rule 1 "a": the reads of code 23 have no value, so a rule that states values has none of
    them
.

lists: codes = [23] / groups = ["1"] / values = ["0..9"]
.

action: action = "allow" | lists: codes = [6] / points = ["4"] | more: [[asset.rule]] / name = "b" / action = "refuse" / codes = [6] /
    [[asset.rule]] / name = "c" / action = "allow" / codes = [6] / points = ["0..9"]
p:17:1: warning: asset 1 "x", rule 3 "c": it decides nothing: rule 2 "b" stands before it and refuses all that it has, but for what
    still earlier rules decide
.

lists: codes = [6] / most = 1 / seconds = 9 | more: [[asset.rule]] / name = "b" / action = "allow" / codes = [6] / points = ["4"]
p:14:1: warning: asset 1 "x", rule 2 "b": it decides nothing: rule 1 "a" stands before it and has all that it has, also while its rate
    is spent
.

lists: codes = [5] / points = ["0..4"] / most = 1 / seconds = 9 | more: [[asset.rule]] / name = "b" / action = "allow" / codes = [5] /
    points = ["5..9"] / [[asset.rule]] / name = "c" / action = "refuse" / codes = [5] / points = ["3..8"]
p:20:1: warning: asset 1 "x", rule 3 "c" never refuses anything: the rules before it together allow all that it names, as often as
    their rates let
.

lists: codes = [6] | more: [[asset.rule]] / name = "b" / action = "refuse" / codes = [6] / points = ["4"]
p:12:1: warning: asset 1 "x", rule 2 "b" never refuses anything: rule 1 "a" before it allows all that it names
.

action: action="refuse" | lists:codes=[6] / points=["0..9"] | more: [[asset.rule]] / name="b" / action="allow" / codes=[6] / points=["4..5"]
p:13:1: warning: asset 1 "x", rule 2 "b": it decides nothing: rule 1 "a" stands before it and refuses all that it would allow
.

lists: codes = [6] | more: [[asset.rule]] / name = "b" / action = "allow" / codes = [6] / most = 1 / seconds = 1
p:12:1: warning: asset 1 "x", rule 2 "b": it decides nothing: rule 1 "a" stands before it and has all that it has, so its rate
    bounds nothing
.

lists: codes = [3] / clients = ["10.0.0.5"] | more: [[asset.rule]] / name = "b" / action = "allow" / codes = [3]
.

lists: codes = [3, 4] | more: [[asset.rule]] / name = "b" / action = "allow" / codes = [3] / values = ["1"]
p:12:1: warning: asset 1 "x", rule 2 "b": no command meets it: code 3 has no value there, and the rule states values
.

protocol: protocol = "dnp3" / master = 1 | lists: codes = [1] / points = ["5"]
p:9:1: warning: asset 1 "x", rule 1 "a": no command meets it: code 1 has no points but 0
.

protocol: protocol = "dnp3" / master = 1 | lists: codes = [2] / groups = ["15361"]
p:9:1: warning: asset 1 "x", rule 1 "a": no command meets it: code 2 has no groups but 12801, 12803, 20481
.

protocol: protocol = "dnp3" / master = 1 | lists: codes = [3, 4] / groups = ["10499"] / values = ["1"]
p:9:1: warning: asset 1 "x", rule 1 "a": no command meets it: code 3 has no value there, and the rule states values
.

protocol: protocol = "dnp3" / master = 1 | lists: codes = [5] / groups = ["3073"] / values = ["256..300"]
p:9:1: warning: asset 1 "x", rule 1 "a": no command meets it: code 5 has no values but 0 to 255
.

protocol: protocol = "dnp3" / master = 1 | lists: codes = [30]
p:9:1: warning: asset 1 "x", rule 1 "a": no command meets it: code 30 is not served; codes of DNP3 are 1 to 10, 13, 14 and 20 to 24
.

protocol: protocol = "iec104" | lists: codes = [45] / groups = ["7"]
p:8:1: warning: asset 1 "x", rule 1 "a": no command meets it: code 45 has no groups but 5, 6, 8
.

protocol: protocol = "iec104" | lists: codes = [45] / values = ["2"]
p:8:1: warning: asset 1 "x", rule 1 "a": no command meets it: code 45 has no values but 0 to 1
.

protocol: protocol = "iec104" | lists: codes = [50] / values = ["2"]
p:8:1: warning: asset 1 "x", rule 1 "a": no command meets it: code 50 has no value there, and the rule states values
.

protocol: protocol = "iec104" | lists: codes = [1, 100] / groups = ["6"]
p:8:1: warning: asset 1 "x", rule 1 "a": no command with code 1 meets it: code 1 is not served; codes of IEC 60870-5-104 are 45 to 51,
    58 to 64, 100 to 103, 105, 107 and 110 to 113
.

version: version = 2 / [[set]] / name = "low" / points = ["1"] | lists: codes = [6] / points = ["@low"]
p: note: 1 set of points
.

version: version = 2 / [[set]] / name = "low" / points = ["1"] | lists: codes = [6]
p: note: 1 set of points
p:2:1: warning: set 1 "low": no rule names it
.

version: version = 2 / [[set]] / name = "a" / points = ["1", "4..5"] / [[set]] / name = "b" / points = ["1..1", "4..5"] |
    lists: codes = [6] / points = ["@b", "@a"]
p: note: 2 sets of points
p:5:1: warning: set 2 "b": it has the points of set 1 "a"
.

version: version = 2 / [[set]] / name = "a" / points = ["1", "4"] / [[set]] / name = "b" / points = ["4", "1"] |
    lists: codes = [6] / points = ["@b", "@a"]
p: note: 2 sets of points
.

version: version = 2 / [[set]] / name = "a" / points = ["7"] / [[set]] / name = "b" / points = ["7"] / [[set]] / name = "c" /
    points = ["7"] | lists: codes = [99] / points = ["@c"]
p: note: 3 sets of points
p:2:1: warning: set 1 "a": no rule names it
p:5:1: warning: set 2 "b": no rule names it
p:5:1: warning: set 2 "b": it has the points of set 1 "a"
p:8:1: warning: set 3 "c": it has the points of set 1 "a"
p:17:1: warning: asset 1 "x", rule 1 "a": no command meets it: code 99 is not served; codes of Modbus are 1 to 6, 15, 16, 22 and 23
.

lists: codes = [5] / points = ["3"] / values = ["0..1"] | more: [[asset.rule]] / name = "b" / action = "refuse" / codes = [5] / points = ["3"]
p:14:1: warning: asset 1 "x", rule 2 "b" never refuses anything: rule 1 "a" before it allows all that it names
.

lists: codes = [5] / points = ["3"] / values = ["0"] | more: [[asset.rule]] / name = "b" / action = "refuse" / codes = [5] / points = ["3"]
.

lists: clients = ["0.0.0.0..255.255.255.255"] / codes = [5] / groups = ["0"] / points = ["0..65535"] | more: [[asset.rule]] /
    name = "b" / action = "refuse" / codes = [5]
p:15:1: warning: asset 1 "x", rule 2 "b" never refuses anything: rule 1 "a" before it allows all that it names
.

lists: clients = ["0.0.0.0..255.255.255.254"] / codes = [5] | more: [[asset.rule]] / name = "b" / action = "refuse" / codes = [5]
.

protocol: protocol = "iec104" | lists: codes = [45] / groups = ["5", "6", "8"] | more: [[asset.rule]] / name = "b" / action = "refuse" / codes = [45]
p:13:1: warning: asset 1 "x", rule 2 "b" never refuses anything: rule 1 "a" before it allows all that it names
.

lists: codes = [5] / points = ["0..4", "5..9"] | more: [[asset.rule]] / name = "b" / action = "refuse" / codes = [5] / points = ["0..9"]
p:13:1: warning: asset 1 "x", rule 2 "b" never refuses anything: rule 1 "a" before it allows all that it names
.

lists: codes = [5] / points = ["0..4", "6..9"] | more: [[asset.rule]] / name = "b" / action = "refuse" / codes = [5] / points = ["0..9"]
.

lists: codes = [5] / points = ["0..4"] | more: [[asset.rule]] / name = "b" / action = "allow" / codes = [5] / points = ["5..9"] /
    [[asset.rule]] / name = "c" / action = "refuse" / codes = [5] / points = ["3..8"]
p:18:1: warning: asset 1 "x", rule 3 "c" never refuses anything: the rules before it together allow all that it names
.

lists: codes = [5] / points = ["0..4"] | more: [[asset.rule]] / name = "b" / action = "refuse" / codes = [5] /
    points = ["5..9"] / [[asset.rule]] / name = "c" / action = "refuse" / codes = [5] / points = ["3..8"]
p:18:1: warning: asset 1 "x", rule 3 "c" never refuses anything: the rules before it together decide all that it names, and not all
    of them refuse
.

action: action = "refuse" | lists: codes = [5] / points = ["5"] | more: [[asset.rule]] / name = "b" / action = "allow" /
    codes = [5] / points = ["0..9"] / [[asset.rule]] / name = "c" / action = "refuse" / codes = [5] / points = ["3..8"]
p:18:1: warning: asset 1 "x", rule 3 "c" never refuses anything: rule 2 "b" before it allows all that it names, but for what still
    earlier rules refuse
.

lists: codes = [5] / values = ["0"] | more: [[asset.rule]] / name = "b" / action = "allow" / codes = [5] / values = ["1"] /
    [[asset.rule]] / name = "c" / action = "allow" / codes = [5] / most = 1 / seconds = 1
p:18:1: warning: asset 1 "x", rule 3 "c": it decides nothing: the rules before it together have all that it has, so its rate bounds
    nothing
.

lists: codes = [5] / most = 1 / seconds = 1 | more: [[asset.rule]] / name = "b" / action = "refuse" / codes = [5] / points = ["4"]
p:14:1: warning: asset 1 "x", rule 2 "b" never refuses anything: rule 1 "a" before it allows all that it names, as often as its
    rate lets
.

lists: codes = [5] | more: [[asset.rule]] / name = "b" / action = "refuse" / codes = [5, 99]
p:12:1: warning: asset 1 "x", rule 2 "b" never refuses anything: rule 1 "a" before it allows all that it names
p:12:1: warning: asset 1 "x", rule 2 "b": no command with code 99 meets it: code 99 is not served; codes of Modbus are 1 to 6, 15, 16, 22
    and 23
.

lists: codes = [99] | more: [[asset.rule]] / name = "b" / action = "allow" / codes = [5] / [[asset.rule]] / name = "c" /
    action = "refuse" / codes = [5] / points = ["1"]
p:16:1: warning: asset 1 "x", rule 3 "c" never refuses anything: rule 2 "b" before it allows all that it names
p:8:1: warning: asset 1 "x", rule 1 "a": no command meets it: code 99 is not served; codes of Modbus are 1 to 6, 15, 16, 22 and 23
.

protocol: protocol = "dnp3" / master = 1 | lists: codes = [1] / points = ["0..9"]
p:9:1: warning: asset 1 "x", rule 1 "a": points 1 to 9 never come with code 1: its point is always 0
.

protocol: protocol = "dnp3" / master = 1 | lists: codes = [3, 20] / points = ["7", "0..2", "5"]
p:9:1: warning: asset 1 "x", rule 1 "a": points 7, 1 to 2, 5 never come with code 20: its point is always 0
.

lists: codes = [3] / points = ["65000..70000"]
p:8:1: warning: asset 1 "x", rule 1 "a": points 65536 to 70000 never come with code 3: its points are 0 to 65535
.

protocol: protocol = "dnp3" / master = 1 | lists: codes = [1] / groups = ["60"]
p:9:1: warning: asset 1 "x", rule 1 "a": likely a slip: group 60 is object group 0 with variation 60; object group 60 with variation
    1 is 15361
.

protocol: protocol = "dnp3" / master = 1 | lists: codes = [1] / groups = ["196..255", "256"]
.

lists: codes = [6] / points = ["40041..40050"]
p:8:1: warning: asset 1 "x", rule 1 "a": likely a slip: points count from 0, and a manual that numbers registers from 40001 means
    point 40 by 40041
.

lists: codes = [4] / points = ["30001"]
p:8:1: warning: asset 1 "x", rule 1 "a": likely a slip: points count from 0, and a manual that numbers registers from 30001 means
    point 0 by 30001
.

lists: codes = [5] / points = ["40041"]
.

lists: codes = [3] / points = ["70000..70001", "0", "70000..70001", "70005"]
p:8:1: warning: asset 1 "x", rule 1 "a": points 70000 to 70001, 70005 never come with code 3: its points are 0 to 65535
.

lists: codes = [3] / points = ["65000..70000", "65536..70000"]
p:8:1: warning: asset 1 "x", rule 1 "a": points 65536 to 70000 never come with code 3: its points are 0 to 65535
.

action: action = "refuse" | lists: codes = [3]
p:2:1: warning: asset 1 "x" has no rule that allows: each command is refused, and serve closes each client as it comes
.

version: version = 3 | action: action = "refuse" | lists: codes = [3] | more: [[asset]] / name = "y" / address = "10.0.0.9" / port = 1 /
    protocol = "modbus" / station = 2 / [[asset.rule]] / name = "b" / action = "allow" / codes = [3]
p:2:1: warning: asset 1 "x" has no rule that allows: each command is refused
.

text: version = 1 / asset = []
.

version: version = 3 | lists: codes = [6]
p: note: asset 1 "x" has rules that allow codes other than those of reads, and have no log = true: 1
.

version: version = 3 | lists: codes = [6] / log = true
.

version: version = 2 # not version 3 | lists: codes = [6]
.

version: version = 0b11 | lists: codes = [22]
p: note: asset 1 "x" has rules that allow codes other than those of reads, and have no log = true: 1
.

version: version = 3 | lists: codes = [3] | more: [[asset.rule]] / name = "b" / action = "allow" / codes = [23] / groups = ["0"] /
    [[asset.rule]] / name = "c" / action = "allow" / codes = [23] / groups = ["1"] / [[asset.rule]] / name = "d" / action = "refuse" /
    codes = [5] / points = ["1"] / [[asset.rule]] / name = "e" / action = "allow" / codes = ["write single coil"] / log = false
p: note: asset 1 "x" has rules that allow codes other than those of reads, and have no log = true: 3, 5
.

version: version = 3 | protocol: protocol = "dnp3" / master = 1 | lists: codes = [1, 23] | more: [[asset.rule]] / name = "b" /
    action = "allow" / codes = [24]
p: note: asset 1 "x" has rules that allow codes other than those of reads, and have no log = true: 2
.

version: version = 3 | protocol: protocol = "iec104" | lists: codes = [100, 101, 102, 107] | more: [[asset.rule]] / name = "b" /
    action = "allow" / codes = [103]
p: note: asset 1 "x" has rules that allow codes other than those of reads, and have no log = true: 2
.

protocol: protocol = "iec104" | lists: codes = [103] / points = ["16777216"]
p:8:1: warning: asset 1 "x", rule 1 "a": no command meets it: code 103 has no points but 0 to 16777215
."#;

/// The warnings about a policy, and a point after the last line.
pub(super) fn warnings(alloc: Global, changes: &str) -> Result<String, Fail> {
    let octets = policy_octets(alloc, LINES, changes)?;
    let policy = read_policy(alloc, &octets)?;
    let mut text = policy_warnings(alloc, "p", &octets, &policy)?;
    text.push_str(".")?;
    Ok(text)
}
