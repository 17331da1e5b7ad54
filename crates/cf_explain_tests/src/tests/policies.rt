//! Texts of policies and what they mean, by hand from the rules of the language.
use crate::tests::changes::policy_octets;
use cf_policylang::{PolicyFault, read_policy};
use std::alloc::{AllocError, Global};
use std::test::Fail;

/// A policy that is read, with a word before each line that the rows replace.
const LINES: &str = r#"version: version = 1
: [[asset]]
name: name = "pump"
address: address = "10.0.0.9"
port: port = 502
protocol: protocol = "modbus"
station: station = 1
master:
: [[asset.rule]]
poll.name: name = "poll"
: action = "allow"
poll.codes: codes = [3]
: [[asset.rule]]
set.name: name = "set"
set.action: action = "refuse"
clients: clients = ["10.0.0.1", "10.0.1.0..10.0.1.255"]
codes: codes = [6, 16]
groups: groups = ["0", "3..7"]
points: points = ["40..49", "4294967295"]
values: values = ["-5..500"]
: [[asset]]
rtu.name: name = "rtu"
rtu.address: address = "10.0.0.10"
rtu.port: port = 502
rtu.protocol: protocol = "dnp3"
rtu.station: station = 10
rtu.master: master = 1"#;

/// Whole texts.
pub(super) const DOCUMENTS: &str = r#"text: => 3 version asset 0 rule 0
text: asset = [] => 3 version asset 0 rule 0
text: Version = 1 / asset = [] => 3 version asset 0 rule 0
text: version = 1 => 3 asset asset 0 rule 0
text: version = 1 / asset = [] => ok
text: "version" = 0x1 / asset = [] => ok
text: version = 1 asset = [] => 1 - asset 0 rule 0
text: version = 1 / version = 1 / asset = [] => 1 - asset 0 rule 0
text: version = 9223372036854775808 / asset = [] => 1 - asset 0 rule 0
text: version = 9223372036854775807 / asset = [] => 9 version asset 0 rule 0
text: version = 0 / asset = [] => 9 version asset 0 rule 0
text: version = 4 / asset = [] => 9 version asset 0 rule 0
text: version = 2 / asset = [] => ok
text: version = 3 / asset = [] => ok
text: version = -1 / asset = [] => 9 version asset 0 rule 0
text: version = "1" / asset = [] => 4 version asset 0 rule 0
text: version = 1.0 / asset = [] => 4 version asset 0 rule 0
text: version = true / asset = [] => 4 version asset 0 rule 0
text: version = "1" / set = [] => 4 version asset 0 rule 0
text: version = 4 / set = [] => 9 version asset 0 rule 0
text: version = 2 / set = [] => 3 asset asset 0 rule 0
text: version = 1 / set = [] => 2 - asset 0 rule 0
text: version = 1 / set = [] / asset = 1 => 2 - asset 0 rule 0
text: version = 1 / - = 1 / asset = [] => 2 - asset 0 rule 0
text: version = 1 / asset = 1 => 4 asset asset 0 rule 0
text: version = 1 / asset = {} => 4 asset asset 0 rule 0
text: version = 1 / [asset] => 4 asset asset 0 rule 0
text: version = 1 / asset = [1] => 4 asset asset 0 rule 0
text: version = 1 / asset = [{}, []] => 4 asset asset 0 rule 0
text: version = 1 / asset = [{ colour = 1 }, []] => 4 asset asset 0 rule 0
text: version = 1 / asset = [{}] => 3 name asset 1 rule 0
text: version = 1 / [[asset]] / [[asset]] => 3 name asset 1 rule 0
text: version = 1.5 / asset = [] => 4 version asset 0 rule 0
text: version = 2026-01-01 / asset = [] => 4 version asset 0 rule 0
text: version = [] / asset = [] => 4 version asset 0 rule 0
text: version = {} / asset = [] => 4 version asset 0 rule 0
text: version = 1 / asset = "x" => 4 asset asset 0 rule 0
text: version = 1 / asset = 1.5 => 4 asset asset 0 rule 0
text: version = 1 / asset = true => 4 asset asset 0 rule 0
text: version = 1 / asset = 2026-01-01 => 4 asset asset 0 rule 0
text: version = 1 / asset = [] / asset = [] => 1 - asset 0 rule 0
text: version = 1 / asset = [] / [[asset]] => 1 - asset 0 rule 0
octets: efbbbf 76657273696f6e203d20310a 6173736574203d205b5d => ok
octets: 76657273696f6e203d20310a 6173736574203d205b5d 2023 20ff => 1 - asset 0 rule 0"#;

/// Each key of an asset: missing, of other kinds, and at its bounds.
pub(super) const ASSETS: &str = r#"version: version = 1 => ok
master: colour = 1 => 2 - asset 1 rule 0
master: master = 0 => 2 - asset 1 rule 0
master: master = "x" => 2 - asset 1 rule 0
name: => 3 name asset 1 rule 0
name: name = 1 => 4 name asset 1 rule 0
name: name = true => 4 name asset 1 rule 0
name: name = ["pump"] => 4 name asset 1 rule 0
name: name = 2026-01-01 => 4 name asset 1 rule 0
name: name = "" => 6 name asset 1 rule 0
name: name = "Pump" => 6 name asset 1 rule 0
name: name = "pump 1" => 6 name asset 1 rule 0
name: name = "p\u00fcmp" => 6 name asset 1 rule 0
name: name = "a.b" => 6 name asset 1 rule 0
name: name = "az_09-" => ok
name: name = "default" => ok
name: name = "rtu" => 7 name asset 2 rule 0
address: => 3 address asset 1 rule 0
address: address = 10 => 4 address asset 1 rule 0
address: address = "" => 5 address asset 1 rule 0
address: address = "10.0.0" => 5 address asset 1 rule 0
address: address = "10.0.0.9.1" => 5 address asset 1 rule 0
address: address = "10.0.0.9." => 5 address asset 1 rule 0
address: address = "10..0.9" => 5 address asset 1 rule 0
address: address = "10.0.0.256" => 5 address asset 1 rule 0
address: address = "10.0.0.09" => 5 address asset 1 rule 0
address: address = "10.0.0.-0" => 5 address asset 1 rule 0
address: address = "+1.0.0.9" => 5 address asset 1 rule 0
address: address = "10.0.0.9 " => 5 address asset 1 rule 0
address: address = "10.0.0.1..10.0.0.2" => 5 address asset 1 rule 0
address: address = "0.0.0.0" => ok
address: address = "255.255.255.255" => ok
address: address = "10.0.0.10" => 7 port asset 2 rule 0
port: => 3 port asset 1 rule 0
port: port = "502" => 4 port asset 1 rule 0
port: port = 502.0 => 4 port asset 1 rule 0
port: port = -1 => 6 port asset 1 rule 0
port: port = 0 => 6 port asset 1 rule 0
port: port = 1 => ok
port: port = 65535 => ok
port: port = 65536 => 6 port asset 1 rule 0
protocol: => 3 protocol asset 1 rule 0
protocol: protocol = 1 => 4 protocol asset 1 rule 0
protocol: protocol = "" => 6 protocol asset 1 rule 0
protocol: protocol = "Modbus" => 6 protocol asset 1 rule 0
protocol: protocol = "iec104" => ok
protocol: protocol = "dnp3" => 3 master asset 1 rule 0
station: => 3 station asset 1 rule 0
station: station = "1" => 4 station asset 1 rule 0
station: station = -1 => 6 station asset 1 rule 0
station: station = 0 => ok
station: station = 255 => ok
station: station = 256 => 6 station asset 1 rule 0
rtu.name: name = "pump" => 7 name asset 2 rule 0
rtu.address: address = "10.0.0.9" => 7 port asset 2 rule 0
rtu.port: port = 503 => ok
rtu.protocol: protocol = "iec104" => 2 - asset 2 rule 0
rtu.station: station = 65519 => ok
rtu.station: station = 65520 => 6 station asset 2 rule 0
rtu.master: => 3 master asset 2 rule 0
rtu.master: master = "1" => 4 master asset 2 rule 0
rtu.master: master = -1 => 6 master asset 2 rule 0
rtu.master: master = 0 => ok
rtu.master: master = 65519 => ok
rtu.master: master = 65520 => 6 master asset 2 rule 0
name: name = 1.5 => 4 name asset 1 rule 0
name: name = [] => 4 name asset 1 rule 0
name: name = {} => 4 name asset 1 rule 0
name: name = "a" / name = "a" => 1 - asset 0 rule 0
address: address = 1 => 4 address asset 1 rule 0
address: address = 1.5 => 4 address asset 1 rule 0
address: address = true => 4 address asset 1 rule 0
address: address = 2026-01-01 => 4 address asset 1 rule 0
address: address = [] => 4 address asset 1 rule 0
address: address = {} => 4 address asset 1 rule 0
address: address = "a" / address = "a" => 1 - asset 0 rule 0
protocol: protocol = 1.5 => 4 protocol asset 1 rule 0
protocol: protocol = true => 4 protocol asset 1 rule 0
protocol: protocol = 2026-01-01 => 4 protocol asset 1 rule 0
protocol: protocol = [] => 4 protocol asset 1 rule 0
protocol: protocol = {} => 4 protocol asset 1 rule 0
protocol: protocol = "a" / protocol = "a" => 1 - asset 0 rule 0
port: port = "1" => 4 port asset 1 rule 0
port: port = 1.5 => 4 port asset 1 rule 0
port: port = true => 4 port asset 1 rule 0
port: port = 2026-01-01 => 4 port asset 1 rule 0
port: port = [] => 4 port asset 1 rule 0
port: port = {} => 4 port asset 1 rule 0
port: port = 1 / port = 1 => 1 - asset 0 rule 0
station: station = 1.5 => 4 station asset 1 rule 0
station: station = true => 4 station asset 1 rule 0
station: station = 2026-01-01 => 4 station asset 1 rule 0
station: station = [] => 4 station asset 1 rule 0
station: station = {} => 4 station asset 1 rule 0
station: station = 1 / station = 1 => 1 - asset 0 rule 0
rtu.master: master = 1.5 => 4 master asset 2 rule 0
rtu.master: master = true => 4 master asset 2 rule 0
rtu.master: master = 2026-01-01 => 4 master asset 2 rule 0
rtu.master: master = [] => 4 master asset 2 rule 0
rtu.master: master = {} => 4 master asset 2 rule 0
rtu.master: master = 1 / master = 1 => 1 - asset 0 rule 0"#;

/// Each key of a rule: missing, of other kinds, and at its bounds.
pub(super) const RULES: &str = r#"poll.name: => 3 name asset 1 rule 1
poll.name: name = 1 => 4 name asset 1 rule 1
poll.name: name = "" => 6 name asset 1 rule 1
poll.name: name = "a b" => 6 name asset 1 rule 1
poll.name: name = "default" => 7 name asset 1 rule 1
poll.name: name = "station" => 7 name asset 1 rule 1
poll.name: name = "form" => 7 name asset 1 rule 1
poll.name: name = "forms" => ok
poll.name: name = "pump" => ok
poll.name: name = "set" => 7 name asset 1 rule 2
set.name: name = "poll" => 7 name asset 1 rule 2
set.name: colour = 1 => 2 - asset 1 rule 2
set.action: => 3 action asset 1 rule 2
set.action: action = 1 => 4 action asset 1 rule 2
set.action: action = "" => 6 action asset 1 rule 2
set.action: action = "deny" => 6 action asset 1 rule 2
set.action: action = "Refuse" => 6 action asset 1 rule 2
clients: => ok
clients: clients = "10.0.0.1" => 4 clients asset 1 rule 2
clients: clients = [1] => 4 clients asset 1 rule 2
clients: clients = ["x", 1] => 4 clients asset 1 rule 2
clients: clients = [] => 6 clients asset 1 rule 2
clients: clients = [""] => 5 clients asset 1 rule 2
clients: clients = ["10.0.0"] => 5 clients asset 1 rule 2
clients: clients = ["10.0.0.1.."] => 5 clients asset 1 rule 2
clients: clients = ["..10.0.0.1"] => 5 clients asset 1 rule 2
clients: clients = ["10.0.0.1...10.0.0.2"] => 5 clients asset 1 rule 2
clients: clients = ["10.0.0.1..10.0.0.2..10.0.0.3"] => 5 clients asset 1 rule 2
clients: clients = ["10.0.0.1 .. 10.0.0.2"] => 5 clients asset 1 rule 2
clients: clients = ["10.0.0.2..10.0.0.1"] => 6 clients asset 1 rule 2
clients: clients = ["10.0.0.2..10.0.0.2"] => ok
clients: clients = ["0.0.0.0..255.255.255.255"] => ok
clients: clients = ["10.0.0.2..10.0.0.1", "x"] => 6 clients asset 1 rule 2
clients: clients = ["x", "10.0.0.2..10.0.0.1"] => 5 clients asset 1 rule 2
codes: => 3 codes asset 1 rule 2
codes: codes = 6 => 4 codes asset 1 rule 2
codes: codes = ["6"] => 4 codes asset 1 rule 2
codes: codes = [6, true] => 4 codes asset 1 rule 2
codes: codes = [6, 1.0] => 4 codes asset 1 rule 2
codes: codes = [256, "x"] => 4 codes asset 1 rule 2
codes: codes = [] => 6 codes asset 1 rule 2
codes: codes = [-1] => 6 codes asset 1 rule 2
codes: codes = [0, 255] => ok
codes: codes = [256] => 6 codes asset 1 rule 2
codes: codes = [6, 6] => ok
groups: => ok
groups: groups = "0" => 4 groups asset 1 rule 2
groups: groups = [0] => 4 groups asset 1 rule 2
groups: groups = [] => 6 groups asset 1 rule 2
groups: groups = [""] => 6 groups asset 1 rule 2
groups: groups = ["-1"] => 6 groups asset 1 rule 2
groups: groups = ["-0"] => 6 groups asset 1 rule 2
groups: groups = ["+1"] => 6 groups asset 1 rule 2
groups: groups = ["00"] => 6 groups asset 1 rule 2
groups: groups = ["01..2"] => 6 groups asset 1 rule 2
groups: groups = ["1.."] => 6 groups asset 1 rule 2
groups: groups = ["..1"] => 6 groups asset 1 rule 2
groups: groups = ["1...2"] => 6 groups asset 1 rule 2
groups: groups = ["1..2..3"] => 6 groups asset 1 rule 2
groups: groups = ["0x1"] => 6 groups asset 1 rule 2
groups: groups = ["1_0"] => 6 groups asset 1 rule 2
groups: groups = [" 1"] => 6 groups asset 1 rule 2
groups: groups = ["1..0"] => 6 groups asset 1 rule 2
groups: groups = ["0..65535"] => ok
groups: groups = ["65536"] => 6 groups asset 1 rule 2
groups: groups = ["0..65536"] => 6 groups asset 1 rule 2
points: => ok
points: points = [1] => 4 points asset 1 rule 2
points: points = [] => 6 points asset 1 rule 2
points: points = ["@none"] => 6 points asset 1 rule 2
points: points = ["-1"] => 6 points asset 1 rule 2
points: points = ["49..40"] => 6 points asset 1 rule 2
points: points = ["0..4294967295"] => ok
points: points = ["4294967296"] => 6 points asset 1 rule 2
points: points = ["99999999999999999999"] => 6 points asset 1 rule 2
values: => ok
values: values = [1] => 4 values asset 1 rule 2
values: values = [] => 6 values asset 1 rule 2
values: values = ["0"] => ok
values: values = ["-0"] => 6 values asset 1 rule 2
values: values = ["-01"] => 6 values asset 1 rule 2
values: values = ["--1"] => 6 values asset 1 rule 2
values: values = ["-"] => 6 values asset 1 rule 2
values: values = ["-1..-2"] => 6 values asset 1 rule 2
values: values = ["-2..-1"] => ok
values: values = ["-2147483648..4294967295"] => ok
values: values = ["-2147483649"] => 6 values asset 1 rule 2
values: values = ["4294967296"] => 6 values asset 1 rule 2
rtu.master: master = 1 / rule = [] => ok
rtu.master: master = 1 / rule = {} => 4 rule asset 2 rule 0
rtu.master: master = 1 / rule = 1 => 4 rule asset 2 rule 0
rtu.master: master = 1 / rule = [1] => 4 rule asset 2 rule 0
rtu.master: master = 1 / rule = [{}, []] => 4 rule asset 2 rule 0
rtu.master: master = 1 / rule = [{}] => 3 name asset 2 rule 1
rtu.master: master = 1 / rule = [{ name = "a", action = "allow", codes = [1] }] => ok
poll.name: name = 1.5 => 4 name asset 1 rule 1
poll.name: name = true => 4 name asset 1 rule 1
poll.name: name = 2026-01-01 => 4 name asset 1 rule 1
poll.name: name = [] => 4 name asset 1 rule 1
poll.name: name = {} => 4 name asset 1 rule 1
poll.name: name = "a" / name = "a" => 1 - asset 0 rule 0
set.action: action = 1.5 => 4 action asset 1 rule 2
set.action: action = true => 4 action asset 1 rule 2
set.action: action = 2026-01-01 => 4 action asset 1 rule 2
set.action: action = [] => 4 action asset 1 rule 2
set.action: action = {} => 4 action asset 1 rule 2
set.action: action = "a" / action = "a" => 1 - asset 0 rule 0
clients: clients = "x" => 4 clients asset 1 rule 2
clients: clients = 1 => 4 clients asset 1 rule 2
clients: clients = 1.5 => 4 clients asset 1 rule 2
clients: clients = true => 4 clients asset 1 rule 2
clients: clients = 2026-01-01 => 4 clients asset 1 rule 2
clients: clients = {} => 4 clients asset 1 rule 2
clients: clients = [1.5] => 4 clients asset 1 rule 2
clients: clients = [true] => 4 clients asset 1 rule 2
clients: clients = [2026-01-01] => 4 clients asset 1 rule 2
clients: clients = [[]] => 4 clients asset 1 rule 2
clients: clients = [{}] => 4 clients asset 1 rule 2
clients: clients = [] / clients = [] => 1 - asset 0 rule 0
codes: codes = "x" => 4 codes asset 1 rule 2
codes: codes = 1 => 4 codes asset 1 rule 2
codes: codes = 1.5 => 4 codes asset 1 rule 2
codes: codes = true => 4 codes asset 1 rule 2
codes: codes = 2026-01-01 => 4 codes asset 1 rule 2
codes: codes = {} => 4 codes asset 1 rule 2
codes: codes = ["1"] => 4 codes asset 1 rule 2
codes: codes = [1.5] => 4 codes asset 1 rule 2
codes: codes = [true] => 4 codes asset 1 rule 2
codes: codes = [2026-01-01] => 4 codes asset 1 rule 2
codes: codes = [[]] => 4 codes asset 1 rule 2
codes: codes = [{}] => 4 codes asset 1 rule 2
codes: codes = [] / codes = [] => 1 - asset 0 rule 0
groups: groups = "x" => 4 groups asset 1 rule 2
groups: groups = 1 => 4 groups asset 1 rule 2
groups: groups = 1.5 => 4 groups asset 1 rule 2
groups: groups = true => 4 groups asset 1 rule 2
groups: groups = 2026-01-01 => 4 groups asset 1 rule 2
groups: groups = {} => 4 groups asset 1 rule 2
groups: groups = [1] => 4 groups asset 1 rule 2
groups: groups = [1.5] => 4 groups asset 1 rule 2
groups: groups = [true] => 4 groups asset 1 rule 2
groups: groups = [2026-01-01] => 4 groups asset 1 rule 2
groups: groups = [[]] => 4 groups asset 1 rule 2
groups: groups = [{}] => 4 groups asset 1 rule 2
groups: groups = [] / groups = [] => 1 - asset 0 rule 0
points: points = "x" => 4 points asset 1 rule 2
points: points = 1 => 4 points asset 1 rule 2
points: points = 1.5 => 4 points asset 1 rule 2
points: points = true => 4 points asset 1 rule 2
points: points = 2026-01-01 => 4 points asset 1 rule 2
points: points = {} => 4 points asset 1 rule 2
points: points = [1.5] => 4 points asset 1 rule 2
points: points = [true] => 4 points asset 1 rule 2
points: points = [2026-01-01] => 4 points asset 1 rule 2
points: points = [[]] => 4 points asset 1 rule 2
points: points = [{}] => 4 points asset 1 rule 2
points: points = [] / points = [] => 1 - asset 0 rule 0
values: values = "x" => 4 values asset 1 rule 2
values: values = 1 => 4 values asset 1 rule 2
values: values = 1.5 => 4 values asset 1 rule 2
values: values = true => 4 values asset 1 rule 2
values: values = 2026-01-01 => 4 values asset 1 rule 2
values: values = {} => 4 values asset 1 rule 2
values: values = [1.5] => 4 values asset 1 rule 2
values: values = [true] => 4 values asset 1 rule 2
values: values = [2026-01-01] => 4 values asset 1 rule 2
values: values = [[]] => 4 values asset 1 rule 2
values: values = [{}] => 4 values asset 1 rule 2
values: values = [] / values = [] => 1 - asset 0 rule 0
rtu.master: master = 1 / rule = 1.5 => 4 rule asset 2 rule 0
rtu.master: master = 1 / rule = true => 4 rule asset 2 rule 0
rtu.master: master = 1 / rule = 2026-01-01 => 4 rule asset 2 rule 0
rtu.master: master = 1 / rule = [] / rule = [] => 1 - asset 0 rule 0"#;

/// Two faults, of which the first test decides; and lines that only change together.
pub(super) const ORDER: &str =
    r#"version: version = 4 | master: colour = 1 => 9 version asset 0 rule 0
version: version = 1 / colour = 1 | name: => 2 - asset 0 rule 0
master: colour = 1 | name: => 2 - asset 1 rule 0
name: name = "" | address: => 6 name asset 1 rule 0
address: address = 1 | port: => 4 address asset 1 rule 0
port: port = 0 | protocol: => 6 port asset 1 rule 0
protocol: protocol = "x" | station: => 6 protocol asset 1 rule 0
station: station = 256 | master: master = 1 => 6 station asset 1 rule 0
protocol: protocol = "iec104" | station: station = 0 => 6 station asset 1 rule 0
protocol: protocol = "iec104" | station: station = 65534 => ok
protocol: protocol = "iec104" | station: station = 65535 => 6 station asset 1 rule 0
master: master = 1 | poll.name: => 2 - asset 1 rule 0
rtu.name: name = "pump" | rtu.address: => 7 name asset 2 rule 0
rtu.address: address = "10.0.0.9" | rtu.protocol: => 7 port asset 2 rule 0
set.name: name = "poll" | set.action: => 7 name asset 1 rule 2
set.action: action = 1 | clients: clients = [] => 4 action asset 1 rule 2
clients: clients = ["x"] | codes: => 5 clients asset 1 rule 2
codes: codes = [] | groups: groups = 1 => 6 codes asset 1 rule 2
groups: groups = [] | points: points = 1 => 6 groups asset 1 rule 2
points: points = ["2..1"] | values: values = 1 => 6 points asset 1 rule 2
poll.codes: | set.name: => 3 codes asset 1 rule 1
values: values = [] | rtu.name: => 6 values asset 1 rule 2
rtu.protocol: protocol = "modbus" | rtu.station: station = 256 => 6 station asset 2 rule 0
text: version = 2 / version = 2 => 1 - asset 0 rule 0
rtu.station: station = 65520 | rtu.master: => 6 station asset 2 rule 0
rtu.master: master = -1 / rule = 1 => 6 master asset 2 rule 0
rtu.protocol: protocol = "x" | rtu.master: => 6 protocol asset 2 rule 0"#;

/// Lengths and counts at their bounds and past them.
pub(super) const LIMITS: &str = r#"name: name = " * 32 a * " => ok
name: name = " * 33 a * " => 6 name asset 1 rule 0
set.name: name = " * 32 a * " => ok
set.name: name = " * 33 a * " => 6 name asset 1 rule 2
clients: clients = [ * 64 "1.1.1.1", * ] => ok
clients: clients = [ * 64 "1.1.1.1", * "x"] => 8 clients asset 1 rule 2
clients: clients = [ * 64 "1.1.1.1", * 1] => 4 clients asset 1 rule 2
codes: codes = [ * 64 6, * ] => ok
codes: codes = [ * 65 6, * ] => 8 codes asset 1 rule 2
groups: groups = [ * 64 "1", * ] => ok
groups: groups = [ * 65 "1", * ] => 8 groups asset 1 rule 2
points: points = [ * 64 "1", * ] => ok
points: points = [ * 65 "1", * ] => 8 points asset 1 rule 2
values: values = [ * 64 "1", * ] => ok
values: values = [ * 65 "1", * ] => 8 values asset 1 rule 2
values: values = [" * 4000 1 * "] => 6 values asset 1 rule 2
rtu.master: master = 1 / rule = [ * 1024 {}, * ] => 3 name asset 2 rule 1
rtu.master: master = 1 / rule = [ * 1025 {}, * ] => 8 rule asset 2 rule 0
text: version = 1 / asset = [ * 256 {}, * ] => 3 name asset 1 rule 0
text: version = 1 / asset = [ * 257 {}, * ] => 8 asset asset 0 rule 0
text: version = 1 / asset = [] / #  * 131071 xxxxxxxxxxxxxxxxxxxxxxxxxxxxxxxx * xxxxxx => ok
text: version = 1 / asset = [] / #  * 131071 xxxxxxxxxxxxxxxxxxxxxxxxxxxxxxxx * xxxxxxx => 8 - asset 0 rule 0
text: version = 1 / asset = [ * 257 {}, * 1] => 4 asset asset 0 rule 0
rtu.master: master = 1 / rule = [ * 1025 {}, * 1] => 4 rule asset 2 rule 0
text: = * 131072 xxxxxxxxxxxxxxxxxxxxxxxxxxxxxxxx * => 8 - asset 0 rule 0"#;

/// Sets of points, which version 2 has.
pub(super) const SETS: &str = r#"version: version = 2 => ok
points: points = ["@none"] | version: version = 2 => 10 points asset 1 rule 2
points: points = ["@none"] => 6 points asset 1 rule 2
points: points = ["@a"] | version: version = 2 / set = [{ name = "a", points = ["1"] }] => ok
points: points = ["@a"] | version: version = 1 / set = [{ name = "a", points = ["1"] }] => 2 - asset 0 rule 0
points: points = ["7", "@a", "8..9", "@a"] | version: version = 2 / set = [{ points = ["1", "2..3"], name = "a" }] => ok
points: points = ["@a "] | version: version = 2 / set = [{ name = "a", points = ["1"] }] => 6 points asset 1 rule 2
points: points = ["@"] | version: version = 2 => 6 points asset 1 rule 2
points: points = ["@A"] | version: version = 2 => 6 points asset 1 rule 2
points: points = ["@@a"] | version: version = 2 => 6 points asset 1 rule 2
points: points = ["1@a"] | version: version = 2 => 6 points asset 1 rule 2
points: points = ["x", "@none"] | version: version = 2 => 6 points asset 1 rule 2
points: points = ["@none", "x"] | version: version = 2 => 10 points asset 1 rule 2
points: points = ["@none", 1] | version: version = 2 => 4 points asset 1 rule 2
points: points = [] | version: version = 2 => 6 points asset 1 rule 2
points: points = [ * 65 "@none", * ] | version: version = 2 => 8 points asset 1 rule 2
points: points = [ * 64 "@none", * ] | version: version = 2 => 10 points asset 1 rule 2
points: points = [ * 64 "@a", * ] | version: version = 2 / set = [{ name = "a", points = ["1"] }] => ok
points: points = [ * 64 "@a", * ] | version: version = 2 / set = [{ name = "a", points = ["1", "2"] }] => 8 points asset 1 rule 2
points: points = [ * 33 "@a", * "x"] | version: version = 2 / set = [{ name = "a", points = ["1", "2"] }] => 6 points asset 1 rule 2
points: points = [ * 33 "@a", * ] / values = 1 | values: | version: version = 2 / set = [{ name = "a", points = ["1", "2"] }] => 8 points asset 1 rule 2
groups: groups = ["@a"] | version: version = 2 / set = [{ name = "a", points = ["1"] }] => 6 groups asset 1 rule 2
text: version = 2 / set = [] / asset = [] => ok
text: version = 2 / set = [{ name = "a", points = ["1"] }] / asset = [] => ok
text: version = 2 / set = 1 / x = 1 => 2 - asset 0 rule 0
text: version = 2 / sets = [] / asset = [] => 2 - asset 0 rule 0
text: version = 2 / set = 1 => 4 set asset 0 rule 0
text: version = 2 / set = {} / asset = 1 => 4 set asset 0 rule 0
text: version = 2 / set = ["a"] => 4 set asset 0 rule 0
text: version = 2 / set = [ * 64 {}, * ] => 3 name asset 0 rule 1
text: version = 2 / set = [ * 65 {}, * ] => 8 set asset 0 rule 0
text: version = 2 / set = [ * 65 {}, * 1] => 4 set asset 0 rule 0
text: version = 2 / set = [{ name = 1, colour = 1 }] => 2 - asset 0 rule 1
text: version = 2 / set = [{ points = 1 }] => 3 name asset 0 rule 1
text: version = 2 / set = [{ name = 1 }] => 4 name asset 0 rule 1
text: version = 2 / set = [{ name = "A" }] => 6 name asset 0 rule 1
text: version = 2 / set = [{ name = "a" }] => 3 points asset 0 rule 1
text: version = 2 / set = [{ name = "a", points = ["1"] }, { name = "a" }] => 7 name asset 0 rule 2
text: version = 2 / set = [{ name = "default", points = ["1"] }] / asset = [] => ok
text: version = 2 / set = [{ name = "a", points = "1" }] => 4 points asset 0 rule 1
text: version = 2 / set = [{ name = "a", points = [1] }] => 4 points asset 0 rule 1
text: version = 2 / set = [{ name = "a", points = [] }] => 6 points asset 0 rule 1
text: version = 2 / set = [{ name = "a", points = [ * 65 "x", * ] }] => 8 points asset 0 rule 1
text: version = 2 / set = [{ name = "a", points = ["1"] }, { name = "b", points = ["@a"] }] => 6 points asset 0 rule 2
text: version = 2 / set = [{ name = "a", points = ["4294967296"] }] => 6 points asset 0 rule 1
text: version = 2 / set = [{ name = "a", points = ["x"] }] / asset = 1 => 6 points asset 0 rule 1
text: version = 2 / set = [{ name = "a", points = ["1"], colour = 1 }] => 2 - asset 0 rule 1
text: version = 2 / set = [{ name = "a", points = ["2..1"] }] / asset = [] => 6 points asset 0 rule 1
text: version = 2 / set = [{ name = "a", points = ["1"] }, 1] / asset = [] => 4 set asset 0 rule 0
text: version = 2 / set = [{ name = "a", points = ["1"] }, { name = "b", points = ["1"] }] / asset = [] => ok
text: version = 2 / set = [{ name = "a", points = [ * 64 "1", * ] }] / asset = [] => ok
points: points = ["@b"] | version: version = 2 / set = [{ name = "a", points = ["1"] }] => 10 points asset 1 rule 2
points: points = ["@a", "@b"] | version: version = 2 / set = [{ name = "b", points = ["1"] }, { name = "a", points = ["2"] }] => ok
points: points = ["@none"] / values = 1 | values: | version: version = 2 => 10 points asset 1 rule 2
codes: codes = [] | points: points = ["@none"] | version: version = 2 => 6 codes asset 1 rule 2
values: values = ["@a"] | version: version = 2 / set = [{ name = "a", points = ["1"] }] => 6 values asset 1 rule 2
clients: clients = ["@a"] | version: version = 2 / set = [{ name = "a", points = ["1"] }] => 5 clients asset 1 rule 2"#;

/// Several assets of one address and port, which version 3 has.
pub(super) const SITES: &str =
    r#"rtu.address: address = "10.0.0.9" | version: version = 2 => 7 port asset 2 rule 0
rtu.address: address = "10.0.0.9" | version: version = 3 => 7 protocol asset 2 rule 0
rtu.address: address = "10.0.0.9" | rtu.protocol: | version: version = 2 => 7 port asset 2 rule 0
rtu.address: address = "10.0.0.9" | rtu.protocol: | version: version = 3 => 3 protocol asset 2 rule 0
rtu.address: address = "10.0.0.9" | rtu.protocol: protocol = "MODBUS" | version: version = 3 => 6 protocol asset 2 rule 0
rtu.address: address = "10.0.0.9" | rtu.protocol: protocol = "modbus" | rtu.master: | version: version = 3 => ok
rtu.address: address = "10.0.0.9" | rtu.protocol: protocol = "modbus" | rtu.master: | version: version = 1 => 7 port asset 2 rule 0
rtu.address: address = "10.0.0.9" | rtu.protocol: protocol = "modbus" | rtu.station: station = 1 | version: version = 3 => 7 station asset 2 rule 0
rtu.address: address = "10.0.0.9" | rtu.protocol: protocol = "modbus" | rtu.station: station = 0x01 | version: version = 3 => 7 station asset 2 rule 0
rtu.address: address = "10.0.0.9" | rtu.protocol: protocol = "modbus" | rtu.station: station = 256 | version: version = 3 => 6 station asset 2 rule 0
rtu.address: address = "10.0.0.9" | rtu.protocol: protocol = "modbus" | version: version = 3 => 2 - asset 2 rule 0
rtu.address: address = "10.0.0.9" | rtu.protocol: protocol = "modbus" | rtu.station: station = 1 | rtu.master: | rtu.name: name = "pump" | version: version = 3 => 7 name asset 2 rule 0
rtu.address: address = "10.0.0.9" | rtu.port: port = 0 | version: version = 3 => 6 port asset 2 rule 0
rtu.address: address = "10.0.0.9" | rtu.port: port = 503 | rtu.station: station = 1 | version: version = 3 => ok
protocol: protocol = "dnp3" | master: master = 0 | rtu.address: address = "10.0.0.9" | version: version = 3 => ok
protocol: protocol = "dnp3" | master: master = 1 | rtu.address: address = "10.0.0.9" | rtu.station: station = 1 | rtu.master: master = "1" | version: version = 3 => 7 station asset 2 rule 0
rtu.master: master = 1 / [[asset]] / name = "b" / address = "10.0.0.9" / port = 502 | version: version = 3 => 7 port asset 3 rule 0
rtu.master: master = 1 / [[asset]] / name = "b" / address = "10.0.0.10" / port = 502 / protocol = "dnp3" / station = 9 / master = 1 | version: version = 3 => ok
rtu.address: address = "10.0.0.9" | rtu.protocol: protocol = "modbus" | rtu.master: [[asset]] / name = "b" / address = "10.0.0.9" / port = 502 / protocol = "modbus" / station = 1 | version: version = 3 => 7 station asset 3 rule 0
rtu.address: address = "10.0.0.9" | rtu.protocol: protocol = "modbus" | rtu.master: [[asset]] / name = "b" / address = "10.0.0.9" / port = 502 / protocol = "modbus" / station = 3 | version: version = 3 => ok"#;

/// What a text means: `ok`, or its refusal.
pub(super) fn meaning(alloc: Global, changes: &str) -> Result<String, Fail> {
    let octets = policy_octets(alloc, LINES, changes)?;
    match read_policy(alloc, &octets) {
        Ok(_) => Ok(String::from_str(alloc, "ok")?),
        Err(PolicyFault::Refused(refusal)) => Ok(format!(in alloc; "{refusal}")?),
        Err(PolicyFault::NoMemory) => Err(AllocError.into()),
    }
}
