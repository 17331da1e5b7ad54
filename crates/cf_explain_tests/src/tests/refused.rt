//! Messages about refused policies, each by hand from `docs/POLICY.md`.
use crate::tests::changes::policy_octets;
use cf_explain::policy_message;
use cf_policylang::{PolicyFault, read_policy};
use std::alloc::{AllocError, Global};
use std::test::Fail;

/// A policy, each line with its number in front.
const LINES: &str = r#"1: version = 1
2: [[asset]]
3: name = "pump"
4: address = "10.0.0.9"
5: port = 502
6: protocol = "modbus"
7: station = 1
8: [[asset.rule]]
9: name = "poll"
10: action = "allow"
11: codes = [3]
12: [[asset.rule]]
13: name = "set"
14: action = "allow"
15: clients = ["10.0.0.5"]
16: codes = [6, 16]
17: groups = ["0"]
18: points = ["40..49"]
19: values = ["0..500"]
20: [[asset]]
21: name = "rtu"
22: address = "10.0.0.10"
23: port = 502
24: protocol = "dnp3"
25: station = 10
26: master = 1"#;

/// A row: a change of the policy, and its message.
pub(super) const ROWS: &str = r#"1: version 1
p:1:9: this is no TOML: key with no value, expected `=`
  in the line: version 1

6: protocol = modbus
p:6:12: this is no TOML: invalid value, expected a string, number, boolean, date-time, array or inline table; a text stands between
    quotation marks, as "allow"
  in the line: protocol = modbus

1: version = 4
p:1:1: `version` is the number 4
  write version = 1 above the first table, version = 2 where rules name sets of points, or version = 3 where rules have a log or names
    of codes and groups, or assets one address and port

1:
p: `version` is missing
  write version = 1 above the first table, version = 2 where rules name sets of points, or version = 3 where rules have a log or names
    of codes and groups, or assets one address and port

1: versoin = 1
p: `version` is missing; did you write "versoin" for it?
  write version = 1 above the first table, version = 2 where rules name sets of points, or version = 3 where rules have a log or names
    of codes and groups, or assets one address and port

1: version = "1"
p:1:1: `version` is the text "1", and has to be a whole number
  write version = 1 above the first table, version = 2 where rules name sets of points, or version = 3 where rules have a log or names
    of codes and groups, or assets one address and port

2: [asset]
p:20:1: this is no TOML: duplicate key; write [[asset]] and [[asset.rule]] with two brackets each time
  in the line: [[asset]]

20: [[assets]]
p:20:1: "assets" is no key of the document; did you mean `asset`?
  above the first table the document has version = 1, and then tables [[asset]]; versions 2 and 3 have tables [[set]] too

12: [[rule]]
p:12:1: "rule" is no key of the document: a rule is a table [[asset.rule]]
  above the first table the document has version = 1, and then tables [[asset]]; versions 2 and 3 have tables [[set]] too

8: [asset.rule]
p:12:1: this is no TOML: duplicate key; write [[asset]] and [[asset.rule]] with two brackets each time
  in the line: [[asset.rule]]

8: [[asset.rules]]
p:8:1: asset 1 "pump": "rules" is no key of an asset; did you mean `rule`?
  an asset has name, address, port, protocol, station, for DNP3 master, and tables [[asset.rule]]

3: nam = "pump"
p:3:1: asset 1: "nam" is no key of an asset; did you mean `name`?
  an asset has name, address, port, protocol, station, for DNP3 master, and tables [[asset.rule]]

4: adress = "10.0.0.9"
p:4:1: asset 1 "pump": "adress" is no key of an asset; did you mean `address`?
  an asset has name, address, port, protocol, station, for DNP3 master, and tables [[asset.rule]]

11: code = [3]
p:11:1: asset 1 "pump", rule 1 "poll": "code" is no key of a rule; did you mean `codes`?
  a rule has name, action, codes, and may have clients, groups, points, values, most and seconds, and in version 3 log

11:
p:8:1: asset 1 "pump", rule 1 "poll": `codes` is missing
  codes are 1 to 64 whole numbers from 0 to 255, as codes = [3, 16]

26:
p:20:1: asset 2 "rtu": `master` is missing
  a DNP3 asset has its master's link address, 0 to 65519, as master = 1

7: station = 1 / master = 1
p:8:1: asset 1 "pump": `master` is a key of DNP3 assets alone: leave it out
  an asset has name, address, port, protocol, station, for DNP3 master, and tables [[asset.rule]]

10: action = "allow" / station = 1
p:11:1: asset 1 "pump", rule 1 "poll": "station" is no key of a rule: it stands in an asset, below [[asset]] and above its first
    [[asset.rule]]
  a rule has name, action, codes, and may have clients, groups, points, values, most and seconds, and in version 3 log

7: station = 1 / codes = [3]
p:8:1: asset 1 "pump": "codes" is no key of an asset: it stands in a rule, below [[asset.rule]]
  an asset has name, address, port, protocol, station, for DNP3 master, and tables [[asset.rule]]

5: port = "502"
p:5:1: asset 1 "pump": `port` is the text "502", and has to be a whole number
  a port is a whole number from 1 to 65535, as port = 502

5: port = 70000
p:5:1: asset 1 "pump": `port` is the number 70000, out of its range
  a port is a whole number from 1 to 65535, as port = 502

18: points = [40]
p:18:1: asset 1 "pump", rule 2 "set": entry 1 of `points` is the number 40, and has to be a text between quotation marks
  points are 1 to 64 numbers or ranges from 0 to 4294967295, as points = ["7", "40..49"]

18: points = "40..49"
p:18:1: asset 1 "pump", rule 2 "set": `points` is the text "40..49", and has to be a list of texts
  points are 1 to 64 numbers or ranges from 0 to 4294967295, as points = ["7", "40..49"]

16: codes = 3
p:16:1: asset 1 "pump", rule 2 "set": `codes` is the number 3, and has to be a list of whole numbers
  codes are 1 to 64 whole numbers from 0 to 255, as codes = [3, 16]

16: codes = ["3"]
p:16:1: asset 1 "pump", rule 2 "set": entry 1 of `codes` is the text "3", and has to be a whole number
  codes are 1 to 64 whole numbers from 0 to 255, as codes = [3, 16]

16: codes = [6, 256]
p:16:1: asset 1 "pump", rule 2 "set": entry 2 of `codes` is the number 256: the number is too high
  codes are 1 to 64 whole numbers from 0 to 255, as codes = [3, 16]

16: codes = []
p:16:1: asset 1 "pump", rule 2 "set": `codes` is an empty list
  codes are 1 to 64 whole numbers from 0 to 255, as codes = [3, 16]

4: address = "10.0.0.256"
p:4:1: asset 1 "pump": `address` is "10.0.0.256": one of its four numbers is not from 0 to 255
  an address is four numbers from 0 to 255, without leading zeros, as address = "10.0.0.9"

4: address = "10.0.0.09"
p:4:1: asset 1 "pump": `address` is "10.0.0.09": a number has no leading zero
  an address is four numbers from 0 to 255, without leading zeros, as address = "10.0.0.9"

4: address = "10.0.0.9:502"
p:4:1: asset 1 "pump": `address` is "10.0.0.9:502": the port is a key of its own, and addresses of IPv6 are not served
  an address is four numbers from 0 to 255, without leading zeros, as address = "10.0.0.9"

4: address = "pump.local"
p:4:1: asset 1 "pump": `address` is "pump.local": it has not four numbers
  an address is four numbers from 0 to 255, without leading zeros, as address = "10.0.0.9"

15: clients = ["10.0.0.0/24"]
p:15:1: asset 1 "pump", rule 2 "set": entry 1 of `clients` is the text "10.0.0.0/24": a network is written as a range, as
    10.0.0.0..10.0.0.255
  clients are 1 to 64 addresses or ranges, as clients = ["10.0.0.5", "10.0.0.8..10.0.0.9"]

15: clients = ["10.0.0.5", "10.0.0.x"]
p:15:1: asset 1 "pump", rule 2 "set": entry 2 of `clients` is the text "10.0.0.x": it is no address
  clients are 1 to 64 addresses or ranges, as clients = ["10.0.0.5", "10.0.0.8..10.0.0.9"]

15: clients = ["10.0.0.9..10.0.0.5"]
p:15:1: asset 1 "pump", rule 2 "set": entry 1 of `clients` is the text "10.0.0.9..10.0.0.5": the first address is above the second
  clients are 1 to 64 addresses or ranges, as clients = ["10.0.0.5", "10.0.0.8..10.0.0.9"]

7: station = 256
p:7:1: asset 1 "pump": `station` is the number 256, out of its range
  the station of Modbus is its unit identifier, 0 to 255, as station = 1

25: station = 65520
p:25:1: asset 2 "rtu": `station` is the number 65520, out of its range
  the station of DNP3 is the outstation's link address, 0 to 65519, as station = 10

14: action = "deny"
p:14:1: asset 1 "pump", rule 2 "set": `action` is "deny"
  an action is "allow" or "refuse"

14: action = "alow"
p:14:1: asset 1 "pump", rule 2 "set": `action` is "alow"; did you mean "allow"?
  an action is "allow" or "refuse"

6: protocol = "Modbus"
p:6:1: asset 1 "pump": `protocol` is "Modbus"; did you mean "modbus"?
  a protocol is "modbus", "dnp3" or "iec104"

6: protocol = "iec-104"
p:6:1: asset 1 "pump": `protocol` is "iec-104"; did you mean "iec104"?
  a protocol is "modbus", "dnp3" or "iec104"

18: points = ["49..40"]
p:18:1: asset 1 "pump", rule 2 "set": entry 1 of `points` is the text "49..40": the first number is above the second
  points are 1 to 64 numbers or ranges from 0 to 4294967295, as points = ["7", "40..49"]

18: points = ["40-49"]
p:18:1: asset 1 "pump", rule 2 "set": entry 1 of `points` is the text "40-49": a range has two points between its numbers, as 40..49
  points are 1 to 64 numbers or ranges from 0 to 4294967295, as points = ["7", "40..49"]

18: points = ["0..9", "0x28"]
p:18:1: asset 1 "pump", rule 2 "set": entry 2 of `points` is the text "0x28": numbers are decimal
  points are 1 to 64 numbers or ranges from 0 to 4294967295, as points = ["7", "40..49"]

18: points = ["040"]
p:18:1: asset 1 "pump", rule 2 "set": entry 1 of `points` is the text "040": a number has no leading zero
  points are 1 to 64 numbers or ranges from 0 to 4294967295, as points = ["7", "40..49"]

18: points = ["-1"]
p:18:1: asset 1 "pump", rule 2 "set": entry 1 of `points` is the text "-1": the number is too low
  points are 1 to 64 numbers or ranges from 0 to 4294967295, as points = ["7", "40..49"]

18: points = ["4294967296"]
p:18:1: asset 1 "pump", rule 2 "set": entry 1 of `points` is the text "4294967296": the number is too high
  points are 1 to 64 numbers or ranges from 0 to 4294967295, as points = ["7", "40..49"]

18: points = ["99999999999999999999"]
p:18:1: asset 1 "pump", rule 2 "set": entry 1 of `points` is the text "99999999999999999999": the number is too high
  points are 1 to 64 numbers or ranges from 0 to 4294967295, as points = ["7", "40..49"]

18: points = ["@set"]
p:18:1: asset 1 "pump", rule 2 "set": entry 1 of `points` is the text "@set": sets are named in the points of rules alone, and in
    versions 2 and 3
  points are 1 to 64 numbers or ranges from 0 to 4294967295, as points = ["7", "40..49"]

18: points = ["40,41"]
p:18:1: asset 1 "pump", rule 2 "set": entry 1 of `points` is the text "40,41": each number or range is a text of its own
  points are 1 to 64 numbers or ranges from 0 to 4294967295, as points = ["7", "40..49"]

18: points = ["40 .. 49"]
p:18:1: asset 1 "pump", rule 2 "set": entry 1 of `points` is the text "40 .. 49": there are no spaces in it
  points are 1 to 64 numbers or ranges from 0 to 4294967295, as points = ["7", "40..49"]

17: groups = ["12.1"]
p:17:1: asset 1 "pump", rule 2 "set": entry 1 of `groups` is the text "12.1": a group of DNP3 is 256 times the object group, and the
    variation: 3073 for g12v1
  groups are 1 to 64 numbers or ranges from 0 to 65535, as groups = ["1", "3..5"]

19: values = ["1.5"]
p:19:1: asset 1 "pump", rule 2 "set": entry 1 of `values` is the text "1.5": numbers are whole, without a decimal point
  values are 1 to 64 numbers or ranges from -2147483648 to 4294967295, as values = ["-5..5"]

3: name = "Pump"
p:3:1: asset 1 "Pump": `name` is "Pump": it has capital letters
  a name has 1 to 32 of the letters a to z, the digits, _ and -, as name = "pump"

3: name = "pump 1"
p:3:1: asset 1 "pump 1": `name` is "pump 1": it has a space
  a name has 1 to 32 of the letters a to z, the digits, _ and -, as name = "pump"

3: name = "pump/1"
p:3:1: asset 1 "pump/1": `name` is "pump/1": it has a character that names do not have
  a name has 1 to 32 of the letters a to z, the digits, _ and -, as name = "pump"

9: name = "default"
p:9:1: asset 1 "pump", rule 1 "default": `name` is the text "default", which the log uses for what is no rule
  no two rules of an asset have the same name, and none has the name default, station or form

13: name = "poll"
p:13:1: asset 1 "pump", rule 2 "poll": `name` is the text "poll", which rule 1 of this asset has
  no two rules of an asset have the same name, and none has the name default, station or form

21: name = "pump"
p:21:1: asset 2 "pump": `name` is the text "pump", which asset 1 has
  no two assets have the same name

22: address = "10.0.0.9"
p:23:1: asset 2 "rtu": asset 1 has the same address and port
  no two assets have the same address and port; in version 3 those of a gateway may, each with a station of its own

1: version = 2 | 22: address = "10.0.0.9" | 24: protocol = "modbus" | 25: station = 2 | 26:
p:23:1: asset 2 "rtu": asset 1 has the same address and port
  no two assets have the same address and port; in version 3 those of a gateway may, each with a station of its own

1: version = 3 | 22: address = "10.0.0.9" | 24: protocol = "modbus" | 25: station = 2 | 26:
ok

1: version = 3 | 22: address = "10.0.0.9"
p:24:1: asset 2 "rtu": asset 1 has the same address and port, and another protocol
  assets with the same address and port stand one behind the other, with one protocol and stations that differ

1: version = 3 | 22: address = "10.0.0.9" | 24: protocol = "modbus" | 25: station = 1 | 26:
p:25:1: asset 2 "rtu": asset 1 has the same address, port and station
  assets with the same address and port stand one behind the other, with one protocol and stations that differ

1: version = 3 | 22: address = "10.0.0.9" | 24: protocol = "modbus" | 25: station = 2 | 26: [[asset]] / name = "b" / address = "10.0.0.9" /
    port = 502 / protocol = "modbus" / station = 2
p:31:1: asset 3 "b": asset 2 has the same address, port and station
  assets with the same address and port stand one behind the other, with one protocol and stations that differ

1: version = 3 | 26: master = 1 / [[asset]] / name = "b" / address = "10.0.0.9" / port = 502 / protocol = "modbus" / station = 2
p:30:1: asset 3 "b": asset 1 has the same address and port, and another one stands between
  assets with the same address and port stand one behind the other, with one protocol and stations that differ

text: version = 3 / asset = [{ name = "a", address = "10.0.0.9", port = 1, protocol = "dnp3", station = 1, master = 0 },
    { name = "b", address = "10.0.0.9", port = 1, protocol = "dnp3", station = 2, master = 0 },
    { name = "c", address = "10.0.0.9", port = 1, protocol = "dnp3", station = 3, master = 0 },
    { name = "d", address = "10.0.0.9", port = 1, protocol = "dnp3", station = 4, master = 0 },
    { name = "e", address = "10.0.0.9", port = 1, protocol = "dnp3", station = 5, master = 0 },
    { name = "f", address = "10.0.0.9", port = 1, protocol = "dnp3", station = 6, master = 0 },
    { name = "g", address = "10.0.0.9", port = 1, protocol = "dnp3", station = 7, master = 0 },
    { name = "h", address = "10.0.0.9", port = 1, protocol = "dnp3", station = 8, master = 0 },
    { name = "i", address = "10.0.0.9", port = 1, protocol = "dnp3", station = 8 }]
p: asset 9 "i": 8 assets of DNP3 before it have the same address and port
  at most 32 assets have the same address and port, and of DNP3 at most 8

6: protocol = “modbus”
p:6:12: this is no TOML: invalid value, expected a string, number, boolean, date-time, array or inline table; quotation marks are the
    straight ones, as "allow"
  in the line: protocol = “modbus”

17: groups = ["g12v1"]
p:17:1: asset 1 "pump", rule 2 "set": entry 1 of `groups` is the text "g12v1": a group of DNP3 is 256 times the object group, and the
    variation: 3073 for g12v1
  groups are 1 to 64 numbers or ranges from 0 to 65535, as groups = ["1", "3..5"]

19: values = ["-0"]
p:19:1: asset 1 "pump", rule 2 "set": entry 1 of `values` is the text "-0": 0 has no sign
  values are 1 to 64 numbers or ranges from -2147483648 to 4294967295, as values = ["-5..5"]

15: clients = ["10.0.0.1-10.0.0.5"]
p:15:1: asset 1 "pump", rule 2 "set": entry 1 of `clients` is the text "10.0.0.1-10.0.0.5": a range has two points between its
    addresses, as 10.0.0.5..10.0.0.9
  clients are 1 to 64 addresses or ranges, as clients = ["10.0.0.5", "10.0.0.8..10.0.0.9"]

5: port =
p:5:7: this is no TOML: invalid value, expected a string, number, boolean, date-time, array or inline table
  in the line: port =

7: station = [1, 2]
p:7:1: asset 1 "pump": `station` is a list, and has to be a whole number
  the station of Modbus is its unit identifier, 0 to 255, as station = 1

25: station = -1
p:25:1: asset 2 "rtu": `station` is the number -1, out of its range
  the station of DNP3 is the outstation's link address, 0 to 65519, as station = 10

6: station = 1 / station = 2
p:7:1: this is no TOML: duplicate key
  in the line: station = 2

8: [[asset.rule]
p:8:14: this is no TOML: unclosed array table, expected `]]`; write [[asset]] and [[asset.rule]] with two brackets each time
  in the line: [[asset.rule]

10: action = true
p:10:1: asset 1 "pump", rule 1 "poll": `action` is the boolean true, and has to be a text between quotation marks
  an action is "allow" or "refuse"

17: groups = ["0"] / groups = ["1"]
p:18:1: this is no TOML: duplicate key
  in the line: groups = ["1"]

18: points = ["40..49", # a list in lines / "x"]
p:18:1: asset 1 "pump", rule 2 "set": entry 2 of `points` is the text "x": it is no number
  points are 1 to 64 numbers or ranges from 0 to 4294967295, as points = ["7", "40..49"]

18: points = """ / points = 1"""
p:18:1: asset 1 "pump", rule 2 "set": `points` is the text "points = 1", and has to be a list of texts
  points are 1 to 64 numbers or ranges from 0 to 4294967295, as points = ["7", "40..49"]

16: codes = [ * 65 1, * ]
p:16:1: asset 1 "pump", rule 2 "set": `codes` has 65 entries
  codes are 1 to 64 whole numbers from 0 to 255, as codes = [3, 16]

8: [[ asset . rule ]] / points = [40]
p: asset 1 "pump", rule 1 "poll": entry 1 of `points` is the number 40, and has to be a text between quotation marks
  points are 1 to 64 numbers or ranges from 0 to 4294967295, as points = ["7", "40..49"]

11: codes = [3] / values = """ / [[asset.rule]] / codes = 1"""
p:12:1: asset 1 "pump", rule 1 "poll": `values` is the text "[[asset.rule]]\ncodes = 1", and has to be a list of texts
  values are 1 to 64 numbers or ranges from -2147483648 to 4294967295, as values = ["-5..5"]

10: action = "refuse" / most = 2 / seconds = 60
p:11:1: asset 1 "pump", rule 1 "poll": `most` is a key of rules that allow alone: leave it and `seconds` out
  a rule has name, action, codes, and may have clients, groups, points, values, most and seconds, and in version 3 log

19: most = 2
p:12:1: asset 1 "pump", rule 2 "set": `seconds` is missing
  the time of a rate is 1 to 86400 seconds, as seconds = 60, beside most = 2

19: seconds = 60
p:12:1: asset 1 "pump", rule 2 "set": `most` is missing
  a rule that allows may have a rate, most 1 to 64 in seconds 1 to 86400, as most = 2 and seconds = 60; at most 16 rules

19: most = 65 / seconds = 60
p:19:1: asset 1 "pump", rule 2 "set": `most` is the number 65, out of its range
  a rule that allows may have a rate, most 1 to 64 in seconds 1 to 86400, as most = 2 and seconds = 60; at most 16 rules

19: most = 64 / seconds = 86401
p:20:1: asset 1 "pump", rule 2 "set": `seconds` is the number 86401, out of its range
  the time of a rate is 1 to 86400 seconds, as seconds = 60, beside most = 2

19: most = "2" / seconds = 60
p:19:1: asset 1 "pump", rule 2 "set": `most` is the text "2", and has to be a whole number
  a rule that allows may have a rate, most 1 to 64 in seconds 1 to 86400, as most = 2 and seconds = 60; at most 16 rules

text: version = 1 / asset = [{ name = "A" }]
p: asset 1 "A": `name` is "A": it has capital letters
  a name has 1 to 32 of the letters a to z, the digits, _ and -, as name = "pump"

1: version = 1 / [[set]] / name = "low" / points = ["1"]
p:2:1: `set` is a key of versions 2 and 3 alone
  above the first table the document has version = 1, and then tables [[asset]]; versions 2 and 3 have tables [[set]] too

1: version = 2 / set = 1
p:2:1: `set` is the number 1, and has to be a list of tables
  each set of points is a table [[set]] with a name and points, at most 64

1: version = 2 / [[set]] / name = "low"
p:2:1: set 1 "low": `points` is missing
  points are 1 to 64 numbers or ranges from 0 to 4294967295, as points = ["7", "40..49"]

1: version = 2 / [[set]] / name = "low" / points = ["1"] / codes = [3]
p:5:1: set 1 "low": "codes" is no key of a set of points: it stands in a rule, below [[asset.rule]]
  a set of points has a name and points, and no other keys

1: version = 2 / [[set]] / name = "low" / points = ["1"] / [[set]] / name = "low" / points = ["2"]
p:6:1: set 2 "low": `name` is the text "low", which set 1 has
  no two sets have the same name

1: version = 2 / [[set]] / name = "low" / points = ["1", "@low"]
p:4:1: set 1 "low": entry 2 of `points` is the text "@low": sets are named in the points of rules alone, and in
    versions 2 and 3
  points are 1 to 64 numbers or ranges from 0 to 4294967295, as points = ["7", "40..49"]

1: version = 2 / [[set]] / name = "low" / points = ["1"] | 18: points = ["7", "@low", "@lwo"]
p:21:1: asset 1 "pump", rule 2 "set": entry 3 of `points` is the text "@lwo": no set has this name; did you mean "@low"?
  a set of points is a table [[set]] with a name and points, and a rule names it as points = ["@low"]

1: version = 2 | 18: points = ["@high"]
p:18:1: asset 1 "pump", rule 2 "set": entry 1 of `points` is the text "@high": no set has this name
  a set of points is a table [[set]] with a name and points, and a rule names it as points = ["@low"]

1: version = 2 / [[set]] / name = "low" / points = ["1"] | 18: points = ["@low", "40-49"]
p:21:1: asset 1 "pump", rule 2 "set": entry 2 of `points` is the text "40-49": a range has two points between its numbers, as 40..49
  points are 1 to 64 numbers or ranges from 0 to 4294967295, as points = ["7", "40..49"]

1: version = 2 | 18: points = ["@Low"]
p:18:1: asset 1 "pump", rule 2 "set": entry 1 of `points` is the text "@Low": it has capital letters
  points are 1 to 64 numbers or ranges from 0 to 4294967295, as points = ["7", "40..49"]

1: version = 2 | 18: points = ["@"]
p:18:1: asset 1 "pump", rule 2 "set": entry 1 of `points` is the text "@": behind @ stands the name of a set
  points are 1 to 64 numbers or ranges from 0 to 4294967295, as points = ["7", "40..49"]

1: version = 2 / [[set]] / name = "low" / points = ["1", "2"] | 18: points = [ * 33 "@low", * ]
p:21:1: asset 1 "pump", rule 2 "set": `points` has 33 entries, and with the points of the sets that they name more than 64
  points are 1 to 64 numbers or ranges from 0 to 4294967295, as points = ["7", "40..49"]

1: version = 3 | 16: codes = ["Write Single Register"]
p:16:1: asset 1 "pump", rule 2 "set": entry 1 of `codes` is the text "Write Single Register": no code of the protocol has this name;
    did you mean "write single register"?
  codes are 1 to 64 whole numbers from 0 to 255 or names of functions, as codes = [3, "write single register"]

1: version = 3 | 16: codes = [6, "write singel coil"]
p:16:1: asset 1 "pump", rule 2 "set": entry 2 of `codes` is the text "write singel coil": no code of the protocol has this name; did
    you mean "write single coil"?
  codes are 1 to 64 whole numbers from 0 to 255 or names of functions, as codes = [3, "write single register"]

1: version = 3 | 16: codes = ["diagnostics"]
p:16:1: asset 1 "pump", rule 2 "set": entry 1 of `codes` is the text "diagnostics": no code of the protocol has this name
  codes are 1 to 64 whole numbers from 0 to 255 or names of functions, as codes = [3, "write single register"]

1: version = 3 | 16: codes = ["C_SC_NA_1"]
p:16:1: asset 1 "pump", rule 2 "set": entry 1 of `codes` is the text "C_SC_NA_1": it is a name of IEC 60870-5-104, which is not the
    protocol of the asset
  codes are 1 to 64 whole numbers from 0 to 255 or names of functions, as codes = [3, "write single register"]

1: version = 3 | 16: codes = ["6"]
p:16:1: asset 1 "pump", rule 2 "set": entry 1 of `codes` is the text "6": a number among codes stands without quotation marks
  codes are 1 to 64 whole numbers from 0 to 255 or names of functions, as codes = [3, "write single register"]

1: version = 3 | 16: codes = [true]
p:16:1: asset 1 "pump", rule 2 "set": entry 1 of `codes` is the boolean true, and has to be a whole number, or a name between quotation
    marks
  codes are 1 to 64 whole numbers from 0 to 255 or names of functions, as codes = [3, "write single register"]

16: codes = ["write single register"]
p:16:1: asset 1 "pump", rule 2 "set": entry 1 of `codes` is the text "write single register", and has to be a whole number; names of
    codes and groups are read in version 3: write version = 3
  codes are 1 to 64 whole numbers from 0 to 255, as codes = [3, 16]

1: version = 2 | 16: codes = ["read"]
p:16:1: asset 1 "pump", rule 2 "set": entry 1 of `codes` is the text "read", and has to be a whole number; it is a name of DNP3, which
    is not the protocol of the asset
  codes are 1 to 64 whole numbers from 0 to 255, as codes = [3, 16]

1: version = 3 | 17: groups = ["g12v1"]
p:17:1: asset 1 "pump", rule 2 "set": entry 1 of `groups` is the text "g12v1": it is a name of DNP3, which is not the protocol of the
    asset
  groups are 1 to 64 numbers or ranges from 0 to 65535, as groups = ["1", "3..5"]

1: version = 3 | 6: protocol = "dnp3" | 7: station = 1 / master = 1 | 17: groups = ["g12v01"]
p:18:1: asset 1 "pump", rule 2 "set": entry 1 of `groups` is the text "g12v01": a group by its name is an object group and a variation
    from 0 to 255, without leading zeros, as g12v1
  groups are 1 to 64 numbers or ranges from 0 to 65535 or names, as groups = ["3073", "g60v1..g60v4"]

1: version = 3 | 6: protocol = "dnp3" | 7: station = 1 / master = 1 | 17: groups = ["g60v1..15364", "g60v4..g60v1"]
p:18:1: asset 1 "pump", rule 2 "set": entry 2 of `groups` is the text "g60v4..g60v1": the first number is above the second
  groups are 1 to 64 numbers or ranges from 0 to 65535 or names, as groups = ["3073", "g60v1..g60v4"]

1: version = 2 | 6: protocol = "dnp3" | 7: station = 1 / master = 1 | 17: groups = ["g12v1"]
p:18:1: asset 1 "pump", rule 2 "set": entry 1 of `groups` is the text "g12v1": names of codes and groups are read in version 3: write
    version = 3
  groups are 1 to 64 numbers or ranges from 0 to 65535, as groups = ["1", "3..5"]

1: version = 3 | 6: protocol = "iec104" | 17: groups = ["activatoin"]
p:17:1: asset 1 "pump", rule 2 "set": entry 1 of `groups` is the text "activatoin": groups by their names are request, activation and
    deactivation; did you mean "activation"?
  groups are 1 to 64 numbers or ranges from 0 to 65535 or names, as groups = ["6", "deactivation"]

1: version = 3 | 18: points = ["@Low"]
p:18:1: asset 1 "pump", rule 2 "set": entry 1 of `points` is the text "@Low": it has capital letters
  points are 1 to 64 numbers or ranges from 0 to 4294967295, as points = ["7", "40..49"]

18: points = ["0.5..1.5"]
p:18:1: asset 1 "pump", rule 2 "set": entry 1 of `points` is the text "0.5..1.5": numbers are whole, without a decimal point
  points are 1 to 64 numbers or ranges from 0 to 4294967295, as points = ["7", "40..49"]

18: points = ["0-9"]
p:18:1: asset 1 "pump", rule 2 "set": entry 1 of `points` is the text "0-9": a range has two points between its numbers, as 40..49
  points are 1 to 64 numbers or ranges from 0 to 4294967295, as points = ["7", "40..49"]

19: values = ["-05"]
p:19:1: asset 1 "pump", rule 2 "set": entry 1 of `values` is the text "-05": a number has no leading zero
  values are 1 to 64 numbers or ranges from -2147483648 to 4294967295, as values = ["-5..5"]

18: points = ["any"]
p:18:1: asset 1 "pump", rule 2 "set": entry 1 of `points` is the text "any": a rule without `points` is for every point: leave the key
    out
  points are 1 to 64 numbers or ranges from 0 to 4294967295, as points = ["7", "40..49"]

19: values = ["0..5", "*"]
p:19:1: asset 1 "pump", rule 2 "set": entry 2 of `values` is the text "*": a rule without `values` is for every value: leave the key
    out
  values are 1 to 64 numbers or ranges from -2147483648 to 4294967295, as values = ["-5..5"]

15: clients = "any"
p:15:1: asset 1 "pump", rule 2 "set": `clients` is the text "any", and has to be a list of texts; a rule without `clients` is for every
    client: leave the key out
  clients are 1 to 64 addresses or ranges, as clients = ["10.0.0.5", "10.0.0.8..10.0.0.9"]

17: groups = ["All"]
p:17:1: asset 1 "pump", rule 2 "set": entry 1 of `groups` is the text "All": a rule without `groups` is for every group: leave the key
    out
  groups are 1 to 64 numbers or ranges from 0 to 65535, as groups = ["1", "3..5"]

16: codes = ["all"]
p:16:1: asset 1 "pump", rule 2 "set": entry 1 of `codes` is the text "all", and has to be a whole number; a rule names each of its codes
  codes are 1 to 64 whole numbers from 0 to 255, as codes = [3, 16]

1: version = 3 | 16: codes = ["any"]
p:16:1: asset 1 "pump", rule 2 "set": entry 1 of `codes` is the text "any": a rule names each of its codes
  codes are 1 to 64 whole numbers from 0 to 255 or names of functions, as codes = [3, "write single register"]

1: version = 2 / [[set]] / name = "low" / points = ["all"]
p:4:1: set 1 "low": entry 1 of `points` is the text "all": it is no number
  points are 1 to 64 numbers or ranges from 0 to 4294967295, as points = ["7", "40..49"]

4: address = "10.0.0.9/32"
p:4:1: asset 1 "pump": `address` is "10.0.0.9/32": one address stands there, and no network: leave out the slash and what is behind it
  an address is four numbers from 0 to 255, without leading zeros, as address = "10.0.0.9"

4: address = "10.0.0.9..10.0.0.12"
p:4:1: asset 1 "pump": `address` is "10.0.0.9..10.0.0.12": one address stands there, and no range
  an address is four numbers from 0 to 255, without leading zeros, as address = "10.0.0.9"

7: stations = [1, 2]
p:7:1: asset 1 "pump": "stations" is no key of an asset: it has one, as station = 1; in version 3 several assets may have one address
    and port
  an asset has name, address, port, protocol, station, for DNP3 master, and tables [[asset.rule]]

octets:d4c3b2a1 02000400 0000000000000000ffff0000 01000000
p: it begins as a capture does, and a policy is a text
  in the words of a command POLICY stands before CAPTURE, as cmdwall judge POLICY CAPTURE

octets:a1b23c4d
p: it begins as a capture does, and a policy is a text
  in the words of a command POLICY stands before CAPTURE, as cmdwall judge POLICY CAPTURE

octets:0a0d0d0a 1c000000 4d3c2b1a
p: it begins as a capture does, and a policy is a text
  in the words of a command POLICY stands before CAPTURE, as cmdwall judge POLICY CAPTURE

octets:fffe 7600 6500
p: it begins as a text in UTF-16 does, and a policy is a text in UTF-8
  save it as UTF-8

octets:0076 0065
p: it begins as a text in UTF-16 does, and a policy is a text in UTF-8
  save it as UTF-8

octets:7600 6500
p: it begins as a text in UTF-16 does, and a policy is a text in UTF-8
  save it as UTF-8

octets:0a23 e9
p:2:2: this is no TOML: invalid UTF-8
  save the text as UTF-8

14: action = "refuse" | 19: most = 2
p:19:1: asset 1 "pump", rule 2 "set": `most` is a key of rules that allow alone: leave it and `seconds` out
  a rule has name, action, codes, and may have clients, groups, points, values, most and seconds, and in version 3 log"#;

/// The message about a policy that is refused.
pub(super) fn message(alloc: Global, changes: &str) -> Result<String, Fail> {
    let octets = policy_octets(alloc, LINES, changes)?;
    match read_policy(alloc, &octets) {
        Ok(_) => Ok(String::from_str(alloc, "ok")?),
        Err(PolicyFault::Refused(refusal)) => Ok(policy_message(alloc, "p", &octets, &refusal)?),
        Err(PolicyFault::NoMemory) => Err(AllocError.into()),
    }
}
