//! Comparisons of two policies, what is said of them, and how many cells the first assets of two have: by hand from what each is said
//! to mean.
ghost use Rattle.std.specs.Prelude.{IfOk};
ghost use Rattle.cf_policy.specs.Within.{IsWithin};

use crate::tests::changes::policy_octets;
use cf_compare::{CompareFault, Compared, cells, compare};
use cf_explain::{PolicyFile, differences_text, inclusion_message, kept_text};
use cf_policy::Policy;
use cf_policylang::read_policy;
use std::alloc::Global;
use std::fmt::Write;
use std::test::Fail;

/// A policy with a word before each line that the rows replace. `more` stands before the first asset, `last` after it.
const LINES: &str = r#"version: version = 1
more:
: [[asset]]
name: name = "pump"
address: address = "10.0.0.9"
port: port = 502
protocol: protocol = "modbus"
station: station = 1
master:
poll: [[asset.rule]] / name = "poll" / action = "allow" / codes = [3]
set: [[asset.rule]] / name = "set" / action = "allow" / codes = [6, 16]
points: points = ["40..49"]
values: values = ["0..500"]
last:"#;

/// A row: the changes of the first policy, `-` for none, those of the second, and what their comparison says. `@numbers` and
/// `@addresses` are 64 of them that do not touch. A line that begins with four spaces goes on with the one before it.
pub(super) const COMPARISONS: &str = r#"- ; - => Ok(Included)
text: version = 1 / asset = [] ; - => Ok(Included)
- ; text: version = 1 / asset = [] => Ok(Missing(0))
poll: [[asset.rule]] / name = "r1" / action = "allow" / clients = ["10.0.0.5"] / codes = [3] / groups = ["0"] / points =
    ["0..1"] | set: [[asset.rule]] / name = "r2" / action = "allow" / clients = ["10.0.0.5"] / codes = [6] / groups = ["0"] |
    points: points = ["40"] | values: values = ["100"] ; - => Ok(Included)
- ; poll: [[asset.rule]] / name = "r1" / action = "allow" / clients = ["10.0.0.5"] / codes = [3] / groups = ["0"] / points =
    ["0..1"] => Ok(Shown { asset: 0, client: 0, act: Act { code: 3, group: 0, point: 0, value: None } })
- ; values: values = ["0..400"] => Ok(Shown { asset: 0, client: 0, act: Act { code: 6, group: 0, point: 40, value: Some(401) } })
values: values = ["0..400"] ; - => Ok(Included)
- ; values: values = ["-5..399", "401..500"] => Ok(Shown { asset: 0, client: 0, act: Act { code: 6, group: 0, point: 40,
    value: Some(400) } })
values: ; - => Ok(Shown { asset: 0, client: 0, act: Act { code: 6, group: 0, point: 40, value: None } })
values: ; values: values = ["-2147483648..4294967295"] => Ok(Shown { asset: 0, client: 0, act: Act { code: 6, group: 0, point:
    40, value: None } })
values: values = ["-7..500"] ; - => Ok(Shown { asset: 0, client: 0, act: Act { code: 6, group: 0, point: 40, value: Some(-7) } })
- ; points: points = ["40..44", "46..49"] => Ok(Shown { asset: 0, client: 0, act: Act { code: 6, group: 0, point: 45, value:
    Some(0) } })
- ; points: groups = ["0..6", "8..65535"] / points = ["40..49"] => Ok(Shown { asset: 0, client: 0, act: Act { code: 6, group:
    7, point: 40, value: Some(0) } })
- ; points: clients = ["0.0.0.0..10.0.0.4", "10.0.0.6..255.255.255.255"] / points = ["40..49"] => Ok(Shown { asset: 0, client:
    167772165, act: Act { code: 6, group: 0, point: 40, value: Some(0) } })
points: points = ["0..4294967295"] ; points: points = ["0..4294967294"] => Ok(Shown { asset: 0, client: 0, act: Act { code: 6,
    group: 0, point: 4294967295, value: Some(0) } })
poll: [[asset.rule]] / name = "poll" / action = "allow" / clients = ["10.0.0.5"] / codes = [3] ; poll: | set: | points: |
    values: => Ok(Shown { asset: 0, client: 167772165, act: Act { code: 3, group: 0, point: 0, value: None } })
- ; points: points = ["40..49"] | set: [[asset.rule]] / name = "set" / action = "allow" / codes = [6] => Ok(Shown { asset: 0,
    client: 0, act: Act { code: 16, group: 0, point: 40, value: Some(0) } })
- ; poll: [[asset.rule]] / name = "no" / action = "refuse" / codes = [3] / points = ["7"] / [[asset.rule]] / name = "poll" /
    action = "allow" / codes = [3] => Ok(Shown { asset: 0, client: 0, act: Act { code: 3, group: 0, point: 7, value: None } })
- ; values: values = ["0..500"] / [[asset.rule]] / name = "no" / action = "refuse" / codes = [3, 6, 16] => Ok(Included)
poll: [[asset.rule]] / name = "no" / action = "refuse" / codes = [3] / points = ["7"] / [[asset.rule]] / name = "poll" /
    action = "allow" / codes = [3] ; poll: [[asset.rule]] / name = "poll" / action = "allow" / codes = [3] / points = ["0..6",
    "8..4294967295"] => Ok(Included)
- ; values: values = ["0..500"] / most = 1 / seconds = 60 => Ok(Included)
values: values = ["0..500"] / most = 1 / seconds = 60 ; - => Ok(Included)
- ; name: name = "pomp" => Ok(Missing(0))
- ; address: address = "10.0.0.8" => Ok(Missing(0))
- ; port: port = 503 => Ok(Missing(0))
- ; protocol: protocol = "iec104" => Ok(Missing(0))
- ; station: station = 2 => Ok(Missing(0))
protocol: protocol = "dnp3" | master: master = 1 ; protocol: protocol = "dnp3" | master: master = 2 => Ok(Missing(0))
- ; more: [[asset]] / name = "a" / address = "10.0.0.7" / port = 502 / protocol = "modbus" / station = 1 => Ok(Included)
last: [[asset]] / name = "b" / address = "10.0.0.7" / port = 502 / protocol = "modbus" / station = 1 ; - => Ok(Missing(1))
last: [[asset]] / name = "b" / address = "10.0.0.7" / port = 502 / protocol = "modbus" / station = 1 ; values: values =
    ["0..400"] => Ok(Shown { asset: 0, client: 0, act: Act { code: 6, group: 0, point: 40, value: Some(401) } })
more: [[asset]] / name = "a" / address = "10.0.0.7" / port = 502 / protocol = "modbus" / station = 1 ; more: [[asset]] / name
    = "a" / address = "10.0.0.7" / port = 502 / protocol = "modbus" / station = 1 | values: values = ["0..400"] => Ok(Shown {
    asset: 1, client: 0, act: Act { code: 6, group: 0, point: 40, value: Some(401) } })
poll: [[asset.rule]] / name = "many" / action = "allow" / codes = [3] / clients = [@addresses] / groups = [@numbers] / points
    = [@numbers] / values = [@numbers] | set: | points: | values: ; poll: [[asset.rule]] / name = "many" / action = "allow" /
    codes = [3] / clients = [@addresses] / groups = [@numbers] / points = [@numbers] / values = [@numbers] | set: | points: |
    values: => Err(Cells(0))
poll: [[asset.rule]] / name = "many" / action = "allow" / codes = [3] / clients = [@addresses] / groups = [@numbers] / points
    = [@numbers] ; name: name = "pomp" => Ok(Missing(0))
poll: [[asset.rule]] / name = "some" / action = "allow" / codes = [3] / clients = [@addresses] / points = [@numbers] ; poll:
    [[asset.rule]] / name = "some" / action = "allow" / codes = [3] / clients = [@addresses] / points = [@numbers] =>
    Ok(Included)"#;

/// A row: the same, and the number of cells of the first assets.
pub(super) const CELLS: &str =
    r#"poll: | set: | points: | values: ; poll: | set: | points: | values: => 512
- ; poll: | set: | points: | values: => 532
poll: | set: | points: | values: ; - => 532
- ; - => 532
poll: [[asset.rule]] / name = "a" / action = "allow" / clients = ["10.0.0.5"] / codes = [3] | set: | points: | values: ; poll:
    | set: | points: | values: => 516
poll: [[asset.rule]] / name = "a" / action = "refuse" / codes = [3] / points = ["4294967290..4294967295"] | set: | points: |
    values: ; poll: | set: | points: | values: => 514
poll: [[asset.rule]] / name = "a" / action = "allow" / codes = [3] / values = ["-2147483648..-1"] | set: | points: | values: ;
    poll: | set: | points: | values: => 513
poll: [[asset.rule]] / name = "a" / action = "allow" / codes = [3] / points = ["40..49"] | set: | points: | values: ; poll:
    [[asset.rule]] / name = "a" / action = "allow" / codes = [3] / points = ["50..59"] | set: | points: | values: => 518
poll: [[asset.rule]] / name = "a" / action = "allow" / codes = [3] / groups = ["0", "7..8"] / points = ["0"] | set: | points:
    | values: ; poll: | set: | points: | values: => 526
poll: [[asset.rule]] / name = "many" / action = "allow" / codes = [3] / clients = [@addresses] / groups = [@numbers] / points
    = [@numbers] / values = [@numbers] | set: | points: | values: ; - => 1000001"#;

/// A row: the changes of the policies in the files p and q, and why the first is not included in the second.
pub(super) const REASONS: &str = r#"- ; -
p allows only what q allows

- ; values: values = ["0..400"]
p:14:1: asset 1 "pump", rule 2 "set" allows code 6 (write single register), group 0, point 40, value 401 from 0.0.0.0
  q: asset 1 "pump": no allow rule with its client, code, group and point has the value, so default refuses it

- ; points: points = ["41..49"]
p:14:1: asset 1 "pump", rule 2 "set" allows code 6 (write single register), group 0, point 40, value 0 from 0.0.0.0
  q: asset 1 "pump": no allow rule with its client, code and group has the point, so default refuses it

poll: [[asset.rule]] / name = "poll" / action = "allow" / clients = ["10.20.30.40"] / codes = [3] ; poll:
p:10:1: asset 1 "pump", rule 1 "poll" allows code 3 (read holding registers), group 0, point 0, without a value from 10.20.30.40
  q: asset 1 "pump": no allow rule has its client, code and group, so default refuses it

- ; poll: [[asset.rule]] / name = "no" / action = "refuse" / codes = [3] / points = ["7"] / [[asset.rule]] / name = "poll" / action = "allow" / codes = [3]
p:10:1: asset 1 "pump", rule 1 "poll" allows code 3 (read holding registers), group 0, point 7, without a value from 0.0.0.0
  q:10:1: asset 1 "pump", rule 1 "no" refuses it

values: ; -
p:14:1: asset 1 "pump", rule 2 "set" allows code 6 (write single register), group 0, point 40, without a value from 0.0.0.0
  q: asset 1 "pump": no allow rule with its client, code, group and point has the value, so default refuses it
  no command has this act: a comparison goes over all numbers that rules can name
  the first that a command has:
p:14:1: asset 1 "pump", rule 2 "set" allows code 6 (write single register), group 0, point 40, value 501 from 0.0.0.0
  q: asset 1 "pump": no allow rule with its client, code, group and point has the value, so default refuses it

poll: [[asset.rule]] / name = "a" / action = "allow" / codes = [3] / values = ["0..9"] ; poll:
p:10:1: asset 1 "pump", rule 1 "a" allows code 3 (read holding registers), group 0, point 0, value 0 from 0.0.0.0
  q: asset 1 "pump": no allow rule has its client, code and group, so default refuses it
  no command has this act: a comparison goes over all numbers that rules can name
  of the acts that commands have, this asset allows none beyond

protocol: protocol = "iec104" | poll: [[asset.rule]] / name = "sp" / action = "allow" / codes = [49] / groups = ["6"] / points = ["7"] / values = ["-5"] ; protocol: protocol = "iec104" | poll:
p:10:1: asset 1 "pump", rule 1 "sp" allows code 49 (set-point command, scaled value), group 6, point 7, value -5 from 0.0.0.0
  q: asset 1 "pump": no allow rule has its client, code and group, so default refuses it

protocol: protocol = "dnp3" | master: master = 1 | poll: [[asset.rule]] / name = "read" / action = "allow" / codes = [1] ; protocol: protocol = "dnp3" | master: master = 1 | poll:
p:10:1: asset 1 "pump", rule 1 "read" allows code 1 (read), group 0, point 0, without a value from 0.0.0.0
  q: asset 1 "pump": no allow rule has its client, code and group, so default refuses it

- ; name: name = "pomp"
p: asset 1 "pump" has no partner
  q: it has no asset of this name

- ; more: [[asset]] / name = "a" / address = "10.0.0.7" / port = 502 / protocol = "modbus" / station = 1 | station: station = 2
p: asset 1 "pump" has no partner
  q: asset 2 "pump" has another station

- ; port: port = 503
p: asset 1 "pump" has no partner
  q: asset 1 "pump" has another port

poll: [[asset.rule]] / name = "many" / action = "allow" / codes = [3] / clients = [@addresses] / groups = [@numbers] / points = [@numbers] ; -
p: asset 1 "pump": the ends of the ranges in its rules and in those of q make more than 1000000 cells
  fewer entries in the rules of one code make fewer"#;

/// A row: the same, the rules whose rates or logs differ, and a point.
pub(super) const KEPT: &str = r#"- ; -
.

- ; values: values = ["0..500"] / most = 1 / seconds = 60
p:14:1: note: asset 1 "pump", rule 2 "set" has no rate, and no log; in q it has most = 1 and seconds = 60, and no log
.

values: values = ["0..500"] / most = 2 / seconds = 60 ; values: values = ["0..500"] / most = 1 / seconds = 60
p:14:1: note: asset 1 "pump", rule 2 "set" has most = 2 and seconds = 60, and no log; in q it has most = 1 and seconds = 60, and no log
.

version: version = 3 | values: values = ["0..500"] / most = 1 / seconds = 60 / log = true ; values: values = ["0..500"] / most = 1 / seconds = 60
p:14:1: note: asset 1 "pump", rule 2 "set" has most = 1 and seconds = 60, and log = true; in q it has most = 1 and seconds = 60, and no log
.

version: version = 3 | values: values = ["0..500"] / most = 1 / seconds = 60 / log = true ; version: version = 3 | values: values = ["0..500"] / most = 1 / seconds = 60 / log = true
.

set: [[asset.rule]] / name = "put" / action = "allow" / codes = [6, 16] ; values: values = ["0..500"] / most = 1 / seconds = 60
q:14:1: note: asset 1 "pump", rule 2 "set" has most = 1 and seconds = 60, and no log; in p the asset has no rule of this name
.

values: values = ["0..500"] / most = 1 / seconds = 60 ; set: [[asset.rule]] / name = "put" / action = "allow" / codes = [6, 16]
p:14:1: note: asset 1 "pump", rule 2 "set" has most = 1 and seconds = 60, and no log; in q the asset has no rule of this name
.

values: values = ["0..500"] / most = 1 / seconds = 60 ; name: name = "pomp"
.

- ; more: [[asset]] / name = "a" / address = "10.0.0.7" / port = 502 / protocol = "modbus" / station = 1 | values: values = ["0..500"] / most = 1 / seconds = 60
p:14:1: note: asset 1 "pump", rule 2 "set" has no rate, and no log; in q it has most = 1 and seconds = 60, and no log
."#;

/// A row: the same, of each code of an asset the first act of a command that only the first policy allows, and a point.
pub(super) const DIFFERENCES: &str = r#"- ; -
.

set: [[asset.rule]] / name = "set" / action = "allow" / codes = [6] ; values: values = ["0..400"]
.

- ; values: values = ["0..400"]
p allows more that q refuses; of each code of an asset the first act that a command has, at most 20:
p:14:1: asset 1 "pump", rule 2 "set" allows code 6 (write single register), group 0, point 40, value 401 from 0.0.0.0
  q: asset 1 "pump": no allow rule with its client, code, group and point has the value, so default refuses it
p:14:1: asset 1 "pump", rule 2 "set" allows code 16 (write multiple registers), group 0, point 40, value 401 from 0.0.0.0
  q: asset 1 "pump": no allow rule with its client, code, group and point has the value, so default refuses it
.

set: [[asset.rule]] / name = "set" / action = "allow" / codes = [6] | last: [[asset]] / name = "b" / address = "10.0.0.7" / port = 502 / protocol = "modbus" / station = 1 / [[asset.rule]] / name = "poll" / action = "allow" / codes = [3] ; values: values = ["0..400"] | last: [[asset]] / name = "b" / address = "10.0.0.7" / port = 502 / protocol = "modbus" / station = 1
p allows more that q refuses; of each code of an asset the first act that a command has, at most 20:
p:14:1: asset 1 "pump", rule 2 "set" allows code 6 (write single register), group 0, point 40, value 401 from 0.0.0.0
  q: asset 1 "pump": no allow rule with its client, code, group and point has the value, so default refuses it
p:26:1: asset 2 "b", rule 1 "poll" allows code 3 (read holding registers), group 0, point 0, without a value from 0.0.0.0
  q: asset 2 "b": no allow rule has its client, code and group, so default refuses it
.

set: [[asset.rule]] / name = "set" / action = "allow" / clients = [@addresses] / codes = [1, 2, 16] | points: points = [@numbers] | values: ; -
p allows more that q refuses; of each code of an asset the first act that a command has, at most 20:
p:14:1: asset 1 "pump", rule 2 "set" allows code 1 (read coils), group 0, point 1, without a value from 0.0.0.1
  q: asset 1 "pump": no allow rule has its client, code and group, so default refuses it
p:14:1: asset 1 "pump", rule 2 "set" allows code 2 (read discrete inputs), group 0, point 1, without a value from 0.0.0.1
  q: asset 1 "pump": no allow rule has its client, code and group, so default refuses it
there may be more: no more acts are looked at than 20000
."#;

/// What is said of two policies.
#[derive(Clone, Copy)]
pub(super) enum Telling {
    /// Why the first is not included in the second.
    Reason,
    /// The rules whose rates or logs differ, and a point after the last line.
    Kept,
    /// Of each code the first difference, and a point after the last line.
    Differences,
}

/// What is said of two policies, in the files p and q.
pub(super) fn said(alloc: Global, given: &str, what: Telling) -> Result<String, Fail> {
    let (ours, other) = given.split_once(" ; ").unwrap_or((given, given));
    let (text, other_text) = (octets(alloc, ours)?, octets(alloc, other)?);
    let (ours, other) = (policy(alloc, ours)?, policy(alloc, other)?);
    let ours = PolicyFile {
        name: "p",
        text: text.as_slice(),
        policy: &ours,
    };
    let other = PolicyFile {
        name: "q",
        text: other_text.as_slice(),
        policy: &other,
    };
    let answer = compare(alloc, ours.policy, other.policy);
    let mut text = match what {
        Telling::Reason => return Ok(inclusion_message(alloc, &ours, &other, &answer)?),
        Telling::Kept => kept_text(alloc, &ours, &other)?,
        Telling::Differences => differences_text(alloc, &ours, &other, place_of(&answer))?,
    };
    text.push_str(".")?;
    Ok(text)
}

/// The place of the asset that a comparison stopped at.
fn place_of(answer: &Result<Compared, CompareFault>) -> u32 {
    match answer {
        Ok(Compared::Missing(place) | Compared::Shown { asset: place, .. })
        | Err(CompareFault::Cells(place)) => *place,
        _ => 0,
    }
}

/// What the comparison of two policies says.
pub(super) fn compared(alloc: Global, given: &str) -> Result<String, Fail> {
    let (ours, other) = given.split_once(" ; ").unwrap_or((given, given));
    let ours = policy(alloc, ours)?;
    let other = policy(alloc, other)?;
    let found = compare(alloc, &ours, &other);
    Ok(format!(in alloc; "{found:?}")?)
}

/// The number of cells of the first assets of two policies.
pub(super) fn counted(alloc: Global, given: &str) -> Result<String, Fail> {
    let (ours, other) = given.split_once(" ; ").unwrap_or((given, given));
    let ours = policy(alloc, ours)?;
    let other = policy(alloc, other)?;
    let (Some(ours), Some(other)) = (
        ours.assets.as_slice().first(),
        other.assets.as_slice().first(),
    ) else {
        return Err("no asset".into());
    };
    match cells(alloc, ours, other) {
        Ok(count) => Ok(format!(in alloc; "{count}")?),
        Err(_) => Err("no memory".into()),
    }
}

/// The policy that has these changes.
fn policy(alloc: Global, changes: &str) -> Result<Policy, Fail>
    ensures { IfOk result (λ p. IsWithin p) }
{
    let text = octets(alloc, changes)?;
    Ok(read_policy(alloc, text.as_slice())?)
}

/// Its octets.
fn octets(alloc: Global, changes: &str) -> Result<Vec<u8>, Fail> {
    let changes = changes.replace(alloc, "@addresses", &entries(alloc, "0.0.0.")?)?;
    let changes = changes.replace(alloc, "@numbers", &entries(alloc, "")?)?;
    policy_octets(alloc, LINES, &changes)
}

/// Entries of a list, each after this front, that do not touch.
fn entries(alloc: Global, front: &str) -> Result<String, Fail> {
    let mut text = String::new(alloc);
    for place in 0..64u32 {
        let number = 3 * place + 1;
        write!(&mut text, "\"{front}{number}\", ")?;
    }
    Ok(text)
}
