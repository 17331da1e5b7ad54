//! Verdicts about acts, by all rules of an asset and by the index of a client.
ghost use Rattle.std.specs.Prelude.{IfSome};
ghost use Rattle.cf_policy.specs.Verdict.{IsInside};
ghost use Rattle.cf_policy.specs.Within.{AreAssetsWithin, IsAssetWithin};

use cf_policy::{Asset, CodeIndex, Decider, Verdict, decider_name, verdict};
use cf_policylang::read_policy;
use cf_view::{Act, Reason};
use std::alloc::{AllocError, Global};
use std::fmt::Write;
use std::test::Fail;

/// In `pump` reads are allowed before some writes are refused; in `gate` one point is refused amid those that are allowed.
const POLICY: &[u8] = br#"version = 1
[[asset]]
name = "pump"
address = "10.0.0.9"
port = 502
protocol = "modbus"
station = 1
rule = [
  { name = "poll", action = "allow", codes = [3] },
  { name = "keep", action = "refuse", codes = [6], points = ["48..49"] },
  { name = "top", action = "refuse", codes = [6], values = ["400..500"] },
  { name = "none", action = "refuse", clients = ["0.0.0.9"], codes = [3, 4, 5, 6] },
  { name = "set", action = "allow", clients = ["0.0.0.1..0.0.0.5"], codes = [6, 16], groups = ["0"], points = ["40..49"], values = [
    "-2..500"] },
]
[[asset]]
name = "gate"
address = "10.0.0.10"
port = 502
protocol = "modbus"
station = 1
rule = [
  { name = "a", action = "refuse", codes = [6], points = ["45"] },
  { name = "set", action = "allow", codes = [6], points = ["40..49"] },
  { name = "poll", action = "allow", codes = [3], points = ["0..65535"] },
]"#;

/// A row: the asset, the client, code, group, point and value of an act; and the name of what decides, with the reason
/// where the act is refused.
pub(super) const ACTS: &str = "pump 1 3 0 0 - => poll
pump 9 3 1 7 1 => poll
pump 9 4 0 0 - => none function
pump 9 7 0 0 - => default function
pump 9 6 0 0 - => none function
pump 1 6 0 47 399 => set
pump 5 16 0 40 500 => set
pump 5 16 0 49 -2 => set
pump 1 6 0 48 399 => keep point
pump 1 6 0 48 400 => keep point
pump 1 6 0 47 400 => top value
pump 1 6 0 47 - => default value
pump 1 16 0 47 501 => default value
pump 1 16 0 47 -3 => default value
pump 1 16 0 50 501 => default point
pump 1 16 0 39 1 => default point
pump 1 16 1 40 1 => default function
pump 6 16 0 40 1 => default function
gate 5 6 0 45 1 => a point
gate 5 6 0 46 1 => set
gate 5 0 0 45 1 => default function
gate 5 2 0 45 1 => default function
gate 5 3 0 44 1 => poll
gate 5 3 0 45 1 => poll
gate 5 3 0 46 1 => poll
gate 5 4 0 45 1 => default function
gate 5 5 0 45 1 => default function
gate 5 6 0 44 1 => set
gate 5 6 0 39 1 => default point
gate 5 6 0 50 1 => default point
gate 5 7 0 45 1 => default function
gate 5 255 0 45 1 => default function";

fn word(given: &str, place: usize) -> &str {
    given.split(' ').nth(place).unwrap_or("")
}

/// A number of a row, 0 where there is none.
fn number(given: &str, place: usize) -> u32 {
    word(given, place).parse::<u32>().unwrap_or(0)
}

fn small(given: &str, place: usize) -> u16 {
    word(given, place).parse::<u16>().unwrap_or(0)
}

/// What decides about an act; both where all rules and the index differ.
pub(super) fn decided(alloc: Global, given: &str) -> Result<String, Fail> {
    let policy = read_policy(alloc, POLICY)?;
    let Some(asset) = asset_named(policy.assets.as_slice(), word(given, 0)) else {
        return Err("no asset".into());
    };
    let act = Act {
        code: small(given, 2),
        group: small(given, 3),
        point: number(given, 4),
        value: word(given, 5).parse::<i64>().ok(),
    };
    let client = number(given, 1);
    let index = CodeIndex::new(alloc, asset, client)?;
    let mut text = spelled(alloc, asset, &verdict(asset, client, &act))?;
    let by_index = spelled(alloc, asset, &index.verdict(asset, &act))?;
    if by_index.as_str() != text.as_str() {
        text.push_str(", by its index ")?;
        text.push_str(&by_index)?;
    }
    Ok(text)
}

fn asset_named<'a>(assets: &'a [Asset], name: &str) -> Option<&'a Asset>
    requires { AreAssetsWithin assets.now }
    ensures { IfSome result (λ asset. IsAssetWithin asset.now) }
{
    assets.iter().find(|asset| asset.name.as_str() == name)
}

/// The name of what decides, and the reason of a refusal.
fn spelled(alloc: Global, asset: &Asset, verdict: &Verdict) -> Result<String, AllocError>
    requires { IsInside asset.now.rules verdict.now }
{
    match verdict {
        Verdict::Allow(number) => {
            String::from_str(alloc, decider_name(asset, &Decider::Rule(*number)))
        }
        Verdict::Refuse(decider, reason) => {
            let mut text = String::from_str(alloc, decider_name(asset, decider))?;
            text.push_str(reason_word(*reason))?;
            Ok(text)
        }
    }
}

fn reason_word(reason: Reason) -> &'static str {
    match reason {
        Reason::Function => " function",
        Reason::Point => " point",
        Reason::Value => " value",
        Reason::Station => " station",
    }
}

/// A row: an asset and a client; the pairs of code and rule of its index; and the names of what decides by no rule, and of
/// what does where rule 1 is spent.
pub(super) const INDEXES: &str = "pump 1 => 3 0, 6 1, 6 2, 6 4, 16 4; station form default keep
pump 9 => 3 0, 3 3, 4 3, 5 3, 6 1, 6 2, 6 3; station form default keep
gate 5 => 3 2, 6 0, 6 1; station form default set";

/// The pairs of an index, and names.
pub(super) fn indexed(alloc: Global, given: &str) -> Result<String, Fail> {
    let policy = read_policy(alloc, POLICY)?;
    let Some(asset) = asset_named(policy.assets.as_slice(), word(given, 0)) else {
        return Err("no asset".into());
    };
    let index = CodeIndex::new(alloc, asset, number(given, 1))?;
    let mut text = String::new(alloc);
    for pair in index.pairs() {
        let mark = if text.is_empty() { "" } else { ", " };
        write!(&mut text, "{mark}{} {}", pair.code, pair.rule)?;
    }
    let names = [
        "; ",
        decider_name(asset, &Decider::Station),
        " ",
        decider_name(asset, &Decider::Form),
        " ",
        decider_name(asset, &Decider::Default),
        " ",
    ];
    for name in names {
        text.push_str(name)?;
    }
    if asset.rules.len() > 1 {
        text.push_str(decider_name(asset, &Decider::Spent(1)))?;
    }
    Ok(text)
}
