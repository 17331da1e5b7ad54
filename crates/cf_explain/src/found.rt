//! What is found of rules that decide nothing, or less than they seem to.
ghost use Rattle.std.specs.Prelude.{◌≡◌, ℕ, ◌<◌, [], ◌++◌, All, IfOk, IfSome, IsTrue, List, None, OnOk, Some, false, is_none, length};
ghost use Rattle.std.specs.Prelude.{pos, slice_get, true};
ghost use Rattle.std.specs.List.{list_any};
ghost use Rattle.cf_policy.specs.declared.policy.Asset.{Asset};
ghost use Rattle.cf_policy.specs.declared.policy.Rule.{Rule};
ghost use Rattle.cf_policy.specs.Verdict.{takes};
ghost use Rattle.cf_acts.specs.Acts.{kinds};
ghost use Rattle.cf_explain.specs.Meets.{meets};
ghost use Rattle.cf_policy.specs.Within.{IsRuleWithin};
ghost use Rattle.cf_explain.specs.Reads.{HasReads, HasSomeRead, NamesReads};
ghost use Rattle.cf_covered.specs.Including.{first_including};
ghost use Rattle.cf_covered.specs.Outlines.{IsTold};
ghost use Rattle.cf_explain.specs.Rules.{Holds, IsMet, IsSound, NeverHas, NeverMeets, WantsValue, listed};

use crate::unmet::{Unmet, why_unmet};
use cf_covered::{Earlier, code_end};
use cf_policy::{Asset, Protocol, Rule, takes};
use std::alloc::{AllocError, Global};

/// One more than the highest code of a rule.
const CODES: u16 = 256;

/// What is found of a rule.
#[derive(Clone, Copy)]
pub enum What {
    /// No command meets it, for this reason at its first code.
    Never(u16, Unmet),
    /// No command with this code meets it.
    Code(u16, Unmet),
    /// The reads of function 23 of Modbus have no value, and the rule states values.
    Reads,
    /// The rule of this number, from 0, covers it.
    Covered(usize),
}

/// What is found of the rule of a number, from 0: that no command meets it, and nothing else; or for each of its codes that no
/// command brings, that it wants values where reads have none, and that an earlier rule covers it.
pub fn findings(
    alloc: Global,
    asset: &Asset,
    earlier: &Earlier<'_>,
    number: usize,
) -> Result<Vec<What>, AllocError>
    requires inside { number < length asset.now.rules }
    requires earlier { IsTold asset.now.rules number earlier.now }
    ensures so { (rule : Rule) → slice_get asset.now.rules number ≡ Some rule
        → IfOk result (λ found. All (Holds asset.now number rule) found.items) }
    ensures nothing { (rule : Rule) → slice_get asset.now.rules number ≡ Some rule
        → IfOk result (λ found. found.items ≡ [] → IsSound asset.now number rule) }
{
    let rule = &asset.rules.as_slice()[number];
    match whole_finding(asset.protocol, rule) {
        Some(what) => Ok(vec![in alloc; what]?),
        None => partial_findings(alloc, asset, earlier, number, rule),
    }
}

/// A rule within its ranges of which nothing is found, and which names function 23 of Modbus and the group of its reads, has such a
/// read of some command.
#[tactic(auto, using(crate::proofs::SomeRead::some_read))]
pub fn sound_rules_have_reads()
    ensures { (asset : Asset) (number : ℕ) (rule : Rule) → IsRuleWithin rule → IsSound asset number rule
        → NamesReads asset.protocol rule → HasSomeRead rule }
{}

/// That no command meets a rule, with the reason at its first code.
fn whole_finding(protocol: Protocol, rule: &Rule) -> Option<What>
    ensures { IfSome result (λ what. (asset : Asset) (number : ℕ) → asset.protocol ≡ protocol
        → Holds asset number rule.now what) }
{
    if !never_met(protocol, rule) {
        return None;
    }
    let (code, why) = first_unmet(protocol, rule)?;
    Some(What::Never(code, why))
}

/// What is found of a rule that some command meets.
fn partial_findings(
    alloc: Global,
    asset: &Asset,
    earlier: &Earlier<'_>,
    number: usize,
    rule: &Rule,
) -> Result<Vec<What>, AllocError>
    requires earlier { IsTold asset.now.rules number earlier.now }
    requires rule { slice_get asset.now.rules number ≡ Some rule.now }
    ensures so { IfOk result (λ found. All (Holds asset.now number rule.now) found.items) }
    ensures nothing { IfOk result (λ found. found.items ≡ [] → IsSound asset.now number rule.now) }
{
    let mut found = code_findings(alloc, asset, number, rule)?;
    put(&mut found, reads_finding(asset.protocol, rule))?;
    put(&mut found, covered_finding(earlier))?;
    Ok(found)
}

/// Adds what is found, if something is.
fn put(found: &mut Vec<What>, what: Option<What>) -> Result<(), AllocError>
    ensures { OnOk result (found.new.items ≡ found.old.items ++ listed what) }
{
    if let Some(what) = what {
        found.push(what)?;
    }
    Ok(())
}

/// That an earlier rule covers a rule.
fn covered_finding(earlier: &Earlier<'_>) -> Option<What>
    ensures so { IfSome result (λ what. (asset : Asset) (number : ℕ) (rule : Rule) → IsTold asset.rules number earlier.now
        → Holds asset number rule what) }
    ensures none { is_none result ≡ true → (rules : List Rule) (number : ℕ) (rule : Rule) → IsTold rules number earlier.now
        → slice_get rules number ≡ Some rule → first_including rules number rule ≡ None }
{
    match earlier {
        Earlier::Covering(first) => Some(What::Covered(*first)),
        Earlier::Common(_) => None,
    }
}

/// The codes of a rule that no command brings.
fn code_findings(
    alloc: Global,
    asset: &Asset,
    number: usize,
    rule: &Rule,
) -> Result<Vec<What>, AllocError>
    ensures so { IfOk result (λ found. All (Holds asset.now number rule.now) found.items) }
    ensures nothing { IfOk result (λ found. found.items ≡ [] → IsMet asset.now.protocol rule.now) }
{
    let mut found = Vec::new(alloc);
    for code in 0..code_end(rule) {
        put(&mut found, code_finding(asset.protocol, rule, code))?;
    }
    Ok(found)
}

fn code_finding(protocol: Protocol, rule: &Rule, code: u16) -> Option<What>
    ensures so { IfSome result (λ what. (asset : Asset) (number : ℕ) → asset.protocol ≡ protocol
        → Holds asset number rule.now what) }
    ensures none { is_none result ≡ true → takes rule.now.codes (pos code) ≡ true
        → list_any (meets rule.now) (kinds protocol code) ≡ true }
{
    let why = missed_code(protocol, rule, code)?;
    Some(What::Code(code, why))
}

/// Why no command brings a code of a rule; nothing where one does, or the rule does not have the code.
fn missed_code(protocol: Protocol, rule: &Rule, code: u16) -> Option<Unmet>
    ensures never { IfSome result (λ _. NeverHas protocol rule.now code) }
    ensures none { is_none result ≡ true → takes rule.now.codes (pos code) ≡ true
        → list_any (meets rule.now) (kinds protocol code) ≡ true }
{
    if !takes(&rule.codes, i64::from(code)) {
        return None;
    }
    why_unmet(protocol, rule, code)
}

/// The first code of a rule that no command brings.
fn first_unmet(protocol: Protocol, rule: &Rule) -> Option<(u16, Unmet)> {
    for code in 0..CODES {
        if let Some(why) = missed_code(protocol, rule, code) {
            return Some((code, why));
        }
    }
    None
}

/// That a rule of Modbus has function 23 with its reads, and states values, which reads have not. Where a rule that has them states
/// no values, the reads are its own.
fn reads_finding(protocol: Protocol, rule: &Rule) -> Option<What>
    ensures so { IfSome result (λ what. (asset : Asset) (number : ℕ) → asset.protocol ≡ protocol
        → Holds asset number rule.now what) }
    ensures none { is_none result ≡ true → NamesReads protocol rule.now → HasReads rule.now }
{
    if protocol != Protocol::Modbus || !wants_value(rule) || !takes(&rule.codes, 23) {
        return None;
    }
    if takes(&rule.groups, 0) {
        return Some(What::Reads);
    }
    None
}

fn wants_value(rule: &Rule) -> bool
    ensures stated { IsTrue result → WantsValue rule.now }
    ensures unstated { result ≡ false → rule.now.values ≡ [] }
{
    !rule.values.is_empty()
}

/// Whether a rule has no act that a command of the protocol can have.
fn never_met(protocol: Protocol, rule: &Rule) -> bool
    ensures { IsTrue result → NeverMeets protocol rule.now }
{
    for code in 0..CODES {
        if may_have(protocol, rule, code) {
            return false;
        }
    }
    true
}

/// Whether a rule has a code, and some act with it that a command may have.
fn may_have(protocol: Protocol, rule: &Rule, code: u16) -> bool
    ensures { result ≡ false → takes rule.now.codes (pos code) ≡ true → NeverHas protocol rule.now code }
{
    takes(&rule.codes, i64::from(code)) && why_unmet(protocol, rule, code).is_none()
}
