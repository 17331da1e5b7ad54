//! The text that names what decided, and which rules have a log.
ghost use Rattle.std.specs.Prelude.{◌≡◌, ◌≤◌, length};
ghost use Rattle.cf_policy.specs.Logged.{is_logged};
ghost use Rattle.cf_policy.specs.Names.{name_of};
ghost use Rattle.cf_policy.specs.Verdict.{IsOneOf};
ghost use Rattle.cf_policy.specs.declared.limits.TheConstants.{LONGEST_NAME};

use crate::policy::{Asset, Decider, Rule};

/// The deciding rule's name, that of a spent one too, or `default`, `station` or `form`. No rule of a policy that was read has
/// one of these three names.
pub fn decider_name<'a>(asset: &'a Asset, decider: &Decider) -> &'a str
    requires { IsOneOf asset.now.rules decider.now }
    ensures name { result.now ≡ name_of asset.now.rules decider.now }
    ensures short { length result.now ≤ LONGEST_NAME }
{
    match decider {
        Decider::Rule(number) | Decider::Spent(number) => {
            asset.rules.as_slice()[*number].name.as_str()
        }
        Decider::Default => "default",
        Decider::Station => "station",
        Decider::Form => "form",
    }
}

/// Whether the rule of this number writes what it admits to the log. No rule does whose number there is not.
pub fn is_logged(rules: &[Rule], number: usize) -> bool
    ensures { result ≡ is_logged rules.now number }
{
    match rules.get(number) {
        Some(rule) => rule.log,
        None => false,
    }
}
