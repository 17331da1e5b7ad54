//! The rules of an asset that were read, among which a name is looked for.
ghost use Rattle.std.specs.Prelude.{◌≡◌, ◌++◌, ◌∷◌, [], IfOk, bytes_eq};
ghost use Rattle.std.specs.List.{list_any};
ghost use Rattle.cf_policylang.specs.NameNumbers.{name_number};

use cf_policy::{Items, Rule};
use std::alloc::{AllocError, Global};
use std::marker::Model;

/// The rules of an asset that were read so far, and beside each a number made of its name. Contracts see the rules.
#[derive(Drop)]
pub(crate) struct Earlier {
    rules: Vec<Rule>,
    numbers: Vec<u32>,
}

impl Model for Earlier {
    ghost use Rattle.std.specs.Prelude.{◌≡◌, List, map};
    ghost use Rattle.cf_policy.specs.declared.policy.Rule.{Rule};
    ghost use Rattle.cf_policylang.specs.NameNumbers.{name_number};

    ghost Value = { List Rule };

    ghost view = { λ e. e.rules.items };

    ghost invariant = { λ e. e.numbers.items ≡ map (λ r. name_number r.name) e.rules.items };
}

impl Earlier {
    /// None yet.
    pub(crate) fn new(alloc: Global) -> Earlier
        ensures { result ≡ [] }
    {
        Earlier {
            rules: Vec::new(alloc),
            numbers: Vec::new(alloc),
        }
    }

    /// The rules.
    pub(crate) fn as_slice(&self) -> &[Rule]
        ensures { result.now ≡ self.now }
    {
        self.rules.as_slice()
    }

    /// Whether one of them has the name. The names are compared only where one of the numbers is that of the name: numbers
    /// lie together, and names far apart.
    pub(crate) fn has(&self, name: &str) -> bool
        ensures { result ≡ list_any (λ r. bytes_eq r.name name.now) self.now }
    {
        self.numbers.contains(&name_number(name)) && some_rule_has(self.rules.as_slice(), name)
    }

    /// These and one rule more.
    pub(crate) fn with(self, rule: Rule) -> Result<Earlier, AllocError>
        ensures { IfOk result (λ all. all ≡ self ++ rule ∷ []) }
    {
        let Earlier {
            mut rules,
            mut numbers,
        } = self;
        numbers.push(name_number(rule.name.as_str()))?;
        rules.push(rule)?;
        Ok(Earlier { rules, numbers })
    }

    /// The rules alone.
    pub(crate) fn into_items(self) -> Items<Rule>
        ensures { result ≡ self }
    {
        let Earlier { rules, .. } = self;
        Items::new(rules)
    }
}

fn some_rule_has(rules: &[Rule], name: &str) -> bool
    ensures { result ≡ list_any (λ r. bytes_eq r.name name.now) rules.now }
{
    for rule in rules {
        if rule.name.as_str() == name {
            return true;
        }
    }
    false
}

/// A number made of a name: equal names have equal ones, and other names nearly always others.
fn name_number(name: &str) -> u32
    ensures { result ≡ name_number name.now }
{
    let mut number: u32 = 0;
    for octet in name.as_bytes() {
        number = number.wrapping_mul(257).wrapping_add(u32::from(*octet));
    }
    number
}
