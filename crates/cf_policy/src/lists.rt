//! Names and lists of a policy: what contracts see as bytes and as lists. A list is made from its vector and lends it
//! without taking memory.
ghost use Rattle.std.specs.Prelude.{◌≡◌, ◌^◌, ◌<◌, ◌≤◌, length};
ghost use Rattle.cf_policy.specs.Verdict.{is_empty};
ghost use Rattle.cf_policy.specs.declared.limits.TheConstants.{LONGEST_NAME};

use crate::limits::LONGEST_NAME;
use arrayvec::ArrayString;
use std::marker::Model;

/// A name of an asset or a rule: a text of at most `LONGEST_NAME` bytes. Contracts see its bytes.
#[derive(Drop)]
pub struct Name {
    text: ArrayString<LONGEST_NAME>,
}

impl Model for Name {
    ghost use Rattle.std.specs.Prelude.{ℕ, ◌≤◌, List, length};
    ghost use Rattle.cf_policy.specs.declared.limits.TheConstants.{LONGEST_NAME};

    ghost Value = { List ℕ };

    ghost view = { λ n. n.text.bytes };

    ghost invariant = { λ n. length n.text.bytes ≤ LONGEST_NAME };
}

impl Name {
    /// A name of this text.
    pub fn new(text: ArrayString<LONGEST_NAME>) -> Name
        ensures { result ≡ text.bytes }
    {
        Name { text }
    }

    /// A name of a copy of this text, which has at most `LONGEST_NAME` bytes.
    pub fn from_text(text: &str) -> Name
        requires { length text.now ≤ LONGEST_NAME }
        ensures { result ≡ text.now }
    {
        let mut own = ArrayString::new();
        own.push_str(text);
        Name { text: own }
    }

    /// The text.
    pub fn as_str(&self) -> &str
        ensures text { result.now ≡ self.now }
        ensures short { length self.now ≤ LONGEST_NAME }
    {
        self.text.as_str()
    }
}

/// Items in their order: the spans of a list, which has none where the policy states no such list, the rules of an
/// asset in the order in which they are tried, the assets of a policy. Contracts see a list.
#[derive(Drop)]
pub struct Items<T: Drop> {
    items: Vec<T>,
}

impl<T: Drop> Model for Items<T> {
    ghost use Rattle.std.specs.Prelude.{List};

    ghost Value = { List T };

    ghost view = { λ a. a.items.items };
}

impl<T: Drop> Items<T> {
    /// These items.
    pub fn new(items: Vec<T>) -> Items<T>
        ensures { result ≡ items.items }
    {
        Items { items }
    }

    /// The items.
    pub fn as_slice(&self) -> &[T]
        ensures { result.now ≡ self.now }
    {
        self.items.as_slice()
    }

    /// The number of items.
    pub fn len(&self) -> usize
        ensures length { result ≡ length self.now }
        ensures fits { length self.now < 2 ^ 64 }
    {
        self.items.len()
    }

    /// Whether there is no item.
    pub fn is_empty(&self) -> bool
        ensures { result ≡ is_empty self.now }
    {
        self.items.is_empty()
    }
}
