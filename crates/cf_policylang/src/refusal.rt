//! Refusals of a policy's text, and their words.
ghost use Rattle.std.specs.Prelude.{◌≡◌, ◌+◌, ◌≤◌, ◌++◌, length};
ghost use Rattle.arrayvec.specs.ArrayString.{array_string_len};
ghost use Rattle.cf_policylang.specs.Keys.{cause_number, key_text, refusal_text};
ghost use Rattle.cf_policylang.specs.Tested.{refusal, at_set};

use arrayvec::ArrayString;
use cf_view::{push_u16, push_u32};
use std::alloc::{AllocError, AllocFailed};
use std::fmt;
use thiserror::Error;

/// A key of a policy's text. This project's own words.
#[derive(Clone, Copy, PartialEq, Eq, Debug)]
pub enum Key {
    /// No key: written as `-`.
    Nothing,
    Version,
    Asset,
    Name,
    Address,
    Port,
    Protocol,
    Station,
    Master,
    Rule,
    Action,
    Clients,
    Codes,
    Groups,
    Points,
    Values,
    Most,
    Seconds,
    Set,
    Log,
}

impl Key {
    /// How the key is written in a policy, and `-` for no key.
    pub fn as_str(self) -> &'static str
        ensures name { result.now ≡ key_text self }
        ensures short { length result.now ≤ 8 }
    {
        match self {
            Key::Nothing => "-",
            Key::Version => "version",
            Key::Asset => "asset",
            Key::Name => "name",
            Key::Address => "address",
            Key::Port => "port",
            Key::Protocol => "protocol",
            Key::Station => "station",
            Key::Master => "master",
            Key::Rule => "rule",
            Key::Action => "action",
            Key::Clients => "clients",
            Key::Codes => "codes",
            Key::Groups => "groups",
            Key::Points => "points",
            Key::Values => "values",
            Key::Most => "most",
            Key::Seconds => "seconds",
            Key::Set => "set",
            Key::Log => "log",
        }
    }
}

impl fmt::Display for Key {
    ghost use Rattle.std.specs.Prelude.{Some};
    ghost use Rattle.cf_policylang.specs.Keys.{key_text};

    ghost output = { λ k. Some (key_text k) };

    fn fmt<W: fmt::Write>(&self, f: &mut fmt::Formatter<W>) -> fmt::Result {
        f.write_str(self.as_str())
    }
}

/// Why a policy's text was refused. This project's own numbers.
#[derive(Clone, Copy, PartialEq, Eq)]
pub enum Cause {
    /// The text is no TOML document in UTF-8.
    NotToml = 1,
    /// A key that this place does not have, `master` outside DNP3 and a rate of a refuse rule included.
    UnknownKey = 2,
    /// A key that this place must have is missing.
    MissingKey = 3,
    /// A value of another kind than the key's, or a list with such an entry.
    WrongKind = 4,
    /// An address that is not four octets with points between them.
    BadAddress = 5,
    /// A value outside the key's range, or an empty list.
    BadRange = 6,
    /// A name or an endpoint that an earlier one has, or a rule's name that stands for another decider. In version 3 an endpoint whose
    /// site does not stand right before, and there another protocol than the site's, or a station that an asset of the site has.
    Duplicate = 7,
    /// A file of more than `LONGEST_TEXT` bytes, or more than `MOST_SETS` sets, `MOST_ASSETS` assets, `MOST_AT_SITE` of them at one
    /// endpoint (of DNP3 `MOST_DNP3_AT_SITE`), `MOST_RULES` rules of an
    /// asset, `MOST_RATED` of them with a rate, `MOST_SPANS` entries of a list, or as many spans of a rule's points.
    TooMany = 8,
    /// A version other than 1, 2 and 3.
    Version = 9,
    /// An entry of a rule's points that names a set which the document does not have.
    UnknownSet = 10,
}

impl Cause {
    /// The cause's number, from 1 to 10.
    pub fn number(self) -> u8
        ensures { result ≡ cause_number self }
    {
        self as u8
    }
}

/// The first refusal of a policy's text, in the order of its tests. This project's own.
#[derive(Clone, Copy, PartialEq, Eq, Debug)]
pub struct PolicyRefusal {
    /// The number of its cause.
    pub number: u8,
    /// The key at which it stands.
    pub key: Key,
    /// The number of the asset, from 1, or 0 for none.
    pub asset: u32,
    /// The number of the rule in its asset or, where the asset is 0, of the set in the document, from 1, or 0 for none.
    pub rule: u32,
}

impl fmt::Display for PolicyRefusal {
    ghost use Rattle.std.specs.Prelude.{Some};
    ghost use Rattle.cf_policylang.specs.Keys.{refusal_text};

    ghost output = { λ r. Some (refusal_text r) };

    fn fmt<W: fmt::Write>(&self, f: &mut fmt::Formatter<W>) -> fmt::Result {
        let mut text = ArrayString::<64>::new();
        push_refusal(&mut text, self);
        f.write_str(text.as_str())
    }
}

/// Appends a refusal as it is printed: number, key, asset and rule, at most 64 octets.
pub fn push_refusal<const N: usize>(out: &mut ArrayString<N>, refusal: &PolicyRefusal)
    requires { array_string_len out.old + 64 ≤ N }
    ensures bytes { out.new.bytes ≡ out.old.bytes ++ refusal_text refusal.now }
    ensures short { array_string_len out.new ≤ array_string_len out.old + 64 }
{
    push_u16(out, u16::from(refusal.number));
    out.push_str(" ");
    out.push_str(refusal.key.as_str());
    out.push_str(" asset ");
    push_u32(out, refusal.asset);
    out.push_str(" rule ");
    push_u32(out, refusal.rule);
}

/// Why no policy was read. This project's own.
#[derive(Clone, Copy, PartialEq, Eq, Debug, Error)]
pub enum PolicyFault {
    /// Memory ran out.
    #[error("out of memory")]
    NoMemory,
    /// The text means no policy.
    #[error("policy refused {0}")]
    Refused(PolicyRefusal),
}

impl From<PolicyRefusal> for PolicyFault {
    ghost use Rattle.std.specs.Prelude.{◌≡◌};
    ghost use Rattle.cf_policylang.specs.declared.refusal.PolicyFault.TheVariants.{Refused};

    ghost from_gives = { λ r e. e ≡ Refused r };

    fn from(refusal: PolicyRefusal) -> PolicyFault {
        PolicyFault::Refused(refusal)
    }
}

impl From<AllocError> for PolicyFault {
    ghost use Rattle.std.specs.Prelude.{◌≡◌};
    ghost use Rattle.cf_policylang.specs.declared.refusal.PolicyFault.TheVariants.{NoMemory};

    ghost from_gives = { λ _ e. e ≡ NoMemory };

    fn from(_error: AllocError) -> PolicyFault {
        PolicyFault::NoMemory
    }
}

impl<T: Drop> From<AllocFailed<T>> for PolicyFault {
    ghost use Rattle.std.specs.Prelude.{◌≡◌};
    ghost use Rattle.cf_policylang.specs.declared.refusal.PolicyFault.TheVariants.{NoMemory};

    ghost from_gives = { λ _ e. e ≡ NoMemory };

    fn from(_error: AllocFailed<T>) -> PolicyFault {
        PolicyFault::NoMemory
    }
}

/// Where in a policy a test stands: its asset and rule, from 1, and 0 for none.
#[derive(Clone, Copy)]
pub(crate) struct Place {
    pub(crate) asset: u32,
    pub(crate) rule: u32,
}

impl Place {
    /// The document itself, in no asset and no rule.
    pub(crate) const DOCUMENT: Place = Place { asset: 0, rule: 0 };

    /// The set of this number in the document.
    pub(crate) fn set(number: u32) -> Place
        ensures { result ≡ at_set number }
    {
        Place {
            asset: 0,
            rule: number,
        }
    }

    /// The asset of this number, from 1, in none of its rules.
    pub(crate) fn asset(asset: u32) -> Place
        ensures { result ≡ record { asset = asset; rule = 0 } }
    {
        Place { asset, rule: 0 }
    }
}

/// The refusal for a cause at a key.
pub(crate) fn refusal(cause: Cause, key: Key, place: Place) -> PolicyRefusal
    ensures { result ≡ refusal cause key place }
{
    PolicyRefusal {
        number: cause.number(),
        key,
        asset: place.asset,
        rule: place.rule,
    }
}
