//! How many remarks there are of each kind.
ghost use Rattle.std.specs.Prelude.{◌≡◌, ◌+◌, ◌-◌, ◌^◌, count_by, map, min};
ghost use Rattle.cf_review.specs.Counted.{counts_of, is_kind, kind_by, kind_number, kind_of};
ghost use Rattle.cf_review.specs.Remark.{matter_value, remark_value};

use crate::remark::{Matter, Remark};
use crate::reviewing::Reviewed;
use cf_policy::Decider;

/// As what a remark counts.
#[derive(Clone, Copy)]
pub(crate) enum Kind {
    /// A command that a rule refuses.
    Rule,
    Default,
    Station,
    Form,
    Stray,
    Conflict,
    Broken,
    /// A flow that begins amid its stream.
    Midstream,
    /// A flow with bytes that do not follow on its first ones.
    Gap,
}

/// How much there is in a review.
#[derive(Clone, Copy)]
pub struct Counts {
    pub flows: u64,
    /// Commands that the policy allows or refuses, up to 2^64 - 1.
    pub commands: u64,
    pub admitted: u64,
    /// Commands that a rule refuses.
    pub by_rule: u64,
    /// Commands that no rule has.
    pub by_default: u64,
    /// Commands for another station.
    pub by_station: u64,
    /// Commands of a wrong form.
    pub by_form: u64,
    pub strays: u64,
    pub conflicts: u64,
    /// Flows that could not be read to their end.
    pub broken: u64,
}

/// Counts what is in a review.
pub fn count(reviewed: &Reviewed) -> Counts
    ensures { result ≡ counts_of reviewed.now }
{
    let remarks = reviewed.remarks.as_slice();
    let by_rule = count_kind(remarks, Kind::Rule);
    let by_default = count_kind(remarks, Kind::Default);
    let by_station = count_kind(remarks, Kind::Station);
    let by_form = count_kind(remarks, Kind::Form);
    Counts {
        flows: reviewed.flows,
        commands: sum(reviewed.admitted, by_rule, by_default, by_station, by_form),
        admitted: reviewed.admitted,
        by_rule,
        by_default,
        by_station,
        by_form,
        strays: count_kind(remarks, Kind::Stray),
        conflicts: count_kind(remarks, Kind::Conflict),
        broken: count_kind(remarks, Kind::Broken),
    }
}

/// A sum, up to 2^64 - 1.
fn sum(a: u64, b: u64, c: u64, d: u64, e: u64) -> u64
    ensures { result ≡ min (a + b + c + d + e) (2 ^ 64 - 1) }
{
    a.saturating_add(b)
        .saturating_add(c)
        .saturating_add(d)
        .saturating_add(e)
}

/// How many remarks count so.
fn count_kind(remarks: &[Remark], kind: Kind) -> u64
    ensures { result ≡ count_by (λ r. is_kind kind r.what) (map remark_value remarks.now) }
{
    let mut count: u64 = 0;
    for remark in remarks {
        if is_kind(kind, &remark.what) {
            count += 1;
        }
    }
    count
}

/// Whether a remark counts so.
fn is_kind(kind: Kind, what: &Matter) -> bool
    ensures { result ≡ is_kind kind (matter_value what.now) }
{
    number(kind) == number(kind_of(what))
}

/// As what a remark counts.
fn kind_of(what: &Matter) -> Kind
    ensures { result ≡ kind_of (matter_value what.now) }
{
    match what {
        Matter::Refused { refusal, .. } => kind_by(&refusal.decider),
        Matter::Stray(_) => Kind::Stray,
        Matter::Conflict(_) => Kind::Conflict,
        Matter::Broken(_) => Kind::Broken,
        Matter::Midstream => Kind::Midstream,
        Matter::Gap(_) => Kind::Gap,
    }
}

/// As what a refused command counts, by what decided.
fn kind_by(decider: &Decider) -> Kind
    ensures { result ≡ kind_by decider.now }
{
    match decider {
        Decider::Rule(_) | Decider::Spent(_) => Kind::Rule,
        Decider::Default => Kind::Default,
        Decider::Station => Kind::Station,
        Decider::Form => Kind::Form,
    }
}

/// The place of a kind among all.
fn number(kind: Kind) -> u8
    ensures { result ≡ kind_number kind }
{
    match kind {
        Kind::Rule => 0,
        Kind::Default => 1,
        Kind::Station => 2,
        Kind::Form => 3,
        Kind::Stray => 4,
        Kind::Conflict => 5,
        Kind::Broken => 6,
        Kind::Midstream => 7,
        Kind::Gap => 8,
    }
}
