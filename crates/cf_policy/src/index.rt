//! The rules of an asset by code: for each code the rules that have it and one client, found without looking at the
//! others.
ghost use Rattle.std.specs.Prelude.{◌≡◌, ℕ, ◌<◌, ◌≤◌, ◌&&◌, List, Some, false, true, take, length, All, AllPairs};
ghost use Rattle.std.specs.Prelude.{option_and_then, option_map, position, slice_get, IfOk, IfSome, OnOk};
ghost use Rattle.std.specs.List.{list_any};
ghost use Rattle.cf_policy.specs.Index.{IsIndexOf, IsFrontOf, IsStartOf, HasStarts, AddsCodes, HasPairsBelow, IsPairBefore, IsPartOfCode};
ghost use Rattle.cf_policy.specs.Index.{rule_at, has_group, has_group_and_point, has_group_to_value, reason_of_pairs, verdict_by};
ghost use Rattle.cf_policy.specs.Verdict.{verdict_of, decided, is_allow, numbered, IsInside};
ghost use Rattle.cf_policy.specs.Within.{IsAssetWithin, IsRuleWithin};

use crate::judge::{is_allow, rule_reason, takes, takes_value};
use crate::point_table::{PointCell, reaches_of, sorted_cells};
use crate::policy::{Action, Asset, Decider, Rule, Verdict};
use cf_view::{Act, NoMemory, Reason};
use std::alloc::Global;
use std::marker::Model;

/// How many codes are octets.
const CODES: usize = 256;
/// How many rules of a code are looked at one by one, which takes no longer than to look into the table.
pub(crate) const FEW: usize = 8;

/// A code and a rule that has it.
#[derive(Clone, Copy, PartialEq, Eq, PartialOrd, Ord)]
pub struct CodePair {
    /// A function code of Modbus or DNP3, or a type identification of IEC 60870-5-104.
    pub code: u16,
    /// The place of the rule among those of its asset, counted from 0.
    pub rule: usize,
}

/// The pairs of the rules of an asset that have one client, and a table of their points. Contracts see these lists.
#[derive(Drop)]
pub struct CodeIndex {
    pairs: Vec<CodePair>,
    /// For each code that is an octet, how many pairs have a lower one.
    starts: [usize; CODES],
    /// Where the points of each pair's rule lie, sorted, and how far the cells before each one reach.
    cells: Vec<PointCell>,
    reaches: Vec<u64>,
}

impl Model for CodeIndex {
    ghost use Rattle.cf_policy.specs.Index.{HasStarts, IndexValue};

    ghost Value = { IndexValue };

    ghost view = { λ i. record { pairs = i.pairs.items; cells = i.cells.items; reaches = i.reaches.items } };

    ghost invariant = { λ i. HasStarts i.starts i.pairs.items };
}

impl CodeIndex {
    /// The index of an asset's rules for the client with this address, a number of 32 bits whose first octet is the
    /// highest.
    pub fn new(alloc: Global, asset: &Asset, client: u32) -> Result<CodeIndex, NoMemory>
        requires within { IsAssetWithin asset.now }
        ensures index { IfOk result (λ index. IsIndexOf asset.now client index) }
    {
        let mut pairs = client_pairs(alloc, asset.rules.as_slice(), client)?;
        pairs.sort_unstable();
        pairs.dedup();
        let starts = starts_of(pairs.as_slice());
        let cells = sorted_cells(alloc, asset.rules.as_slice(), pairs.as_slice())?;
        let reaches = reaches_of(alloc, cells.as_slice())?;
        Ok(CodeIndex {
            pairs,
            starts,
            cells,
            reaches,
        })
    }

    /// The pairs, ascending by code and then by place.
    pub fn pairs(&self) -> &[CodePair]
        ensures { result.now ≡ self.now.pairs }
    {
        self.pairs.as_slice()
    }

    /// What the asset's rules say about an act of the client: what `verdict` says. The index is that of the asset.
    #[inline(always)]
    pub fn verdict(&self, asset: &Asset, act: &Act) -> Verdict
        ensures decides { (client : ℕ) → IsIndexOf asset.now client self.now → result ≡ verdict_of asset.now client act.now }
        ensures inside { IsInside asset.now.rules result }
    {
        let pairs = self.pairs_from(act.code);
        if is_long(pairs, act.code) {
            self.verdict_of_many(asset, act)
        } else {
            verdict_of_front(pairs, asset.rules.as_slice(), act)
        }
    }

    /// What `verdict` says, by the table where it tells.
    #[inline(never)]
    fn verdict_of_many(&self, asset: &Asset, act: &Act) -> Verdict
        ensures decides { (client : ℕ) → IsIndexOf asset.now client self.now → result ≡ verdict_of asset.now client act.now }
        ensures inside { IsInside asset.now.rules result }
    {
        match self.run_by_table(asset, act, act.point) {
            Some((verdict, _)) => verdict,
            None => {
                let pairs = pairs_of(self.pairs(), act.code);
                let rules = asset.rules.as_slice();
                verdict_at(pairs, rules, act, first_place(pairs, rules, act))
            }
        }
    }

    /// The pairs from the first of a code on, where they ascend by code.
    #[inline(always)]
    fn pairs_from(&self, code: u16) -> &[CodePair]
        ensures { AllPairs IsPairBefore self.now.pairs → (count : ℕ) → IsFrontOf code result.now count
            → IsPartOfCode code self.now.pairs (take count result.now) }
    {
        let (_, rest) = self.pairs.as_slice().split_at(self.start(code));
        rest
    }

    /// How many pairs have a lower code, where they ascend by code.
    #[inline(always)]
    fn start(&self, code: u16) -> usize
        ensures { IsStartOf code self.now.pairs result }
    {
        match self.starts.get(usize::from(code)) {
            Some(start) => *start,
            None => start_of(self.pairs.as_slice(), code),
        }
    }

    /// The table.
    pub(crate) fn table(&self) -> (&[PointCell], &[u64])
        ensures cells { result.0.now ≡ self.now.cells }
        ensures reaches { result.1.now ≡ self.now.reaches }
    {
        (self.cells.as_slice(), self.reaches.as_slice())
    }
}

/// Whether more than `FEW` pairs of the code stand at the front.
#[inline(always)]
fn is_long(pairs: &[CodePair], code: u16) -> bool {
    match pairs.get(FEW) {
        Some(pair) => pair.code == code,
        None => false,
    }
}

/// How many pairs have a lower code, of pairs that ascend by code.
fn start_of(pairs: &[CodePair], code: u16) -> usize
    ensures { IsStartOf code pairs.now result }
{
    pairs.partition_point(|pair| pair.code < code)
}

/// The same for each code that is an octet.
fn starts_of(pairs: &[CodePair]) -> [usize; CODES]
    ensures { HasStarts result pairs.now }
{
    let mut starts = [0; CODES];
    for code in 0..CODES as u16 {
        starts[usize::from(code)] = start_of(pairs, code);
    }
    starts
}

/// What the rules of the pairs of the act's code say that stand at the front. They are looked at until one has the act.
#[inline(always)]
fn verdict_of_front(pairs: &[CodePair], rules: &[Rule], act: &Act) -> Verdict
    ensures decides { (count : ℕ) → IsFrontOf act.now.code pairs.now count → result ≡ verdict_by (take count pairs.now) rules.now act.now }
    ensures inside { IsInside rules.now result }
{
    let place = first_or_end(pairs, rules, act);
    if let Some(pair) = pair_at(pairs, place) {
        if pair.code == act.code {
            return verdict_of_rule(rules, pair.rule);
        }
    }
    let (front, _) = pairs.split_at(place);
    Verdict::Refuse(Decider::Default, default_reason(front, rules, act))
}

/// The place of the first pair of the act's code whose rule has the act, or else the place at which the pairs of its code at
/// the front end.
fn first_or_end(pairs: &[CodePair], rules: &[Rule], act: &Act) -> usize
    ensures inside { result ≤ length pairs.now }
    ensures before { (k : ℕ) (pair : CodePair) → k < result → slice_get pairs.now k ≡ Some pair
        → (pair.code ≡ act.now.code) × (rule_at rules.now pair.rule (λ r. has_group_to_value r act.now) ≡ false) }
    ensures here { (pair : CodePair) → slice_get pairs.now result ≡ Some pair → pair.code ≡ act.now.code
        → rule_at rules.now pair.rule (λ r. has_group_to_value r act.now) ≡ true }
{
    pairs
        .iter()
        .position(|pair| pair.code != act.code || rule_has(rules, pair.rule, act))
        .unwrap_or(pairs.len())
}

fn pair_at(pairs: &[CodePair], place: usize) -> Option<CodePair>
    ensures { result ≡ slice_get pairs.now place }
{
    pairs.get(place).copied()
}

/// What the rule of this place says of the acts that it has.
pub(crate) fn verdict_of_rule(rules: &[Rule], number: usize) -> Verdict
    requires { number < length rules.now }
    ensures decides { (otherwise : Reason) → result ≡ decided (numbered rules.now number) otherwise }
    ensures inside { IsInside rules.now result }
{
    let rule = &rules[number];
    match rule.action {
        Action::Allow => Verdict::Allow(number),
        Action::Refuse => Verdict::Refuse(Decider::Rule(number), rule_reason(rule)),
    }
}

/// What these rules say about the act, of whose pairs this one is the first whose rule has it.
pub(crate) fn verdict_at(
    pairs: &[CodePair],
    rules: &[Rule],
    act: &Act,
    place: Option<usize>,
) -> Verdict
    requires first { place ≡ position (λ p. rule_at rules.now p.rule (λ r. has_group_to_value r act.now)) pairs.now }
    ensures decides { result ≡ verdict_by pairs.now rules.now act.now }
    ensures inside { IsInside rules.now result }
{
    match rule_of(pairs, rules, place) {
        Some((number, rule)) => match rule.action {
            Action::Allow => Verdict::Allow(number),
            Action::Refuse => Verdict::Refuse(Decider::Rule(number), rule_reason(rule)),
        },
        None => Verdict::Refuse(Decider::Default, default_reason(pairs, rules, act)),
    }
}

/// The pairs of a code, of pairs that ascend by code.
pub(crate) fn pairs_of(pairs: &[CodePair], code: u16) -> &[CodePair]
    ensures { AllPairs IsPairBefore pairs.now → IsPartOfCode code pairs.now result.now }
{
    let (_, rest) = pairs.split_at(pairs.partition_point(|pair| pair.code < code));
    let (part, _) = rest.split_at(rest.partition_point(|pair| pair.code <= code));
    part
}

/// The rule of the pair of this place.
fn rule_of<'a>(
    pairs: &[CodePair],
    rules: &'a [Rule],
    place: Option<usize>,
) -> Option<(usize, &'a Rule)>
    ensures rule { option_map (λ p. (p.0, p.1.now)) result
        ≡ option_and_then (λ k. option_and_then (λ p. numbered rules.now p.rule) (slice_get pairs.now k)) place }
    ensures inside { IfSome result (λ p. p.0 < length rules.now) }
{
    let number = pairs.get(place?)?.rule;
    Some((number, rules.get(number)?))
}

/// The first of these pairs whose rule has the act by group, point and value; their rules have its client and code already.
pub(crate) fn first_place(pairs: &[CodePair], rules: &[Rule], act: &Act) -> Option<usize>
    ensures { result ≡ position (λ p. rule_at rules.now p.rule (λ r. has_group_to_value r act.now)) pairs.now }
{
    pairs
        .iter()
        .position(|pair| rule_has(rules, pair.rule, act))
}

#[inline(never)]
fn default_reason(pairs: &[CodePair], rules: &[Rule], act: &Act) -> Reason
    ensures { result ≡ reason_of_pairs pairs.now rules.now act.now }
{
    if !some_allows_group(pairs, rules, act) {
        Reason::Function
    } else if !some_allows_point(pairs, rules, act) {
        Reason::Point
    } else {
        Reason::Value
    }
}

pub(crate) fn some_allows_group(pairs: &[CodePair], rules: &[Rule], act: &Act) -> bool
    ensures { result ≡ list_any (λ p. rule_at rules.now p.rule (λ r. is_allow r.action && has_group r act.now)) pairs.now }
{
    pairs.iter().any(|pair| allows_group(rules, pair.rule, act))
}

fn some_allows_point(pairs: &[CodePair], rules: &[Rule], act: &Act) -> bool
    ensures { result ≡ list_any (λ p. rule_at rules.now p.rule (λ r. is_allow r.action && has_group_and_point r act.now)) pairs.now }
{
    pairs.iter().any(|pair| allows_point(rules, pair.rule, act))
}

fn allows_group(rules: &[Rule], place: usize, act: &Act) -> bool
    ensures { result ≡ rule_at rules.now place (λ r. is_allow r.action && has_group r act.now) }
{
    match rules.get(place) {
        Some(rule) => is_allow(rule.action) && has_group(rule, act),
        None => false,
    }
}

pub(crate) fn allows_point(rules: &[Rule], place: usize, act: &Act) -> bool
    ensures { result ≡ rule_at rules.now place (λ r. is_allow r.action && has_group_and_point r act.now) }
{
    match rules.get(place) {
        Some(rule) => is_allow(rule.action) && has_group_and_point(rule, act),
        None => false,
    }
}

/// Whether the rule of this place has the act, where it has its client and code.
pub(crate) fn rule_has(rules: &[Rule], place: usize, act: &Act) -> bool
    ensures { result ≡ rule_at rules.now place (λ r. has_group_to_value r act.now) }
{
    match rules.get(place) {
        Some(rule) => has_group_and_point(rule, act) && takes_value(&rule.values, act.value),
        None => false,
    }
}

fn has_group_and_point(rule: &Rule, act: &Act) -> bool
    ensures { result ≡ has_group_and_point rule.now act.now }
{
    has_group(rule, act) && takes(&rule.points, i64::from(act.point))
}

fn has_group(rule: &Rule, act: &Act) -> bool
    ensures { result ≡ has_group rule.now act.now }
{
    takes(&rule.groups, i64::from(act.group))
}

/// The pairs in the order in which the rules state them.
fn client_pairs(alloc: Global, rules: &[Rule], client: u32) -> Result<Vec<CodePair>, NoMemory>
    requires within { All IsRuleWithin rules.now }
    ensures { IfOk result (λ pairs. HasPairsBelow (length rules.now) rules.now client pairs.items) }
{
    let mut pairs = Vec::new(alloc);
    for (place, rule) in rules.iter().enumerate() {
        if takes(&rule.clients, i64::from(client)) {
            push_codes(&mut pairs, place, rule)?;
        }
    }
    Ok(pairs)
}

/// Adds a pair for each code that the rule of this place states.
fn push_codes(pairs: &mut Vec<CodePair>, place: usize, rule: &Rule) -> Result<(), NoMemory>
    requires within { IsRuleWithin rule.now }
    ensures { OnOk result (AddsCodes place rule.now pairs.old.items pairs.new.items) }
{
    for span in rule.codes.as_slice() {
        let pair = CodePair {
            code: span.low as u16,
            rule: place,
        };
        if pairs.push(pair).is_err() {
            return Err(NoMemory);
        }
    }
    Ok(())
}
