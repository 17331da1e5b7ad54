//! What `check` warns of: sets that no rule names, assets that nothing reaches, and rules that decide nothing, or less than they seem to.
use crate::difference::PolicyFile;
use crate::found::What;
use crate::gathered::{Silence, Warned, Warning, gathered, silence_about};
use crate::naming::Scope;
use crate::page::Page;
use crate::place::is_line_end;
use crate::policy::push_rule_place;
use crate::quote::push_titled;
use crate::report::Report;
use crate::seat::{Seat, push_rule_of};
use crate::sets::{is_named, name_of, sets_of, twin_of};
use crate::unlogged::push_unlogged;
use crate::unmet::{Unmet, reaches_place};
use cf_acts::{Groups, Kind, kinds};
use cf_covered::{Cover, Slip};
use cf_policy::{Action, Asset, Policy, Protocol, Rule, Span};
use cf_view::same_endpoint;
use std::alloc::{AllocError, Global};
use toml::{Table, Value};

/// That a rule whose rate is spent decides all the same: it refuses, and no later rule is asked.
const SPENT: &str = ", also while its rate is spent";

/// The key of a document's sets.
const SETS: &[u8] = b"set";

/// The key of a document's version.
const VERSION: &[u8] = b"version";

/// A rule that is warned of: its asset, its index, and the rule.
#[derive(Clone, Copy)]
struct Subject<'a> {
    seat: &'a Seat<'a>,
    index: usize,
    rule: &'a Rule,
}

/// A line for each warning about a policy that was read from a text: first the refusals after rules that allow all that they name;
/// then an asset without a rule that allows; then a set that no rule names, or that has the points of an earlier one; then a rule that
/// no command meets, a code that none brings, values where reads have none, a rule that earlier ones cover, points that never come, and
/// likely slips. Twenty are written out, and after them how many more there are. Where the document has sets, their number stands
/// before what is said of them. Last, in version 3, is a note for each asset with rules that allow more than reads and have no log. The
/// text is empty where there is nothing to say.
pub fn policy_warnings(
    alloc: Global,
    file: &str,
    text: &[u8],
    policy: &Policy,
) -> Result<String, AllocError> {
    let source = PolicyFile {
        name: file,
        text,
        policy,
    };
    let all = gathered(alloc, policy)?;
    let mut report = Report::new(alloc);
    push_rules(&mut report, &source, &all, Order::Silent);
    push_strict(&mut report, &source);
    let has_logs = push_stated(&mut report, &source);
    push_rules(&mut report, &source, &all, Order::Other);
    report.push_more(file, ": warning:");
    if has_logs {
        push_unlogged(&mut report.lines, file, policy);
    }
    report.lines.finish()
}

/// The warnings about the sets that a text has; and whether it is of version 3, in which rules have logs.
fn push_stated(report: &mut Report, source: &PolicyFile<'_>) -> bool {
    if !may_have_sets(source.text) && !may_have_logs(source.text) {
        return false;
    }
    match toml::table_from_slice(report.lines.alloc, source.text) {
        Ok(document) => {
            push_sets(report, source, &document);
            Scope::of(&document, 0).names_codes
        }
        Err(_) => {
            report.lines.run_out();
            false
        }
    }
}

/// The warnings about assets without a rule that allows.
fn push_strict(report: &mut Report, source: &PolicyFile<'_>) {
    let mut number = 0u64;
    for asset in source.policy.assets.as_slice() {
        number = number.saturating_add(1);
        if !allows_something(asset) && report.takes() {
            push_beginning(&mut report.lines, source, number, 0);
            push_titled(&mut report.lines, "asset ", number, asset.name.as_str());
            report.lines.push_all(&[
                " has no rule that allows: each command is refused",
                what_follows(source.policy, asset),
            ]);
        }
    }
}

/// The file, with line and column where the table of an asset, or of asset 0 that of a set, begins.
fn push_beginning(out: &mut Page, source: &PolicyFile<'_>, asset: u64, set: u64) {
    out.push(source.name);
    push_rule_place(out, source.text, asset, set);
    out.push(": warning: ");
}

fn allows_something(asset: &Asset) -> bool {
    asset.rules.as_slice().iter().any(is_allowing)
}

/// What follows where no rule of an asset allows anything: a client that a rule of another asset of its address and port names is taken.
fn what_follows(policy: &Policy, asset: &Asset) -> &'static str {
    for other in policy.assets.as_slice() {
        if same_endpoint(&other.endpoint, &asset.endpoint) && allows_something(other) {
            return "\n";
        }
    }
    ", and serve closes each client as it comes\n"
}

fn is_allowing(rule: &Rule) -> bool {
    rule.action == Action::Allow
}

/// Whether a document may have sets: its text has their key, which no letter stands before, or an escape, by which a key may be
/// spelled. Most documents have none, and are not read once more.
fn may_have_sets(text: &[u8]) -> bool {
    text.starts_with(SETS)
        || text.windows(SETS.len() + 1).any(ends_with_sets)
        || text.contains(&b'\\')
}

/// Whether a document whose keys are spelled without escapes may be of version 3: some line of its text has the key and a number that
/// may be 3, which `0b11` is too.
fn may_have_logs(text: &[u8]) -> bool {
    text.split(is_line_end).any(may_be_third)
}

fn may_be_third(line: &[u8]) -> bool {
    (line.contains(&b'3') || line.contains(&b'b')) && has_version(line)
}

fn has_version(line: &[u8]) -> bool {
    line.windows(VERSION.len()).any(is_version)
}

fn is_version(octets: &[u8]) -> bool {
    octets == VERSION
}

/// Whether octets end with the key of sets and begin with none that a longer key would have there.
fn ends_with_sets(octets: &[u8]) -> bool {
    match octets {
        [before, rest @ ..] => rest == SETS && !before.is_ascii_alphanumeric(),
        [] => false,
    }
}

/// The warnings about a document's sets.
fn push_sets(report: &mut Report, source: &PolicyFile<'_>, document: &Table) {
    let sets = sets_of(document);
    push_set_count(&mut report.lines, source.name, sets.len());
    let mut number = 0usize;
    for set in sets {
        let earlier = sets.get(..number).unwrap_or(sets);
        number = number.saturating_add(1);
        if !is_named(document, name_of(set)) && report.takes() {
            push_set(&mut report.lines, source, number, set);
            report.lines.push(": no rule names it\n");
        }
        if let Some((twin, other)) = twin_of(earlier, set)
            && report.takes()
        {
            push_set(&mut report.lines, source, number, set);
            report.lines.push(": it has the points of ");
            push_set_name(&mut report.lines, twin, other);
            report.lines.push("\n");
        }
    }
}

/// How many sets there are, if there are some.
fn push_set_count(out: &mut Page, file: &str, count: usize) {
    if count > 0 {
        out.push(file);
        out.push_number_after(": note: ", count as u64);
        out.push(if count == 1 {
            " set of points\n"
        } else {
            " sets of points\n"
        });
    }
}

/// What a warning about a set begins with, by its number from 1.
fn push_set(out: &mut Page, source: &PolicyFile<'_>, number: usize, set: &Value) {
    push_beginning(out, source, 0, number as u64);
    push_set_name(out, number, set);
}

fn push_set_name(out: &mut Page, number: usize, set: &Value) {
    push_titled(out, "set ", number as u64, name_of(set));
}

/// Which warnings about rules are written.
#[derive(Clone, Copy)]
enum Order {
    /// Refusals after rules that allow.
    Silent,
    /// The others.
    Other,
}

/// The warnings about rules, of one order.
fn push_rules(report: &mut Report, source: &PolicyFile<'_>, all: &[Warned], order: Order) {
    for warned in all {
        if let Some(asset) = source.policy.assets.as_slice().get(warned.asset) {
            let seat = Seat {
                source: &*source,
                number: (warned.asset as u64).saturating_add(1),
                asset,
            };
            push_warned(report, &seat, warned, order);
        }
    }
}

/// The warning about one rule of an asset, if it is of an order.
fn push_warned(report: &mut Report, seat: &Seat<'_>, warned: &Warned, order: Order) {
    let silence = silence_about(seat.asset, warned);
    if let Some(rule) = seat.asset.rules.as_slice().get(warned.rule)
        && silence.is_some() == matches!(order, Order::Silent)
        && report.takes()
    {
        let index = warned.rule;
        push_rule_of(&mut report.lines, seat, ": warning: asset ", index);
        let subject = Subject {
            seat: &*seat,
            index,
            rule,
        };
        match silence {
            Some(silence) => push_silence(&mut report.lines, &subject, silence),
            None => push_told(&mut report.lines, &subject, warned.told),
        }
        report.lines.push("\n");
    }
}

/// An earlier rule by its index.
fn push_earlier(out: &mut Page, index: usize, rule: &Rule) {
    let number = (index as u64).saturating_add(1);
    push_titled(out, "rule ", number, rule.name.as_str());
}

/// That a rule never refuses anything.
fn push_silence(out: &mut Page, subject: &Subject<'_>, silence: Silence) {
    out.push(" never refuses anything: ");
    match silence {
        Silence::Rule(number) => push_allowance(out, subject, number, ""),
        Silence::Rest(number) => push_allowance(
            out,
            subject,
            number,
            ", but for what still earlier rules refuse",
        ),
        Silence::All => {
            out.push("the rules before it together allow all that it names");
            if some_rated(subject) {
                out.push(", as often as their rates let");
            }
        }
        Silence::Part => out.push(
            "the rules before it together decide all that it names, and not all of them refuse",
        ),
    }
}

/// The rule that allows all that a later one names.
fn push_allowance(out: &mut Page, subject: &Subject<'_>, number: usize, but: &str) {
    if let Some(first) = subject.seat.asset.rules.as_slice().get(number) {
        push_earlier(out, number, first);
        out.push(" before it allows all that it names");
        if first.rate.is_some() {
            out.push(", as often as its rate lets");
        }
        out.push(but);
    }
}

fn push_told(out: &mut Page, subject: &Subject<'_>, told: Warning) {
    out.push(": ");
    match told {
        Warning::Found(what) => push_what(out, subject, what),
        Warning::Behind(Cover::Rule(earlier)) => push_covered(out, subject, earlier),
        Warning::Behind(Cover::Rules) => push_together(out, subject),
        Warning::Points(code, high) => push_passed(out, subject.rule, code, high),
        Warning::Slip(slip) => push_slip(out, slip),
    }
}

/// That earlier rules together have all that this one has.
fn push_together(out: &mut Page, subject: &Subject<'_>) {
    out.push("it decides nothing: the rules before it together have all that it has");
    if some_rated(subject) {
        out.push(SPENT);
    }
    push_unrated(out, subject);
}

/// Whether some rule before this one has a rate.
fn some_rated(subject: &Subject<'_>) -> bool {
    let rules = subject.seat.asset.rules.as_slice();
    for rule in rules.get(..subject.index).unwrap_or(rules) {
        if rule.rate.is_some() {
            return true;
        }
    }
    false
}

/// The points of a rule that never come with a code, and those that do.
fn push_passed(out: &mut Page, rule: &Rule, code: u16, high: i64) {
    out.push("points ");
    let spans = rule.points.as_slice();
    let mut is_first = true;
    for (index, span) in spans.iter().enumerate() {
        let told = above(span, high);
        let earlier = spans.get(..index).unwrap_or(spans);
        if high < span.high && !is_above(earlier, high, told) {
            if !is_first {
                out.push(", ");
            }
            push_span(out, told);
            is_first = false;
        }
    }
    out.push_number_after(" never come with code ", u64::from(code));
    push_range(out, high);
}

/// Whether the numbers of one of these spans that are above a number are those told.
fn is_above(spans: &[Span], number: i64, told: Span) -> bool {
    for span in spans {
        if above(span, number) == told {
            return true;
        }
    }
    false
}

/// The numbers of a span that are above a number, if some are.
fn above(span: &Span, number: i64) -> Span {
    Span {
        low: span.low.max(number.saturating_add(1)),
        high: span.high,
    }
}

/// The points from 0 to the highest.
fn push_range(out: &mut Page, high: i64) {
    if high == 0 {
        out.push(": its point is always 0");
    } else {
        out.push_signed_after(": its points are 0 to ", high);
    }
}

fn push_slip(out: &mut Page, slip: Slip) {
    out.push("likely a slip: ");
    match slip {
        Slip::Group(number) => push_group(out, number),
        Slip::Register(number, first) => push_register(out, number, first),
    }
}

/// What an object group without its variation means, and what it means with variation 1.
fn push_group(out: &mut Page, number: i64) {
    out.push_signed_after("group ", number);
    out.push_signed_after(" is object group 0 with variation ", number);
    out.push_signed_after("; object group ", number);
    let meant = number.saturating_mul(256).saturating_add(1);
    out.push_signed_after(" with variation 1 is ", meant);
}

/// The point that a manual means by a register.
fn push_register(out: &mut Page, number: i64, first: i64) {
    let counted = "points count from 0, and a manual that numbers registers from ";
    out.push_signed_after(counted, first);
    out.push_signed_after(" means point ", number.saturating_sub(first));
    out.push_signed_after(" by ", number);
}

fn push_what(out: &mut Page, subject: &Subject<'_>, what: What) {
    match what {
        What::Never(code, why) => {
            out.push("no command meets it: ");
            push_reason(out, subject, code, why);
        }
        What::Code(code, why) => {
            out.push_number_after("no command with code ", u64::from(code));
            out.push(" meets it: ");
            push_reason(out, subject, code, why);
        }
        What::Reads => out.push(
            "the reads of code 23 have no value, so a rule that states values has none of them",
        ),
        What::Covered(earlier) => push_covered(out, subject, earlier),
    }
}

/// That an earlier rule has all that this one has.
fn push_covered(out: &mut Page, subject: &Subject<'_>, earlier: usize) {
    out.push("it decides nothing: ");
    if let Some(first) = subject.seat.asset.rules.as_slice().get(earlier) {
        push_earlier(out, earlier, first);
        out.push(before_it(earlier, first.action, subject.rule.action));
        if first.rate.is_some() {
            out.push(SPENT);
        }
    }
    push_unrated(out, subject);
}

/// That a rate of a rule which decides nothing bounds nothing.
fn push_unrated(out: &mut Page, subject: &Subject<'_>) {
    if subject.rule.rate.is_some() {
        out.push(", so its rate bounds nothing");
    }
}

/// What the rule of a number, from 0, does of all that a later one has. Rules before it may have decided some of that.
fn before_it(number: usize, first: Action, later: Action) -> &'static str {
    match (number, first, later) {
        (0, Action::Refuse, Action::Allow) => {
            " stands before it and refuses all that it would allow"
        }
        (_, Action::Refuse, Action::Allow) => {
            " stands before it and refuses all that it has, but for what still earlier rules decide"
        }
        _ => " stands before it and has all that it has",
    }
}

/// Why no act with a code meets a rule, with what acts of that code have.
fn push_reason(out: &mut Page, subject: &Subject<'_>, code: u16, why: Unmet) {
    let protocol = subject.seat.asset.protocol;
    let kinds = kinds(protocol, code);
    out.push_number_after("code ", u64::from(code));
    out.push(lack(why));
    match why {
        Unmet::Code => out.push(served_codes(protocol)),
        Unmet::Group => push_groups(out, kinds),
        Unmet::Point => push_points(out, kinds),
        Unmet::NoValue => {}
        Unmet::Value => push_values(out, subject.rule, kinds),
    }
}

/// What acts with a code lack, before what they have.
fn lack(why: Unmet) -> &'static str {
    match why {
        Unmet::Code => " is not served; ",
        Unmet::Group => " has no groups but ",
        Unmet::Point => " has no points but ",
        Unmet::NoValue => " has no value there, and the rule states values",
        Unmet::Value => " has no values but ",
    }
}

/// The codes of a protocol in words.
fn served_codes(protocol: Protocol) -> &'static str {
    match protocol {
        Protocol::Modbus => "codes of Modbus are 1 to 6, 15, 16, 22 and 23",
        Protocol::Dnp3 => "codes of DNP3 are 1 to 10, 13, 14 and 20 to 24",
        Protocol::Iec104 => {
            "codes of IEC 60870-5-104 are 45 to 51, 58 to 64, 100 to 103, 105, 107 and 110 to 113"
        }
    }
}

fn push_groups(out: &mut Page, kinds: &[Kind]) {
    let mut between = "";
    for kind in kinds {
        out.push(between);
        match kind.groups {
            Groups::Span(span) => push_span(out, span),
            Groups::Causes => out.push("5, 6, 8"),
        }
        between = ", ";
    }
}

/// The points, which are the same for all kinds of acts of a code.
fn push_points(out: &mut Page, kinds: &[Kind]) {
    if let Some(kind) = kinds.first() {
        push_span(out, kind.points);
    }
}

/// The values of the kinds of acts whose groups and points a rule has.
fn push_values(out: &mut Page, rule: &Rule, kinds: &[Kind]) {
    let mut between = "";
    for kind in kinds {
        if let Some(span) = values_of(rule, kind) {
            out.push(between);
            push_span(out, span);
            between = ", ";
        }
    }
}

/// The values of a kind of acts, if a rule has its groups and points.
fn values_of(rule: &Rule, kind: &Kind) -> Option<Span> {
    if reaches_place(rule, kind) {
        kind.values
    } else {
        None
    }
}

fn push_span(out: &mut Page, span: Span) {
    out.push_signed(span.low);
    if span.low != span.high {
        out.push_signed_after(" to ", span.high);
    }
}
