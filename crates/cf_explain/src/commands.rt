//! The first act of a command that one asset's rules allow and another's refuse. A comparison goes over all numbers that rules can
//! name; here are those that commands of the protocol have. This project's own.
use crate::page::Page;
use cf_acts::{Groups, Kind, kinds};
use cf_policy::{Asset, Rule, Span, Verdict, takes, verdict};
use cf_view::Act;

/// One more than the highest code.
pub(crate) const CODES: u16 = 256;

/// How many acts are looked at for the first one, at the most.
const MOST: u64 = 200_000;

/// How many are looked at for the first ones of all codes of two policies, at the most.
pub(crate) const MOST_OF_CODES: u64 = 20_000;

/// The addresses of clients.
const ADDRESSES: Span = Span {
    low: 0,
    high: 4_294_967_295,
};

/// The causes of transmission of commands of IEC 60870-5-104: request, activation and deactivation.
const CAUSES: [i64; 3] = [5, 6, 8];

/// An act of a client: its address of 32 bits, the first octet the highest.
#[derive(Clone, Copy)]
pub(crate) struct Shown {
    pub(crate) client: u32,
    pub(crate) act: Act,
}

/// What a look at the acts of commands finds.
#[derive(Clone, Copy)]
pub(crate) enum Found {
    /// This act is allowed there and refused here: the first by code, kind, client, group, point and value.
    Beyond(Shown),
    /// There is none.
    Nothing,
    /// There are too many to look at.
    TooMany,
}

/// A list of a rule.
#[derive(Clone, Copy)]
enum Axis {
    Clients,
    Groups,
    Points,
    Values,
}

/// Two assets of one protocol, and how many acts may still be looked at.
#[derive(Clone, Copy)]
pub(crate) struct Search<'a> {
    pub(crate) ours: &'a Asset,
    pub(crate) other: &'a Asset,
    pub(crate) left: u64,
}

/// The numbers at which something may change in what two assets' rules say of the acts of one kind.
#[derive(Drop)]
struct Corners {
    clients: Vec<i64>,
    groups: Vec<i64>,
    points: Vec<i64>,
    /// Empty where the acts have no value.
    values: Vec<i64>,
}

/// The first act of a command that `ours` allows and `other`, of the same protocol, refuses. Where memory runs out, the text does not
/// become whole.
pub(crate) fn first_of_commands(out: &mut Page, ours: &Asset, other: &Asset) -> Found {
    let mut search = Search {
        ours,
        other,
        left: MOST,
    };
    for code in 0..CODES {
        match search.of_code(out, code) {
            Found::Nothing => {}
            found => return found,
        }
    }
    Found::Nothing
}

impl Search<'_> {
    /// The first such act of a code.
    pub(crate) fn of_code(&mut self, out: &mut Page, code: u16) -> Found {
        for kind in kinds(self.ours.protocol, code) {
            let corners = self.corners(out, code, kind);
            match self.of_corners(code, &corners) {
                Found::Nothing => {}
                found => return found,
            }
        }
        Found::Nothing
    }

    /// The first of the acts at corners.
    fn of_corners(&mut self, code: u16, corners: &Corners) -> Found {
        let count = corners.count();
        if count > self.left {
            return Found::TooMany;
        }
        for number in 0..count {
            let shown = corners.at(code, number);
            if self.differs(&shown) {
                self.left = self.left.saturating_sub(number).saturating_sub(1);
                return Found::Beyond(shown);
            }
        }
        self.left = self.left.saturating_sub(count);
        Found::Nothing
    }

    fn differs(&self, shown: &Shown) -> bool {
        matches!(
            verdict(self.ours, shown.client, &shown.act),
            Verdict::Allow(_)
        ) && matches!(
            verdict(self.other, shown.client, &shown.act),
            Verdict::Refuse(_, _)
        )
    }

    /// The corners of a kind; one axis without a number where no rule has the code.
    fn corners(&self, out: &mut Page, code: u16, kind: &Kind) -> Corners {
        Corners {
            clients: self.ends(out, code, Axis::Clients, Some(ADDRESSES)),
            groups: match kind.groups {
                Groups::Span(span) => self.ends(out, code, Axis::Groups, Some(span)),
                Groups::Causes => causes(out),
            },
            points: self.ends(out, code, Axis::Points, Some(kind.points)),
            values: self.ends(out, code, Axis::Values, kind.values),
        }
    }

    /// The least number of a range, and each in it at which a list of some rule with the code begins or has just ended, in order; none
    /// where there is no range.
    fn ends(&self, out: &mut Page, code: u16, axis: Axis, range: Option<Span>) -> Vec<i64> {
        let mut found = Vec::new(out.alloc);
        if let Some(range) = range {
            put(out, &mut found, range.low);
            push_rule_ends(out, &mut found, self.ours, code, axis, range);
            push_rule_ends(out, &mut found, self.other, code, axis, range);
            out.keep(found.sort().is_ok());
            found.dedup();
        }
        found
    }
}

fn causes(out: &mut Page) -> Vec<i64> {
    let mut found = Vec::new(out.alloc);
    for cause in CAUSES {
        put(out, &mut found, cause);
    }
    found
}

fn put(out: &mut Page, found: &mut Vec<i64>, number: i64) {
    out.keep(found.push(number).is_ok());
}

/// Adds the numbers of a range at which a list of a rule of an asset with the code begins or has just ended.
fn push_rule_ends(
    out: &mut Page,
    found: &mut Vec<i64>,
    asset: &Asset,
    code: u16,
    axis: Axis,
    range: Span,
) {
    for rule in asset.rules.as_slice() {
        if takes(&rule.codes, i64::from(code)) {
            push_ends(out, found, spans_of(rule, axis), range);
        }
    }
}

/// Adds the numbers of a range at which spans begin or have just ended.
fn push_ends(out: &mut Page, found: &mut Vec<i64>, spans: &[Span], range: Span) {
    for span in spans {
        push_end(out, found, span.low, range);
        push_end(out, found, span.high.saturating_add(1), range);
    }
}

fn push_end(out: &mut Page, found: &mut Vec<i64>, end: i64, range: Span) {
    if range.low < end && end <= range.high {
        put(out, found, end);
    }
}

fn spans_of(rule: &Rule, axis: Axis) -> &[Span] {
    match axis {
        Axis::Clients => rule.clients.as_slice(),
        Axis::Groups => rule.groups.as_slice(),
        Axis::Points => rule.points.as_slice(),
        Axis::Values => rule.values.as_slice(),
    }
}

impl Corners {
    /// How many acts there are at corners.
    fn count(&self) -> u64 {
        (self.clients.len() as u64)
            .saturating_mul(self.groups.len() as u64)
            .saturating_mul(self.points.len() as u64)
            .saturating_mul((self.values.len() as u64).max(1))
    }

    /// The act of a number below how many there are, counted from 0 by value, point, group and client.
    fn at(&self, code: u16, number: u64) -> Shown {
        let mut rest = number;
        let value = pick(&self.values, &mut rest);
        let point = pick(&self.points, &mut rest);
        let group = pick(&self.groups, &mut rest);
        let client = pick(&self.clients, &mut rest);
        Shown {
            client: u32::try_from(client.unwrap_or(0)).unwrap_or(0),
            act: Act {
                code,
                group: u16::try_from(group.unwrap_or(0)).unwrap_or(0),
                point: u32::try_from(point.unwrap_or(0)).unwrap_or(0),
                value,
            },
        }
    }
}

/// The number at a place of a list, if it has any: places count round, and what is left counts the rounds.
fn pick(numbers: &[i64], place: &mut u64) -> Option<i64> {
    let count = (numbers.len() as u64).max(1);
    let index = *place % count;
    *place /= count;
    numbers.get(index as usize).copied()
}
