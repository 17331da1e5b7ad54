//! What a rule states: a list of numbers for each of the five, without the rule's name.

use crate::spans::{NEXT, SAME, has, joined};
use cf_policy::Span;
use cf_view::Act;
use std::alloc::{AllocError, Global};

/// One of the five lists of a rule.
#[derive(Clone, Copy, PartialEq, Eq)]
pub(crate) enum Axis {
    Clients,
    Codes,
    Groups,
    Points,
    Values,
}

/// The acts of these clients, codes, groups, points and values; no values where the acts have none.
#[derive(Drop)]
pub(crate) struct Cover {
    pub(crate) clients: Vec<Span>,
    pub(crate) codes: Vec<Span>,
    pub(crate) groups: Vec<Span>,
    pub(crate) points: Vec<Span>,
    pub(crate) values: Vec<Span>,
}

impl Cover {
    /// The list of an axis.
    pub(crate) fn list(&self, axis: Axis) -> &[Span] {
        match axis {
            Axis::Clients => self.clients.as_slice(),
            Axis::Codes => self.codes.as_slice(),
            Axis::Groups => self.groups.as_slice(),
            Axis::Points => self.points.as_slice(),
            Axis::Values => self.values.as_slice(),
        }
    }

    /// Gives an axis another list.
    pub(crate) fn set(&mut self, axis: Axis, list: Vec<Span>) {
        match axis {
            Axis::Clients => self.clients = list,
            Axis::Codes => self.codes = list,
            Axis::Groups => self.groups = list,
            Axis::Points => self.points = list,
            Axis::Values => self.values = list,
        }
    }

    /// Whether it has an act of a client.
    pub(crate) fn takes(&self, client: u32, act: &Act) -> bool {
        has(self.clients.as_slice(), i64::from(client))
            && has(self.codes.as_slice(), i64::from(act.code))
            && has(self.groups.as_slice(), i64::from(act.group))
            && has(self.points.as_slice(), i64::from(act.point))
            && self.takes_value(act.value)
    }

    fn takes_value(&self, value: Option<i64>) -> bool {
        match value {
            Some(number) => has(self.values.as_slice(), number),
            None => self.values.is_empty(),
        }
    }

    /// The same but for the list of an axis.
    pub(crate) fn with(
        &self,
        alloc: Global,
        axis: Axis,
        list: Vec<Span>,
    ) -> Result<Cover, AllocError> {
        let mut cover = Cover {
            clients: Vec::from_slice(alloc, self.clients.as_slice())?,
            codes: Vec::from_slice(alloc, self.codes.as_slice())?,
            groups: Vec::from_slice(alloc, self.groups.as_slice())?,
            points: Vec::from_slice(alloc, self.points.as_slice())?,
            values: Vec::from_slice(alloc, self.values.as_slice())?,
        };
        cover.set(axis, list);
        Ok(cover)
    }
}

/// Whether two are the same on an axis.
pub(crate) fn agree_on(a: &Cover, b: &Cover, axis: Axis) -> bool {
    a.list(axis) == b.list(axis)
}

/// Whether two are the same but for an axis.
pub(crate) fn differ_only_in(a: &Cover, b: &Cover, axis: Axis) -> bool {
    (axis == Axis::Clients || agree_on(a, b, Axis::Clients))
        && (axis == Axis::Codes || agree_on(a, b, Axis::Codes))
        && (axis == Axis::Groups || agree_on(a, b, Axis::Groups))
        && (axis == Axis::Points || agree_on(a, b, Axis::Points))
        && (axis == Axis::Values || agree_on(a, b, Axis::Values))
}

/// The numbers that two have on an axis; codes that follow each other are stated one by one.
pub(crate) fn joined_on(
    alloc: Global,
    a: &Cover,
    b: &Cover,
    axis: Axis,
) -> Result<Vec<Span>, AllocError> {
    let near = if axis == Axis::Codes { SAME } else { NEXT };
    joined(alloc, a.list(axis), b.list(axis), near)
}
