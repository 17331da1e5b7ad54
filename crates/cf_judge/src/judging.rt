//! The judgement of watched flows.
ghost use Rattle.std.specs.Prelude.{◌≡◌, ◌+◌, ◌^◌, ◌<◌, ◌≤◌, All, IfOk, IfSome, Some, drop, length, map, option_map};
ghost use Rattle.cf_policy.specs.Site.{IsSiteWithin, site_from};
ghost use Rattle.cf_policy.specs.Within.{AreAssetsWithin};
ghost use Rattle.cf_watch.specs.FlowValue.{IsForAsset, flow_value};
ghost use Rattle.cf_judge.specs.Found.{HavePlaces, IsFoundAt, IsFoundIn, with_ruling, with_wrong};
ghost use Rattle.cf_judge.specs.Objections.{IsJudgementOf, earlier, objected, objection_by, sooner, wrong_by};

use crate::front::{Front, Reader};
use crate::ruling::{Complaint, Ruling};
use cf_policy::{Asset, Policy, Site, site_at_place};
use cf_view::{Endpoint, NoMemory, View};
use cf_watch::Flow;
use std::alloc::Global;

/// The first thing that is wrong in a capture.
#[derive(Clone, Copy)]
pub struct Objection {
    /// The number, counted from 1, of the record with which it comes.
    pub at_record: u64,
    pub client: Endpoint,
    /// The place in the policy, counted from 0, of the asset that it is about: that of a unit, or else the first of the flow's site.
    pub asset: u32,
    pub what: Complaint,
}

/// What was found of all flows.
#[derive(Clone, Copy)]
pub struct Judged {
    pub flows: u64,
    /// How many commands the policy allows, up to where each flow breaks or ends.
    pub commands: u64,
    pub objection: Option<Objection>,
}

/// Something that is wrong in a flow, with the number of the record with which it came.
#[derive(Clone, Copy)]
struct Wrong {
    number: u64,
    /// The place in the site of the asset that it is about, counted from 0.
    place: usize,
    what: Complaint,
}

/// What was found in the bytes of one flow: the allowed commands, and the first that is wrong.
#[derive(Clone, Copy)]
struct Found {
    commands: u64,
    first: Option<Wrong>,
}

/// Judges flows, each of which is to the site that begins with the asset at its place of the policy. The flows are those of a
/// whole capture.
pub fn judge(alloc: Global, policy: &Policy, flows: &[Flow]) -> Result<Judged, NoMemory>
    requires within { AreAssetsWithin policy.now.assets }
    requires flows { All (IsForAsset policy.now.assets) (map flow_value flows.now) }
    ensures judged { IfOk result (λ j. IsJudgementOf policy.now.assets (map flow_value flows.now) j) }
    ensures place { IfOk result (λ j. IfSome j.objection (λ o. o.asset < length policy.now.assets)) }
{
    let assets = policy.assets.as_slice();
    let mut commands: u64 = 0;
    let mut objection = None;
    for flow in flows {
        let found = judge_at(alloc, assets, flow)?;
        commands = commands.saturating_add(found.commands);
        objection = earlier(objection, objection_of(flow, found.first));
    }
    Ok(Judged {
        flows: flows.len() as u64,
        commands,
        objection,
    })
}

/// Judges the bytes of a flow to the site at its place of the policy.
fn judge_at(alloc: Global, assets: &[Asset], flow: &Flow) -> Result<Found, NoMemory>
    requires within { AreAssetsWithin assets.now }
    requires flow { IsForAsset assets.now (flow_value flow.now) }
    ensures { IfOk result (λ found. IsFoundAt (site_from assets.now flow.now.asset) (flow_value flow.now) found) }
{
    let site = site_at_place(assets, flow.asset as usize);
    judge_flow(alloc, &site, flow)
}

/// The earlier of two objections, the first where they have one record.
fn earlier(first: Option<Objection>, later: Option<Objection>) -> Option<Objection>
    ensures { result ≡ earlier first later }
{
    match (first, later) {
        (Some(a), Some(b)) => {
            if b.at_record < a.at_record {
                Some(b)
            } else {
                Some(a)
            }
        }
        (Some(a), None) => Some(a),
        (None, b) => b,
    }
}

/// The objection to a flow: its conflict, unless something about its bytes came with an earlier record.
fn objection_of(flow: &Flow, first: Option<Wrong>) -> Option<Objection>
    requires places { HavePlaces (2 ^ 32) flow.now.asset first }
    ensures { result ≡ objection_by (flow_value flow.now) first }
{
    match sooner(conflict_in(flow), first) {
        Some(wrong) => Some(objected(flow, wrong)),
        None => None,
    }
}

/// What is wrong by the conflict of a flow: it is about the first asset.
fn conflict_in(flow: &Flow) -> Option<Wrong>
    ensures { result ≡ option_map wrong_by flow.now.conflict }
{
    match flow.conflict {
        Some(conflict) => Some(Wrong {
            number: conflict.at_record,
            place: 0,
            what: Complaint::Conflict(conflict.position),
        }),
        None => None,
    }
}

/// The objection to a flow for something that is wrong in it: it names the asset that this is about.
fn objected(flow: &Flow, wrong: Wrong) -> Objection
    requires { flow.now.asset + wrong.place < 2 ^ 32 }
    ensures { result ≡ objected (flow_value flow.now) wrong }
{
    Objection {
        at_record: wrong.number,
        client: flow.client,
        asset: flow.asset + wrong.place as u32,
        what: wrong.what,
    }
}

/// What came with the earlier record, and of two with one record the first.
fn sooner(first: Option<Wrong>, later: Option<Wrong>) -> Option<Wrong>
    ensures { result ≡ sooner first later }
{
    match (first, later) {
        (Some(a), Some(b)) => {
            if b.number < a.number {
                Some(b)
            } else {
                Some(a)
            }
        }
        (Some(a), None) => Some(a),
        (None, b) => b,
    }
}

/// Judges the bytes of a flow to a site.
fn judge_flow(alloc: Global, site: &Site<'_>, flow: &Flow) -> Result<Found, NoMemory>
    requires within { IsSiteWithin site.now }
    requires born { length flow.now.born ≡ length flow.now.bytes.items }
    ensures { IfOk result (λ found. IsFoundIn site.now (flow_value flow.now) found) }
{
    let mut found = Found {
        commands: 0,
        first: None,
    };
    if flow.bytes.is_empty() {
        return Ok(found);
    }
    let mut reader = Reader::new(alloc, site, flow.client.address)?;
    let mut at = 0;
    'units: while at < flow.bytes.len() {
        match reader.next(site, &rest_of(flow.bytes.as_slice(), at)) {
            Front::Rest => return Ok(found),
            Front::Broken { reason, place } => {
                let broken = Wrong {
                    number: flow.record_at(at + place),
                    place: 0,
                    what: Complaint::Broken(reason),
                };
                return Ok(with_wrong(found, broken));
            }
            Front::Took {
                ruling,
                place,
                used,
            } => {
                at += used;
                found = with_ruling(found, flow.record_at(at - 1), place, ruling);
            }
        }
    }
    Ok(found)
}

/// The bytes from a place on.
fn rest_of(bytes: &[u8], at: usize) -> View<'_>
    requires { at ≤ length bytes.now }
    ensures { result.bytes ≡ drop at bytes.now }
{
    View::one(&bytes[at..])
}

/// What was found, with a unit for the asset of a place that a record completed.
fn with_ruling(found: Found, number: u64, place: usize, ruling: Ruling) -> Found
    requires { found.commands + 1 < 2 ^ 64 }
    ensures { result ≡ with_ruling found number place ruling }
{
    match ruling {
        Ruling::Nothing => found,
        Ruling::Allowed => Found {
            commands: found.commands + 1,
            first: found.first,
        },
        Ruling::Refused(refusal) => with_wrong(
            found,
            Wrong {
                number,
                place,
                what: Complaint::Refused(refusal.decider, refusal.reason),
            },
        ),
        Ruling::Stray(why) => with_wrong(
            found,
            Wrong {
                number,
                place,
                what: Complaint::Stray(why),
            },
        ),
    }
}

/// What was found, with something that is wrong after it.
fn with_wrong(found: Found, wrong: Wrong) -> Found
    ensures { result ≡ with_wrong found wrong }
{
    Found {
        commands: found.commands,
        first: found.first.or(Some(wrong)),
    }
}
