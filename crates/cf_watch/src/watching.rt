//! The flows of records, taken one after the other.
//! A packet without text may be a keep-alive, whose number is before the next byte, so it begins no flow amid its stream; what
//! comes later with a lower number than such a flow's first is none of its first bytes.
ghost use Rattle.std.specs.Prelude.{◌≡◌, ◌+◌, ◌-◌, ◌*◌, cond, ◌^◌, ◌<◌, ◌≤◌, ◌++◌, ◌∷◌, ◌||◌, ◌≤ℤ◌, ◌-ℤ◌, ℕ, pos, drop, List, [], OnOk};
ghost use Rattle.std.specs.Prelude.{◌&&◌, ◌⊎◌, IfOk, IfSome, Ok, Some, None, length, nat_le, slice_get, true};
ghost use Rattle.cf_packet.specs.Packet.{PacketValue, packet_answer, packet_value};
ghost use Rattle.cf_stream.specs.Stream.{letter_count};
ghost use Rattle.std.specs.BTreeMap.{get};
ghost use Rattle.std.specs.Ordering.{is_eq};
ghost use Rattle.cf_watch.specs.Trail.{HasHeard, Heard, HearsOn, IsHeard, IsSettled, IsSpare, IsWatchOf, KeepsAll, MayBeGone, TakesRecord, forgets, key_cmp, key_of};
ghost use Rattle.cf_leg.specs.Segment.{has_ack, has_fin};
ghost use Rattle.cf_policy.specs.AtEndpoint.{asset_place};
ghost use Rattle.cf_watch.specs.Seen.{begins_amid, begun_with, far as far_below, goes_first, goes_from, goes_to_asset, packet_by, with_frame, with_packet_by};
ghost use Rattle.cf_watch.specs.Watched.{Watched, begins_anew};

use crate::ahead::Ahead;
use crate::born::Born;
use crate::carry::{advance, carry};
use crate::flow::Flow;
use crate::place::{has, has_fin, is_opening, text_place, top_after};
use crate::scope::Scope;
use crate::tag::{untagged, untagged_kind};
use cf_packet::{ACK, Packet, PacketRefusal, RST, SYN, destination, read_packet, read_recorded};
use cf_policy::Asset;
use cf_view::{Endpoint, LinkKind, NoMemory, same_endpoint};
use std::alloc::Global;
use std::collections::BTreeMap;

/// How far below the newest position the letters of a recording are read: 1 MiB. This project's own.
pub const REACH: u64 = 1_048_576;

/// What is kept of a flow besides what is told of it.
#[derive(Drop)]
pub(crate) struct Trail {
    /// The sequence number of its SYN, or that before its first byte.
    pub(crate) origin: u32,
    /// Whether a packet with ACK has followed.
    pub(crate) answered: bool,
    /// One more than the greatest place that was carried.
    pub(crate) top: u64,
    /// How many of the first bytes of the flow are kept no more.
    pub(crate) base: u64,
    pub(crate) ahead: Ahead,
}

/// What is known of a flow as it begins, before its first packet is taken.
#[derive(Clone, Copy)]
pub(crate) struct Opening {
    /// The sequence number before that of its first byte.
    origin: u32,
    /// Whether a packet with ACK has followed.
    answered: bool,
    /// The number of the record with which it begins, where that is amid its stream.
    midstream: Option<u64>,
}

/// A client and the place of an asset.
#[derive(Clone, Copy, PartialEq, Eq, PartialOrd, Ord, Debug, Drop)]
pub(crate) struct FlowKey {
    pub(crate) address: u32,
    pub(crate) port: u16,
    pub(crate) asset: u32,
}

/// The flows of the records so far.
#[derive(Drop)]
pub struct Watch {
    pub(crate) flows: Vec<Flow>,
    pub(crate) trails: Vec<Trail>,
    /// The place of the last flow of each client and asset.
    pub(crate) last: BTreeMap<FlowKey, usize>,
}

/// Takes a packet of a flow.
fn hear(
    alloc: Global,
    scope: Scope,
    flow: &mut Flow,
    trail: &mut Trail,
    number: u64,
    packet: &Packet<'_>,
) -> Result<(), NoMemory>
    requires number { number < 2 ^ 32 }
    requires low { trail.old.top ≤ 2 ^ 60 }
    requires gone { MayBeGone scope trail.old.base trail.old.top }
    requires short { length packet.now.text.now ≤ 65535 }
    ensures heard { OnOk result ((w : Watched) (h : Heard) → IsHeard scope flow.old trail.old w h
        → HearsOn scope number flow.new trail.new (with_packet_by scope number (packet_value packet.now) w) h) }
    ensures low { OnOk result (trail.new.top ≤ trail.old.top + 2 ^ 32) }
    ensures base { OnOk result (trail.new.base ≡ trail.old.base) }
{
    let place = text_place(packet, trail.origin, trail.top);
    let first = far(scope, trail.top, place);
    let at = place + first as i64;
    let text = text_from(packet.text, first);
    let ended = ends_from(packet, first);
    carry(
        alloc,
        flow,
        trail.base,
        &mut trail.ahead,
        number,
        at,
        text,
        ended,
    )?;
    advance(flow, trail.base, &trail.ahead, number)?;
    trail.top = top_after(trail.top, at, letters_in(text, ended));
    trail.answered = is_answered(trail.answered, packet);
    Ok(())
}

/// How many letters of a packet, from a place on, are not read: of a recording those that stand more than `REACH` places below the newest
/// position.
fn far(scope: Scope, top: u64, at: i64) -> u64
    requires top { top ≤ 2 ^ 60 }
    requires from { (pos top -ℤ pos (2 ^ 31)) ≤ℤ at }
    requires to { at ≤ℤ pos (top + 2 ^ 31) }
    ensures connections { scope ≡ Scope.Connections → result ≡ 0 }
    ensures recording { scope ≡ Scope.Recording → result ≡ far_below top at }
    ensures few { result ≤ 2 ^ 31 }
{
    match scope {
        Scope::Connections => 0,
        Scope::Recording => {
            let from = top as i64 - REACH as i64;
            if at < from { (from - at) as u64 } else { 0 }
        }
    }
}

/// A text without its first octets.
fn text_from(text: &[u8], first: u64) -> &[u8]
    ensures { result.now ≡ drop first text.now }
{
    if first >= text.len() as u64 {
        return &[];
    }
    &text[first as usize..]
}

/// Whether End stands behind the letters of a packet without its first ones, so many.
fn ends_from(packet: &Packet<'_>, first: u64) -> bool
    ensures { result ≡ (has_fin (packet_value packet.now) && nat_le first (length packet.now.text.now)) }
{
    has_fin(packet) && first <= packet.text.len() as u64
}

/// How many letters a text has, with End after it or not.
fn letters_in(text: &[u8], ended: bool) -> u64
    requires { length text.now ≤ 65535 }
    ensures count { result ≡ letter_count (record { bytes = text.now; ended = ended }) }
    ensures few { result ≤ 65536 }
{
    if ended {
        text.len() as u64 + 1
    } else {
        text.len() as u64
    }
}

/// Whether a packet with ACK has followed, this one included.
fn is_answered(answered: bool, packet: &Packet<'_>) -> bool
    ensures { result ≡ (answered || has_ack (packet_value packet.now)) }
{
    answered || has(packet, ACK)
}

/// The segment in the octets of a record as they are watched.
fn packet_by<'a>(
    scope: Scope,
    link: &LinkKind,
    octets: &'a [u8],
) -> Result<Packet<'a>, PacketRefusal>
    ensures answer { packet_answer result ≡ packet_by scope link.now octets.now }
    ensures text { IfOk result (λ packet. length packet.text.now ≤ 65535) }
{
    match scope {
        Scope::Connections => read_packet(link, octets),
        Scope::Recording => { read_recorded(&untagged_kind(link, octets), untagged(link, octets)) }
    }
}

/// The place of the first asset at an endpoint.
fn asset_at(assets: &[Asset], endpoint: &Endpoint) -> Option<usize>
    ensures place { result ≡ asset_place assets.now endpoint.now }
    ensures inside { IfSome result (λ place. place < length assets.now) }
{
    assets
        .iter()
        .position(|asset| same_endpoint(&asset.endpoint, endpoint))
}

/// Where the segment goes in the octets of a record as they are watched, without its checksums.
fn destination_by(scope: Scope, link: &LinkKind, octets: &[u8]) -> Option<Endpoint>
    ensures { (p : PacketValue) → packet_by scope link.now octets.now ≡ Ok p → result ≡ Some p.dest }
{
    match scope {
        Scope::Connections => destination(link, octets),
        Scope::Recording => destination(&untagged_kind(link, octets), untagged(link, octets)),
    }
}

/// The place of the first asset that the segment in the octets of a record is for. Most records of a plant are answers of
/// controllers, which are for none: so their checksums are not summed.
fn asset_by(scope: Scope, assets: &[Asset], link: &LinkKind, octets: &[u8]) -> Option<usize>
    ensures place { (p : PacketValue) → packet_by scope link.now octets.now ≡ Ok p → result ≡ asset_place assets.now p.dest }
    ensures inside { IfSome result (λ place. place < length assets.now) }
{
    match destination_by(scope, link, octets) {
        Some(dest) => asset_at(assets, &dest),
        None => None,
    }
}

/// Whether a packet begins its flow anew.
fn begins_anew(trail: &Trail, packet: &Packet<'_>) -> bool
    ensures { (w : Watched) → trail.now.origin ≡ w.origin → trail.now.answered ≡ w.answered
        → result ≡ begins_anew (packet_value packet.now) w }
{
    is_opening(packet) && !(packet.seq == trail.origin && !trail.answered)
}

/// Whether a packet begins a flow amid its stream, where its client and asset have none.
fn begins_amid(scope: Scope, packet: &Packet<'_>) -> bool
    ensures { result ≡ begins_amid scope (packet_value packet.now) }
{
    match scope {
        Scope::Connections => false,
        Scope::Recording => { !(has(packet, SYN) || has(packet, RST)) && !packet.text.is_empty() }
    }
}

impl Watch {
    /// No flows.
    pub fn new(alloc: Global) -> Watch
        ensures none { (scope : Scope) → IsWatchOf scope 0 result [] [] }
        ensures all { KeepsAll result }
    {
        Watch {
            flows: Vec::new(alloc),
            trails: Vec::new(alloc),
            last: BTreeMap::new(alloc),
        }
    }

    /// Takes the record of this number, and answers the place of the flow that it is of, if it is of one.
    pub fn take(
        &mut self,
        alloc: Global,
        scope: Scope,
        assets: &[Asset],
        link: &LinkKind,
        number: u64,
        body: &[u8],
    ) -> Result<Option<usize>, NoMemory>
        requires assets { length assets.now < 2 ^ 32 }
        requires number { (1 ≤ number) × (number ≤ 2 ^ 27) }
        requires heard { HasHeard scope (number - 1) self.old }
        ensures heard { IfOk result (λ place. (ws : List Watched) (hs : List Heard) → IsWatchOf scope (number - 1) self.old ws hs
            → TakesRecord scope number place self.new ws (with_frame scope assets.now number (packet_by scope link.now body.now) ws) hs) }
        ensures all { OnOk result (KeepsAll self.old → KeepsAll self.new) }
    {
        let Some(asset) = asset_by(scope, assets, link, body) else {
            return Ok(None);
        };
        let Ok(packet) = packet_by(scope, link, body) else {
            return Ok(None);
        };
        self.take_packet(alloc, scope, number, asset as u32, &packet)
    }

    /// Takes a packet to an asset, and answers the place of its flow, if it is of one.
    fn take_packet(
        &mut self,
        alloc: Global,
        scope: Scope,
        number: u64,
        asset: u32,
        packet: &Packet<'_>,
    ) -> Result<Option<usize>, NoMemory>
        requires number { (1 ≤ number) × (number ≤ 2 ^ 27) }
        requires short { length packet.now.text.now ≤ 65535 }
        requires heard { HasHeard scope (number - 1) self.old }
        ensures heard { IfOk result (λ place. (ws : List Watched) (hs : List Heard) → IsWatchOf scope (number - 1) self.old ws hs
            → TakesRecord scope number place self.new ws (goes_to_asset scope number (packet_value packet.now) (Some asset) ws) hs) }
        ensures all { OnOk result (KeepsAll self.old → KeepsAll self.new) }
    {
        let key = FlowKey {
            address: packet.source.address,
            port: packet.source.port,
            asset,
        };
        match self.last.get(&key).copied() {
            Some(place) => self.go_on(alloc, scope, number, asset, place, packet),
            None => self.begin_first(alloc, scope, number, asset, packet),
        }
    }

    /// Takes a packet of no flow that was watched.
    fn begin_first(
        &mut self,
        alloc: Global,
        scope: Scope,
        number: u64,
        asset: u32,
        packet: &Packet<'_>,
    ) -> Result<Option<usize>, NoMemory>
        requires number { (1 ≤ number) × (number ≤ 2 ^ 27) }
        requires short { length packet.now.text.now ≤ 65535 }
        ensures heard { IfOk result (λ place. (ws : List Watched) (hs : List Heard) → IsWatchOf scope (number - 1) self.old ws hs
            → TakesRecord scope number place self.new ws (goes_first scope number asset (packet_value packet.now) ws) hs) }
        ensures all { OnOk result (KeepsAll self.old → KeepsAll self.new) }
    {
        if begins_amid(scope, packet) {
            let opening = Opening {
                origin: packet.seq.wrapping_sub(1),
                answered: true,
                midstream: Some(number),
            };
            let place = self.begin(alloc, scope, number, asset, opening, packet)?;
            return Ok(Some(place));
        }
        if !is_opening(packet) {
            return Ok(None);
        }
        let opening = Opening {
            origin: packet.seq,
            answered: false,
            midstream: None,
        };
        let place = self.begin(alloc, scope, number, asset, opening, packet)?;
        Ok(Some(place))
    }

    /// Takes a packet of the flow at a place, which may begin it anew, and answers the place of the flow that it is of.
    fn go_on(
        &mut self,
        alloc: Global,
        scope: Scope,
        number: u64,
        asset: u32,
        place: usize,
        packet: &Packet<'_>,
    ) -> Result<Option<usize>, NoMemory>
        requires number { (1 ≤ number) × (number ≤ 2 ^ 27) }
        requires short { length packet.now.text.now ≤ 65535 }
        requires flow { place < length self.old.flows.items }
        requires trail { place < length self.old.trails.items }
        requires low { (t : Trail) → slice_get self.old.trails.items place ≡ Some t
            → (t.top ≤ (number - 1) * 2 ^ 32) × MayBeGone scope t.base t.top }
        ensures heard { IfOk result (λ at. (ws : List Watched) (hs : List Heard) → IsWatchOf scope (number - 1) self.old ws hs
            → TakesRecord scope number at self.new ws (goes_from scope number asset (packet_value packet.now) (Some place) ws) hs) }
        ensures all { OnOk result (KeepsAll self.old → KeepsAll self.new) }
    {
        if begins_anew(&self.trails[place], packet) {
            let opening = Opening {
                origin: packet.seq,
                answered: false,
                midstream: None,
            };
            let at = self.begin(alloc, scope, number, asset, opening, packet)?;
            return Ok(Some(at));
        }
        hear(
            alloc,
            scope,
            &mut self.flows[place],
            &mut self.trails[place],
            number,
            packet,
        )?;
        Ok(Some(place))
    }

    /// Begins a flow, and answers its place.
    fn begin(
        &mut self,
        alloc: Global,
        scope: Scope,
        number: u64,
        asset: u32,
        opening: Opening,
        packet: &Packet<'_>,
    ) -> Result<usize, NoMemory>
        requires number { (1 ≤ number) × (number ≤ 2 ^ 27) }
        requires midstream { (opening.midstream ≡ None) ⊎ (opening.midstream ≡ Some number) }
        requires short { length packet.now.text.now ≤ 65535 }
        ensures heard { IfOk result (λ place. (ws : List Watched) (hs : List Heard) → IsWatchOf scope (number - 1) self.old ws hs
            → TakesRecord scope number (Some place) self.new ws
            (ws ++ begun_with scope opening number asset (packet_value packet.now) ∷ []) hs) }
        ensures all { OnOk result (KeepsAll self.old → KeepsAll self.new) }
    {
        let mut flow = Flow {
            client: packet.source,
            asset,
            midstream: opening.midstream,
            bytes: Vec::new(alloc),
            born: Born::new(alloc),
            conflict: None,
        };
        let mut trail = Trail {
            origin: opening.origin,
            answered: opening.answered,
            top: 0,
            base: 0,
            ahead: BTreeMap::new(alloc),
        };
        hear(alloc, scope, &mut flow, &mut trail, number, packet)?;
        let place = self.flows.len();
        self.add(flow, trail)?;
        Ok(place)
    }

    /// Adds a flow after the others.
    fn add(&mut self, flow: Flow, trail: Trail) -> Result<(), NoMemory>
        ensures flows { OnOk result (self.new.flows.items ≡ self.old.flows.items ++ flow ∷ []) }
        ensures trails { OnOk result (self.new.trails.items ≡ self.old.trails.items ++ trail ∷ []) }
        ensures last { OnOk result ((q : FlowKey) → get key_cmp self.new.last q
            ≡ cond (is_eq (key_cmp (key_of flow.client flow.asset) q)) (Some (length self.old.flows.items)) (get key_cmp self.old.last q)) }
    {
        let key = FlowKey {
            address: flow.client.address,
            port: flow.client.port,
            asset: flow.asset,
        };
        let place = self.flows.len();
        if self.flows.push(flow).is_err() {
            return Err(NoMemory);
        }
        if self.trails.push(trail).is_err() {
            return Err(NoMemory);
        }
        match self.last.insert(key, place) {
            Ok(_) => Ok(()),
            Err(_) => Err(NoMemory),
        }
    }

    /// The flow at a place, with the bytes of it that are kept.
    pub fn flow(&self, place: usize) -> &Flow
        requires { place < length self.now.flows.items }
        ensures { slice_get self.now.flows.items place ≡ Some result.now }
    {
        &self.flows[place]
    }

    /// How many flows there are.
    pub fn count(&self) -> usize
        ensures { result ≡ length self.now.flows.items }
    {
        self.flows.len()
    }

    /// How many of the bytes of the flow at a place that are kept, from the first on, stand more than `REACH` places below the newest
    /// position: no letter is read there any more.
    pub fn spare(&self, place: usize) -> usize
        requires flow { place < length self.now.flows.items }
        requires trail { place < length self.now.trails.items }
        ensures { IsSpare self.now place result }
    {
        let trail = &self.trails[place];
        let from = trail.top.saturating_sub(REACH).saturating_sub(trail.base);
        let kept = self.flows[place].bytes.len();
        if from < kept as u64 {
            from as usize
        } else {
            kept
        }
    }

    /// Whether no letter of the flow at a place stands apart from its bytes.
    pub fn is_settled(&self, place: usize) -> bool
        requires { place < length self.now.trails.items }
        ensures { result ≡ true → IsSettled self.now place }
    {
        self.trails[place].ahead.is_empty()
    }

    /// Keeps so many of the first bytes of the flow at a place no more, which stand more than `REACH` places below the newest position.
    pub fn forget(&mut self, place: usize, count: usize)
        requires flow { place < length self.old.flows.items }
        requires trail { place < length self.old.trails.items }
        requires born { (f : Flow) → slice_get self.old.flows.items place ≡ Some f → length f.born ≡ length f.bytes.items }
        requires spare { (n : ℕ) × IsSpare self.old place n × (count ≤ n) }
        requires few { (t : Trail) → slice_get self.old.trails.items place ≡ Some t → t.top ≤ 2 ^ 60 }
        ensures { (records : ℕ) (ws : List Watched) (hs : List Heard) → IsWatchOf Scope.Recording records self.old ws hs
            → IsWatchOf Scope.Recording records self.new ws (forgets place count hs) }
    {
        let flow = &mut self.flows[place];
        flow.forget(count);
        self.trails[place].base += count as u64;
    }
}
