//! What flows show of an asset: the acts of the commands with its station and a right form, unit by unit of a client's bytes. Numbers
//! of IEC 60870-5-104 and whether its transfer was started are not asked.
ghost use Rattle.std.specs.Prelude.{◌≡◌, ◌+◌, ◌^◌, ◌<◌, ◌≤◌, ◌++◌, ℕ, List, IfOk, Ok, OnOk, length, map};
ghost use Rattle.std.specs.List.Sorted.{IsStrictlySortedBy};
ghost use Rattle.cf_apci.specs.Apdu.{apdu_value};
ghost use Rattle.cf_dnplink.specs.LinkFrame.{IsFrame, frame_value};
ghost use Rattle.cf_dnptrans.specs.AssemblyValue.{AssemblyValue, IsAssemblyOf};
ghost use Rattle.cf_lane.specs.Acts.{GivesActs};
ghost use Rattle.cf_lane.specs.Unit.{apdu_unit, frame_unit};
ghost use Rattle.cf_modbus.specs.Acts.{acts};
ghost use Rattle.cf_modbus.specs.Adu.{adu_value};
ghost use Rattle.cf_modbus.specs.Request.{Reads, RequestValue, request_value};
ghost use Rattle.cf_view.specs.Octets.{IsOctets};
ghost use Rattle.cf_watch.specs.FlowValue.{flow_value};
ghost use Rattle.cf_learn.specs.Assets.{AreSeen};
ghost use Rattle.cf_learn.specs.Polls.{AreGathered};
ghost use Rattle.cf_learn.specs.Reading.{Adds, AddsSame, GathersFront, HaveSame, TakesFront, new_messages};
ghost use Rattle.cf_learn.specs.Rules.{seen_cmp};
ghost use Rattle.cf_learn.specs.Seen.{seen_of};
ghost use Rattle.cf_learn.specs.Shown.{Asdu, Fragment, HasAct, HaveAct, IsShown, Request, is_segment, message_in};
ghost use Rattle.cf_learn.specs.Shown.{segment_of};
ghost use Rattle.cf_learn.specs.declared.seen.Seen.{Seen};

use crate::gathering::Gathering;
use crate::polls::{Polls, fragment_place, place_of};
use crate::seen::Seen;
use cf_apci::{Apdu, next_apdu};
use cf_asdu::{act_at as asdu_act, act_count as asdu_acts, read_asdu};
use cf_dnplink::{Frame, next_frame};
use cf_dnpobj::{CONFIRM, act_by, act_count as fragment_acts, marks_of, read_fragment};
use cf_dnptrans::{Assembly, SegmentAnswer};
use cf_lane::{is_data, stray_of, take_segment};
use cf_modbus::{Adu, act_at, act_count, next_adu, read_request};
use cf_policy::{Asset, Protocol};
use cf_view::{Act, Framed, Side, View};
use cf_watch::Flow;
use std::alloc::{AllocError, Global};

/// What the flows to the site at this place show of an asset of it, in order and each act once, however often they show it.
pub fn seen_in(
    alloc: Global,
    asset: &Asset,
    place: u32,
    flows: &[Flow],
) -> Result<Vec<Seen>, AllocError>
    ensures seen { IfOk result (λ seen. AreSeen asset.now place (map flow_value flows.now) seen.items) }
    ensures once { IfOk result (λ seen. IsStrictlySortedBy seen_cmp seen.items) }
{
    let mut seen = Gathering::new(alloc);
    let mut polls = Polls::new(alloc, asset.protocol)?;
    for flow in flows {
        if flow.asset == place {
            push_bytes(
                alloc,
                &mut seen,
                &mut polls,
                asset,
                flow.client.address,
                flow.bytes.as_slice(),
            )?;
        }
    }
    seen.finish()
}

/// Adds what the bytes of a client to the asset show. Every act of the requests and fragments that stand in `polls` was gathered.
fn push_bytes<'a>(
    alloc: Global,
    seen: &mut Gathering,
    polls: &mut Polls<'a>,
    asset: &Asset,
    client: u32,
    bytes: &'a [u8],
) -> Result<(), AllocError>
    requires polls { AreGathered (seen.old.sorted.items ++ seen.old.loose.items) polls.old }
    ensures adds { OnOk result (AddsSame asset.now.protocol client (IsShown asset.now bytes.now)
        (seen.old.sorted.items ++ seen.old.loose.items) (seen.new.sorted.items ++ seen.new.loose.items)) }
    ensures client { client < 2 ^ 32 }
    ensures polls { OnOk result (AreGathered (seen.new.sorted.items ++ seen.new.loose.items) polls.new) }
{
    let Ok(mut assembly) = Assembly::new(alloc) else {
        return Err(AllocError);
    };
    let mut fresh = Vec::new(alloc);
    let mut at = 0;
    let first = View::one(bytes);
    let mut front = gather_front(
        seen,
        &mut fresh,
        polls,
        &mut assembly,
        asset,
        client,
        &first,
    )?;
    while let Some(used) = front {
        at += used;
        let rest = View::one(&bytes[at..]);
        front = gather_front(seen, &mut fresh, polls, &mut assembly, asset, client, &rest)?;
    }
    Ok(())
}

/// Gathers the acts of the unit at the front of bytes, if one is whole, and tells how many octets it takes. `fresh` holds them meanwhile.
fn gather_front<'a>(
    seen: &mut Gathering,
    fresh: &mut Vec<Seen>,
    polls: &mut Polls<'a>,
    assembly: &mut Assembly,
    asset: &Asset,
    client: u32,
    bytes: &View<'a>,
) -> Result<Option<usize>, AllocError>
    requires polls { AreGathered (seen.old.sorted.items ++ seen.old.loose.items) polls.old }
    ensures front { (earlier : List (List ℕ)) (all : List Seen) → IsAssemblyOf assembly.old earlier →
        HaveSame (seen.old.sorted.items ++ seen.old.loose.items) all →
        IfOk result (λ front. GathersFront asset.now client earlier bytes.now.bytes all (seen.new.sorted.items ++ seen.new.loose.items)
        assembly.new front) }
    ensures polls { OnOk result (AreGathered (seen.new.sorted.items ++ seen.new.loose.items) polls.new) }
{
    if let Protocol::Modbus = asset.protocol {
        return gather_modbus(seen, fresh, polls, asset, client, bytes);
    }
    if let Protocol::Dnp3 = asset.protocol {
        return gather_dnp3(seen, fresh, polls, assembly, asset, client, bytes);
    }
    fresh.clear();
    let front = push_front(fresh, assembly, asset, client, bytes)?;
    seen.add(fresh.as_slice())?;
    Ok(front)
}

/// The same of an asset that speaks Modbus.
fn gather_modbus<'a>(
    seen: &mut Gathering,
    fresh: &mut Vec<Seen>,
    polls: &mut Polls<'a>,
    asset: &Asset,
    client: u32,
    bytes: &View<'a>,
) -> Result<Option<usize>, AllocError>
    requires modbus { asset.now.protocol ≡ Protocol.Modbus }
    requires polls { AreGathered (seen.old.sorted.items ++ seen.old.loose.items) polls.old }
    ensures front { (earlier : List (List ℕ)) (all : List Seen) (assembly : AssemblyValue) → IsAssemblyOf assembly earlier →
        HaveSame (seen.old.sorted.items ++ seen.old.loose.items) all →
        IfOk result (λ front. GathersFront asset.now client earlier bytes.now.bytes all (seen.new.sorted.items ++ seen.new.loose.items)
        assembly front) }
    ensures polls { OnOk result (AreGathered (seen.new.sorted.items ++ seen.new.loose.items) polls.new) }
{
    match next_adu(all(bytes)) {
        Framed::Unit { unit, used } => {
            gather_adu(seen, fresh, polls, asset, client, &unit)?;
            Ok(Some(used))
        }
        Framed::More => Ok(None),
        Framed::Broken(_) => Ok(None),
    }
}

/// Gathers the acts of an ADU, if it is a request to the asset's station.
fn gather_adu<'a>(
    seen: &mut Gathering,
    fresh: &mut Vec<Seen>,
    polls: &mut Polls<'a>,
    asset: &Asset,
    client: u32,
    adu: &Adu<'a>,
) -> Result<(), AllocError>
    requires pdu { 1 ≤ length adu.now.pdu.bytes }
    requires polls { AreGathered (seen.old.sorted.items ++ seen.old.loose.items) polls.old }
    ensures adds { OnOk result (AddsSame Protocol.Modbus client (HasAct asset.now (Request (adu_value adu.now)))
        (seen.old.sorted.items ++ seen.old.loose.items) (seen.new.sorted.items ++ seen.new.loose.items)) }
    ensures polls { OnOk result (AreGathered (seen.new.sorted.items ++ seen.new.loose.items) polls.new) }
{
    if u16::from(adu.unit) != asset.station {
        return Ok(());
    }
    match read_request(adu) {
        Ok(request) => gather_request(seen, fresh, polls, client, &adu.pdu, &request),
        Err(_) => Ok(()),
    }
}

/// Gathers the acts of the request that a PDU is, unless it stands in `polls`.
fn gather_request<'a>(
    seen: &mut Gathering,
    fresh: &mut Vec<Seen>,
    polls: &mut Polls<'a>,
    client: u32,
    pdu: &View<'a>,
    request: &cf_modbus::Request<'_>,
) -> Result<(), AllocError>
    requires reads { Reads (Ok (request_value request.now)) pdu.now.bytes }
    requires only { (r : RequestValue) → Reads (Ok r) pdu.now.bytes → r ≡ request_value request.now }
    requires polls { AreGathered (seen.old.sorted.items ++ seen.old.loose.items) polls.old }
    ensures adds { OnOk result (HaveSame (seen.new.sorted.items ++ seen.new.loose.items)
        ((seen.old.sorted.items ++ seen.old.loose.items) ++ map (seen_of client) (acts (request_value request.now)))) }
    ensures polls { OnOk result (AreGathered (seen.new.sorted.items ++ seen.new.loose.items) polls.new) }
{
    let place = place_of(client, request.code, request.start, request.quantity);
    if polls.has(place, client, pdu) {
        return Ok(());
    }
    fresh.clear();
    push_acts(fresh, client, act_count(request), |i| act_at(request, i))?;
    seen.add(fresh.as_slice())?;
    polls.put(place, client, pdu);
    Ok(())
}

/// Gathers the acts of the unit at the front of bytes to an asset that speaks DNP3, if one is whole, and tells how many octets it takes.
fn gather_dnp3(
    seen: &mut Gathering,
    fresh: &mut Vec<Seen>,
    polls: &mut Polls<'_>,
    assembly: &mut Assembly,
    asset: &Asset,
    client: u32,
    bytes: &View<'_>,
) -> Result<Option<usize>, AllocError>
    requires dnp3 { asset.now.protocol ≡ Protocol.Dnp3 }
    requires polls { AreGathered (seen.old.sorted.items ++ seen.old.loose.items) polls.old }
    ensures front { (earlier : List (List ℕ)) (all : List Seen) → IsAssemblyOf assembly.old earlier →
        HaveSame (seen.old.sorted.items ++ seen.old.loose.items) all →
        IfOk result (λ front. GathersFront asset.now client earlier bytes.now.bytes all (seen.new.sorted.items ++ seen.new.loose.items)
        assembly.new front) }
    ensures polls { OnOk result (AreGathered (seen.new.sorted.items ++ seen.new.loose.items) polls.new) }
{
    match next_frame(all(bytes)) {
        Framed::Unit { unit, used } => {
            gather_frame(seen, fresh, polls, assembly, asset, client, &unit)?;
            Ok(Some(used))
        }
        Framed::More => Ok(None),
        Framed::Broken(_) => Ok(None),
    }
}

/// Gathers the acts of the fragment that a frame makes whole, if it makes one.
fn gather_frame(
    seen: &mut Gathering,
    fresh: &mut Vec<Seen>,
    polls: &mut Polls<'_>,
    assembly: &mut Assembly,
    asset: &Asset,
    client: u32,
    frame: &Frame<'_>,
) -> Result<(), AllocError>
    requires frame { IsFrame (frame_value frame.now) }
    requires polls { AreGathered (seen.old.sorted.items ++ seen.old.loose.items) polls.old }
    ensures adds { (earlier : List (List ℕ)) → IsAssemblyOf assembly.old earlier →
        OnOk result (AddsSame Protocol.Dnp3 client (HaveAct asset.now (new_messages asset.now earlier (frame_unit (frame_value frame.now))))
        (seen.old.sorted.items ++ seen.old.loose.items) (seen.new.sorted.items ++ seen.new.loose.items)) }
    ensures assembly { (earlier : List (List ℕ)) → IsAssemblyOf assembly.old earlier →
        OnOk result (IsAssemblyOf assembly.new (segment_of asset.now (frame_unit (frame_value frame.now)) ++ earlier)) }
    ensures polls { OnOk result (AreGathered (seen.new.sorted.items ++ seen.new.loose.items) polls.new) }
{
    if !is_segment(asset, frame) {
        return Ok(());
    }
    match take_segment(assembly, frame) {
        SegmentAnswer::Whole => gather_fragment(
            seen,
            fresh,
            polls,
            asset,
            client,
            &assembly.fragment(),
        ),
        SegmentAnswer::More => Ok(()),
        SegmentAnswer::Dropped(_) => Ok(()),
    }
}

/// Gathers the acts of a fragment, if it is a command, unless it stands in `polls`.
fn gather_fragment(
    seen: &mut Gathering,
    fresh: &mut Vec<Seen>,
    polls: &mut Polls<'_>,
    asset: &Asset,
    client: u32,
    octets: &View<'_>,
) -> Result<(), AllocError>
    requires size { length octets.now.bytes ≤ 2048 }
    requires polls { AreGathered (seen.old.sorted.items ++ seen.old.loose.items) polls.old }
    ensures adds { OnOk result (AddsSame Protocol.Dnp3 client (HasAct asset.now (Fragment octets.now.bytes))
        (seen.old.sorted.items ++ seen.old.loose.items) (seen.new.sorted.items ++ seen.new.loose.items)) }
    ensures polls { OnOk result (AreGathered (seen.new.sorted.items ++ seen.new.loose.items) polls.new) }
{
    let octets = all(octets);
    let place = fragment_place(client, &octets);
    if polls.has_fragment(place, client, &octets) {
        return Ok(());
    }
    fresh.clear();
    push_fragment(fresh, asset, client, &octets)?;
    seen.add(fresh.as_slice())?;
    polls.put_fragment(place, client, &octets)
}

/// Adds the acts of the unit at the front of bytes, if one is whole, and tells how many octets it takes.
pub fn push_front(
    seen: &mut Vec<Seen>,
    assembly: &mut Assembly,
    asset: &Asset,
    client: u32,
    bytes: &View<'_>,
) -> Result<Option<usize>, AllocError>
    ensures front { (earlier : List (List ℕ)) → IsAssemblyOf assembly.old earlier →
        IfOk result (TakesFront asset.now client earlier bytes.now.bytes seen.old.items seen.new.items assembly.new) }
{
    match asset.protocol {
        Protocol::Modbus => push_modbus(seen, asset, client, bytes),
        Protocol::Dnp3 => push_dnp3(seen, assembly, asset, client, bytes),
        Protocol::Iec104 => push_iec104(seen, asset, client, bytes),
    }
}

fn push_modbus(
    seen: &mut Vec<Seen>,
    asset: &Asset,
    client: u32,
    bytes: &View<'_>,
) -> Result<Option<usize>, AllocError>
    requires modbus { asset.now.protocol ≡ Protocol.Modbus }
    ensures front { (earlier : List (List ℕ)) (assembly : AssemblyValue) → IsAssemblyOf assembly earlier →
        IfOk result (TakesFront asset.now client earlier bytes.now.bytes seen.old.items seen.new.items assembly) }
{
    match next_adu(all(bytes)) {
        Framed::Unit { unit, used } => {
            push_adu(seen, asset, client, &unit)?;
            Ok(Some(used))
        }
        Framed::More => Ok(None),
        Framed::Broken(_) => Ok(None),
    }
}

fn push_iec104(
    seen: &mut Vec<Seen>,
    asset: &Asset,
    client: u32,
    bytes: &View<'_>,
) -> Result<Option<usize>, AllocError>
    requires iec104 { asset.now.protocol ≡ Protocol.Iec104 }
    ensures front { (earlier : List (List ℕ)) (assembly : AssemblyValue) → IsAssemblyOf assembly earlier →
        IfOk result (TakesFront asset.now client earlier bytes.now.bytes seen.old.items seen.new.items assembly) }
{
    match next_apdu(all(bytes)) {
        Framed::Unit { unit, used } => {
            push_apdu(seen, asset, client, &unit)?;
            Ok(Some(used))
        }
        Framed::More => Ok(None),
        Framed::Broken(_) => Ok(None),
    }
}

fn push_dnp3(
    seen: &mut Vec<Seen>,
    assembly: &mut Assembly,
    asset: &Asset,
    client: u32,
    bytes: &View<'_>,
) -> Result<Option<usize>, AllocError>
    requires dnp3 { asset.now.protocol ≡ Protocol.Dnp3 }
    ensures front { (earlier : List (List ℕ)) → IsAssemblyOf assembly.old earlier →
        IfOk result (TakesFront asset.now client earlier bytes.now.bytes seen.old.items seen.new.items assembly.new) }
{
    match next_frame(all(bytes)) {
        Framed::Unit { unit, used } => {
            push_frame(seen, assembly, asset, client, &unit)?;
            Ok(Some(used))
        }
        Framed::More => Ok(None),
        Framed::Broken(_) => Ok(None),
    }
}

/// Adds the acts of the fragment that a frame makes whole, if it makes one.
fn push_frame(
    seen: &mut Vec<Seen>,
    assembly: &mut Assembly,
    asset: &Asset,
    client: u32,
    frame: &Frame<'_>,
) -> Result<(), AllocError>
    requires frame { IsFrame (frame_value frame.now) }
    ensures adds { (earlier : List (List ℕ)) → IsAssemblyOf assembly.old earlier →
        OnOk result (Adds Protocol.Dnp3 client (HaveAct asset.now (new_messages asset.now earlier (frame_unit (frame_value frame.now))))
        seen.old.items seen.new.items) }
    ensures assembly { (earlier : List (List ℕ)) → IsAssemblyOf assembly.old earlier →
        OnOk result (IsAssemblyOf assembly.new (segment_of asset.now (frame_unit (frame_value frame.now)) ++ earlier)) }
{
    if !is_segment(asset, frame) {
        return Ok(());
    }
    match take_segment(assembly, frame) {
        SegmentAnswer::Whole => push_fragment(seen, asset, client, &assembly.fragment()),
        SegmentAnswer::More | SegmentAnswer::Dropped(_) => Ok(()),
    }
}

/// Whether a frame of a client carries data for the asset. IEEE 1815-2012, section 9.2.
fn is_segment(asset: &Asset, frame: &Frame<'_>) -> bool
    requires { IsFrame (frame_value frame.now) }
    ensures { result ≡ is_segment asset.now (frame_value frame.now) }
{
    stray_of(asset, Side::Client, frame).is_none() && is_data(frame)
}

/// Adds the acts of a fragment, if it is a command. A confirmation is none.
fn push_fragment(
    seen: &mut Vec<Seen>,
    asset: &Asset,
    client: u32,
    octets: &View<'_>,
) -> Result<(), AllocError>
    requires { length octets.now.bytes ≤ 2048 }
    ensures { OnOk result (Adds Protocol.Dnp3 client (HasAct asset.now (Fragment octets.now.bytes)) seen.old.items seen.new.items) }
{
    match read_fragment(all(octets)) {
        Ok(fragment) => {
            if fragment.code == CONFIRM {
                return Ok(());
            }
            let marks = marks_of(&fragment);
            push_acts(
                seen,
                client,
                fragment_acts(&fragment),
                |i| act_by(&fragment, &marks, i),
            )
        }
        Err(_) => Ok(()),
    }
}

/// Adds the acts of an ADU, if it is a request to the asset's station.
fn push_adu(
    seen: &mut Vec<Seen>,
    asset: &Asset,
    client: u32,
    adu: &Adu<'_>,
) -> Result<(), AllocError>
    requires { 1 ≤ length adu.now.pdu.bytes }
    ensures { OnOk result (Adds Protocol.Modbus client (HasAct asset.now (Request (adu_value adu.now))) seen.old.items seen.new.items) }
{
    if u16::from(adu.unit) != asset.station {
        return Ok(());
    }
    match read_request(adu) {
        Ok(request) => push_acts(seen, client, act_count(&request), |i| act_at(&request, i)),
        Err(_) => Ok(()),
    }
}

/// Adds the acts of the ASDU of an APDU, if it has one that is a command to the asset's station.
fn push_apdu(
    seen: &mut Vec<Seen>,
    asset: &Asset,
    client: u32,
    apdu: &Apdu<'_>,
) -> Result<(), AllocError>
    ensures { OnOk result (Adds Protocol.Iec104 client (HaveAct asset.now (message_in (apdu_unit (apdu_value apdu.now)))) seen.old.items
        seen.new.items) }
{
    match apdu {
        Apdu::Info { asdu, .. } => push_asdu(seen, asset, client, asdu),
        Apdu::Ack { .. } => Ok(()),
        Apdu::Control(_) => Ok(()),
    }
}

/// Adds the acts of an ASDU, if it is a command to the asset's station.
fn push_asdu(
    seen: &mut Vec<Seen>,
    asset: &Asset,
    client: u32,
    octets: &View<'_>,
) -> Result<(), AllocError>
    ensures { OnOk result (Adds Protocol.Iec104 client (HasAct asset.now (Asdu octets.now.bytes)) seen.old.items seen.new.items) }
{
    match read_asdu(all(octets)) {
        Ok(asdu) => {
            if asdu.station != asset.station {
                return Ok(());
            }
            push_acts(seen, client, asdu_acts(&asdu), |i| asdu_act(&asdu, i))
        }
        Err(_) => Ok(()),
    }
}

/// The same bytes.
fn all<'a>(bytes: &View<'a>) -> View<'a>
    ensures bytes { result.bytes ≡ bytes.now.bytes }
    ensures octets { IsOctets bytes.now.bytes }
{
    bytes.sub(0, bytes.len())
}

/// Adds so many acts of a client, of which the call gives each by its place.
fn push_acts<F: Fn(u32) -> Act>(
    seen: &mut Vec<Seen>,
    client: u32,
    count: u32,
    act_at: F,
) -> Result<(), AllocError>
    requires acts { (i : ℕ) → i < count → F.pre act_at i }
    ensures { (acts : List Act) → length acts ≡ count → GivesActs (F.post act_at) acts →
        OnOk result (seen.new.items ≡ seen.old.items ++ map (seen_of client) acts) }
{
    for i in 0..count {
        let act = act_at(i);
        seen.push(Seen::new(client, &act))?;
    }
    Ok(())
}
