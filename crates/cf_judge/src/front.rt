//! What stands at the front of a client's bytes, and what it counts for.
//! A break has the record of the octet that no unit has there.
ghost use Rattle.std.specs.Prelude.{◌≡◌, ◌+◌, ◌<◌, ℕ, List, [], ◌∷◌, ◌++◌, IfOk, OnOk, Some, length, slice_get, true, false};
ghost use Rattle.cf_apci.specs.Apdu.{SpellsApdu};
ghost use Rattle.cf_modbus.specs.Adu.{SpellsAdu};
ghost use Rattle.cf_dnplink.specs.LinkFrame.{IsFrame, SpellsFrame, frame_value};
ghost use Rattle.cf_lane.specs.Judged.{Judged};
ghost use Rattle.cf_lane.specs.Log.{command_octets};
ghost use Rattle.cf_lane.specs.Unit.{SpellsUnit, UnitValue, frame_unit};
ghost use Rattle.cf_lane.specs.Parts.{part};
ghost use Rattle.cf_lane.specs.Site.{place_for};
ghost use Rattle.cf_policy.specs.Site.{IsSiteWithin, assets_of, asset_of};
ghost use Rattle.cf_policy.specs.Within.{IsAssetWithin};
ghost use Rattle.cf_view.specs.Framing.{BreaksAt, IsPartial};
ghost use Rattle.cf_lane.specs.declared.fate.Fate.{Fate};
ghost use Rattle.cf_lane.specs.declared.fate.Fate.TheVariants as fate;
ghost use Rattle.cf_lane.specs.declared.fate.Refusal.{Refusal};
ghost use Rattle.cf_view.specs.declared.Side.TheVariants as side;
ghost use Rattle.cf_judge.specs.Ruling.{ruling_of};
ghost use Rattle.cf_judge.specs.Front.{AreNewReaders, HasWhole, IsFrontOf, IsOwnReaderOf, IsReaderFor, IsReaderOf, JudgesFrameAt};
ghost use Rattle.cf_judge.specs.Plain.{HasSiteFate, completed_in, frame_fate};

use crate::dnp3::judge_whole;
use crate::iec104::{all, judge_apdu};
use crate::modbus::judge_adu;
use crate::ruling::Ruling;
use cf_apci::next_apdu;
use cf_dnplink::{Frame, next_frame};
use cf_dnptrans::{Assembly, SegmentAnswer};
use cf_lane::{
    drop_why, is_data, place_for_adu, place_for_apdu, place_for_frame, stray_of, take_segment,
};
use cf_modbus::next_adu;
use cf_policy::{Asset, CodeIndex, Protocol, Site};
use cf_view::{Break, Framed, NoMemory, Side, View};
use std::alloc::Global;

/// What stands at the front of bytes.
#[derive(Drop)]
pub enum Front {
    /// A unit of so many octets, for the asset of a place of the site, counted from 0.
    Took {
        ruling: Ruling,
        place: usize,
        used: usize,
    },
    /// No whole unit.
    Rest,
    /// An octet that no unit has at this place, counted in octets from 0.
    Broken {
        reason: Break,
        place: usize,
    },
}

/// Reads a client's stream to a site unit by unit: what is kept of it from one to the next.
#[derive(Drop)]
pub struct Reader {
    own: Vec<OwnReader>,
}

/// What is kept for one asset of the site: its rules by code, and the fragment of its units of DNP3.
#[derive(Drop)]
struct OwnReader {
    index: CodeIndex,
    assembly: Assembly,
}

impl Reader {
    /// The reader of a stream of a client with this address, before its first unit. It takes all its memory here.
    ///
    /// `NoMemory`: it could not be had.
    pub fn new(alloc: Global, site: &Site<'_>, client: u32) -> Result<Reader, NoMemory>
        requires within { IsSiteWithin site.now }
        ensures reader { IfOk result (λ r. IsReaderOf site.now client [] r) }
    {
        let own = own_readers(alloc, site, client)?;
        Ok(Reader { own })
    }

    /// What stands at the front of bytes after those that were read. The site is the same from unit to unit.
    pub fn next(&mut self, site: &Site<'_>, bytes: &View<'_>) -> Front
        requires for_site { IsReaderFor site.now self.old }
        ensures for_site { IsReaderFor site.now self.new }
        ensures front { (client : ℕ) (earlier : List Judged) → IsReaderOf site.now client earlier self.old
            → IsFrontOf site.now client earlier bytes.now.bytes self.new result }
        ensures rest { result ≡ Front.Rest → (client : ℕ) (earlier : List Judged) → IsReaderOf site.now client earlier self.old
            → IsReaderOf site.now client earlier self.new }
    {
        match site.first().protocol {
            Protocol::Modbus => next_of_modbus(site, self.own.as_slice(), bytes),
            Protocol::Dnp3 => next_of_dnp3(site, &mut self.own, bytes),
            Protocol::Iec104 => next_of_iec104(site, self.own.as_slice(), bytes),
        }
    }

    /// The octets of a command to the asset of a place that was refused, whose last unit has these: the ADU or the APDU itself, or the
    /// DNP3 fragment that the frame completed.
    pub fn command_octets<'a>(&'a self, site: &Site<'_>, place: usize, unit: View<'a>) -> View<'a>
        requires whole { HasWhole site.now place self.now }
        ensures octets { (client : ℕ) (earlier : List Judged) (number : ℕ) (u : UnitValue) (refusal : Refusal)
            → IsReaderOf site.now client (earlier ++ completed_in number u (fate.Refused refusal) ∷ []) self.now
            → place ≡ place_for site.now side.Client u
            → SpellsUnit site.now.first.protocol u unit.entry.bytes → HasSiteFate site.now client earlier u (fate.Refused refusal)
            → result.bytes ≡ command_octets (asset_of site.now place) (part site.now place earlier) side.Client u }
    {
        match site.first().protocol {
            Protocol::Modbus => unit,
            Protocol::Dnp3 => own_at(self.own.as_slice(), place).assembly.fragment(),
            Protocol::Iec104 => unit,
        }
    }
}

impl OwnReader {
    /// What a frame to the asset counts for; a segment of it is put to the asset's fragment.
    fn judge_frame(&mut self, asset: &Asset, frame: &Frame<'_>) -> Ruling
        requires frame { IsFrame (frame_value frame.now) }
        ensures counts { (client : ℕ) (earlier : List Judged) → IsOwnReaderOf asset.now client earlier self.old
            → result ≡ ruling_of (frame_fate asset.now client earlier (frame_value frame.now)) }
        ensures whole { (refusal : Refusal) → result ≡ Ruling.Refused refusal → self.new.assembly.whole ≡ true }
        ensures goes_on { (client : ℕ) (earlier : List Judged) (number : ℕ) (f : Fate) → IsOwnReaderOf asset.now client earlier self.old
            → IsOwnReaderOf asset.now client (earlier ++ completed_in number (frame_unit (frame_value frame.now)) f ∷ []) self.new }
    {
        if let Some(why) = stray_of(asset, Side::Client, frame) {
            return Ruling::Stray(why);
        }
        if !is_data(frame) {
            return Ruling::Nothing;
        }
        match take_segment(&mut self.assembly, frame) {
            SegmentAnswer::More => Ruling::Nothing,
            SegmentAnswer::Dropped(reason) => Ruling::Stray(drop_why(&reason)),
            SegmentAnswer::Whole => judge_whole(asset, &self.index, &self.assembly.fragment()),
        }
    }
}

/// What is kept for each asset of a site, of whose units none came yet.
fn own_readers(alloc: Global, site: &Site<'_>, client: u32) -> Result<Vec<OwnReader>, NoMemory>
    requires within { IsSiteWithin site.now }
    ensures one_each { IfOk result (λ own. length own.items ≡ length (assets_of site.now)) }
    ensures each { IfOk result (λ own. AreNewReaders site.now client own.items) }
{
    let mut own = Vec::new(alloc);
    for place in 0..site.len() {
        let one = own_reader(alloc, site.asset(place), client)?;
        push_own(&mut own, one)?;
    }
    Ok(own)
}

/// What is kept for an asset of whose units none came yet.
fn own_reader(alloc: Global, asset: &Asset, client: u32) -> Result<OwnReader, NoMemory>
    requires within { IsAssetWithin asset.now }
    ensures of_asset { IfOk result (λ o. IsOwnReaderOf asset.now client [] o) }
{
    let index = CodeIndex::new(alloc, asset, client)?;
    let assembly = Assembly::new(alloc)?;
    Ok(OwnReader { index, assembly })
}

fn push_own(own: &mut Vec<OwnReader>, one: OwnReader) -> Result<(), NoMemory>
    ensures { OnOk result (own.new.items ≡ own.old.items ++ one ∷ []) }
{
    if own.push(one).is_err() {
        return Err(NoMemory);
    }
    Ok(())
}

/// What is kept for the asset of a place.
#[inline(always)]
fn own_at(own: &[OwnReader], place: usize) -> &OwnReader
    requires { place < length own.now }
    ensures { slice_get own.now place ≡ Some result.now }
{
    &own[place]
}

/// What a frame to the asset of a place counts for; a segment of it is put to that asset's fragment, and those of the others stay.
fn judge_frame_at(
    own: &mut Vec<OwnReader>,
    place: usize,
    asset: &Asset,
    frame: &Frame<'_>,
) -> Ruling
    requires inside { place < length own.old.items }
    requires frame { IsFrame (frame_value frame.now) }
    ensures { JudgesFrameAt asset.now (frame_value frame.now) place own.old.items own.new.items result }
{
    let reader = &mut own[place];
    reader.judge_frame(asset, frame)
}

fn next_of_modbus(site: &Site<'_>, own: &[OwnReader], bytes: &View<'_>) -> Front
    requires modbus { site.now.first.protocol ≡ Protocol.Modbus }
    requires one_each { length own.now ≡ length (assets_of site.now) }
    ensures front { (client : ℕ) (earlier : List Judged) (r : Reader) → IsReaderOf site.now client earlier r → r.own.items ≡ own.now
        → IsFrontOf site.now client earlier bytes.now.bytes r result }
{
    match next_adu(all(bytes)) {
        Framed::Unit { unit, used } => {
            let place = place_for_adu(site, Side::Client, &unit);
            let ruling = judge_adu(site.asset(place), &own_at(own, place).index, &unit);
            Front::Took {
                ruling,
                place,
                used,
            }
        }
        Framed::More => Front::Rest,
        Framed::Broken(reason) => Front::Broken {
            reason,
            place: break_place(&site.first().protocol, bytes),
        },
    }
}

fn next_of_dnp3(site: &Site<'_>, own: &mut Vec<OwnReader>, bytes: &View<'_>) -> Front
    requires dnp3 { site.now.first.protocol ≡ Protocol.Dnp3 }
    requires one_each { length own.old.items ≡ length (assets_of site.now) }
    ensures one_each { length own.new.items ≡ length own.old.items }
    ensures rest { result ≡ Front.Rest → own.new.items ≡ own.old.items }
    ensures front { (client : ℕ) (earlier : List Judged) (r new : Reader) → IsReaderOf site.now client earlier r
        → r.own.items ≡ own.old.items → new.own.items ≡ own.new.items → IsFrontOf site.now client earlier bytes.now.bytes new result }
{
    match next_frame(all(bytes)) {
        Framed::Unit { unit, used } => {
            let place = place_for_frame(site, Side::Client, &unit);
            let ruling = judge_frame_at(own, place, site.asset(place), &unit);
            Front::Took {
                ruling,
                place,
                used,
            }
        }
        Framed::More => Front::Rest,
        Framed::Broken(reason) => Front::Broken {
            reason,
            place: break_place(&site.first().protocol, bytes),
        },
    }
}

fn next_of_iec104(site: &Site<'_>, own: &[OwnReader], bytes: &View<'_>) -> Front
    requires iec104 { site.now.first.protocol ≡ Protocol.Iec104 }
    requires one_each { length own.now ≡ length (assets_of site.now) }
    ensures front { (client : ℕ) (earlier : List Judged) (r : Reader) → IsReaderOf site.now client earlier r → r.own.items ≡ own.now
        → IsFrontOf site.now client earlier bytes.now.bytes r result }
{
    match next_apdu(all(bytes)) {
        Framed::Unit { unit, used } => {
            let place = place_for_apdu(site, Side::Client, &unit);
            let ruling = judge_apdu(site.asset(place), &own_at(own, place).index, &unit);
            Front::Took {
                ruling,
                place,
                used,
            }
        }
        Framed::More => Front::Rest,
        Framed::Broken(reason) => Front::Broken {
            reason,
            place: break_place(&site.first().protocol, bytes),
        },
    }
}

/// Whether an octet of the bytes is one that no unit has there.
fn is_broken(protocol: &Protocol, bytes: View<'_>) -> bool
    ensures partial { IsPartial (SpellsUnit protocol.now) bytes.entry.bytes → result ≡ false }
    ensures broken { (place : ℕ) → BreaksAt (SpellsUnit protocol.now) bytes.entry.bytes place → result ≡ true }
{
    match protocol {
        Protocol::Modbus => adus_break(bytes),
        Protocol::Dnp3 => frames_break(bytes),
        Protocol::Iec104 => apdus_break(bytes),
    }
}

fn adus_break(bytes: View<'_>) -> bool
    ensures partial { IsPartial SpellsAdu bytes.entry.bytes → result ≡ false }
    ensures broken { (place : ℕ) → BreaksAt SpellsAdu bytes.entry.bytes place → result ≡ true }
{
    match next_adu(bytes) {
        Framed::Broken(_) => true,
        Framed::Unit { .. } | Framed::More => false,
    }
}

fn frames_break(bytes: View<'_>) -> bool
    ensures partial { IsPartial SpellsFrame bytes.entry.bytes → result ≡ false }
    ensures broken { (place : ℕ) → BreaksAt SpellsFrame bytes.entry.bytes place → result ≡ true }
{
    match next_frame(bytes) {
        Framed::Broken(_) => true,
        Framed::Unit { .. } | Framed::More => false,
    }
}

fn apdus_break(bytes: View<'_>) -> bool
    ensures partial { IsPartial SpellsApdu bytes.entry.bytes → result ≡ false }
    ensures broken { (place : ℕ) → BreaksAt SpellsApdu bytes.entry.bytes place → result ≡ true }
{
    match next_apdu(bytes) {
        Framed::Broken(_) => true,
        Framed::Unit { .. } | Framed::More => false,
    }
}

/// The place of the octet that no unit has there: the first with which the bytes break.
fn break_place(protocol: &Protocol, bytes: &View<'_>) -> usize
    ensures { (place : ℕ) → BreaksAt (SpellsUnit protocol.now) bytes.now.bytes place → result ≡ place }
{
    for place in 0..bytes.len() {
        if is_broken(protocol, bytes.sub(0, place + 1)) {
            return place;
        }
    }
    bytes.len()
}
