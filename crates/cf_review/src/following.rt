//! The units of a flow, read as its bytes come.
ghost use Rattle.std.specs.Prelude.{◌≡◌, Bool, ◌+◌, ◌-◌, ◌<◌, ◌≤◌, ◌^◌, ℕ, List, [], ◌++◌, OnOk, drop, length, true};
ghost use Rattle.cf_policy.specs.Site.{IsSiteWithin, SiteValue, assets_of};
ghost use Rattle.cf_judge.specs.Front.{IsReaderOf};
ghost use Rattle.cf_watch.specs.Trail.{Heard};
ghost use Rattle.cf_review.specs.FirstUnit.{UnitBegins};
ghost use Rattle.cf_review.specs.Follow.{AllTold, IsAtRest, IsBegun, IsSearched, IsTail};

use crate::first_unit::unit_begins;
use crate::remark::Remark;
use crate::reviewing::read_units;
use cf_judge::Reader;
use cf_policy::{Protocol, Site};
use cf_view::{NoMemory, View};
use cf_watch::Flow;
use std::alloc::Global;

/// A flow with fewer bytes is read where the recording ends, so that what its reader keeps, the rules by code and room for a fragment, is
/// taken for those flows alone that are long. This project's own.
const SHORT: usize = 2_048;
/// No unit has more octets: an ADU has 260, a frame 292, an APDU 255.
const LONGEST: usize = 300;

/// How far the reading of a flow has come.
#[derive(Drop)]
pub(crate) enum Stage {
    /// No unit of it was read: it has few bytes, or begins amid its stream, and its first unit was not found yet.
    Waits,
    /// Its units are read one after the other.
    Reads(Reader),
    /// It has an octet that no unit has there: no more of it is read.
    Broke,
}

/// What is kept of a flow that is read as its bytes come.
#[derive(Drop)]
pub(crate) struct Following {
    pub(crate) stage: Stage,
    /// How many of the bytes that are kept were read, or searched for the first unit.
    pub(crate) at: usize,
    /// How many of its commands the policy allows.
    pub(crate) admitted: u64,
    /// The remarks on its units, and on where it breaks.
    pub(crate) remarks: Vec<Remark>,
}

impl Following {
    /// Of a flow of which nothing was read.
    pub(crate) fn new(alloc: Global) -> Following
        ensures begun { (site : SiteValue) (h : Heard) → h.base ≡ 0 → IsBegun site h result }
        ensures told { (result.at ≡ 0) × (result.stage ≡ Stage.Waits) × (result.remarks.items ≡ []) }
    {
        Following {
            stage: Stage::Waits,
            at: 0,
            admitted: 0,
            remarks: Vec::new(alloc),
        }
    }

    /// Reads the units that the bytes of a flow have beyond those that were read.
    pub(crate) fn follow(
        &mut self,
        alloc: Global,
        site: &Site<'_>,
        flow: &Flow,
    ) -> Result<(), NoMemory>
        requires within { IsSiteWithin site.now }
        requires places { flow.now.asset + length (assets_of site.now) < 2 ^ 32 }
        requires begun { (h : Heard) × IsTail h flow.now × IsBegun site.now h self.old }
        ensures begun { OnOk result ((h : Heard) → IsTail h flow.now → IsBegun site.now h self.old → IsBegun site.now h self.new) }
        ensures at_rest { OnOk result ((h : Heard) → IsTail h flow.now → IsBegun site.now h self.old
            → IsAtRest site.now h self.new.stage self.new.at) }
        ensures adds { OnOk result ((more : List Remark) × (self.new.remarks.items ≡ self.old.remarks.items ++ more)) }
        ensures told { OnOk result ((known : ℕ → Bool) → AllTold known flow.now self.old → AllTold known flow.now self.new) }
    {
        self.begin(alloc, site, flow)?;
        let broke = match &mut self.stage {
            Stage::Reads(reader) => read_units(
                site,
                flow,
                reader,
                &mut self.at,
                &mut self.admitted,
                &mut self.remarks,
            )?,
            Stage::Waits | Stage::Broke => false,
        };
        if broke {
            self.stage = Stage::Broke;
        }
        Ok(())
    }

    /// Begins to read a flow of which nothing was read, where it has `SHORT` bytes and begins with its SYN, or its first unit was found.
    fn begin(&mut self, alloc: Global, site: &Site<'_>, flow: &Flow) -> Result<(), NoMemory>
        requires within { IsSiteWithin site.now }
        requires begun { (h : Heard) × IsTail h flow.now × IsBegun site.now h self.old }
        ensures begun { OnOk result ((h : Heard) → IsTail h flow.now → IsBegun site.now h self.old → IsBegun site.now h self.new) }
        ensures told { OnOk result ((known : ℕ → Bool) → AllTold known flow.now self.old → AllTold known flow.now self.new) }
        ensures remarks { self.new.remarks.items ≡ self.old.remarks.items }
    {
        match &self.stage {
            Stage::Reads(_) | Stage::Broke => return Ok(()),
            Stage::Waits => {}
        }
        let bytes = flow.bytes.as_slice();
        if bytes.len() < SHORT {
            return Ok(());
        }
        if flow.midstream.is_none() {
            return self.start(alloc, site, flow.client.address);
        }
        if find_unit(&site.first().protocol, bytes, &mut self.at) {
            return self.start(alloc, site, flow.client.address);
        }
        Ok(())
    }

    /// From now on units of a client's flow are read.
    fn start(&mut self, alloc: Global, site: &Site<'_>, client: u32) -> Result<(), NoMemory>
        requires within { IsSiteWithin site.now }
        ensures reads { OnOk result ((r : Reader) × IsReaderOf site.now client [] r × (self.new ≡ record self.old { stage = Stage.Reads r })) }
        ensures remarks { self.new.remarks ≡ self.old.remarks }
    {
        self.stage = Stage::Reads(Reader::new(alloc, site, client)?);
        Ok(())
    }

    /// How many of the bytes that are kept will be read no more, of so many at most.
    pub(crate) fn done_of(&self, spare: usize) -> usize
        ensures most { result ≤ spare }
        ensures reads { (r : Reader) → self.now.stage ≡ Stage.Reads r → result ≤ self.now.at }
        ensures waits { self.now.stage ≡ Stage.Waits → result ≡ 0 }
    {
        match &self.stage {
            Stage::Waits => 0,
            Stage::Reads(_) => self.at.min(spare),
            Stage::Broke => spare,
        }
    }

    /// So many bytes in front are kept no more.
    pub(crate) fn forget(&mut self, count: usize)
        requires reads { (r : Reader) → self.old.stage ≡ Stage.Reads r → count ≤ self.old.at }
        requires waits { self.old.stage ≡ Stage.Waits → count ≡ 0 }
        ensures begun { (site : SiteValue) (h now : Heard) → now.value ≡ h.value → now.base ≡ h.base + count → IsBegun site h self.old
            → IsBegun site now self.new }
        ensures at_rest { (site : SiteValue) (h now : Heard) → now.value ≡ h.value → now.base ≡ h.base + count
            → IsAtRest site h self.old.stage self.old.at → IsAtRest site now self.new.stage self.new.at }
        ensures stage { self.new.stage ≡ self.old.stage }
        ensures at { self.new.at ≡ self.old.at - count }
        ensures remarks { self.new.remarks ≡ self.old.remarks }
    {
        self.at = self.at.saturating_sub(count);
    }
}

/// Looks on for the first unit of a text from a place on, as far as so many octets follow that none which come later changes what begins
/// there. Answers whether it is found: it stands at the place then.
fn find_unit(protocol: &Protocol, bytes: &[u8], at: &mut usize) -> bool
    requires long { 300 ≤ length bytes.now }
    ensures searched { IsSearched protocol.now bytes.now at.old → IsSearched protocol.now bytes.now at.new }
    ensures unit { result ≡ true → UnitBegins protocol.now (drop at.new bytes.now) }
{
    let last = bytes.len() - LONGEST;
    'places: while *at <= last {
        if unit_begins(protocol, View::one(&bytes[*at..])) {
            return true;
        }
        *at += 1;
    }
    false
}
