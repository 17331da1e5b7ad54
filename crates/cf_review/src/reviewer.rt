//! What a policy objects to in a recording, found as its records come: of each flow no more is kept than what is not read yet, and what
//! stands near its newest position.
ghost use Rattle.std.specs.Prelude.{◌≡◌, Bool, true, ◌≢◌, ◌+◌, ◌<◌, ◌≤◌, ◌^◌, false, ℕ, List, [], ◌∷◌, ◌++◌, All, IfOk, OnOk, Some, length, map, reverse, slice_get};
ghost use Rattle.cf_policy.specs.Site.{IsSiteWithin, SiteValue, assets_of};
ghost use Rattle.cf_policy.specs.Within.{AreAssetsWithin};
ghost use Rattle.cf_policy.specs.declared.Asset.{Asset as AssetFields};
ghost use Rattle.cf_records.specs.Capture.{Record};
ghost use Rattle.cf_watch.specs.Trail.{Heard};
ghost use Rattle.cf_review.specs.Follow.{AllTold, IsFollowed, IsTail, unread};
ghost use Rattle.cf_review.specs.Remark.{remark_value};
ghost use Rattle.cf_review.specs.Review.{AddsReview, AreReviewed};
ghost use Rattle.cf_review.specs.Reviewer.{AddsMissing, AreFollowed, HasTaken, IsDoneWith, IsQuiet, IsReviewed, IsReviewing};
ghost use Rattle.cf_watch.specs.declared.Conflict.{Conflict};
ghost use Rattle.cf_review.specs.Stamps.{AreKnown, AreStamps, has_stamp};
ghost use Rattle.cf_review.specs.declared.stamps.Stamp.{Stamp};
ghost use Rattle.cf_watch.specs.declared.Flow.{Flow as FlowFields};

use crate::first_unit::first_place;
use crate::following::{Following, Stage};
use crate::remark::Remark;
use crate::reviewing::{Reviewed, add_conflict, add_midstream, review_stretches, review_units};
use crate::stamps::Stamps;
use cf_policy::{Asset, Policy, Site, site_at_place};
use cf_view::{LinkKind, NoMemory};
use cf_watch::{Flow, Hearer, Scope, Watch, stretches_in};
use std::alloc::Global;

/// The most records that are reviewed as one list. One more is answered as want of memory.
const MOST_RECORDS: u64 = 134_217_728;

/// How many bytes of a flow that will be read no more are kept at most, beside those near its newest position. This project's own.
const MOST_READ: usize = 262_144;

/// What a policy objects to in the records of a recording so far. It keeps of each flow the bytes that are not read yet and those that
/// stand less than `REACH` places below its newest position, of a flow with a gap all bytes behind it, and the remarks.
/// This project's own.
#[derive(Drop)]
pub struct Reviewer {
    pub(crate) watch: Watch,
    /// Of each flow, in their order.
    pub(crate) followings: Vec<Following>,
    pub(crate) stamps: Stamps,
    /// How many records there were.
    pub(crate) count: u64,
}

impl Reviewer {
    /// No records.
    pub fn new(alloc: Global) -> Reviewer
        ensures { (assets : List AssetFields) → AreAssetsWithin assets → IsReviewing Scope.Recording assets [] result }
    {
        Reviewer {
            watch: Watch::new(alloc),
            followings: Vec::new(alloc),
            stamps: Stamps::new(alloc),
            count: 0,
        }
    }

    /// All that the policy objects to in the records that were taken, in their order, and the stamps of the records of the remarks. Rates
    /// and the numbers of IEC 60870-5-104 are not judged.
    pub fn finish(self, alloc: Global, policy: &Policy) -> Result<(Reviewed, Stamps), NoMemory>
        requires heard { (newest : List Record) × IsReviewing Scope.Recording policy.now.assets newest self }
        ensures reviewed { IfOk result (λ r. (newest : List Record) → IsReviewing Scope.Recording policy.now.assets newest self
            → IsReviewed policy.now.assets (reverse newest) r.0 r.1) }
        ensures known { IfOk result (λ r. AreKnown r.1 (map remark_value r.0.remarks.items)) }
    {
        let mut reviewer = self;
        let mut remarks = Vec::new(alloc);
        let of_flows = add_flows(
            alloc,
            policy,
            &reviewer.watch,
            &reviewer.followings,
            &mut remarks,
        )?;
        let stretches = stretches_in(alloc, &mut reviewer.watch)?;
        let admitted = review_stretches(
            alloc,
            policy,
            stretches.as_slice(),
            of_flows,
            &mut remarks,
        )?;
        if remarks.sort_by_key(|remark| remark.at_record).is_err() {
            return Err(NoMemory);
        }
        let flows = reviewer.watch.count() as u64;
        let reviewed = Reviewed {
            flows,
            admitted,
            remarks,
        };
        Ok((reviewed, reviewer.stamps))
    }

    /// Reads on in the flow at a place, after a record of it was taken.
    fn follow_at(
        &mut self,
        alloc: Global,
        assets: &[Asset],
        place: usize,
        number: u64,
        stamp: u64,
    ) -> Result<(), NoMemory>
        requires taken { (newest : List Record) × HasTaken assets.now newest place number stamp self.old }
        ensures { OnOk result ((newest : List Record) → HasTaken assets.now newest place number stamp self.old
            → IsReviewing Scope.Recording assets.now newest self.new) }
    {
        add_missing(alloc, &mut self.followings, place)?;
        let flow = self.watch.flow(place);
        let site = site_at_place(assets, flow.asset as usize);
        let before = self.followings[place].remarks.len();
        self.followings[place].follow(alloc, &site, flow)?;
        let is_told = self.may_tell(place, number, before);
        keep_told(&mut self.stamps, is_told, number, stamp)?;
        self.forget_read(place);
        Ok(())
    }

    /// Whether a remark on the flow at a place, which had so many before it was read on, is of the record of this number, or may yet be.
    fn may_tell(&self, place: usize, number: u64, before: usize) -> bool
        requires flow { place < length self.now.watch.flows.items }
        requires trail { place < length self.now.watch.trails.items }
        requires following { place < length self.now.followings.items }
        requires born { (f : FlowFields) → slice_get self.now.watch.flows.items place ≡ Some f → length f.born ≡ length f.bytes.items }
        ensures { result ≡ false → IsDoneWith self.now place number before }
    {
        let following = &self.followings[place];
        following.remarks.len() > before
            || is_pending(following, self.watch.flow(place), number)
            || !self.watch.is_settled(place)
    }

    /// Keeps those first bytes of the flow at a place no more that will be read no more, where they are many.
    fn forget_read(&mut self, place: usize)
        requires following { place < length self.old.followings.items }
        requires reviewing { (assets : List AssetFields) × (newest : List Record) × IsReviewing Scope.Recording assets newest self.old }
        ensures { (assets : List AssetFields) (newest : List Record) → IsReviewing Scope.Recording assets newest self.old
            → IsReviewing Scope.Recording assets newest self.new }
    {
        let count = self.followings[place].done_of(self.watch.spare(place));
        if count >= MOST_READ {
            self.followings[place].forget(count);
            self.watch.forget(place, count);
        }
    }
}

impl Hearer for Reviewer {
    ghost use Rattle.cf_review.specs.Reviewer.{IsReviewing};

    ghost has_heard = { IsReviewing };

    fn take(
        &mut self,
        alloc: Global,
        scope: Scope,
        assets: &[Asset],
        link: &LinkKind,
        stamp: u64,
        body: &[u8],
    ) -> Result<(), NoMemory> {
        if self.count >= MOST_RECORDS {
            return Err(NoMemory);
        }
        let number = self.count + 1;
        let place = self.watch.take(alloc, scope, assets, link, number, body)?;
        self.count = number;
        match place {
            Some(place) => self.follow_at(alloc, assets, place, number, stamp),
            None => Ok(()),
        }
    }
}

/// Adds one of which nothing was read, where the place is the next one.
fn add_missing(alloc: Global, followings: &mut Vec<Following>, place: usize) -> Result<(), NoMemory>
    ensures { OnOk result (AddsMissing place followings.old.items followings.new.items) }
{
    if place != followings.len() {
        return Ok(());
    }
    push_following(followings, Following::new(alloc))?;
    Ok(())
}

fn push_following(followings: &mut Vec<Following>, one: Following) -> Result<(), NoMemory>
    ensures { OnOk result (followings.new.items ≡ followings.old.items ++ one ∷ []) }
{
    match followings.push(one) {
        Ok(()) => Ok(()),
        Err(_) => Err(NoMemory),
    }
}

/// Keeps the stamp of the newest record, where it is told.
fn keep_told(stamps: &mut Stamps, is_told: bool, number: u64, stamp: u64) -> Result<(), NoMemory>
    requires number { (0 < number) × (number < 2 ^ 32) }
    requires newest { (i : ℕ) (x : Stamp) → slice_get stamps.old i ≡ Some x → x.number < number }
    ensures has { OnOk result (is_told ≡ true → has_stamp stamps.new number ≡ true) }
    ensures others { OnOk result ((other : ℕ) → has_stamp stamps.old other ≡ true → has_stamp stamps.new other ≡ true) }
    ensures stamps { OnOk result ((stamps_before : List ℕ) → length stamps_before < number → number ≤ length stamps_before + 1
        → AreStamps stamps_before stamps.old → AreStamps (stamps_before ++ stamp ∷ []) stamps.new) }
{
    if is_told {
        return stamps.keep(number, stamp);
    }
    Ok(())
}

/// Whether a remark may yet be of a record of this number: some bytes of the flow are not read, it begins amid its stream with this record, or
/// it has a conflict with it.
fn is_pending(following: &Following, flow: &Flow, number: u64) -> bool
    requires born { length flow.now.born ≡ length flow.now.bytes.items }
    ensures { result ≡ false → IsQuiet flow.now following.now number }
{
    has_unread(following, flow) || flow.midstream == Some(number) || has_conflict_at(flow, number)
}

/// Whether some bytes of a flow are not read yet.
fn has_unread(following: &Following, flow: &Flow) -> bool
    requires born { length flow.now.born ≡ length flow.now.bytes.items }
    ensures { result ≡ false → unread following.now.stage following.now.at flow.now ≡ [] }
{
    match &following.stage {
        Stage::Waits => !flow.bytes.is_empty(),
        Stage::Reads(_) => following.at < flow.bytes.len(),
        Stage::Broke => false,
    }
}

/// Whether the conflict of a flow is of a record of this number.
fn has_conflict_at(flow: &Flow, number: u64) -> bool
    ensures { result ≡ false → (c : Conflict) → flow.now.conflict ≡ Some c → c.at_record ≢ number }
{
    match &flow.conflict {
        Some(conflict) => conflict.at_record == number,
        None => false,
    }
}

/// Adds the remarks on the flows of a watch where none are yet, and answers how many of their commands are allowed.
fn add_flows(
    alloc: Global,
    policy: &Policy,
    watch: &Watch,
    followings: &Vec<Following>,
    remarks: &mut Vec<Remark>,
) -> Result<u64, NoMemory>
    requires within { AreAssetsWithin policy.now.assets }
    requires none { remarks.old.items ≡ [] }
    requires followed { (hs : List Heard) × AreFollowed policy.now.assets hs watch.now.flows.items followings.now.items }
    ensures reviewed { IfOk result (λ admitted. (hs : List Heard) → AreFollowed policy.now.assets hs watch.now.flows.items followings.now.items
        → AreReviewed policy.now.assets (map (λ h. h.value) hs) admitted (map remark_value remarks.new.items)) }
    ensures told { OnOk result ((known : ℕ → Bool)
        → ((i : ℕ) (f : Flow) (g : Following) → slice_get watch.now.flows.items i ≡ Some f → slice_get followings.now.items i ≡ Some g
        → AllTold known f g) → All (λ r. known r.at_record ≡ true) (map remark_value remarks.new.items)) }
{
    let assets = policy.assets.as_slice();
    let mut admitted: u64 = 0;
    for place in 0..followings.len() {
        let flow = watch.flow(place);
        let site = site_at_place(assets, flow.asset as usize);
        let more = add_flow(alloc, &site, flow, &followings[place], remarks)?;
        admitted = admitted.saturating_add(more);
    }
    Ok(admitted)
}

/// Adds the remarks on a flow to a site, and answers how many of its commands are allowed.
fn add_flow(
    alloc: Global,
    site: &Site<'_>,
    flow: &Flow,
    following: &Following,
    remarks: &mut Vec<Remark>,
) -> Result<u64, NoMemory>
    requires within { IsSiteWithin site.now }
    requires places { flow.now.asset + length (assets_of site.now) < 2 ^ 32 }
    requires followed { (h : Heard) × IsTail h flow.now × IsFollowed (Some site.now) h following.now }
    ensures reviewed { IfOk result (λ admitted. (h : Heard) → IsTail h flow.now → IsFollowed (Some site.now) h following.now
        → AddsReview site.now h.value (map remark_value remarks.old.items) (map remark_value remarks.new.items) admitted) }
    ensures told { OnOk result ((known : ℕ → Bool) → AllTold known flow.now following.now
        → All (λ r. known r.at_record ≡ true) (map remark_value remarks.old.items) → All (λ r. known r.at_record ≡ true) (map remark_value remarks.new.items)) }
{
    add_midstream(flow, remarks)?;
    add_conflict(flow, remarks)?;
    match &following.stage {
        Stage::Waits => {
            let start = first_place(&site.first().protocol, flow);
            review_units(alloc, site, flow, start, remarks)
        }
        Stage::Reads(_) | Stage::Broke => {
            add_all(following.remarks.as_slice(), remarks)?;
            Ok(following.admitted)
        }
    }
}

/// Adds remarks behind the others.
fn add_all(more: &[Remark], remarks: &mut Vec<Remark>) -> Result<(), NoMemory>
    ensures { OnOk result (map remark_value remarks.new.items ≡ map remark_value remarks.old.items ++ map remark_value more.now) }
{
    for remark in more {
        add_remark(remark, remarks)?;
    }
    Ok(())
}

/// Adds a remark behind the others.
fn add_remark(remark: &Remark, remarks: &mut Vec<Remark>) -> Result<(), NoMemory>
    ensures { OnOk result (map remark_value remarks.new.items ≡ map remark_value remarks.old.items ++ remark_value remark.now ∷ []) }
{
    match remarks.push(remark.copy()) {
        Ok(()) => Ok(()),
        Err(_) => Err(NoMemory),
    }
}
