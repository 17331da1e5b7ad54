//! The filter of one session's two streams, without TCP.
//! A broken octet is the last item of its side: what comes later, an End too, completes nothing. The line of an admitted command
//! is written as it is put into its queue, and a queue is emptied behind that. Where a line cannot be written, the log has the
//! first lines of a history that ends with its unit.
ghost use Rattle.std.specs.Prelude.{◌≡◌, ◌≢◌, ℕ, ◌+◌, ◌*◌, ◌^◌, ◌<◌, ◌≤◌, ◌++◌, [], ◌∷◌, Bool, false, true, None, Option, IfOk, OnOk, OnErr};
ghost use Rattle.std.specs.Prelude.{IfSome, IsErr, List, length, drop};
ghost use Rattle.std.specs.Result.{is_err};
ghost use Rattle.cf_outq.specs.SendQueue.{Queue, IsQueueOf, after_push};
ghost use Rattle.cf_outside.specs.Faults.{HasCause};
ghost use Rattle.cf_outside.specs.Desk.{DeskValue};
ghost use Rattle.cf_policy.specs.Site.{IsSiteWithin, SiteValue};
ghost use Rattle.cf_policy.specs.Within.{most_rated};
ghost use Rattle.cf_stream.specs.Stream.{no_letters};
ghost use Rattle.cf_view.specs.Octets.{IsOctets};
ghost use Rattle.cf_lane.specs.Follows.{AddsTo, Began, BeganApart, FailsApart, Follows, FailsWithin, IsEndBehindCut, Rests, rest_of};
ghost use Rattle.cf_lane.specs.Follows.{with_rest, no_rests};
ghost use Rattle.cf_lane.specs.Handled.{CountsFront, IsLaneOf, LaneValue, Steps, Misses, Grows, CountsBy, HasRoom, IsOpen, MayEnd};
ghost use Rattle.cf_lane.specs.Handled.{EndsOther, FewAtFront, WritesLog, cut_in, debt, letters_in, most_counted, state, step_at, step_by, debt_limit};
ghost use Rattle.cf_lane.specs.Handled.{rest_limit};
ghost use Rattle.cf_lane.specs.History.{Element, letters_at, end_at};
ghost use Rattle.cf_lane.specs.Judged.{Judged, fate_cut, is_admitted, is_refused, one_if};
ghost use Rattle.cf_lane.specs.Rings.{AllGoOn, AreRingsOf, HasFewAt, IsLeft, KnowRings, KnowsRules};
ghost use Rattle.cf_lane.specs.Caller.{RateMoments};
ghost use Rattle.cf_lane.specs.SiteRates.{used_at};
ghost use Rattle.cf_lane.specs.declared.lane.Decided.{Decided};
ghost use Rattle.cf_lane.specs.Kept.{KnowsWire};
ghost use Rattle.cf_lane.specs.Log.{has_unfinished};
ghost use Rattle.cf_lane.specs.Logging.{LogsLines};

use crate::fate::{Admission, Fate};
use crate::iec104::take_apdu_at_front;
use crate::log::log_end;
use crate::rings::Rings;
use crate::rules::{Rules, note_at, rules_of};
use crate::wire::Wire;
use cf_audit::CutReason;
use cf_outq::Outq;
use cf_outside::Desk;
use cf_policy::Site;
use cf_view::{Endpoint, Framed, NoMemory, Side, View, WriteFault};
use std::alloc::Global;
use std::marker::Model;

/// The lane of a session: it takes the bytes of both sides apart into commands, judges each, and puts what goes to
/// each side into its queue.
#[derive(Drop)]
pub struct Lane {
    /// The client, by whose address rules decide and which lines name.
    pub(crate) client: Endpoint,
    /// How many commands were admitted.
    pub(crate) admitted: u64,
    /// How many commands were refused.
    pub(crate) refused: u64,
    /// The rules of each asset of its site for the client, and the moments at which those with a rate were used.
    pub(crate) rules: Vec<Rules>,
    /// What the protocol needs of earlier units: fragments of DNP3, numbers of IEC 60870-5-104.
    pub(crate) wire: Wire,
}

impl Model for Lane {
    ghost use Rattle.cf_lane.specs.Handled.{LaneValue};

    ghost Value = { LaneValue };

    ghost view = { λ l. record { client = l.client; admitted = l.admitted; refused = l.refused; rules = l.rules.items; wire = l.wire } };
}

/// What a lane made of bytes.
#[derive(Clone, Copy)]
pub struct Fed {
    /// How many bytes were whole units. The rest is handed in again, before the bytes that follow.
    pub used: usize,
    /// Why the session is cut, if it is.
    pub cut: Option<CutReason>,
}

/// What becomes of a unit, and the place in its site of the asset that it is for.
#[derive(Clone, Copy)]
pub(crate) struct Decided {
    pub(crate) place: usize,
    pub(crate) fate: Fate,
}

/// What the unit at the front of a side's bytes led to.
#[derive(Clone, Copy)]
pub(crate) enum Step {
    /// It takes so many bytes, and was handled.
    Took(usize),
    /// It is not whole.
    More,
    /// The session is cut.
    Cut(CutReason),
}

impl Lane {
    /// A lane of a session between this client and the assets of a site, after what its earlier sessions left. Each later call is
    /// handed the same site. All its memory is taken here, and none afterwards.
    ///
    /// `NoMemory`: it could not be had.
    pub fn new(
        alloc: Global,
        site: &Site<'_>,
        client: Endpoint,
        left: Option<Rings>,
    ) -> Result<Lane, NoMemory>
        requires within { IsSiteWithin site.now }
        requires left { IfSome left (AreRingsOf site.now) }
        ensures client { IfOk result (λ lane. LaneValue.client lane ≡ client) }
        ensures counts { IfOk result (λ lane. (LaneValue.admitted lane ≡ 0) × (LaneValue.refused lane ≡ 0) × (debt lane ≡ 0)) }
        ensures of_site { IfOk result (λ lane. IsLaneOf site.now lane) }
        ensures follows { IfOk result (λ lane. (before : RateMoments) (to_client to_controller : Queue) (first : Option (List (List ℕ)))
            → IsLeft left before → IsQueueOf to_client no_letters → IsQueueOf to_controller no_letters
            → Follows site.now before [] no_rests None first (state lane to_client to_controller first)) }
    {
        let rules = rules_of(alloc, site, client.address, left)?;
        let wire = Wire::new(alloc, site)?;
        Ok(Lane {
            client,
            admitted: 0,
            refused: 0,
            rules,
            wire,
        })
    }

    /// Handles every whole unit of a side's bytes, which begin where the last call left off, at a moment in
    /// microseconds. After a cut no further call is made. Each queue has room for twice the bytes, and for what
    /// unfinished fragments may still put out. The line of a cut is the caller's to write.
    pub fn feed<D: Desk>(
        &mut self,
        site: &Site<'_>,
        moment: u64,
        side: Side,
        bytes: View<'_>,
        to_client: &mut Outq,
        to_controller: &mut Outq,
        desk: &mut D,
    ) -> Result<Fed, WriteFault>
        requires of_site { IsLaneOf site.now self.old }
        requires within { IsSiteWithin site.now }
        requires whole { DeskValue.whole (D.value desk.old) ≡ true }
        requires open { IsOpen side to_client.old to_controller.old }
        requires client_room { HasRoom (debt self.old + 2 * length bytes.bytes) to_client.old }
        requires controller_room { HasRoom (debt self.old + 2 * length bytes.bytes) to_controller.old }
        requires counts { self.old.admitted + self.old.refused + length bytes.bytes < 2 ^ 64 }
        ensures used { IfOk result (λ fed. fed.used ≤ length bytes.entry.bytes) }
        ensures history { IfOk result (λ fed. (before : RateMoments) (h : List Element) (rests : Rests) (first : Option (List (List ℕ)))
            (piece : List ℕ) (ended : Bool)
            → IsEndBehindCut ended fed.cut
            → bytes.entry.bytes ≡ rest_of side rests ++ piece
            → Follows site.now before h rests None first
            (state self.old to_client.old to_controller.old (DeskValue.lines (D.value desk.old)))
            → Follows site.now before (h ++ letters_at moment side piece ended ∷ [])
            (with_rest side rests (drop fed.used bytes.entry.bytes)) fed.cut first
            (state self.new to_client.new to_controller.new (DeskValue.lines (D.value desk.new)))) }
        ensures apart { IfOk result (λ fed. (before : RateMoments) (h : List Element) (rests : Rests) (first own : Option (List (List ℕ)))
            (piece : List ℕ) (ended : Bool)
            → IsEndBehindCut ended fed.cut
            → bytes.entry.bytes ≡ rest_of side rests ++ piece
            → Follows site.now before h rests None first (state self.old to_client.old to_controller.old own)
            → AddsTo site.now before (h ++ letters_at moment side piece ended ∷ [])
            (with_rest side rests (drop fed.used bytes.entry.bytes)) fed.cut first own (DeskValue.lines (D.value desk.old))
            (state self.new to_client.new to_controller.new (DeskValue.lines (D.value desk.new)))) }
        ensures fails { OnErr result (FailsWithin site.now moment side bytes.entry.bytes
            (state self.old to_client.old to_controller.old (DeskValue.lines (D.value desk.old)))
            (DeskValue.lines (D.value desk.new)) (DeskValue.line_part (D.value desk.new))) }
        ensures fails_apart { OnErr result (FailsApart site.now moment side bytes.entry.bytes
            (state self.old to_client.old to_controller.old (DeskValue.lines (D.value desk.old)))
            (DeskValue.lines (D.value desk.new)) (DeskValue.line_part (D.value desk.new))) }
        ensures of_site { OnOk result (IsLaneOf site.now self.new) }
        ensures client { OnOk result (LaneValue.client self.new ≡ LaneValue.client self.old) }
        ensures left { IfOk result (λ fed. fed.cut ≡ None → length (drop fed.used bytes.entry.bytes) < rest_limit) }
        ensures client_grows { IfOk result (λ fed. Grows (2 * fed.used) (debt self.old) (debt self.new) to_client.old to_client.new) }
        ensures controller_grows { IfOk result (λ fed. Grows (2 * fed.used) (debt self.old) (debt self.new) to_controller.old
            to_controller.new) }
        ensures debt { OnOk result (debt self.new ≤ debt_limit site.now) }
        ensures counts { IfOk result (λ fed. CountsBy fed.used self.old self.new) }
        ensures whole { OnOk result (DeskValue.whole (D.value desk.new) ≡ true) }
        ensures log { WritesLog (D.value desk.old) (D.value desk.new) }
        ensures cause { HasCause (DeskValue.faults (D.value desk.old)) (DeskValue.faults (D.value desk.new)) (IsErr result) }
    {
        let mut used = 0;
        'units: loop {
            let step = self.step(
                site,
                moment,
                side,
                &after(&bytes, used),
                to_client,
                to_controller,
                desk,
            )?;
            match step {
                Step::Took(n) => used += n,
                Step::More | Step::Cut(_) => {
                    return Ok(Fed {
                        used,
                        cut: cut_in(&step),
                    });
                }
            }
        }
    }

    /// Takes the End of a side, of which so many bytes are left that are no whole unit. A line tells them, or that a
    /// fragment is unfinished, and End is passed on.
    pub fn ended<D: Desk>(
        &mut self,
        site: &Site<'_>,
        moment: u64,
        side: Side,
        rest: u64,
        to_client: &mut Outq,
        to_controller: &mut Outq,
        desk: &mut D,
    ) -> Result<(), WriteFault>
        requires of_site { IsLaneOf site.now self.old }
        requires within { IsSiteWithin site.now }
        requires whole { DeskValue.whole (D.value desk.old) ≡ true }
        requires open { IsOpen side to_client.old to_controller.old }
        requires limit { MayEnd side to_client.old to_controller.old }
        ensures history { OnOk result ((before : RateMoments) (h : List Element) (rests : Rests) (first : Option (List (List ℕ)))
            → rest ≡ length (rest_of side rests)
            → Follows site.now before h rests None first
            (state self.old to_client.old to_controller.old (DeskValue.lines (D.value desk.old)))
            → Follows site.now before (h ++ end_at moment side ∷ []) rests None first
            (state self.new to_client.new to_controller.new (DeskValue.lines (D.value desk.new)))) }
        ensures apart { OnOk result ((before : RateMoments) (h : List Element) (rests : Rests) (first own : Option (List (List ℕ)))
            → rest ≡ length (rest_of side rests)
            → Follows site.now before h rests None first (state self.old to_client.old to_controller.old own)
            → AddsTo site.now before (h ++ end_at moment side ∷ []) rests None first own
            (DeskValue.lines (D.value desk.old)) (state self.new to_client.new to_controller.new (DeskValue.lines (D.value desk.new)))) }
        ensures fails { OnErr result ((before : RateMoments) (h : List Element) (rests : Rests) (first : Option (List (List ℕ)))
            → rest ≡ length (rest_of side rests)
            → Follows site.now before h rests None first
            (state self.old to_client.old to_controller.old (DeskValue.lines (D.value desk.old)))
            → Began site.now before self.old.client (h ++ end_at moment side ∷ []) first
            (DeskValue.lines (D.value desk.new)) (DeskValue.line_part (D.value desk.new))) }
        ensures fails_apart { OnErr result ((before : RateMoments) (h : List Element) (rests : Rests) (first own : Option (List (List ℕ)))
            → rest ≡ length (rest_of side rests)
            → Follows site.now before h rests None first (state self.old to_client.old to_controller.old own)
            → BeganApart site.now before self.old.client (h ++ end_at moment side ∷ []) first own (DeskValue.lines (D.value desk.old))
            (DeskValue.lines (D.value desk.new)) (DeskValue.line_part (D.value desk.new))) }
        ensures queues { OnOk result (EndsOther side to_client.old to_controller.old to_client.new to_controller.new) }
        ensures lane { self.new ≡ self.old }
        ensures whole { OnOk result (DeskValue.whole (D.value desk.new) ≡ true) }
        ensures log { WritesLog (D.value desk.old) (D.value desk.new) }
        ensures cause { HasCause (DeskValue.faults (D.value desk.old)) (DeskValue.faults (D.value desk.new)) (IsErr result) }
    {
        let unfinished = self.has_unfinished(side);
        log_end(
            site.first(),
            &self.client,
            moment,
            side,
            unfinished,
            rest,
            desk,
        )?;
        end_other(side, to_client, to_controller);
        Ok(())
    }

    /// The rings that the session leaves, as it ends, to a later one of its client.
    pub fn into_rings(self) -> Rings
        ensures of_site { (site : SiteValue) → IsLaneOf site self → AreRingsOf site result }
        ensures know { (site : SiteValue) (before : RateMoments) (judged : List Judged) → KnowsRules site before (LaneValue.rules self) judged
            → KnowRings result (used_at site before judged) }
    {
        Rings { rules: self.rules }
    }

    /// How many commands were admitted.
    pub fn admitted(&self) -> u64
        ensures { result ≡ self.now.admitted }
    {
        self.admitted
    }

    /// How many commands were refused.
    pub fn refused(&self) -> u64
        ensures { result ≡ self.now.refused }
    {
        self.refused
    }

    /// Handles the unit at the front of a side's bytes. An ADU of Modbus is handled in place, as they are small and many, and the
    /// units of the other protocols by a call.
    #[inline(always)]
    fn step<D: Desk>(
        &mut self,
        site: &Site<'_>,
        moment: u64,
        side: Side,
        bytes: &View<'_>,
        to_client: &mut Outq,
        to_controller: &mut Outq,
        desk: &mut D,
    ) -> Result<Step, WriteFault>
        requires of_site { IsLaneOf site.now self.old }
        requires within { IsSiteWithin site.now }
        requires whole { DeskValue.whole (D.value desk.old) ≡ true }
        requires open { IsOpen side to_client.old to_controller.old }
        requires client_room { HasRoom (debt self.old + 2 * length bytes.now.bytes) to_client.old }
        requires controller_room { HasRoom (debt self.old + 2 * length bytes.now.bytes) to_controller.old }
        requires counts { self.old.admitted + self.old.refused + length bytes.now.bytes < 2 ^ 64 }
        ensures steps { IfOk result (λ s. Steps site.now moment side bytes.now.bytes
            (state self.old to_client.old to_controller.old (DeskValue.lines (D.value desk.old)))
            (state self.new to_client.new to_controller.new (DeskValue.lines (D.value desk.new))) s) }
        ensures misses { OnErr result (Misses site.now moment side bytes.now.bytes
            (state self.old to_client.old to_controller.old (DeskValue.lines (D.value desk.old)))
            (DeskValue.lines (D.value desk.new)) (DeskValue.line_part (D.value desk.new))) }
        ensures of_site { OnOk result (IsLaneOf site.now self.new) }
        ensures client_grows { IfOk result (λ s. Grows (2 * letters_in s) (debt self.old) (debt self.new) to_client.old to_client.new) }
        ensures controller_grows { IfOk result (λ s. Grows (2 * letters_in s) (debt self.old) (debt self.new) to_controller.old
            to_controller.new) }
        ensures counts { IfOk result (λ s. CountsBy (letters_in s) self.old self.new) }
        ensures inside { IfOk result (λ s. letters_in s ≤ length bytes.now.bytes) }
        ensures desk { LogsLines (D.value desk.old) (D.value desk.new) (is_err result) }
    {
        match &self.wire {
            Wire::Modbus => {
                self.step_modbus(site, moment, side, bytes, to_client, to_controller, desk)
            }
            Wire::Dnp3(_) | Wire::Iec104(_) => {
                self.step_by_call(site, moment, side, bytes, to_client, to_controller, desk)
            }
        }
    }

    /// Handles the unit at the front of a side's bytes, which is none of Modbus: what it leads to takes room that is cleared at each call.
    #[inline(never)]
    fn step_by_call<D: Desk>(
        &mut self,
        site: &Site<'_>,
        moment: u64,
        side: Side,
        bytes: &View<'_>,
        to_client: &mut Outq,
        to_controller: &mut Outq,
        desk: &mut D,
    ) -> Result<Step, WriteFault>
        requires by_call { self.old.wire ≢ Wire.Modbus }
        requires of_site { IsLaneOf site.now self.old }
        requires within { IsSiteWithin site.now }
        requires whole { DeskValue.whole (D.value desk.old) ≡ true }
        requires open { IsOpen side to_client.old to_controller.old }
        requires client_room { HasRoom (debt self.old + 2 * length bytes.now.bytes) to_client.old }
        requires controller_room { HasRoom (debt self.old + 2 * length bytes.now.bytes) to_controller.old }
        requires counts { self.old.admitted + self.old.refused + length bytes.now.bytes < 2 ^ 64 }
        ensures steps { IfOk result (λ s. Steps site.now moment side bytes.now.bytes
            (state self.old to_client.old to_controller.old (DeskValue.lines (D.value desk.old)))
            (state self.new to_client.new to_controller.new (DeskValue.lines (D.value desk.new))) s) }
        ensures misses { OnErr result (Misses site.now moment side bytes.now.bytes
            (state self.old to_client.old to_controller.old (DeskValue.lines (D.value desk.old)))
            (DeskValue.lines (D.value desk.new)) (DeskValue.line_part (D.value desk.new))) }
        ensures of_site { OnOk result (IsLaneOf site.now self.new) }
        ensures client_grows { IfOk result (λ s. Grows (2 * letters_in s) (debt self.old) (debt self.new) to_client.old to_client.new) }
        ensures controller_grows { IfOk result (λ s. Grows (2 * letters_in s) (debt self.old) (debt self.new) to_controller.old
            to_controller.new) }
        ensures counts { IfOk result (λ s. CountsBy (letters_in s) self.old self.new) }
        ensures inside { IfOk result (λ s. letters_in s ≤ length bytes.now.bytes) }
        ensures desk { LogsLines (D.value desk.old) (D.value desk.new) (is_err result) }
    {
        match &mut self.wire {
            Wire::Modbus => unreachable!(),
            Wire::Dnp3(fragments) => {
                let front = fragments.take_frame_at_front(
                    site,
                    self.rules.as_slice(),
                    &self.client,
                    moment,
                    side,
                    bytes,
                    to_client,
                    to_controller,
                    desk,
                )?;
                Ok(self.count_front(&front, moment, side))
            }
            Wire::Iec104(numbers) => {
                let front = take_apdu_at_front(
                    numbers,
                    site,
                    self.rules.as_slice(),
                    &self.client,
                    moment,
                    side,
                    bytes,
                    to_client,
                    to_controller,
                    desk,
                )?;
                Ok(self.count_front(&front, moment, side))
            }
        }
    }

    /// What stands at the front of a side's bytes led to, where it was taken and is yet to be counted.
    #[inline(never)]
    fn count_front(&mut self, front: &Framed<Decided>, moment: u64, side: Side) -> Step
        requires counts { self.old.admitted + self.old.refused + most_counted front.now < 2 ^ 64 }
        requires few { FewAtFront front.now self.old.rules }
        ensures counts { CountsFront front.now moment self.old self.new }
        ensures step { result ≡ step_at side front.now }
    {
        match front {
            Framed::More => Step::More,
            Framed::Broken(reason) => Step::Cut(CutReason::Framing(side, *reason)),
            Framed::Unit { unit, used } => {
                self.count(unit, moment);
                step_of(&unit.fate, *used)
            }
        }
    }

    /// Counts an item by its fate, at the rules of its asset.
    fn count(&mut self, decided: &Decided, moment: u64)
        requires counts { self.old.admitted + self.old.refused + 1 < 2 ^ 64 }
        requires few { HasFewAt decided.now.place self.old.rules }
        ensures client { self.new.client ≡ self.old.client }
        ensures admitted { self.new.admitted ≡ self.old.admitted + one_if (is_admitted decided.now.fate) }
        ensures refused { self.new.refused ≡ self.old.refused + one_if (is_refused decided.now.fate) }
        ensures rules { AllGoOn decided.now.place decided.now.fate moment self.old.rules self.new.rules }
        ensures wire { self.new.wire ≡ self.old.wire }
    {
        match &decided.fate {
            Fate::Admitted(admission) => self.admit(decided.place, admission, moment),
            Fate::Refused(_) => self.refuse(),
            Fate::Carried | Fate::Stray(_) | Fate::Lengthens | Fate::Cuts(_) => {}
        }
    }

    /// Counts an admitted command, and notes the moment at the rules that it used, of the asset of a place.
    pub(crate) fn admit(&mut self, place: usize, admission: &Admission, moment: u64)
        requires counts { self.old.admitted + 1 < 2 ^ 64 }
        requires few { HasFewAt place self.old.rules }
        ensures client { self.new.client ≡ self.old.client }
        ensures admitted { self.new.admitted ≡ self.old.admitted + 1 }
        ensures refused { self.new.refused ≡ self.old.refused }
        ensures rules { AllGoOn place (Fate.Admitted admission.now) moment self.old.rules self.new.rules }
        ensures wire { self.new.wire ≡ self.old.wire }
    {
        self.admitted += 1;
        note_at(self.rules.as_mut_slice(), place, admission, moment);
    }

    /// Counts an admitted command that used no rule with a rate.
    pub(crate) fn admit_plain(&mut self)
        requires counts { self.old.admitted + 1 < 2 ^ 64 }
        ensures { self.new ≡ record self.old { admitted = self.old.admitted + 1 } }
    {
        self.admitted += 1;
    }

    /// Counts a refused command.
    pub(crate) fn refuse(&mut self)
        requires counts { self.old.refused + 1 < 2 ^ 64 }
        ensures { self.new ≡ record self.old { refused = self.old.refused + 1 } }
    {
        self.refused += 1;
    }

    /// Whether a fragment of a side is unfinished, of any asset.
    fn has_unfinished(&self, side: Side) -> bool
        ensures { (site : SiteValue) (earlier : List Judged) → IsLaneOf site self.now → KnowsWire site self.now.wire earlier
            → result ≡ has_unfinished site site.first.protocol side earlier }
    {
        match &self.wire {
            Wire::Modbus | Wire::Iec104(_) => false,
            Wire::Dnp3(fragments) => fragments.unfinished(side),
        }
    }
}

/// Why a step cuts the session, if it does.
fn cut_in(step: &Step) -> Option<CutReason>
    ensures { result ≡ cut_in step.now }
{
    match step {
        Step::Cut(reason) => Some(*reason),
        Step::Took(_) | Step::More => None,
    }
}

/// What a unit of so many octets led to by its fate.
fn step_of(fate: &Fate, used: usize) -> Step
    ensures { result ≡ step_by (fate_cut fate.now) used }
{
    match fate {
        Fate::Cuts(reason) => Step::Cut(*reason),
        Fate::Carried | Fate::Admitted(_) | Fate::Refused(_) | Fate::Stray(_) | Fate::Lengthens => {
            Step::Took(used)
        }
    }
}

/// The bytes from a place on.
pub(crate) fn after<'a>(bytes: &View<'a>, from: usize) -> View<'a>
    requires { from ≤ length bytes.now.bytes }
    ensures bytes { result.bytes ≡ drop from bytes.now.bytes }
    ensures octets { IsOctets bytes.now.bytes }
{
    bytes.sub(from, bytes.len())
}

/// Puts octets into a queue as they came.
#[inline(always)]
pub(crate) fn push_octets(octets: &View<'_>, queue: &mut Outq)
    requires open { queue.old.ended ≡ false }
    requires room { HasRoom (length octets.now.bytes) queue.old }
    ensures queue { queue.new ≡ after_push queue.old octets.now.bytes }
{
    let (first, second) = octets.pieces();
    if !first.is_empty() {
        queue.push(first);
    }
    if !second.is_empty() {
        queue.push(second);
    }
}

/// Puts End into the queue to the other side.
fn end_other(side: Side, to_client: &mut Outq, to_controller: &mut Outq)
    requires open { IsOpen side to_client.old to_controller.old }
    requires limit { MayEnd side to_client.old to_controller.old }
    ensures { EndsOther side to_client.old to_controller.old to_client.new to_controller.new }
{
    match side {
        Side::Client => to_controller.end(),
        Side::Controller => to_client.end(),
    }
}
