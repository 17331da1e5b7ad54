//! What was heard of a side: its bytes that are no whole unit yet, and how many of its letters were taken. This project's own.
ghost use Rattle.std.specs.Prelude.{◌≡◌, ◌+◌, ◌*◌, ◌^◌, ◌<◌, ◌≤◌, ◌++◌, [], ◌∷◌};
ghost use Rattle.std.specs.Prelude.{IfOk, IfSome, OnErr, OnOk, IsErr, None, drop, length, true};
ghost use Rattle.cf_driver.specs.Takes.{MissesEnd, MissesPiece, Takes};
ghost use Rattle.cf_lane.specs.Handled.{EndsOther, HasRoom, IsLaneOf, IsOpen, MayEnd, WritesLog, debt, debt_limit, rest_limit, state};
ghost use Rattle.cf_lane.specs.History.{bytes_at, end_at};
ghost use Rattle.cf_outside.specs.Desk.{DeskValue};
ghost use Rattle.cf_outside.specs.Faults.{HasCause};
ghost use Rattle.cf_policy.specs.Site.{IsSiteWithin};

use arrayvec::ArrayVec;
use cf_audit::CutReason;
use cf_lane::Lane;
use cf_outq::Outq;
use cf_outside::Desk;
use cf_policy::Site;
use cf_view::{Side, View, WriteFault};

/// The most bytes of a side that are kept because they are no whole unit yet. A lane leaves fewer.
const REST: usize = 300;

/// What is kept of a side between two elements of its history.
#[derive(Drop)]
pub struct Heard {
    /// The bytes that are no whole unit yet: fewer than 300.
    pub rest: ArrayVec<u8, REST>,
    /// How many letters were taken, End counted.
    pub letters: u64,
}

impl Heard {
    /// Of a side of which nothing was taken.
    pub fn none() -> Heard
        ensures rest { result.rest.items ≡ [] }
        ensures letters { result.letters ≡ 0 }
    {
        Heard {
            rest: ArrayVec::new(),
            letters: 0,
        }
    }

    /// Hands the lane a piece of the side's bytes, after those that are left of it, at a moment in microseconds, and says why
    /// the session is cut, if it is. Each queue has room for twice the bytes, and for what unfinished fragments may still put
    /// out. After a cut nothing is left, and no further call is made; where the desk fails, what was left stays; the line of the
    /// cut is the caller's to write.
    pub fn feed<D: Desk>(
        &mut self,
        site: &Site<'_>,
        moment: u64,
        side: Side,
        piece: &[u8],
        lane: &mut Lane,
        to_client: &mut Outq,
        to_controller: &mut Outq,
        desk: &mut D,
    ) -> Result<Option<CutReason>, WriteFault>
        requires of_site { IsLaneOf site.now lane.old }
        requires within { IsSiteWithin site.now }
        requires whole { DeskValue.whole (D.value desk.old) ≡ true }
        requires open { IsOpen side to_client.old to_controller.old }
        requires client_room { HasRoom (debt lane.old + 2 * length (self.old.rest.items ++ piece.now)) to_client.old }
        requires controller_room { HasRoom (debt lane.old + 2 * length (self.old.rest.items ++ piece.now)) to_controller.old }
        requires counts { lane.old.admitted + lane.old.refused + length (self.old.rest.items ++ piece.now) < 2 ^ 64 }
        requires letters { self.old.letters + length piece.now < 2 ^ 64 }
        ensures takes { IfOk result (λ cut. Takes site.now side (bytes_at moment side piece.now ∷ []) cut
            self.old.rest.items self.new.rest.items
            (state lane.old to_client.old to_controller.old (DeskValue.lines (D.value desk.old)))
            (state lane.new to_client.new to_controller.new (DeskValue.lines (D.value desk.new)))) }
        ensures misses { OnErr result (MissesPiece site.now moment side piece.now self.old.rest.items
            (state lane.old to_client.old to_controller.old (DeskValue.lines (D.value desk.old)))
            (DeskValue.lines (D.value desk.new)) (DeskValue.line_part (D.value desk.new))) }
        ensures cut { IfOk result (λ cut. IfSome cut (λ _. self.new.rest.items ≡ [])) }
        ensures stays { OnErr result (self.new.rest ≡ self.old.rest) }
        ensures letters { self.new.letters ≡ self.old.letters + length piece.now }
        ensures whole { OnOk result (DeskValue.whole (D.value desk.new) ≡ true) }
        ensures log { WritesLog (D.value desk.old) (D.value desk.new) }
        ensures cause { HasCause (DeskValue.faults (D.value desk.old)) (DeskValue.faults (D.value desk.new)) (IsErr result) }
    {
        self.letters += piece.len() as u64;
        let bytes = View::two(self.rest.as_slice(), piece);
        let fed = lane.feed(site, moment, side, bytes, to_client, to_controller, desk)?;
        match fed.cut {
            None => {
                keep_rest(&mut self.rest, piece, fed.used);
                Ok(None)
            }
            Some(reason) => {
                self.rest.clear();
                Ok(Some(reason))
            }
        }
    }

    /// Ends the side at the lane, at a moment in microseconds. What is left of it gets its line, and stays.
    pub fn end<D: Desk>(
        &mut self,
        site: &Site<'_>,
        moment: u64,
        side: Side,
        lane: &mut Lane,
        to_client: &mut Outq,
        to_controller: &mut Outq,
        desk: &mut D,
    ) -> Result<(), WriteFault>
        requires of_site { IsLaneOf site.now lane.old }
        requires within { IsSiteWithin site.now }
        requires whole { DeskValue.whole (D.value desk.old) ≡ true }
        requires open { IsOpen side to_client.old to_controller.old }
        requires limit { MayEnd side to_client.old to_controller.old }
        requires debt { debt lane.old ≤ debt_limit site.now }
        requires little { length self.old.rest.items < rest_limit }
        requires letters { self.old.letters + 1 < 2 ^ 64 }
        ensures takes { OnOk result (Takes site.now side (end_at moment side ∷ []) None self.old.rest.items self.new.rest.items
            (state lane.old to_client.old to_controller.old (DeskValue.lines (D.value desk.old)))
            (state lane.new to_client.new to_controller.new (DeskValue.lines (D.value desk.new)))) }
        ensures misses { OnErr result (MissesEnd site.now moment side self.old.rest.items
            (state lane.old to_client.old to_controller.old (DeskValue.lines (D.value desk.old)))
            (DeskValue.lines (D.value desk.new)) (DeskValue.line_part (D.value desk.new))) }
        ensures letters { self.new.letters ≡ self.old.letters + 1 }
        ensures rest { self.new.rest ≡ self.old.rest }
        ensures lane { lane.new ≡ lane.old }
        ensures queues { OnOk result (EndsOther side to_client.old to_controller.old to_client.new to_controller.new) }
        ensures whole { OnOk result (DeskValue.whole (D.value desk.new) ≡ true) }
        ensures log { WritesLog (D.value desk.old) (D.value desk.new) }
        ensures cause { HasCause (DeskValue.faults (D.value desk.old)) (DeskValue.faults (D.value desk.new)) (IsErr result) }
    {
        self.letters += 1;
        let rest = self.rest.len() as u64;
        lane.ended(site, moment, side, rest, to_client, to_controller, desk)?;
        Ok(())
    }
}

/// Keeps what is left after so many bytes of a rest and a piece.
fn keep_rest(rest: &mut ArrayVec<u8, REST>, piece: &[u8], used: usize)
    requires used { used ≤ length (rest.old.items ++ piece.now) }
    requires little { length (drop used (rest.old.items ++ piece.now)) ≤ rest_limit }
    ensures { rest.new.items ≡ drop used (rest.old.items ++ piece.now) }
{
    let mut left = [0u8; REST];
    let view = View::two(rest.as_slice(), piece);
    let len = view.len();
    let count = len - used;
    view.sub(used, len).copy_to(&mut left[..count]);
    rest.clear();
    let _ = rest.try_extend_from_slice(&left[..count]);
}
