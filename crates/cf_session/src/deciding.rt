//! Whether a packet cuts a session, and whether it closes one.
ghost use Rattle.std.specs.Prelude.{◌≡◌, true, if◌then◌else◌, [], None, Some, OnErr, OnOk};
ghost use Rattle.std.specs.Result.{is_err};
ghost use Rattle.std.specs.Option.{option_or};
ghost use Rattle.cf_outq.specs.SendQueue.{queue_length};
ghost use Rattle.cf_outside.specs.Desk.{DeskValue};
ghost use Rattle.cf_outside.specs.Frames.{EmitsAndLogs};
ghost use Rattle.cf_policy.specs.Site.{IsSiteWithin};
ghost use Rattle.cf_rebuild.specs.ReceiveWindow.{base_of};
ghost use Rattle.cf_lane.specs.Limit.{limit_by};
ghost use Rattle.cf_session.specs.Broken.{BreaksAmid};
ghost use Rattle.cf_session.specs.CutBy.{cut_by};
ghost use Rattle.cf_session.specs.Cuts.{is_reset};
ghost use Rattle.cf_session.specs.Parts.{SessionValue};
ghost use Rattle.cf_session.specs.Told.{told, with_both};
ghost use Rattle.cf_session.specs.Turn.{closing_lines, is_acknowledged, is_done_now, number_by};

use crate::handing::has_ended;
use crate::session::Session;
use cf_audit::{CutReason, What};
use cf_driver::{length_cut, log_line};
use cf_leg::LegAnswer;
use cf_outq::Outq;
use cf_outside::Desk;
use cf_policy::Site;
use cf_view::{Side, WriteFault};

/// The peer gave up.
pub(crate) fn is_reset(answer: LegAnswer) -> bool
    ensures { result ≡ is_reset answer }
{
    matches!(answer, LegAnswer::Reset)
}

/// The number to greet the client with, where a packet of the controller opened its leg.
pub(crate) fn greeting_number(side: Side, answer: LegAnswer, number: u32) -> Option<u32>
    ensures { result ≡ number_by side answer number }
{
    match (side, answer) {
        (Side::Controller, LegAnswer::Opened) => Some(number),
        _ => None,
    }
}

/// Why a packet of a side cuts a session: it resets its leg, the lane cuts, or a stream is full. Nothing cuts a closed one.
pub(crate) fn why(
    closed: bool,
    resets: bool,
    side: Side,
    lane: Option<CutReason>,
    full: Option<CutReason>,
) -> Option<CutReason>
    ensures { result ≡ cut_by closed resets side lane full }
{
    if closed {
        return None;
    }
    if resets {
        return match side {
            Side::Client => Some(CutReason::ResetByClient),
            Side::Controller => Some(CutReason::ResetByController),
        };
    }
    match lane {
        Some(reason) => Some(reason),
        None => full,
    }
}

/// A queue has End, and its peer has acknowledged it.
fn is_acknowledged(queue: &Outq) -> bool
    ensures { result ≡ is_acknowledged queue.now }
{
    queue.is_ended() && queue.unacked() == 0
}

impl Session {
    /// Why a stream is full, if one is. This project's own order: the client's two streams, then the controller's.
    pub(crate) fn full(&self) -> Option<CutReason>
        ensures { result ≡ limit_by (SessionValue.limit self.now) (base_of (self.now.client).window) (base_of (self.now.controller).window)
            (queue_length self.now.to_client) (queue_length self.now.to_controller) }
    {
        length_cut(
            self.limit,
            self.client.window().base() as u64,
            self.controller.window().base() as u64,
            &self.to_client,
            &self.to_controller,
        )
    }

    /// Both sides have ended, and both ends are acknowledged.
    fn is_done(&self) -> bool
        ensures { result ≡ is_done_now self.now }
    {
        has_ended(&self.client)
            && has_ended(&self.controller)
            && is_acknowledged(&self.to_client)
            && is_acknowledged(&self.to_controller)
    }

    /// Where a session closes that had not closed, its line is written.
    pub(crate) fn close<D: Desk>(
        &mut self,
        site: &Site<'_>,
        moment: u64,
        desk: &mut D,
    ) -> Result<(), WriteFault>
        requires within { IsSiteWithin site.now }
        requires whole { DeskValue.whole (D.value desk.old) ≡ true }
        ensures same { self.new ≡ record self.old { closed = SessionValue.closed self.new } }
        ensures closed { OnOk result (SessionValue.closed self.new ≡ option_or (SessionValue.closed self.old)
            (if is_done_now self.old then Some moment else None)) }
        ensures told { OnOk result (told (D.value desk.new) ≡ with_both (told (D.value desk.old)) []
            (closing_lines site.now self.old moment)) }
        ensures broken { OnErr result (BreaksAmid [] (closing_lines site.now self.old moment) (D.value desk.old) (D.value desk.new)) }
        ensures frame { EmitsAndLogs (D.value desk.old) (D.value desk.new) (is_err result) }
    {
        if self.closed.is_some() || !self.is_done() {
            return Ok(());
        }
        self.closed = Some(moment);
        let (admitted, refused) = (self.lane.admitted(), self.lane.refused());
        log_line(
            site,
            self.source,
            moment,
            What::Close { admitted, refused },
            desk,
        )?;
        Ok(())
    }
}
