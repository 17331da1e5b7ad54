//! The first half of an event: the clock calls.
ghost use Rattle.std.specs.Prelude.{◌≡◌, ◌<◌, true, List, ◌∷◌, IfOk, OnErr};
ghost use Rattle.std.specs.Result.{is_err};
ghost use Rattle.cf_outside.specs.Desk.{DeskValue};
ghost use Rattle.cf_outside.specs.Frames.{EmitsAndLogs};
ghost use Rattle.cf_session.specs.Broken.{BreaksTick};
ghost use Rattle.cf_session.specs.CutBy.{is_no_answer};
ghost use Rattle.cf_session.specs.Parts.{SessionValue};
ghost use Rattle.cf_session.specs.Session.{Flow, SessionEvent, is_past};
ghost use Rattle.cf_session.specs.Stands.{IsLife, IsSessionOf, IsSound, TicksBy, due_of, expiry_of, life_by};
ghost use Rattle.cf_session.specs.Told.{told};
ghost use Rattle.cf_view.specs.Moment.{moment_limit};

use crate::life::Life;
use crate::session::Session;
use cf_audit::CutReason;
use cf_leg::{ClockAnswer, events_begin};
use cf_outside::Desk;
use cf_policy::Site;
use cf_view::{Side, WriteFault};

/// How long a closed session is kept, in microseconds. This project's own choice.
const KEPT: u64 = 60_000_000;

impl Session {
    /// The first half of an event: the clock stands at a moment in microseconds. A session that closed sixty seconds before
    /// has expired. Else its two ends have their clock calls, and a peer that was silent for too long cuts it.
    pub fn on_clock<D: Desk>(
        &mut self,
        site: &Site<'_>,
        moment: u64,
        desk: &mut D,
    ) -> Result<Life, WriteFault>
        requires sound { IsSound site.now self.old }
        requires moment { moment < moment_limit }
        requires whole { DeskValue.whole (D.value desk.old) ≡ true }
        ensures ticks { IfOk result (λ life. (flow : Flow) (earlier : List SessionEvent) (last : SessionEvent) → flow.site ≡ site.now
            → IsSessionOf flow earlier last self.old
            → TicksBy flow (last ∷ earlier) moment self.new (told (D.value desk.old)) (told (D.value desk.new)) life) }
        ensures broken { OnErr result ((flow : Flow) (earlier : List SessionEvent) (last : SessionEvent) → flow.site ≡ site.now
            → IsSessionOf flow earlier last self.old
            → BreaksTick flow (last ∷ earlier) moment (D.value desk.old) (D.value desk.new)) }
        ensures sound { IfOk result (λ life. IsLife life → IsSound site.now self.new) }
        ensures same { (SessionValue.limit self.new ≡ SessionValue.limit self.old)
            × (SessionValue.source self.new ≡ SessionValue.source self.old) }
        ensures frame { EmitsAndLogs (D.value desk.old) (D.value desk.new) (is_err result) }
    {
        if is_over(self.closed, moment) {
            return Ok(Life::Expired);
        }
        events_begin();
        if is_silent(
            self.controller
                .on_clock(moment, &mut self.to_controller, desk)?,
        ) {
            return self.cut_at(site, moment, CutReason::NoAnswer(Side::Controller), desk);
        }
        if is_silent(self.client.on_clock(moment, &mut self.to_client, desk)?) {
            return self.cut_at(site, moment, CutReason::NoAnswer(Side::Client), desk);
        }
        Ok(life_of(self.closed))
    }
}

impl Session {
    /// The moment in microseconds from which on the first half of an event does something; the greatest number where none will.
    pub fn due(&self) -> u64
        ensures { result ≡ due_of self.now }
    {
        expiry_of(self.closed).min(self.controller.due().min(self.client.due()))
    }
}

/// The moment at which a session expires.
fn expiry_of(closed: Option<u64>) -> u64
    ensures { result ≡ expiry_of closed }
{
    match closed {
        None => u64::MAX,
        Some(moment) => moment.saturating_add(KEPT),
    }
}

/// Sixty seconds have passed since a closing.
fn is_over(closed: Option<u64>, moment: u64) -> bool
    ensures { result ≡ is_past closed moment }
{
    match closed {
        None => false,
        Some(at) => at <= moment && moment - at >= KEPT,
    }
}

fn is_silent(answer: ClockAnswer) -> bool
    ensures { result ≡ is_no_answer answer }
{
    matches!(answer, ClockAnswer::NoAnswer)
}

/// The life of a session that goes on.
pub(crate) fn life_of(closed: Option<u64>) -> Life
    ensures value { result ≡ life_by closed }
    ensures goes_on { IsLife result }
{
    match closed {
        None => Life::Live,
        Some(_) => Life::Closed,
    }
}
