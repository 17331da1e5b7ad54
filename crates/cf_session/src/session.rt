//! One session between a client and a site: two ends of TCP connections, and the lane between them.
ghost use Rattle.std.specs.Prelude.{◌≡◌, ◌-◌, ◌^◌, ◌<◌, ◌≤◌, true, List, IfOk, IsErrOf, OnErr, OnOk, pos, ◌≤ℤ◌};
ghost use Rattle.std.specs.Result.{is_err};
ghost use Rattle.std.specs.Option.{is_some};
ghost use Rattle.cf_lane.specs.Handled.{IsLaneOf};
ghost use Rattle.cf_leg.specs.Calls.{Widens};
ghost use Rattle.cf_outside.specs.Desk.{DeskValue};
ghost use Rattle.cf_outside.specs.Frames.{EmitsAndLogs};
ghost use Rattle.cf_packet.specs.Packet.{packet_value};
ghost use Rattle.cf_policy.specs.Site.{IsSiteWithin};
ghost use Rattle.cf_rebuild.specs.ReceiveWindow.{base_of};
ghost use Rattle.cf_session.specs.Broken.{BreaksBeginning, has_failed};
ghost use Rattle.cf_session.specs.Parts.{SessionValue};
ghost use Rattle.cf_session.specs.Session.{Flow, SessionEvent};
ghost use Rattle.cf_session.specs.Stands.{Begins, IsSessionOf, IsSound};
ghost use Rattle.cf_session.specs.Told.{told};
ghost use Rattle.cf_session.specs.Turn.{IsMade};
ghost use Rattle.cf_view.specs.Moment.{moment_limit};

use cf_audit::What;
use cf_driver::log_line;
use cf_lane::Lane;
use cf_leg::{Leg, Phase, Role, events_begin};
use cf_outq::Outq;
use cf_outside::Desk;
use cf_packet::Packet;
use cf_policy::Site;
use cf_view::{Endpoint, NoMemory, WriteFault};
use std::alloc::Global;
use std::marker::Model;

/// One session. All its memory is taken as it begins. This project's own.
#[derive(Drop)]
pub struct Session {
    /// The end towards the client, a passive one. It has the endpoint of the controller.
    pub(crate) client: Leg,
    /// The end towards the controller, an active one. It has the endpoint of the client.
    pub(crate) controller: Leg,
    /// What takes both streams apart, and judges what is in them.
    pub(crate) lane: Lane,
    /// What goes to the client: the send queue of its end, with SND.UNA and SND.NXT.
    pub(crate) to_client: Outq,
    /// What goes to the controller: the send queue of its end, with SND.UNA and SND.NXT.
    pub(crate) to_controller: Outq,
    /// The moment in microseconds at which both Ends were taken and both streams acknowledged, once that is so.
    pub(crate) closed: Option<u64>,
    /// The number of letters of a stream, End counted, at which the session is cut: from 1 to 2^30.
    pub(crate) limit: u64,
    /// The endpoint of the client, which the lines of the log name.
    pub(crate) source: Endpoint,
}

impl Model for Session {
    ghost use Rattle.cf_session.specs.Parts.{SessionValue};

    ghost Value = { SessionValue };

    ghost view = { λ a. record {
      client = a.client;
      controller = a.controller;
      lane = a.lane;
      to_client = a.to_client;
      to_controller = a.to_controller;
      closed = a.closed;
      limit = a.limit;
      source = a.source;
    } };
}

/// Why no session began. This project's own.
#[derive(Clone, Copy)]
pub enum BeginFault {
    /// Nothing was sent or logged.
    NoMemory,
    /// The desk failed.
    Write,
}

impl Session {
    /// Begins a session at a moment in microseconds: the controller gets the SYN of the box, and the log a line. The packet
    /// has SYN and none of ACK, RST and FIN, and goes to the endpoint of the site; its source, which is another endpoint,
    /// is the client. A stream of as many letters as the limit cuts the session. Each later call is handed the same site.
    pub fn begin<D: Desk>(
        alloc: Global,
        site: &Site<'_>,
        moment: u64,
        limit: i64,
        syn: &Packet<'_>,
        desk: &mut D,
    ) -> Result<Session, BeginFault>
        requires within { IsSiteWithin site.now }
        requires moment { (1 ≤ moment) × (moment < moment_limit) }
        requires limit { (pos 1 ≤ℤ limit) × (limit ≤ℤ pos (2 ^ 30)) }
        requires whole { DeskValue.whole (D.value desk.old) ≡ true }
        ensures begins { IfOk result (λ s. Begins (record { site = site.now; syn = packet_value syn.now }) (moment - 1) s
            (told (D.value desk.old)) (told (D.value desk.new))) }
        ensures limit { IfOk result (λ s. limit ≡ pos s.limit) }
        ensures client { IfOk result (λ s. s.source ≡ syn.now.source) }
        ensures sound { IfOk result (λ s. IsSound site.now s) }
        ensures nothing { IsErrOf result BeginFault.NoMemory → desk.new ≡ desk.old }
        ensures broken { IsErrOf result BeginFault.Write
            → BreaksBeginning (record { site = site.now; syn = packet_value syn.now }) (moment - 1) (D.value desk.old)
            (D.value desk.new) }
        ensures frame { EmitsAndLogs (D.value desk.old) (D.value desk.new) (has_failed result) }
    {
        let Ok(mut session) = Session::made(alloc, site, limit as u64, syn) else {
            return Err(BeginFault::NoMemory);
        };
        match session.greet_controller(site, moment, syn.seq, desk) {
            Ok(()) => Ok(session),
            Err(_) => Err(BeginFault::Write),
        }
    }

    /// A session to which nothing happened.
    fn made(
        alloc: Global,
        site: &Site<'_>,
        limit: u64,
        syn: &Packet<'_>,
    ) -> Result<Session, NoMemory>
        requires within { IsSiteWithin site.now }
        ensures made { IfOk result (λ s. IsMade (record { site = site.now; syn = packet_value syn.now }) s) }
        ensures limit { IfOk result (λ s. s.limit ≡ limit) }
        ensures serves { IfOk result (λ s. IsLaneOf site.now s.lane) }
    {
        let first = site.first();
        let client = Leg::passive(alloc, first.endpoint, syn.source, syn.seq, syn.mss)?;
        let controller = Leg::active(alloc, syn.source, first.endpoint, syn.seq)?;
        let lane = Lane::new(alloc, site, syn.source, None)?;
        let to_client = Outq::new(alloc)?;
        let to_controller = Outq::new(alloc)?;
        Ok(Session {
            client,
            controller,
            lane,
            to_client,
            to_controller,
            closed: None,
            limit,
            source: syn.source,
        })
    }

    /// Sends the SYN to the controller, and writes the line of the beginning.
    fn greet_controller<D: Desk>(
        &mut self,
        site: &Site<'_>,
        moment: u64,
        number: u32,
        desk: &mut D,
    ) -> Result<(), WriteFault>
        requires within { IsSiteWithin site.now }
        requires made { (self.old.controller).phase ≡ Phase.Made }
        requires role { (self.old.controller).ends.role ≡ Role.Active number }
        requires base { base_of (self.old.controller).window ≡ 0 }
        requires moment { (1 ≤ moment) × (moment < moment_limit) }
        requires whole { DeskValue.whole (D.value desk.old) ≡ true }
        ensures begins { OnOk result ((flow : Flow) → flow.site ≡ site.now → flow.syn.seq ≡ number → IsMade flow self.old
            → Begins flow (moment - 1) self.new (told (D.value desk.old)) (told (D.value desk.new))) }
        ensures broken { OnErr result ((flow : Flow) → flow.site ≡ site.now → flow.syn.seq ≡ number → IsMade flow self.old
            → BreaksBeginning flow (moment - 1) (D.value desk.old) (D.value desk.new)) }
        ensures window { OnOk result (Widens true (self.old.controller).window (self.new.controller).window) }
        ensures queue { OnOk result (self.new.to_controller ≡ record self.old.to_controller { sent = (self.new.to_controller).sent }) }
        ensures same { OnOk result (self.new ≡ record self.old
            { controller = self.new.controller; to_controller = self.new.to_controller }) }
        ensures frame { EmitsAndLogs (D.value desk.old) (D.value desk.new) (is_err result) }
    {
        events_begin();
        self.controller.greet(moment, number, desk)?;
        self.controller
            .speak(moment, true, &mut self.to_controller, desk)?;
        log_line(site, self.source, moment, What::Begun, desk)?;
        Ok(())
    }

    /// How many commands were admitted.
    pub fn admitted(&self) -> u64
        ensures value { result ≡ self.now.lane.admitted }
        ensures counts { (flow : Flow) (earlier : List SessionEvent) (event : SessionEvent) → IsSessionOf flow earlier event self.now
            → result ≡ event.work.admitted }
    {
        self.lane.admitted()
    }

    /// How many commands were refused.
    pub fn refused(&self) -> u64
        ensures value { result ≡ self.now.lane.refused }
        ensures counts { (flow : Flow) (earlier : List SessionEvent) (event : SessionEvent) → IsSessionOf flow earlier event self.now
            → result ≡ event.work.refused }
    {
        self.lane.refused()
    }

    /// The client.
    pub fn client(&self) -> Endpoint
        ensures { result ≡ self.now.source }
    {
        self.source
    }

    /// Whether both sides have ended, and both ends are acknowledged.
    pub fn is_closed(&self) -> bool
        ensures { result ≡ is_some self.now.closed }
    {
        self.closed.is_some()
    }
}
