//! The second half of an event: a packet.
ghost use Rattle.std.specs.Prelude.{◌≡◌, ◌<◌, ◌≤◌, true, List, length, IfOk, OnErr, OnOk};
ghost use Rattle.std.specs.Result.{is_err};
ghost use Rattle.cf_outside.specs.Desk.{DeskValue};
ghost use Rattle.cf_outside.specs.Frames.{EmitsAndLogs};
ghost use Rattle.cf_lane.specs.Handled.{CountsBy, IsLaneOf};
ghost use Rattle.cf_leg.specs.Event as leg_event;
ghost use Rattle.cf_packet.specs.Packet.{packet_value};
ghost use Rattle.cf_session.specs.Broken.{BreaksPacket};
ghost use Rattle.cf_session.specs.Event.{IsTick};
ghost use Rattle.cf_session.specs.Parts.{AreParts, SessionValue};
ghost use Rattle.cf_session.specs.Session.{Flow, SessionEvent};
ghost use Rattle.cf_session.specs.Stands.{HearsBy, IsLife, IsSessionOf, IsSound};
ghost use Rattle.cf_session.specs.Told.{told};
ghost use Rattle.cf_session.specs.Turn.{HeardAmid, HeardBy, IsHalf, IsSteady};
ghost use Rattle.cf_view.specs.Moment.{moment_limit};

use crate::clock::life_of;
use crate::deciding::{greeting_number, is_reset, why};
use crate::hearing::{Heard, hear};
use crate::life::Life;
use crate::session::Session;
use cf_leg::base_counts_the_taken;
use cf_outside::Desk;
use cf_packet::Packet;
use cf_policy::Site;
use cf_view::{Side, WriteFault};

impl Session {
    /// The second half of an event, a microsecond after the first: a packet came from the end of a side. What it brings is
    /// taken, judged and passed on; both ends then speak, or the session is cut.
    pub fn on_packet<D: Desk>(
        &mut self,
        site: &Site<'_>,
        moment: u64,
        side: Side,
        packet: &Packet<'_>,
        desk: &mut D,
    ) -> Result<Life, WriteFault>
        requires sound { IsSound site.now self.old }
        requires text { length packet.now.text.now ≤ 65535 }
        requires moment { moment < moment_limit }
        requires whole { DeskValue.whole (D.value desk.old) ≡ true }
        ensures hears { IfOk result (λ life. (flow : Flow) (earlier : List SessionEvent) (half : SessionEvent) → flow.site ≡ site.now
            → IsSessionOf flow earlier half self.old → IsTick flow earlier half.client.tick half → leg_event.moment half.client ≡ moment
            → HearsBy flow (SessionValue.limit self.old) earlier half side (packet_value packet.now) self.new (told (D.value desk.old))
            (told (D.value desk.new)) life) }
        ensures broken { OnErr result ((flow : Flow) (earlier : List SessionEvent) (half : SessionEvent) → flow.site ≡ site.now
            → IsSessionOf flow earlier half self.old → IsTick flow earlier half.client.tick half → leg_event.moment half.client ≡ moment
            → BreaksPacket flow (SessionValue.limit self.old) earlier half side (packet_value packet.now) (D.value desk.old)
            (D.value desk.new)) }
        ensures sound { IfOk result (λ life. IsLife life → IsSound site.now self.new) }
        ensures few { OnOk result (CountsBy 32768 (SessionValue.lane self.old) (SessionValue.lane self.new)) }
        ensures same { (SessionValue.limit self.new ≡ SessionValue.limit self.old)
            × (SessionValue.source self.new ≡ SessionValue.source self.old) }
        ensures frame { EmitsAndLogs (D.value desk.old) (D.value desk.new) (is_err result) }
    {
        let heard = self.hear(site, moment, side, packet, desk)?;
        base_counts_the_taken();
        let full = self.full();
        if let Some(reason) = why(
            self.closed.is_some(),
            is_reset(heard.answer),
            side,
            heard.cut,
            full,
        ) {
            return self.cut_at(site, moment, reason, desk);
        }
        self.speak(
            moment,
            greeting_number(side, heard.answer, packet.seq),
            desk,
        )?;
        self.close(site, moment, desk)?;
        Ok(life_of(self.closed))
    }

    /// The packet is heard by the leg of its side and by the lane.
    fn hear<D: Desk>(
        &mut self,
        site: &Site<'_>,
        moment: u64,
        side: Side,
        packet: &Packet<'_>,
        desk: &mut D,
    ) -> Result<Heard, WriteFault>
        requires sound { IsSound site.now self.old }
        requires text { length packet.now.text.now ≤ 65535 }
        requires moment { moment < moment_limit }
        requires whole { DeskValue.whole (D.value desk.old) ≡ true }
        ensures hears { IfOk result (λ heard. (flow : Flow) (earlier : List SessionEvent) (half : SessionEvent) → flow.site ≡ site.now
            → IsHalf half → leg_event.moment half.client ≡ moment → AreParts flow earlier half self.old
            → HeardBy flow earlier half side (packet_value packet.now) self.new heard.answer heard.cut (told (D.value desk.old))
            (told (D.value desk.new))) }
        ensures broken { OnErr result ((flow : Flow) (earlier : List SessionEvent) (half : SessionEvent) → flow.site ≡ site.now
            → IsHalf half → leg_event.moment half.client ≡ moment → AreParts flow earlier half self.old
            → HeardAmid flow earlier half side (packet_value packet.now) (D.value desk.old) (D.value desk.new)) }
        ensures steady { IfOk result (λ heard. IsSteady self.new heard.cut) }
        ensures serves { OnOk result (IsLaneOf site.now (SessionValue.lane self.new)) }
        ensures few { OnOk result (CountsBy 32768 (SessionValue.lane self.old) (SessionValue.lane self.new)) }
        ensures same { (SessionValue.limit self.new ≡ SessionValue.limit self.old)
            × (SessionValue.source self.new ≡ SessionValue.source self.old)
            × (SessionValue.closed self.new ≡ SessionValue.closed self.old) }
        ensures frame { EmitsAndLogs (D.value desk.old) (D.value desk.new) (is_err result) }
    {
        match side {
            Side::Client => {
                let heard = hear(
                    &mut self.client,
                    &mut self.lane,
                    site,
                    moment,
                    Side::Client,
                    packet,
                    &mut self.to_client,
                    &mut self.to_controller,
                    desk,
                )?;
                Ok(heard)
            }
            Side::Controller => {
                let heard = hear(
                    &mut self.controller,
                    &mut self.lane,
                    site,
                    moment,
                    Side::Controller,
                    packet,
                    &mut self.to_client,
                    &mut self.to_controller,
                    desk,
                )?;
                Ok(heard)
            }
        }
    }
}
