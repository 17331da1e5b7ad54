//! Both ends speak, that of the controller first, and the client is greeted where the controller's end has opened.
ghost use Rattle.std.specs.Prelude.{◌≡◌, ◌<◌, true, List, ◌∷◌, [], OnErr, OnOk, None};
ghost use Rattle.std.specs.Result.{is_err};
ghost use Rattle.cf_leg.specs.Event.{LegEvent, Unspoken};
ghost use Rattle.cf_leg.specs.Event as leg_event;
ghost use Rattle.cf_outq.specs.SendQueue.{IsQueueOf};
ghost use Rattle.cf_outside.specs.Desk.{DeskValue};
ghost use Rattle.cf_outside.specs.Frames.{EmitsAndLogs};
ghost use Rattle.cf_stream.specs.Stream.{Stream};
ghost use Rattle.cf_session.specs.Broken.{BreaksAmid};
ghost use Rattle.cf_session.specs.Parts.{IsLegBetween, SessionValue};
ghost use Rattle.cf_session.specs.Sent.{at};
ghost use Rattle.cf_session.specs.Session.{Flow, client_ends};
ghost use Rattle.cf_session.specs.Told.{told};
ghost use Rattle.cf_session.specs.Turn.{GreetsClient, IsSteady, MayGreet, MaySpeak, OnlySpeaks, SaysAmid, SaysBoth, greetings, is_roomy};
ghost use Rattle.cf_view.specs.Moment.{moment_limit};

use crate::handing::has_ended;
use crate::session::Session;
use cf_driver::are_small;
use cf_leg::open_legs_have_greeted;
use cf_outside::Desk;
use cf_view::WriteFault;

impl Session {
    /// Greets the client with the number of the controller's SYN, where there is one.
    fn greet_client<D: Desk>(
        &mut self,
        moment: u64,
        number: Option<u32>,
        desk: &mut D,
    ) -> Result<(), WriteFault>
        requires steady { IsSteady self.old None }
        requires moment { moment < moment_limit }
        requires whole { DeskValue.whole (D.value desk.old) ≡ true }
        ensures greets { OnOk result ((flow : Flow) (d : LegEvent) (ds : List LegEvent) → moment ≡ leg_event.moment d → MayGreet number d ds
            → IsLegBetween (client_ends flow) (SessionValue.client self.old) (SessionValue.to_client self.old)
            (record d { ending = Unspoken } ∷ ds)
            → GreetsClient flow moment number d ds self.new (told (D.value desk.old)) (told (D.value desk.new))) }
        ensures broken { OnErr result ((flow : Flow) (d : LegEvent) (ds : List LegEvent) → moment ≡ leg_event.moment d
            → MayGreet number d ds
            → IsLegBetween (client_ends flow) (SessionValue.client self.old) (SessionValue.to_client self.old)
            (record d { ending = Unspoken } ∷ ds)
            → BreaksAmid (at moment (greetings flow number)) [] (D.value desk.old) (D.value desk.new)) }
        ensures steady { OnOk result (IsSteady self.new None) }
        ensures window { OnOk result ((SessionValue.client self.new).window ≡ record (SessionValue.client self.old).window
            { edge = (SessionValue.client self.new).window.edge }) }
        ensures same { self.new ≡ record self.old { client = SessionValue.client self.new } }
        ensures frame { EmitsAndLogs (D.value desk.old) (D.value desk.new) (is_err result) }
    {
        let Some(number) = number else {
            return Ok(());
        };
        open_legs_have_greeted();
        if !self.client.is_made() {
            return Ok(());
        }
        self.client.greet(moment, number, desk)?;
        Ok(())
    }

    /// Both ends speak, that of the controller first. Where the controller's end has opened, with a number, the client is
    /// greeted with it.
    pub(crate) fn speak<D: Desk>(
        &mut self,
        moment: u64,
        number: Option<u32>,
        desk: &mut D,
    ) -> Result<(), WriteFault>
        requires steady { IsSteady self.old None }
        requires moment { moment < moment_limit }
        requires whole { DeskValue.whole (D.value desk.old) ≡ true }
        ensures says { OnOk result ((flow : Flow) (c d : LegEvent) (cs ds : List LegEvent) (w v : Stream)
            → moment ≡ leg_event.moment c → moment ≡ leg_event.moment d → MayGreet number d ds → MaySpeak flow c d cs ds w v self.old
            → SaysBoth flow moment number c cs d ds w v (is_roomy self.old) self.new (told (D.value desk.old)) (told (D.value desk.new))) }
        ensures broken { OnErr result ((flow : Flow) (c d : LegEvent) (cs ds : List LegEvent) (w v : Stream)
            → moment ≡ leg_event.moment c → moment ≡ leg_event.moment d → MayGreet number d ds → MaySpeak flow c d cs ds w v self.old
            → SaysAmid flow moment number c cs d ds w v (is_roomy self.old) (D.value desk.old) (D.value desk.new)) }
        ensures client_stands { OnOk result ((w : Stream) → IsQueueOf (SessionValue.to_client self.old) w
            → IsQueueOf (SessionValue.to_client self.new) w) }
        ensures controller_stands { OnOk result ((w : Stream) → IsQueueOf (SessionValue.to_controller self.old) w
            → IsQueueOf (SessionValue.to_controller self.new) w) }
        ensures steady { OnOk result (IsSteady self.new None) }
        ensures only { OnOk result (OnlySpeaks self.old self.new) }
        ensures same { (SessionValue.limit self.new ≡ SessionValue.limit self.old)
            × (SessionValue.source self.new ≡ SessionValue.source self.old) }
        ensures frame { EmitsAndLogs (D.value desk.old) (D.value desk.new) (is_err result) }
    {
        // The fact: both windows keep their bounds.
        let _ended = (has_ended(&self.client), has_ended(&self.controller));
        let roomy = are_small(&self.to_client, &self.to_controller);
        self.controller
            .speak(moment, roomy, &mut self.to_controller, desk)?;
        self.greet_client(moment, number, desk)?;
        self.client.speak(moment, roomy, &mut self.to_client, desk)?;
        Ok(())
    }
}
