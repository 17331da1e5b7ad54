//! How a session is cut.
ghost use Rattle.std.specs.Prelude.{false, ◌≡◌, ◌+◌, ◌^◌, ◌<◌, ◌≤◌, true, List, ◌∷◌, IfOk, OnErr};
ghost use Rattle.std.specs.Result.{is_err};
ghost use Rattle.cf_leg.specs.Event.{LegEvent, Unspoken};
ghost use Rattle.cf_outside.specs.Desk.{DeskValue};
ghost use Rattle.cf_outside.specs.Frames.{EmitsAndLogs};
ghost use Rattle.cf_policy.specs.Site.{IsSiteWithin};
ghost use Rattle.cf_rebuild.specs.ReceiveWindow.{base_of};
ghost use Rattle.cf_session.specs.Parts.{IsLegBetween, SessionValue};
ghost use Rattle.cf_session.specs.Session.{Flow, client_ends, client_of, controller_ends};
ghost use Rattle.cf_session.specs.Turn.{CutsBoth};
ghost use Rattle.cf_stream.specs.Sizes.{window_size};
ghost use Rattle.cf_view.specs.Moment.{moment_limit};

use crate::life::Life;
use crate::session::Session;
use cf_audit::{CutReason, What};
use cf_driver::log_line;
use cf_outside::Desk;
use cf_policy::Site;
use cf_view::WriteFault;

impl Session {
    /// Cuts the session: each peer gets an RST, that of the controller first, and the log a line.
    pub(crate) fn cut_at<D: Desk>(
        &mut self,
        site: &Site<'_>,
        moment: u64,
        reason: CutReason,
        desk: &mut D,
    ) -> Result<Life, WriteFault>
        requires within { IsSiteWithin site.now }
        requires client_base { base_of (self.old.client).window ≤ 2 ^ 30 + window_size }
        requires controller_base { base_of (self.old.controller).window ≤ 2 ^ 30 + window_size }
        requires moment { moment < moment_limit }
        requires whole { DeskValue.whole (D.value desk.old) ≡ true }
        ensures cuts { IfOk result (λ life. (life ≡ Life.Cut reason)
            × ((flow : Flow) (cs ds : List LegEvent) (c d : LegEvent) → flow.site ≡ site.now
            → SessionValue.source self.old ≡ client_of flow
            → IsLegBetween (controller_ends flow) (SessionValue.controller self.old) (SessionValue.to_controller self.old)
            (record c { ending = Unspoken } ∷ cs)
            → IsLegBetween (client_ends flow) (SessionValue.client self.old) (SessionValue.to_client self.old)
            (record d { ending = Unspoken } ∷ ds)
            → CutsBoth flow cs ds c d moment reason (D.value desk.old) (D.value desk.new) false)) }
        ensures broken { OnErr result ((flow : Flow) (cs ds : List LegEvent) (c d : LegEvent) → flow.site ≡ site.now
            → SessionValue.source self.old ≡ client_of flow
            → IsLegBetween (controller_ends flow) (SessionValue.controller self.old) (SessionValue.to_controller self.old)
            (record c { ending = Unspoken } ∷ cs)
            → IsLegBetween (client_ends flow) (SessionValue.client self.old) (SessionValue.to_client self.old)
            (record d { ending = Unspoken } ∷ ds)
            → CutsBoth flow cs ds c d moment reason (D.value desk.old) (D.value desk.new) true) }
        ensures same { (SessionValue.limit self.new ≡ SessionValue.limit self.old)
            × (SessionValue.source self.new ≡ SessionValue.source self.old) × (SessionValue.lane self.new ≡ SessionValue.lane self.old) }
        ensures frame { EmitsAndLogs (D.value desk.old) (D.value desk.new) (is_err result) }
    {
        self.controller.cut(moment, &self.to_controller, desk)?;
        self.client.cut(moment, &self.to_client, desk)?;
        log_line(site, self.source, moment, What::Cut(reason), desk)?;
        Ok(Life::Cut(reason))
    }
}
