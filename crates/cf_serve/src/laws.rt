//! Laws of a service, as the contracts of functions with empty bodies.
ghost use Rattle.cf_serve.specs.Laws.{EachIsAlone, FloodsAreBounded, IsolatesSessions, RatesLastOverSessions, StrangersAreRefused};

use cf_lane::{has_one_judgement, rates_hold};
use cf_policy::allows_by_first_rule;

/// What a session gets and what it leaves in the log follow from its own answers, whatever the other sessions do.
pub fn sessions_are_isolated()
    ensures alone { EachIsAlone }
    ensures isolates { IsolatesSessions }
{
    has_one_judgement();
}

/// A client that is closed at the door would have had each of its commands refused, to whichever asset of the site.
pub fn strangers_are_refused()
    ensures refused { StrangersAreRefused }
{
    allows_by_first_rule();
}

/// A session that is refused as fast as it can ask has 100 commands refused a second in the long run.
pub fn floods_are_bounded()
    ensures bounded { FloodsAreBounded }
{}

/// Over all sessions of a client address at a site, one after the other, no rule of an asset lets more commands to that asset through
/// than its rate: no rate is shared by two assets.
pub fn rates_last_over_sessions()
    ensures last { RatesLastOverSessions }
{
    has_one_judgement();
    rates_hold();
}
