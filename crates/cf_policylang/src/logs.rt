//! The key by which what a rule admits is written to the log.
//! It is read last of a rule, behind the rate.
ghost use Rattle.std.specs.Prelude.{◌≡◌};
ghost use Rattle.toml.specs.View.{table_view};
ghost use Rattle.cf_policylang.specs.Logs.{log};

use crate::fields::{as_flag, stated};
use crate::refusal::{Cause, Key, Place, PolicyRefusal, refusal};
use cf_policy::Action;
use toml::Table;

/// Whether what a rule admits is written to the log. An allow rule alone has the key.
pub(crate) fn log(place: Place, action: Action, table: &Table) -> Result<bool, PolicyRefusal>
    ensures { result ≡ log action place (table_view table.now) }
{
    let Some(value) = stated(Key::Log, table) else {
        return Ok(false);
    };
    match action {
        Action::Allow => as_flag(Key::Log, place, value),
        Action::Refuse => Err(refusal(Cause::UnknownKey, Key::Nothing, place)),
    }
}
