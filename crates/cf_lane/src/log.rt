//! The lines that a session writes.
ghost use Rattle.std.specs.Prelude.{◌≡◌, ◌≤◌, ◌∷◌, [], true, length, OnOk, OnErr, IsErr};
ghost use Rattle.std.specs.Result.{is_err};
ghost use Rattle.cf_audit.specs.Line.{HasShortNames, Stray, line_value};
ghost use Rattle.cf_audit.specs.Text.{line_text};
ghost use Rattle.cf_outside.specs.Faults.{HasCause};
ghost use Rattle.cf_outside.specs.Desk.{DeskValue};
ghost use Rattle.cf_policy.specs.Names.{name_of};
ghost use Rattle.cf_policy.specs.Verdict.{IsOneOf};
ghost use Rattle.cf_policy.specs.Within.{IsAssetWithin};
ghost use Rattle.cf_lane.specs.Handled.{HasAdded, MayHaveAdded, WritesLog};
ghost use Rattle.cf_lane.specs.Log.{HasPlainNames, admission_line, admission_lines, line_about, refusal_line, end_lines};
ghost use Rattle.cf_lane.specs.Logging.{LogsLines};

use crate::fate::{Admission, Refusal, Shown};
use arrayvec::ArrayString;
use cf_audit::{Line, What, Why, write_line};
use cf_outside::{Desk, WriteAnswer};
use cf_policy::{Asset, Decider, decider_name};
use cf_view::{Endpoint, Side, View, WriteFault};

/// Puts a line, whose names are those of a policy, on a desk. After a fault it may have been put all the same.
pub fn put_line<D: Desk>(line: &Line<'_>, desk: &mut D) -> Result<(), WriteFault>
    requires short { HasShortNames (line_value line.now) }
    requires names { HasPlainNames (line_value line.now) }
    requires whole { DeskValue.whole (D.value desk.old) ≡ true }
    ensures lines { OnOk result (HasAdded (line_text (line_value line.now) ∷ []) (D.value desk.old) (D.value desk.new)) }
    ensures fails { OnErr result (MayHaveAdded (line_text (line_value line.now) ∷ []) (D.value desk.old) (D.value desk.new)) }
    ensures whole { OnOk result (DeskValue.whole (D.value desk.new) ≡ true) }
    ensures log { WritesLog (D.value desk.old) (D.value desk.new) }
    ensures cause { HasCause (DeskValue.faults (D.value desk.old)) (DeskValue.faults (D.value desk.new)) (IsErr result) }
{
    let mut text = ArrayString::<256>::new();
    write_line(line, &mut text);
    match desk.line(text.as_str()) {
        WriteAnswer::Done => Ok(()),
        WriteAnswer::Failed => Err(WriteFault),
    }
}

/// Writes the line of a refused command.
#[inline(never)]
pub(crate) fn log_refusal<D: Desk>(
    asset: &Asset,
    client: &Endpoint,
    moment: u64,
    refusal: &Refusal,
    replied: bool,
    octets: View<'_>,
    desk: &mut D,
) -> Result<(), WriteFault>
    requires within { IsAssetWithin asset.now }
    requires whole { DeskValue.whole (D.value desk.old) ≡ true }
    requires decider { IsOneOf asset.now.rules refusal.now.decider }
    ensures lines { OnOk result (HasAdded (line_about asset.now client.now moment
        (refusal_line asset.now refusal.now replied octets.entry.bytes) ∷ []) (D.value desk.old) (D.value desk.new)) }
    ensures fails { OnErr result (MayHaveAdded
        (line_about asset.now client.now moment (refusal_line asset.now refusal.now replied octets.entry.bytes) ∷ []) (D.value desk.old)
        (D.value desk.new)) }
    ensures desk { LogsLines (D.value desk.old) (D.value desk.new) (is_err result) }
{
    let line = Line {
        moment,
        client: *client,
        asset: asset.name.as_str(),
        what: What::Refuse {
            rule: decider_name(asset, &refusal.decider),
            reason: refusal.reason,
            act: refusal.act,
            replied,
            unit: octets,
        },
    };
    put_line(&line, desk)
}

/// Writes the line of an admitted command, if a rule with a log allowed one of its acts.
#[inline(always)]
pub(crate) fn log_admission<D: Desk>(
    asset: &Asset,
    client: &Endpoint,
    moment: u64,
    admission: &Admission,
    octets: View<'_>,
    desk: &mut D,
) -> Result<(), WriteFault>
    requires within { IsAssetWithin asset.now }
    requires whole { DeskValue.whole (D.value desk.old) ≡ true }
    ensures lines { OnOk result (HasAdded (admission_lines asset.now client.now moment octets.entry.bytes admission.now) (D.value desk.old)
        (D.value desk.new)) }
    ensures fails { OnErr result (MayHaveAdded (admission_lines asset.now client.now moment octets.entry.bytes admission.now)
        (D.value desk.old) (D.value desk.new)) }
    ensures desk { LogsLines (D.value desk.old) (D.value desk.new) (is_err result) }
{
    match admission.shown {
        Some(shown) => log_shown(asset, client, moment, &shown, octets, desk),
        None => Ok(()),
    }
}

/// Writes the line of an admitted command, which shows this act.
#[cold]
#[inline(never)]
fn log_shown<D: Desk>(
    asset: &Asset,
    client: &Endpoint,
    moment: u64,
    shown: &Shown,
    octets: View<'_>,
    desk: &mut D,
) -> Result<(), WriteFault>
    requires within { IsAssetWithin asset.now }
    requires whole { DeskValue.whole (D.value desk.old) ≡ true }
    ensures lines { OnOk result (HasAdded (line_about asset.now client.now moment (admission_line asset.now shown.now octets.entry.bytes) ∷ [])
        (D.value desk.old) (D.value desk.new)) }
    ensures fails { OnErr result (MayHaveAdded
        (line_about asset.now client.now moment (admission_line asset.now shown.now octets.entry.bytes) ∷ []) (D.value desk.old)
        (D.value desk.new)) }
    ensures desk { LogsLines (D.value desk.old) (D.value desk.new) (is_err result) }
{
    let line = Line {
        moment,
        client: *client,
        asset: asset.name.as_str(),
        what: What::Admit {
            rule: rule_name(asset, shown.rule),
            act: shown.act,
            unit: octets,
        },
    };
    put_line(&line, desk)
}

/// The name of the rule of this number, and an empty text where there is none.
fn rule_name(asset: &Asset, number: usize) -> &str
    requires { IsAssetWithin asset.now }
    ensures name { result.now ≡ name_of asset.now.rules (Decider.Rule number) }
    ensures short { length result.now ≤ 32 }
{
    match asset.rules.as_slice().get(number) {
        Some(rule) => rule.name.as_str(),
        None => "",
    }
}

/// Writes the line of a DNP3 frame, segment or fragment that goes nowhere.
pub(crate) fn log_stray<D: Desk>(
    asset: &Asset,
    client: &Endpoint,
    moment: u64,
    side: Side,
    why: Why,
    desk: &mut D,
) -> Result<(), WriteFault>
    requires within { IsAssetWithin asset.now }
    requires whole { DeskValue.whole (D.value desk.old) ≡ true }
    ensures lines { OnOk result (HasAdded (line_about asset.now client.now moment (Stray side why) ∷ []) (D.value desk.old)
        (D.value desk.new)) }
    ensures fails { OnErr result (MayHaveAdded (line_about asset.now client.now moment (Stray side why) ∷ []) (D.value desk.old)
        (D.value desk.new)) }
    ensures desk { LogsLines (D.value desk.old) (D.value desk.new) (is_err result) }
{
    let line = Line {
        moment,
        client: *client,
        asset: asset.name.as_str(),
        what: What::Stray { side, why },
    };
    put_line(&line, desk)
}

/// Writes the line of an end at which bytes or a fragment are left, where it is so.
pub(crate) fn log_end<D: Desk>(
    asset: &Asset,
    client: &Endpoint,
    moment: u64,
    side: Side,
    unfinished: bool,
    rest: u64,
    desk: &mut D,
) -> Result<(), WriteFault>
    requires within { IsAssetWithin asset.now }
    requires whole { DeskValue.whole (D.value desk.old) ≡ true }
    ensures lines { OnOk result (HasAdded (end_lines asset.now client.now moment side unfinished rest) (D.value desk.old)
        (D.value desk.new)) }
    ensures fails { OnErr result (MayHaveAdded (end_lines asset.now client.now moment side unfinished rest) (D.value desk.old)
        (D.value desk.new)) }
    ensures desk { LogsLines (D.value desk.old) (D.value desk.new) (is_err result) }
{
    if rest == 0 && !unfinished {
        return Ok(());
    }
    let line = Line {
        moment,
        client: *client,
        asset: asset.name.as_str(),
        what: What::Partial { side, count: rest },
    };
    put_line(&line, desk)
}
