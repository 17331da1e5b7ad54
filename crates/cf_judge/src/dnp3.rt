//! What a whole fragment of DNP3 counts for.
ghost use Rattle.std.specs.Prelude.{◌≡◌, ◌≤◌, ◌∷◌, [], ℕ, if◌then◌else◌, length, nat_eq};
ghost use Rattle.cf_dnpobj.specs.Acts.{acts};
ghost use Rattle.cf_dnpobj.specs.Fragment.{fragment_value};
ghost use Rattle.cf_lane.specs.Acts.{fate_of_acts};
ghost use Rattle.cf_lane.specs.Dnp3.{fate_of_whole};
ghost use Rattle.cf_lane.specs.declared.fate.Fate.TheVariants as fate;
ghost use Rattle.cf_policy.specs.Index.{IsIndexOf};
ghost use Rattle.cf_policy.specs.Verdict.{verdict_of};
ghost use Rattle.cf_judge.specs.Ruling.{ruling_of};

use crate::iec104::all;
use crate::ruling::{Ruling, judge_acts, refused};
use cf_audit::Why;
use cf_dnpobj::{CONFIRM, Fragment, act_by, act_count, marks_of, read_fragment};
use cf_lane::form_reason;
use cf_policy::{Asset, CodeIndex, Decider};
use cf_view::{Side, View};

/// What a whole fragment counts for.
pub(crate) fn judge_whole(asset: &Asset, index: &CodeIndex, octets: &View<'_>) -> Ruling
    requires at_most { length octets.now.bytes ≤ 2048 }
    ensures ruling { (client : ℕ) → IsIndexOf asset.now client index.now
        → result ≡ ruling_of (fate_of_whole asset.now (verdict_of asset.now client) Side.Client (octets.now.bytes ∷ [])) }
{
    if octets.len() < 2 {
        return Ruling::Stray(Why::Short);
    }
    match read_fragment(all(octets)) {
        Err(refusal) => refused(
            Decider::Form,
            form_reason(&refusal),
            u16::from(octets.at(1)),
            0,
        ),
        Ok(fragment) => judge_request(asset, index, &fragment),
    }
}

/// What a request counts for: a confirmation for nothing.
fn judge_request(asset: &Asset, index: &CodeIndex, fragment: &Fragment<'_>) -> Ruling
    requires at_most { length fragment.now.objects.bytes ≤ 2046 }
    ensures ruling { (client : ℕ) → IsIndexOf asset.now client index.now
        → result ≡ ruling_of (if nat_eq fragment.now.code 0 then fate.Carried
        else fate_of_acts asset.now (verdict_of asset.now client) (acts (fragment_value fragment.now))) }
{
    if fragment.code == CONFIRM {
        return Ruling::Nothing;
    }
    let marks = marks_of(fragment);
    judge_acts(asset, index, act_count(fragment), |i| {
        act_by(fragment, &marks, i)
    })
}
