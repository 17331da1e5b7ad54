//! What a unit of a client counts for.
ghost use Rattle.std.specs.Prelude.{◌≡◌, ◌<◌, List, ℕ, length};
ghost use Rattle.cf_lane.specs.Acts.{GivesActs, act_of_code, fate_of_acts};
ghost use Rattle.cf_policy.specs.Index.{IsIndexOf};
ghost use Rattle.cf_policy.specs.Verdict.{verdict_of};
ghost use Rattle.cf_judge.specs.Ruling.{ruling_of};

use cf_audit::Why;
use cf_lane::Refusal;
use cf_policy::{Asset, CodeIndex, Decider, Verdict};
use cf_view::{Act, Break, Reason};

/// What a flow is objected to for.
#[derive(Clone, Copy)]
pub enum Complaint {
    /// Two packets carried different letters at this position.
    Conflict(i64),
    /// The bytes are no units of the protocol.
    Broken(Break),
    /// A command is refused: by a rule, by `default`, for its station or for its form.
    Refused(Decider, Reason),
    /// A frame, segment or fragment of DNP3 belongs to nothing.
    Stray(Why),
}

/// What a unit of a client counts for.
#[derive(Clone, Copy)]
pub enum Ruling {
    /// Nothing: it is carried, or lengthens a fragment.
    Nothing,
    /// A command that the policy allows.
    Allowed,
    /// A command that is refused, for the first act that is not allowed.
    Refused(Refusal),
    /// A frame, segment or fragment of DNP3 that belongs to nothing.
    Stray(Why),
}

/// A refusal of a whole command: its act is the code with this point.
pub(crate) fn refused(decider: Decider, reason: Reason, code: u16, point: u32) -> Ruling
    ensures { result ≡ Ruling.Refused (record { decider = decider; reason = reason; act = act_of_code code point }) }
{
    Ruling::Refused(Refusal {
        decider,
        reason,
        act: Act {
            code,
            group: 0,
            point,
            value: None,
        },
    })
}

/// A command of so many acts, of which the call gives each by its place: each is judged in its order, and the first that is not
/// allowed decides. Rates are not asked.
pub(crate) fn judge_acts<F: Fn(u32) -> Act>(
    asset: &Asset,
    index: &CodeIndex,
    count: u32,
    act_at: F,
) -> Ruling
    requires acts { (i : ℕ) → i < count → F.pre act_at i }
    ensures { (client : ℕ) (acts : List Act) → IsIndexOf asset.now client index.now → length acts ≡ count
        → GivesActs (F.post act_at) acts → result ≡ ruling_of (fate_of_acts asset.now (verdict_of asset.now client) acts) }
{
    for i in 0..count {
        let act = act_at(i);
        match index.verdict(asset, &act) {
            Verdict::Allow(_) => {}
            Verdict::Refuse(decider, reason) => {
                return Ruling::Refused(Refusal {
                    decider,
                    reason,
                    act,
                });
            }
        }
    }
    Ruling::Allowed
}
