//! The points that acts of commands can have.
ghost use Rattle.std.specs.Prelude.{◌≡◌, ◌≤ℤ◌, pos, int_le, IfSome, true};
ghost use Rattle.std.specs.List.{list_all};
ghost use Rattle.cf_view.specs.declared.base.Act.{Act};
ghost use Rattle.cf_acts.specs.Commands.{IsOfCommand};

use cf_acts::{Kind, kinds};
use cf_policy::{Protocol, Span};

/// A point that no act of a command with a code goes above; none where the protocol does not serve the code. Such acts have points
/// from 0 on.
pub fn highest_point(protocol: Protocol, code: u16) -> Option<i64>
    ensures { IfSome result (λ high. (act : Act) → act.code ≡ code → IsOfCommand protocol act → pos act.point ≤ℤ high) }
{
    highest_of(kinds(protocol, code))
}

fn highest_of(kinds: &[Kind]) -> Option<i64>
    ensures { IfSome result (λ high. list_all (λ k. int_le k.points.high high) kinds.now ≡ true) }
{
    let first = kinds.first()?;
    if are_up_to(kinds, &first.points) {
        Some(first.points.high)
    } else {
        None
    }
}

/// Whether no kind has points above a span.
fn are_up_to(kinds: &[Kind], points: &Span) -> bool
    ensures { result ≡ list_all (λ k. int_le k.points.high points.now.high) kinds.now }
{
    kinds.iter().all(|kind| kind.points.high <= points.high)
}
