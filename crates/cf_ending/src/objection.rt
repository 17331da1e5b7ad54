//! What is told of an objection to what clients sent.
ghost use Rattle.std.specs.Prelude.{◌≡◌, ◌≤◌, ◌+◌, ◌++◌, length};
ghost use Rattle.cf_ending.specs.Objection.{objected_text, told_text};

use crate::denial::AssetName;
use crate::ending::EndText;
use cf_audit::{Why, break_word, reason_word, why_word};
use cf_view::{Break, Endpoint, Reason, push_endpoint, push_number, push_signed};

/// What a flow is objected to for, with the name of the rule.
#[derive(Clone, Copy)]
pub enum Ground {
    /// Two packets carried different letters at this position.
    Conflict(i64),
    /// The bytes are no units of the protocol.
    Broken(Break),
    /// A command is refused: by the rule of this name, or by `default`, `station` or `form`.
    Refused { rule: AssetName, reason: Reason },
    /// A frame, segment or fragment of DNP3 belongs to nothing.
    Stray(Why),
}

/// The first objection to what clients sent.
#[derive(Clone, Copy)]
pub struct Objected {
    /// The number, counted from 1, of the record with which it comes.
    pub at_record: u64,
    pub client: Endpoint,
    /// The name of the asset.
    pub asset: AssetName,
    pub what: Ground,
}

/// Pushes what is told of an objection, after a word.
pub(crate) fn push_objected(text: &mut EndText, objected: &Objected)
    requires { length text.old.bytes ≤ 8 }
    ensures text { text.new.bytes ≡ text.old.bytes ++ objected_text objected.now }
    ensures short { length text.new.bytes ≤ 300 }
{
    push_number(text, objected.at_record);
    text.push_str(" ");
    push_endpoint(text, &objected.client);
    text.push_str(" ");
    text.push_str(objected.asset.as_str());
    text.push_str(" ");
    push_told(text, &objected.what);
}

fn push_told(text: &mut EndText, told: &Ground)
    requires { length text.old.bytes ≤ 200 }
    ensures text { text.new.bytes ≡ text.old.bytes ++ told_text told.now }
    ensures short { length text.new.bytes ≤ length text.old.bytes + 64 }
{
    match told {
        Ground::Conflict(position) => {
            text.push_str("conflict ");
            push_signed(text, *position);
        }
        Ground::Broken(reason) => {
            text.push_str("broken ");
            text.push_str(break_word(*reason));
        }
        Ground::Refused { rule, reason } => {
            text.push_str("refused ");
            text.push_str(rule.as_str());
            text.push_str(" ");
            text.push_str(reason_word(*reason));
        }
        Ground::Stray(why) => {
            text.push_str("stray ");
            text.push_str(why_word(*why));
        }
    }
}
