//! Answers of no, with the name of the asset at which what was asked is not so.
ghost use Rattle.std.specs.Prelude.{◌≡◌, ◌≤◌, ◌+◌, ◌++◌, length};
ghost use Rattle.cf_audit.specs.Text.{act_text};
ghost use Rattle.cf_ending.specs.Denial.{denial_text, reviewed_text};
ghost use Rattle.cf_view.specs.Text.{dotted};

use crate::ending::{EndText, push_count};
use crate::objection::{Objected, push_objected};
use arrayvec::ArrayString;
use cf_policy::LONGEST_NAME;
use cf_review::Counts;
use cf_view::{Act, push_number, push_signed, push_u16, push_u32};

/// The name of an asset.
pub type AssetName = ArrayString<LONGEST_NAME>;

/// That what was asked is not so. This project's own.
#[derive(Clone, Copy)]
pub enum Denial {
    /// The other policy has no asset that is the same controller under the same name as this one.
    NoPartner(AssetName),
    /// The first policy allows this act of the client at this asset, and the other refuses it: the first such act. The client is an
    /// address of 32 bits, its first octet the highest.
    Allows {
        name: AssetName,
        client: u32,
        act: Act,
    },
    /// What clients sent is objected to: this is the first objection.
    Objects(Objected),
    /// A review has remarks: so much was counted.
    Remarks(Counts),
}

/// What is printed of a denial: a line.
pub(crate) fn denial_line(denial: &Denial) -> EndText
    ensures { result.bytes ≡ denial_text denial.now }
{
    let mut text = EndText::new();
    match denial {
        Denial::NoPartner(name) => {
            text.push_str("no ");
            text.push_str(name.as_str());
            text.push_str("\n");
        }
        Denial::Allows { name, client, act } => {
            text.push_str("no ");
            text.push_str(name.as_str());
            text.push_str(" client ");
            push_dotted(&mut text, *client);
            push_act(&mut text, act);
            text.push_str("\n");
        }
        Denial::Objects(objected) => {
            text.push_str("no ");
            push_objected(&mut text, objected);
            text.push_str("\n");
        }
        Denial::Remarks(counts) => push_reviewed(&mut text, counts),
    }
    text
}

/// Pushes what was counted of a review, a line each.
pub(crate) fn push_reviewed(text: &mut EndText, counts: &Counts)
    requires { length text.old.bytes ≤ 64 }
    ensures { text.new.bytes ≡ text.old.bytes ++ reviewed_text counts.now }
{
    push_count(text, "flows ", counts.flows);
    push_count(text, "commands ", counts.commands);
    push_count(text, "admitted ", counts.admitted);
    push_count(text, "refused rule ", counts.by_rule);
    push_count(text, "refused default ", counts.by_default);
    push_count(text, "refused station ", counts.by_station);
    push_count(text, "refused form ", counts.by_form);
    push_count(text, "strays ", counts.strays);
    push_count(text, "conflicts ", counts.conflicts);
    push_count(text, "broken ", counts.broken);
}

/// Pushes an IPv4 address in its dotted form.
fn push_dotted(text: &mut EndText, address: u32)
    requires { length text.old.bytes ≤ 64 }
    ensures text { text.new.bytes ≡ text.old.bytes ++ dotted address }
    ensures short { length text.new.bytes ≤ length text.old.bytes + 83 }
{
    push_number(text, u64::from(address / 16_777_216));
    text.push_str(".");
    push_number(text, u64::from(address / 65_536 % 256));
    text.push_str(".");
    push_number(text, u64::from(address / 256 % 256));
    text.push_str(".");
    push_number(text, u64::from(address % 256));
}

/// Pushes the numbers of an act, with a dash for no value.
fn push_act(text: &mut EndText, act: &Act)
    requires { length text.old.bytes ≤ 256 }
    ensures text { text.new.bytes ≡ text.old.bytes ++ act_text act.now }
    ensures short { length text.new.bytes ≤ length text.old.bytes + 67 }
{
    text.push_str(" code ");
    push_u16(text, act.code);
    text.push_str(" group ");
    push_u16(text, act.group);
    text.push_str(" point ");
    push_u32(text, act.point);
    text.push_str(" value ");
    match act.value {
        Some(value) => push_signed(text, value),
        None => text.push_str("-"),
    }
}
