//! Lines of the log as text.
ghost use Rattle.std.specs.Prelude.{◌≡◌, ◌+◌, ◌≤◌, ◌++◌, length};
ghost use Rattle.arrayvec.specs.ArrayString.{array_string_len};
ghost use Rattle.cf_audit.specs.declared.line.TheConstants.{NAME_LIMIT};
ghost use Rattle.cf_audit.specs.Line.{Admit, HasShortNames, HasShortRule, Refuse, line_value, what_value};
ghost use Rattle.cf_audit.specs.Names.{break_name, mark, reason_name, side_name, why_name};
ghost use Rattle.cf_audit.specs.Text.{act_text, came_text, counts_text, cut_text, line_text, what_text};

use crate::line::{CutReason, Line, What, Why};
use arrayvec::ArrayString;
use cf_view::{
    Act, Break, Reason, Side, View, push_endpoint, push_hex, push_moment, push_number, push_signed,
    push_u16, push_u32,
};

fn side_word(side: Side) -> &'static str
    ensures name { result.now ≡ side_name side }
    ensures short { length result.now ≤ 10 }
{
    match side {
        Side::Client => "client",
        Side::Controller => "controller",
    }
}

/// Why a command was refused, as the log spells it. This project's own words.
pub fn reason_word(reason: Reason) -> &'static str
    ensures name { result.now ≡ reason_name reason }
    ensures short { length result.now ≤ 8 }
{
    match reason {
        Reason::Function => "function",
        Reason::Point => "point",
        Reason::Value => "value",
        Reason::Station => "station",
    }
}

/// Why a frame, segment or fragment was dropped, as the log spells it. This project's own words.
pub fn why_word(why: Why) -> &'static str
    ensures name { result.now ≡ why_name why }
    ensures short { length result.now ≤ 9 }
{
    match why {
        Why::Address => "address",
        Why::Direction => "direction",
        Why::Code => "code",
        Why::Empty => "empty",
        Why::NoFirst => "first",
        Why::Order => "order",
        Why::TooLong => "long",
        Why::Short => "short",
    }
}

/// Where bytes are no unit of the protocol, as the log spells it. This project's own words.
pub fn break_word(reason: Break) -> &'static str
    ensures name { result.now ≡ break_name reason }
    ensures short { length result.now ≤ 11 }
{
    match reason {
        Break::Protocol => "protocol",
        Break::Length => "length",
        Break::Start => "start",
        Break::FrameLength => "framelength",
        Break::HeaderCrc => "headercrc",
        Break::BlockCrc => "blockcrc",
        Break::ApduStart => "apdustart",
        Break::ApduLength => "apdulength",
        Break::Control => "control",
    }
}

fn mark_word(replied: bool) -> &'static str
    ensures name { result.now ≡ mark replied }
    ensures short { length result.now ≤ 10 }
{
    if replied { "replied" } else { "unanswered" }
}

fn push_act<const N: usize>(out: &mut ArrayString<N>, act: &Act)
    requires { array_string_len out.old + 67 ≤ N }
    ensures bytes { out.new.bytes ≡ out.old.bytes ++ act_text act.now }
    ensures short { array_string_len out.new ≤ array_string_len out.old + 67 }
{
    out.push_str(" code ");
    push_u16(out, act.code);
    out.push_str(" group ");
    push_u16(out, act.group);
    out.push_str(" point ");
    push_u32(out, act.point);
    out.push_str(" value ");
    match act.value {
        Some(value) => push_signed(out, value),
        None => out.push_str("-"),
    }
}

/// Appends why a session was cut, as the log and the printed text spell it.
pub fn push_cut<const N: usize>(out: &mut ArrayString<N>, reason: &CutReason)
    requires { array_string_len out.old + 40 ≤ N }
    ensures bytes { out.new.bytes ≡ out.old.bytes ++ cut_text reason.now }
    ensures short { array_string_len out.new ≤ array_string_len out.old + 40 }
{
    match *reason {
        CutReason::Framing(side, broken) => {
            out.push_str(side_word(side));
            out.push_str(" ");
            out.push_str(break_word(broken));
        }
        CutReason::WrongSend(side, expected, seen) => {
            out.push_str(side_word(side));
            out.push_str(" send ");
            push_u16(out, expected);
            out.push_str(" ");
            push_u16(out, seen);
        }
        CutReason::WrongReceive(side, low, high, seen) => {
            out.push_str(side_word(side));
            out.push_str(" receive ");
            push_u16(out, low);
            out.push_str(" ");
            push_u16(out, high);
            out.push_str(" ");
            push_u16(out, seen);
        }
        CutReason::Outstanding(side) => {
            out.push_str(side_word(side));
            out.push_str(" outstanding");
        }
        CutReason::NotStarted(side) => {
            out.push_str(side_word(side));
            out.push_str(" notstarted");
        }
        CutReason::StreamLength(side) => {
            out.push_str(side_word(side));
            out.push_str(" long");
        }
        CutReason::NoAnswer(side) => {
            out.push_str(side_word(side));
            out.push_str(" noanswer");
        }
        CutReason::ResetByClient => out.push_str("client reset"),
        CutReason::ResetByController => out.push_str("controller reset"),
    }
}

fn push_refusal<const N: usize>(
    out: &mut ArrayString<N>,
    rule: &str,
    reason: Reason,
    act: &Act,
    replied: bool,
    unit: &View<'_>,
)
    requires name { length rule.now ≤ NAME_LIMIT }
    requires room { array_string_len out.old + 159 ≤ N }
    ensures bytes { out.new.bytes ≡ out.old.bytes ++ what_text (Refuse rule.now reason act.now replied unit.now.bytes) }
    ensures short { array_string_len out.new ≤ array_string_len out.old + 159 }
{
    out.push_str("refuse ");
    out.push_str(rule);
    out.push_str(" ");
    out.push_str(reason_word(reason));
    push_act(out, act);
    out.push_str(" ");
    out.push_str(mark_word(replied));
    out.push_str(" ");
    push_hex(out, unit);
}

fn push_admission<const N: usize>(out: &mut ArrayString<N>, rule: &str, act: &Act, unit: &View<'_>)
    requires name { length rule.now ≤ NAME_LIMIT }
    requires room { array_string_len out.old + 159 ≤ N }
    ensures bytes { out.new.bytes ≡ out.old.bytes ++ what_text (Admit rule.now act.now unit.now.bytes) }
    ensures short { array_string_len out.new ≤ array_string_len out.old + 159 }
{
    out.push_str("admit ");
    out.push_str(rule);
    push_act(out, act);
    out.push_str(" ");
    push_hex(out, unit);
}

/// Appends a word and both numbers of commands.
fn push_counts<const N: usize>(out: &mut ArrayString<N>, word: &str, admitted: u64, refused: u64)
    requires word { length word.now ≤ 28 }
    requires room { array_string_len out.old + 87 ≤ N }
    ensures bytes { out.new.bytes ≡ out.old.bytes ++ word.now ++ counts_text admitted refused }
    ensures short { array_string_len out.new ≤ array_string_len out.old + 87 }
{
    out.push_str(word);
    out.push_str(" admitted ");
    push_number(out, admitted);
    out.push_str(" refused ");
    push_number(out, refused);
}

/// Appends a word and how many clients came.
fn push_came<const N: usize>(out: &mut ArrayString<N>, word: &str, came: u64)
    requires word { length word.now ≤ 28 }
    requires room { array_string_len out.old + 87 ≤ N }
    ensures bytes { out.new.bytes ≡ out.old.bytes ++ word.now ++ came_text came }
    ensures short { array_string_len out.new ≤ array_string_len out.old + 87 }
{
    out.push_str(word);
    out.push_str(" came ");
    push_number(out, came);
}

fn push_what<const N: usize>(out: &mut ArrayString<N>, what: &What<'_>)
    requires name { HasShortRule (what_value what.now) }
    requires room { array_string_len out.old + 159 ≤ N }
    ensures bytes { out.new.bytes ≡ out.old.bytes ++ what_text (what_value what.now) }
    ensures short { array_string_len out.new ≤ array_string_len out.old + 159 }
{
    match what {
        What::Begun => out.push_str("open"),
        What::Refuse {
            rule,
            reason,
            act,
            replied,
            unit,
        } => push_refusal(out, rule, *reason, act, *replied, unit),
        What::Admit { rule, act, unit } => push_admission(out, rule, act, unit),
        What::Stray { side, why } => {
            out.push_str("stray ");
            out.push_str(side_word(*side));
            out.push_str(" ");
            out.push_str(why_word(*why));
        }
        What::Partial { side, count } => {
            out.push_str("partial ");
            out.push_str(side_word(*side));
            out.push_str(" ");
            push_number(out, *count);
        }
        What::Close { admitted, refused } => push_counts(out, "close", *admitted, *refused),
        What::Cut(reason) => {
            out.push_str("cut ");
            push_cut(out, reason);
        }
        What::Listen => out.push_str("listen"),
        What::Away { came } => push_came(out, "away", *came),
        What::Unreached => out.push_str("unreached"),
        What::Gone => out.push_str("gone"),
        What::Stranger { came } => push_came(out, "stranger", *came),
        What::Lost { admitted, refused } => push_counts(out, "lost", *admitted, *refused),
        What::Silent { admitted, refused } => push_counts(out, "silent", *admitted, *refused),
        What::Again { admitted, refused } => push_counts(out, "again", *admitted, *refused),
        What::NoMemory => out.push_str("nomemory"),
        What::Stands {
            standing,
            admitted,
            refused,
        } => {
            out.push_str("stands ");
            push_number(out, *standing);
            push_counts(out, "", *admitted, *refused);
        }
    }
}

/// Writes a line with its line feed, in place of what `out` held. The names have at most `NAME_LIMIT` bytes, so that it fits.
pub fn write_line(line: &Line<'_>, out: &mut ArrayString<256>)
    requires { HasShortNames (line_value line.now) }
    ensures bytes { out.new.bytes ≡ line_text (line_value line.now) }
    ensures len { array_string_len out.new ≤ 256 }
{
    out.clear();
    push_moment(out, line.moment);
    out.push_str(" ");
    push_endpoint(out, &line.client);
    out.push_str(" ");
    out.push_str(line.asset);
    out.push_str(" ");
    push_what(out, &line.what);
    out.push_str("\n");
}
