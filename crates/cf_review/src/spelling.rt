//! The line of a remark.
ghost use Rattle.std.specs.Prelude.{◌≡◌, ◌≤◌, ◌+◌, ◌++◌, [], codes, false, length, slice_get};
ghost use Rattle.std.specs.Fmt.{signed_decimal};
ghost use Rattle.std.specs.Option.{option_map_or};
ghost use Rattle.arrayvec.specs.ArrayString.{array_string_len};
ghost use Rattle.cf_audit.specs.Line.{Stray};
ghost use Rattle.cf_audit.specs.Names.{break_name};
ghost use Rattle.cf_lane.specs.Log.{line_about, refusal_line};
ghost use Rattle.cf_policy.specs.Names.{name_of};
ghost use Rattle.cf_policy.specs.declared.limits.TheConstants.{LONGEST_NAME};
ghost use Rattle.cf_view.specs.Text.{endpoint_text, moment_text};
ghost use Rattle.cf_review.specs.Lines.{line_by, matter_line, other_line};
ghost use Rattle.cf_review.specs.Remark.{matter_value, remark_value};

use crate::remark::{Matter, Remark};
use arrayvec::ArrayString;
use cf_audit::{Line, What, Why, break_word, write_line};
use cf_lane::Refusal;
use cf_policy::{Asset, Decider, Rule};
use cf_view::{Break, Endpoint, Side, View, push_endpoint, push_moment, push_signed};

/// Writes the line of a remark, whose record has this moment, in place of what `line` held, and nothing where its asset is none of these.
pub(crate) fn spell(assets: &[Asset], moment: u64, remark: &Remark, line: &mut ArrayString<256>)
    ensures bytes { line.new.bytes ≡ line_by (slice_get assets.now remark.now.asset) moment (remark_value remark.now) }
    ensures short { array_string_len line.new ≤ 256 }
{
    match assets.get(remark.asset as usize) {
        Some(asset) => spell_matter(asset, remark.client, moment, &remark.what, line),
        None => line.clear(),
    }
}

fn spell_matter(
    asset: &Asset,
    client: Endpoint,
    moment: u64,
    what: &Matter,
    line: &mut ArrayString<256>,
)
    ensures bytes { line.new.bytes ≡ matter_line asset.now client moment (matter_value what.now) }
    ensures short { array_string_len line.new ≤ 256 }
{
    match what {
        Matter::Refused { refusal, octets } => {
            spell_refused(asset, client, moment, refusal, octets.as_slice(), line);
        }
        Matter::Stray(why) => spell_stray(asset, client, moment, *why, line),
        Matter::Broken(reason) => spell_broken(asset, client, moment, *reason, line),
        Matter::Conflict(position) => spell_conflict(asset, client, moment, *position, line),
        Matter::Midstream => spell_midstream(asset, client, moment, line),
        Matter::Gap(position) => spell_gap(asset, client, moment, *position, line),
    }
}

/// Writes that a command of these octets is refused.
fn spell_refused(
    asset: &Asset,
    client: Endpoint,
    moment: u64,
    refusal: &Refusal,
    octets: &[u8],
    line: &mut ArrayString<256>,
)
    ensures bytes { line.new.bytes ≡ line_about asset.now client moment (refusal_line asset.now refusal.now false octets.now) }
    ensures short { array_string_len line.new ≤ 256 }
{
    let about = Line {
        moment,
        client,
        asset: asset.name.as_str(),
        what: What::Refuse {
            rule: rule_name(asset, &refusal.decider),
            reason: refusal.reason,
            act: refusal.act,
            replied: false,
            unit: View::one(octets),
        },
    };
    write_line(&about, line);
}

/// Writes that a frame, segment or fragment belongs to nothing.
fn spell_stray(asset: &Asset, client: Endpoint, moment: u64, why: Why, line: &mut ArrayString<256>)
    ensures bytes { line.new.bytes ≡ line_about asset.now client moment (Stray Side.Client why) }
    ensures short { array_string_len line.new ≤ 256 }
{
    let about = Line {
        moment,
        client,
        asset: asset.name.as_str(),
        what: What::Stray {
            side: Side::Client,
            why,
        },
    };
    write_line(&about, line);
}

/// Writes that the bytes break.
fn spell_broken(
    asset: &Asset,
    client: Endpoint,
    moment: u64,
    reason: Break,
    line: &mut ArrayString<256>,
)
    ensures bytes { line.new.bytes ≡ other_line asset.now client moment (codes "broken " ++ break_name reason) }
    ensures short { array_string_len line.new ≤ 256 }
{
    begin_line(asset, client, moment, line);
    line.push_str("broken ");
    line.push_str(break_word(reason));
    line.push_str("\n");
}

/// Writes that two packets differ.
fn spell_conflict(
    asset: &Asset,
    client: Endpoint,
    moment: u64,
    position: i64,
    line: &mut ArrayString<256>,
)
    ensures bytes { line.new.bytes ≡ other_line asset.now client moment (codes "conflict " ++ signed_decimal position) }
    ensures short { array_string_len line.new ≤ 256 }
{
    begin_line(asset, client, moment, line);
    line.push_str("conflict ");
    push_signed(line, position);
    line.push_str("\n");
}

/// Writes that a flow begins amid its stream.
fn spell_midstream(asset: &Asset, client: Endpoint, moment: u64, line: &mut ArrayString<256>)
    ensures bytes { line.new.bytes ≡ other_line asset.now client moment (codes "begins midstream") }
    ensures short { array_string_len line.new ≤ 256 }
{
    begin_line(asset, client, moment, line);
    line.push_str("begins midstream\n");
}

/// Writes that the first bytes of a flow end and others do not follow on them.
fn spell_gap(
    asset: &Asset,
    client: Endpoint,
    moment: u64,
    position: i64,
    line: &mut ArrayString<256>,
)
    ensures bytes { line.new.bytes ≡ other_line asset.now client moment (codes "gap " ++ signed_decimal position) }
    ensures short { array_string_len line.new ≤ 256 }
{
    begin_line(asset, client, moment, line);
    line.push_str("gap ");
    push_signed(line, position);
    line.push_str("\n");
}

/// Writes a moment, a client and an asset.
fn begin_line(asset: &Asset, client: Endpoint, moment: u64, line: &mut ArrayString<256>)
    ensures bytes { line.new.bytes ≡ moment_text moment ++ codes " " ++ endpoint_text client ++ codes " " ++ asset.now.name ++ codes " " }
    ensures short { array_string_len line.new ≤ 90 }
{
    line.clear();
    push_moment(line, moment);
    line.push_str(" ");
    push_endpoint(line, &client);
    line.push_str(" ");
    line.push_str(asset.name.as_str());
    line.push_str(" ");
}

/// The name of what decided.
fn rule_name<'a>(asset: &'a Asset, decider: &Decider) -> &'a str
    ensures name { result.now ≡ name_of asset.now.rules decider.now }
    ensures short { length result.now ≤ LONGEST_NAME }
{
    match decider {
        Decider::Rule(number) | Decider::Spent(number) => {
            name_of_rule(asset.rules.as_slice(), *number)
        }
        Decider::Default => "default",
        Decider::Station => "station",
        Decider::Form => "form",
    }
}

/// The name of the rule at a place; an empty one where there is none.
fn name_of_rule(rules: &[Rule], place: usize) -> &str
    ensures name { result.now ≡ option_map_or (λ r. r.name) (slice_get rules.now place) [] }
    ensures short { length result.now ≤ LONGEST_NAME }
{
    match rules.get(place) {
        Some(rule) => rule.name.as_str(),
        None => "",
    }
}
