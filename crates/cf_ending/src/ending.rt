//! How the program ends: what was done, or why the work stopped, as a status and a printed text.
ghost use Rattle.std.specs.Prelude.{◌≡◌, ◌≤◌, ◌+◌, ◌++◌, codes, decimal, length, option_map};
ghost use Rattle.cf_audit.specs.Text.{cut_text};
ghost use Rattle.cf_ending.specs.Ending.{Prints, Puts, capture_number, commands_text, done_text, drafted_text, end_text, status_of, stop_status, stop_text};
ghost use Rattle.cf_ending.specs.Ending.{summary_text, unobjected_text, unprinted_status};
ghost use Rattle.cf_ending.specs.Outside.{sink_value};
ghost use Rattle.cf_ending.specs.Denial.{count_line, reviewed_text};
ghost use Rattle.cf_policylang.specs.Keys.{refusal_text};

use crate::denial::{AssetName, Denial, denial_line, push_reviewed};
use arrayvec::ArrayString;
use cf_audit::{CutReason, push_cut};
use cf_outside::{Sink, WriteAnswer};
use cf_policylang::{PolicyRefusal, push_refusal};
use cf_records::{BlockRefusal, FormRefusal};
use cf_review::Counts;
use cf_run::Summary;
use cf_view::push_number;
use cf_words::status::{
    CAPTURE_CUT, CAPTURE_REFUSED, DENIED, DONE, IDLE_END, LINK_FAULT, NO_MEMORY, POLICY_REFUSED,
    READ_FAULT, STREAM_CUT, TOO_MANY_CELLS, TOO_MANY_RULES, UNKNOWN_ASSET, WRITE_FAULT,
};

/// Work that was done.
#[derive(Clone, Copy)]
pub enum Done {
    /// A stream was filtered, with its numbers of admitted and refused commands.
    Sifted {
        admitted: u64,
        refused: u64,
    },
    /// Two streams were relayed to their ends, with the same numbers.
    Relayed {
        admitted: u64,
        refused: u64,
    },
    /// A policy was read, with its numbers of assets and of all rules.
    Checked {
        assets: u64,
        rules: u64,
    },
    /// A policy was drafted, with its numbers of assets and of all rules, and how many assets allow more than was shown of them.
    Drafted {
        assets: u64,
        rules: u64,
        widened: u64,
    },
    /// A policy allows only what another allows.
    Included,
    /// Nothing that clients sent in a capture is objected to, with the numbers of flows and of commands that the policy allows.
    Unobjected {
        flows: u64,
        commands: u64,
    },
    /// Each record of a capture has its line, with how many of them have no segment.
    Listed {
        dropped: u64,
    },
    /// A policy was run over a capture, with what was counted.
    Ran(Summary),
    /// A review of a capture was written and has no remark, with what was counted.
    Reviewed(Counts),
}

/// Why the work stopped: the same causes for every command.
#[derive(Clone, Copy)]
pub enum Stop {
    /// A read failed.
    ReadFault,
    /// A creation, an append or a put failed.
    WriteFault,
    /// The policy's text means no policy.
    PolicyRefused(PolicyRefusal),
    /// The capture is refused.
    CaptureRefused(CaptureRefusal),
    /// The capture ends inside the record that begins at this place, in octets from 0.
    CaptureCut(u64),
    /// The capture of a run does, with what was counted over its whole records.
    RunCut(u64, Summary),
    /// A call on the pair of streams failed.
    LinkFault,
    /// So many answers `Idle` of the pair came, without a byte or an end between them, that the relay ended.
    IdleEnd,
    /// The policy has no asset of the name.
    UnknownAsset,
    /// A stream is cut.
    Cut(CutReason),
    /// Memory ran out.
    NoMemory,
    /// What was asked is not so.
    Denied(Denial),
    /// The capture shows so much of this asset that it would have more than 1,024 rules.
    TooManyRules(AssetName),
    /// The rules of this asset and of its partner make more than 1,000,000 cells.
    TooManyCells(AssetName),
}

/// Why a capture is refused. The tests of a classic file stand in this order, those of records at each record; those of a block stand
/// in `cf_pcapng/specs/Block.antt`.
#[derive(Clone, Copy, PartialEq, Eq, Debug)]
pub enum CaptureRefusal {
    /// It has fewer than 24 octets, or fewer than 28 of a pcapng file.
    Short,
    /// Its magic is none of a capture file.
    Magic,
    /// Its version is not 2.4.
    Version,
    /// Its link type is neither Ethernet nor raw IP.
    LinkType,
    /// A record has more than 262,144 octets.
    TooLong,
    /// The moment of a record reaches 2^32 seconds. A listing tests none.
    Clock,
    /// An octet of a record stands at place 2^40 or above.
    Large,
    /// It has more octets than 67,108,864, where it is watched.
    Long,
    /// The length of a block is not allowed, its second length differs, or the bytes of a packet do not fit it.
    Block,
    /// A section header has a wrong magic, or another major version than 1.
    Section,
    /// A section has too many interfaces; or a packet's is not described, or of a link type that is not read.
    Interface,
    /// The unit of time of a packet's interface is not read.
    Resolution,
}

impl From<FormRefusal> for Stop {
    ghost use Rattle.std.specs.Prelude.{◌≡◌};
    ghost use Rattle.cf_ending.specs.Captures.{form_refusal};
    ghost use Rattle.cf_ending.specs.declared.ending.Stop.TheVariants.{CaptureRefused};

    ghost from_gives = { λ r s. s ≡ CaptureRefused (form_refusal r) };

    fn from(refusal: FormRefusal) -> Self {
        Stop::CaptureRefused(match refusal {
            FormRefusal::Short => CaptureRefusal::Short,
            FormRefusal::Magic => CaptureRefusal::Magic,
            FormRefusal::Version => CaptureRefusal::Version,
            FormRefusal::LinkType => CaptureRefusal::LinkType,
            FormRefusal::Section => CaptureRefusal::Section,
        })
    }
}

impl From<BlockRefusal> for Stop {
    ghost use Rattle.std.specs.Prelude.{◌≡◌};
    ghost use Rattle.cf_ending.specs.Captures.{block_refusal};
    ghost use Rattle.cf_ending.specs.declared.ending.Stop.TheVariants.{CaptureRefused};

    ghost from_gives = { λ r s. s ≡ CaptureRefused (block_refusal r) };

    fn from(refusal: BlockRefusal) -> Self {
        Stop::CaptureRefused(match refusal {
            BlockRefusal::Block => CaptureRefusal::Block,
            BlockRefusal::Section => CaptureRefusal::Section,
            BlockRefusal::Interface => CaptureRefusal::Interface,
            BlockRefusal::Resolution => CaptureRefusal::Resolution,
        })
    }
}

/// The status of a cause.
fn stop_status(stop: &Stop) -> u8
    ensures { result ≡ stop_status stop.now }
{
    match stop {
        Stop::ReadFault => READ_FAULT,
        Stop::WriteFault => WRITE_FAULT,
        Stop::PolicyRefused(_) => POLICY_REFUSED,
        Stop::CaptureRefused(_) => CAPTURE_REFUSED,
        Stop::CaptureCut(_) | Stop::RunCut(..) => CAPTURE_CUT,
        Stop::LinkFault => LINK_FAULT,
        Stop::IdleEnd => IDLE_END,
        Stop::UnknownAsset => UNKNOWN_ASSET,
        Stop::Cut(_) => STREAM_CUT,
        Stop::NoMemory => NO_MEMORY,
        Stop::Denied(_) => DENIED,
        Stop::TooManyRules(_) => TOO_MANY_RULES,
        Stop::TooManyCells(_) => TOO_MANY_CELLS,
    }
}

fn status(ended: &Result<Done, Stop>) -> u8
    ensures { result ≡ status_of ended.now }
{
    match ended {
        Ok(_) => DONE,
        Err(stop) => stop_status(stop),
    }
}

/// The status of an ending whose text was not printed whole: work that was done and not told is a write fault.
fn unprinted_status(ended: &Result<Done, Stop>) -> u8
    ensures { result ≡ unprinted_status ended.now }
{
    match ended {
        Ok(_) => WRITE_FAULT,
        Err(stop) => stop_status(stop),
    }
}

/// The text that ends the work: at most nine lines.
pub type EndText = ArrayString<384>;

fn commands_text(admitted: u64, refused: u64) -> EndText
    ensures { result.bytes ≡ commands_text admitted refused }
{
    let mut text = EndText::new();
    text.push_str("admitted ");
    push_number(&mut text, admitted);
    text.push_str("\nrefused ");
    push_number(&mut text, refused);
    text.push_str("\n");
    text
}

fn checked_text(assets: u64, rules: u64) -> EndText
    ensures { result.bytes ≡ codes "ok " ++ decimal assets ++ codes " " ++ decimal rules ++ codes "\n" }
{
    let mut text = EndText::new();
    text.push_str("ok ");
    push_number(&mut text, assets);
    text.push_str(" ");
    push_number(&mut text, rules);
    text.push_str("\n");
    text
}

fn drafted_text(assets: u64, rules: u64, widened: u64) -> EndText
    ensures { result.bytes ≡ drafted_text assets rules widened }
{
    let mut text = EndText::new();
    text.push_str("ok ");
    push_number(&mut text, assets);
    text.push_str(" ");
    push_number(&mut text, rules);
    text.push_str(" widened ");
    push_number(&mut text, widened);
    text.push_str("\n");
    text
}

fn policy_refused_text(refusal: &PolicyRefusal) -> EndText
    ensures { result.bytes ≡ codes "policy refused " ++ refusal_text refusal.now ++ codes "\n" }
{
    let mut text = EndText::new();
    text.push_str("policy refused ");
    push_refusal(&mut text, refusal);
    text.push_str("\n");
    text
}

/// The number of a refusal of a capture.
fn capture_number(refusal: CaptureRefusal) -> u64
    ensures { result ≡ capture_number refusal }
{
    match refusal {
        CaptureRefusal::Short => 1,
        CaptureRefusal::Magic => 2,
        CaptureRefusal::Version => 3,
        CaptureRefusal::LinkType => 4,
        CaptureRefusal::TooLong => 5,
        CaptureRefusal::Clock => 6,
        CaptureRefusal::Large => 7,
        CaptureRefusal::Long => 8,
        CaptureRefusal::Block => 9,
        CaptureRefusal::Section => 10,
        CaptureRefusal::Interface => 11,
        CaptureRefusal::Resolution => 12,
    }
}

/// Pushes a number after its word, as a line.
pub(crate) fn push_count(text: &mut EndText, word: &str, number: u64)
    requires { length text.old.bytes + (length word.now + 21) ≤ 384 }
    ensures text { text.new.bytes ≡ text.old.bytes ++ count_line word.now number }
    ensures short { length text.new.bytes ≤ length text.old.bytes + (length word.now + 21) }
{
    text.push_str(word);
    push_number(text, number);
    text.push_str("\n");
}

/// Pushes what was counted, a line each.
fn push_summary(text: &mut EndText, summary: &Summary)
    requires { length text.old.bytes ≤ 64 }
    ensures { text.new.bytes ≡ text.old.bytes ++ summary_text summary.now }
{
    push_count(text, "records ", summary.records);
    push_count(text, "dropped ", summary.dropped);
    push_count(text, "outside ", summary.outside);
    push_count(text, "full ", summary.full);
    push_count(text, "sessions ", summary.sessions);
    push_count(text, "admitted ", summary.admitted);
    push_count(text, "refused ", summary.refused);
    push_count(text, "cuts ", summary.cuts);
}

fn counted_text(summary: &Summary) -> EndText
    ensures { result.bytes ≡ summary_text summary.now }
{
    let mut text = EndText::new();
    push_summary(&mut text, summary);
    text
}

fn run_cut_text(place: u64, summary: &Summary) -> EndText
    ensures { result.bytes ≡ codes "capture cut at " ++ decimal place ++ codes "\n" ++ summary_text summary.now }
{
    let mut text = numbered_line("capture cut at ", place);
    push_summary(&mut text, summary);
    text
}

/// A line that ends in a number.
fn numbered_line(words: &str, number: u64) -> EndText
    requires { length words.now ≤ 43 }
    ensures text { result.bytes ≡ words.now ++ decimal number ++ codes "\n" }
    ensures short { length result.bytes ≤ 64 }
{
    let mut text = EndText::new();
    text.push_str(words);
    push_number(&mut text, number);
    text.push_str("\n");
    text
}

fn cut_line(reason: &CutReason) -> EndText
    ensures { result.bytes ≡ codes "cut " ++ cut_text reason.now ++ codes "\n" }
{
    let mut text = EndText::new();
    text.push_str("cut ");
    push_cut(&mut text, reason);
    text.push_str("\n");
    text
}

/// A line that ends in the name of an asset.
fn named_line(words: &str, name: &AssetName) -> EndText
    requires { length words.now ≤ 64 }
    ensures { result.bytes ≡ words.now ++ name.now.bytes ++ codes "\n" }
{
    let mut text = EndText::new();
    text.push_str(words);
    text.push_str(name.as_str());
    text.push_str("\n");
    text
}

fn line(words: &str) -> EndText
    requires { length words.now ≤ 64 }
    ensures { result.bytes ≡ words.now }
{
    let mut text = EndText::new();
    text.push_str(words);
    text
}

fn unobjected_text(flows: u64, commands: u64) -> EndText
    ensures { result.bytes ≡ unobjected_text flows commands }
{
    let mut text = EndText::new();
    text.push_str("yes flows ");
    push_number(&mut text, flows);
    text.push_str(" commands ");
    push_number(&mut text, commands);
    text.push_str("\n");
    text
}

fn reviewed_text(counts: &Counts) -> EndText
    ensures { result.bytes ≡ reviewed_text counts.now }
{
    let mut text = EndText::new();
    push_reviewed(&mut text, counts);
    text
}

/// What is printed of work that was done; the lines of a listing were printed before.
fn done_text(done: &Done) -> Option<EndText>
    ensures { option_map (λ t. t.bytes) result ≡ done_text done.now }
{
    match done {
        Done::Sifted { admitted, refused } | Done::Relayed { admitted, refused } => {
            Some(commands_text(*admitted, *refused))
        }
        Done::Checked { assets, rules } => Some(checked_text(*assets, *rules)),
        Done::Drafted {
            assets,
            rules,
            widened,
        } => Some(drafted_text(*assets, *rules, *widened)),
        Done::Included => Some(line("included\n")),
        Done::Unobjected { flows, commands } => Some(unobjected_text(*flows, *commands)),
        Done::Listed { .. } => None,
        Done::Ran(summary) => Some(counted_text(summary)),
        Done::Reviewed(counts) => Some(reviewed_text(counts)),
    }
}

/// What is printed of a cause.
fn stop_text(stop: &Stop) -> Option<EndText>
    ensures { option_map (λ t. t.bytes) result ≡ stop_text stop.now }
{
    match stop {
        Stop::WriteFault | Stop::NoMemory => None,
        Stop::ReadFault => Some(line("read fault\n")),
        Stop::PolicyRefused(refusal) => Some(policy_refused_text(refusal)),
        Stop::CaptureRefused(refusal) => Some(numbered_line(
            "capture refused ",
            capture_number(*refusal),
        )),
        Stop::CaptureCut(place) => Some(numbered_line("capture cut at ", *place)),
        Stop::RunCut(place, summary) => Some(run_cut_text(*place, summary)),
        Stop::LinkFault => Some(line("link fault\n")),
        Stop::IdleEnd => Some(line("idle end\n")),
        Stop::UnknownAsset => Some(line("unknown asset\n")),
        Stop::Cut(reason) => Some(cut_line(reason)),
        Stop::Denied(denial) => Some(denial_line(denial)),
        Stop::TooManyRules(name) => Some(named_line("too many rules ", name)),
        Stop::TooManyCells(name) => Some(named_line("too many cells ", name)),
    }
}

fn end_text(ended: &Result<Done, Stop>) -> Option<EndText>
    ensures { option_map (λ t. t.bytes) result ≡ end_text ended.now }
{
    match ended {
        Ok(done) => done_text(done),
        Err(stop) => stop_text(stop),
    }
}

/// Puts a text, and answers the first status, or the second where the put failed.
pub fn put_text<O: Sink>(text: &str, put: u8, failed: u8, out: &mut O) -> u8
    ensures puts { Puts text.now put failed (sink_value O.Sink out.old) (sink_value O.Sink out.new) result }
    ensures later { O.faults out.old ≤ O.faults out.new }
{
    match out.put(text.as_bytes()) {
        WriteAnswer::Done => put,
        WriteAnswer::Failed => failed,
    }
}

/// Prints how a command ended, and answers its status. Takes no memory.
pub fn report<O: Sink>(ended: &Result<Done, Stop>, out: &mut O) -> u8
    ensures prints { Prints (end_text ended.now) (status_of ended.now) (unprinted_status ended.now) (sink_value O.Sink out.old)
        (sink_value O.Sink out.new) result }
    ensures later { O.faults out.old ≤ O.faults out.new }
{
    match end_text(ended) {
        None => status(ended),
        Some(text) => put_text(text.as_str(), status(ended), unprinted_status(ended), out),
    }
}
