//! Lines of the log: each form, each reason, each cause of a drop and each cut.
use arrayvec::ArrayString;
use cf_audit::{CutReason, Line, NAME_LIMIT, What, Why, write_line};
use cf_samples::CLIENT;
use cf_samples::rows::octets;
use cf_view::{Act, Break, Reason, Side, View};
use std::alloc::Global;
use std::test::Fail;

/// A row: what happened to a client of `pump`, and its line after the moment, the client and the asset. A refusal gives the rule, the
/// reason, the value of a write to point 40 (`-` for none), whether it was answered, and the octets of the command.
pub(super) const ROWS: &str = "Refuse set Value 501 answered ab*12
refuse set value code 6 group 0 point 40 value 501 replied abababababababababababab

Refuse default Point - silent ab*16
refuse default point code 6 group 0 point 40 value - unanswered abababababababababababababababab

Refuse form Function -1 answered ab*17
refuse form function code 6 group 0 point 40 value -1 replied abababababababababababababababab

Refuse a-rule-whose-name-has-32-bytes_0 Station 0 answered
refuse a-rule-whose-name-has-32-bytes_0 station code 6 group 0 point 40 value 0 replied

Begun
open

Close 11 0
close admitted 11 refused 0

Partial Client 3
partial client 3

Partial Controller 18446744073709551615
partial controller 18446744073709551615

Stray Client Address
stray client address

Stray Client Direction
stray client direction

Stray Client Code
stray client code

Stray Client Empty
stray client empty

Stray Client NoFirst
stray client first

Stray Client Order
stray client order

Stray Client TooLong
stray client long

Stray Client Short
stray client short

Framing Client Protocol
cut client protocol

Framing Client Length
cut client length

Framing Controller Start
cut controller start

Framing Controller FrameLength
cut controller framelength

Framing Client HeaderCrc
cut client headercrc

Framing Client BlockCrc
cut client blockcrc

Framing Client ApduStart
cut client apdustart

Framing Client ApduLength
cut client apdulength

Framing Client Control
cut client control

WrongSend Client 0 1
cut client send 0 1

WrongReceive Controller 1 2 32767
cut controller receive 1 2 32767

Outstanding Client
cut client outstanding

NotStarted Controller
cut controller notstarted

StreamLength Client
cut client long

NoAnswer Controller
cut controller noanswer

ResetByClient
cut client reset

ResetByController
cut controller reset";

fn word(given: &str, place: usize) -> &str {
    given.split(' ').nth(place).unwrap_or("")
}

/// A number of a row, 0 where there is none.
fn number(given: &str, place: usize) -> u64 {
    word(given, place).parse::<u64>().unwrap_or(0)
}

fn small(given: &str, place: usize) -> u16 {
    word(given, place).parse::<u16>().unwrap_or(0)
}

/// The line of what happened, after its moment, client and asset, which are always the same.
pub(super) fn line(alloc: Global, given: &str) -> Result<String, Fail> {
    let unit = octets(alloc, word(given, 5))?;
    let what = what(given, &unit);
    if let What::Refuse { rule, .. } | What::Admit { rule, .. } = &what {
        if rule.len() > NAME_LIMIT {
            return Err("the name is too long".into());
        }
    }
    let mut out = ArrayString::<256>::new();
    write_line(
        &Line {
            moment: 1_270_000,
            client: CLIENT,
            asset: "pump",
            what,
        },
        &mut out,
    );
    let line = out.as_str();
    let rest = line.strip_prefix("1.270000 10.0.0.5:49152 pump ");
    match rest.unwrap_or("").strip_suffix('\n') {
        Some(rest) => Ok(String::from_str(alloc, rest.trim_end())?),
        None => Err("the line begins or ends otherwise".into()),
    }
}

fn what<'a>(given: &'a str, unit: &'a [u8]) -> What<'a> {
    match word(given, 0) {
        "Begun" => What::Begun,
        "Refuse" => What::Refuse {
            rule: word(given, 1),
            reason: reason(word(given, 2)),
            act: Act {
                code: 6,
                group: 0,
                point: 40,
                value: word(given, 3).parse::<i64>().ok(),
            },
            replied: word(given, 4) == "answered",
            unit: View::one(unit),
        },
        "Stray" => What::Stray {
            side: side(given),
            why: why(word(given, 2)),
        },
        "Partial" => What::Partial {
            side: side(given),
            count: number(given, 2),
        },
        "Close" => What::Close {
            admitted: number(given, 1),
            refused: number(given, 2),
        },
        _ => What::Cut(cut(given)),
    }
}

fn cut(given: &str) -> CutReason {
    let side = side(given);
    match word(given, 0) {
        "Framing" => CutReason::Framing(side, broken(word(given, 2))),
        "WrongSend" => CutReason::WrongSend(side, small(given, 2), small(given, 3)),
        "WrongReceive" => CutReason::WrongReceive(
            side,
            small(given, 2),
            small(given, 3),
            small(given, 4),
        ),
        "Outstanding" => CutReason::Outstanding(side),
        "NotStarted" => CutReason::NotStarted(side),
        "StreamLength" => CutReason::StreamLength(side),
        "NoAnswer" => CutReason::NoAnswer(side),
        "ResetByClient" => CutReason::ResetByClient,
        _ => CutReason::ResetByController,
    }
}

fn side(given: &str) -> Side {
    match word(given, 1) {
        "Client" => Side::Client,
        _ => Side::Controller,
    }
}

fn reason(name: &str) -> Reason {
    match name {
        "Function" => Reason::Function,
        "Point" => Reason::Point,
        "Value" => Reason::Value,
        _ => Reason::Station,
    }
}

fn why(name: &str) -> Why {
    match name {
        "Address" => Why::Address,
        "Direction" => Why::Direction,
        "Code" => Why::Code,
        "Empty" => Why::Empty,
        "NoFirst" => Why::NoFirst,
        "Order" => Why::Order,
        "TooLong" => Why::TooLong,
        _ => Why::Short,
    }
}

fn broken(name: &str) -> Break {
    match name {
        "Protocol" => Break::Protocol,
        "Length" => Break::Length,
        "Start" => Break::Start,
        "FrameLength" => Break::FrameLength,
        "HeaderCrc" => Break::HeaderCrc,
        "BlockCrc" => Break::BlockCrc,
        "ApduStart" => Break::ApduStart,
        "ApduLength" => Break::ApduLength,
        _ => Break::Control,
    }
}
