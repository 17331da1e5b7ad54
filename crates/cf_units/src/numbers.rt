//! IEC 60870-5-104: the numbers of both legs.
ghost use Rattle.std.specs.Prelude.{◌≡◌, None};

use crate::sheet::{Sheet, call_in, parted};
use cf_renumber::{NumberRefusal, Numbers, RefusedStamp, Stamp};
use cf_view::Side;

/// What is told of a step: nothing, the numbers of a frame that goes on, those that a refused frame leaves, that of an S frame that goes on,
/// which sides may send, or that no step has this name.
#[derive(Clone, Copy)]
enum Told {
    Nothing,
    On(Stamp),
    Back(RefusedStamp),
    Ack(u16),
    Sides(bool, bool),
    Unknown,
}

type Answer = Result<Told, NumberRefusal>;

/// Plays lines of steps, each over new numbers, or over those of the line before where it begins with `then`. What is told of a line is
/// what its last step tells; the first refusal ends it.
pub fn play(sheet: &mut Sheet, lines: &str) {
    let Ok(mut numbers) = Numbers::new(sheet.alloc()) else {
        return sheet.refuse("memory ran out");
    };
    for line in lines.lines() {
        let (given, _) = call_in(line);
        let steps = match given.strip_prefix("then ") {
            Some(steps) => steps,
            None => {
                let Ok(new) = Numbers::new(sheet.alloc()) else {
                    return sheet.refuse("memory ran out");
                };
                numbers = new;
                given
            }
        };
        let answer = tell_steps(sheet, &mut numbers, steps);
        put_answer(sheet, answer);
        sheet.see(line);
    }
}

/// What the numbers tell of the last of some steps; the first refusal ends them.
fn tell_steps(sheet: &mut Sheet, numbers: &mut Numbers, steps: &str) -> Answer
    requires { numbers.old.owed ≡ None }
    ensures { numbers.new.owed ≡ None }
{
    let mut last = Told::Nothing;
    for step in steps.split(", ") {
        last = tell_step(sheet, numbers, step)?;
    }
    Ok(last)
}

/// What the numbers tell of the last frame of a step. `admit 0-4095 0` are frames from 0 to 4095; of N(R) `same` it is N(S).
fn tell_step(sheet: &mut Sheet, numbers: &mut Numbers, step: &str) -> Answer
    requires { numbers.old.owed ≡ None }
    ensures { numbers.new.owed ≡ None }
{
    let (call, rest) = parted(step);
    if rest.is_empty() {
        return Ok(tell_state(numbers, call));
    }
    let (sends, receives) = parted(rest);
    let (from, to) = sends.split_once('-').unwrap_or((sends, sends));
    let (from, to) = (sheet.word(from), sheet.word(to));
    let fixed = match receives {
        "" | "same" => None,
        _ => Some(sheet.word(receives)),
    };
    let mut last = Told::Nothing;
    for send in from..=to {
        last = tell_frame(numbers, call, send, fixed.unwrap_or(send))?;
    }
    Ok(last)
}

/// What the numbers tell of a step without a frame.
fn tell_state(numbers: &mut Numbers, call: &str) -> Told
    requires { numbers.old.owed ≡ None }
    ensures { numbers.new.owed ≡ None }
{
    match call {
        "start" => numbers.start(),
        "stop" => numbers.stop(),
        "sides" => {
            let client = numbers.may_send(Side::Client);
            return Told::Sides(client, numbers.may_send(Side::Controller));
        }
        _ => return Told::Unknown,
    }
    Told::Nothing
}

/// What the numbers tell of a frame: an I frame of the client by what becomes of it, one of the controller, or an S frame with N(R).
fn tell_frame(numbers: &mut Numbers, call: &str, send: u16, receive: u16) -> Answer
    requires { numbers.old.owed ≡ None }
    ensures { numbers.new.owed ≡ None }
{
    match call {
        "admit" | "mirror" | "drop" => tell_client(numbers, call, send, receive),
        "carry" => Ok(Told::On(numbers.from_controller(send, receive)?)),
        "client_ack" => Ok(Told::Ack(numbers.client_ack(send)?)),
        "controller_ack" => Ok(Told::Ack(numbers.controller_ack(send)?)),
        _ => Ok(Told::Unknown),
    }
}

/// What the numbers tell of a client's I frame.
fn tell_client(numbers: &mut Numbers, call: &str, send: u16, receive: u16) -> Answer
    requires { numbers.old.owed ≡ None }
    ensures { numbers.new.owed ≡ None }
{
    numbers.from_client(send, receive)?;
    if call == "admit" {
        return Ok(Told::On(numbers.admitted()));
    }
    Ok(Told::Back(numbers.refused(call == "mirror")))
}

fn put_answer(sheet: &mut Sheet, answer: Answer) {
    match answer {
        Ok(told) => put_told(sheet, &told),
        Err(NumberRefusal::WrongSend { expected, seen }) => {
            put_numbers(sheet, "wrong send", &[expected, seen]);
        }
        Err(NumberRefusal::WrongReceive { low, high, seen }) => {
            put_numbers(sheet, "wrong receive", &[low, high, seen]);
        }
        Err(NumberRefusal::Outstanding) => sheet.put("outstanding"),
    }
}

fn put_told(sheet: &mut Sheet, told: &Told) {
    match told {
        Told::Nothing => sheet.put("no frame"),
        Told::On(stamp) => put_numbers(sheet, "on", &[stamp.send, stamp.receive]),
        Told::Back(left) => put_left(sheet, left),
        Told::Ack(receive) => put_numbers(sheet, "ack", &[*receive]),
        Told::Sides(client, controller) => sheet.put(sides_word(*client, *controller)),
        Told::Unknown => sheet.put("no step of that name"),
    }
}

/// Puts what a refused frame leaves: a mirror with its numbers, an S frame with its own, both or nothing.
fn put_left(sheet: &mut Sheet, left: &RefusedStamp) {
    match (left.reply, left.ack) {
        (Some(reply), Some(ack)) => put_numbers(
            sheet,
            "mirror and S",
            &[reply.send, reply.receive, ack],
        ),
        (Some(reply), None) => put_numbers(sheet, "mirror", &[reply.send, reply.receive]),
        (None, Some(ack)) => put_numbers(sheet, "S", &[ack]),
        (None, None) => sheet.put("nothing"),
    }
}

fn put_numbers(sheet: &mut Sheet, words: &str, numbers: &[u16]) {
    sheet.put(words);
    for number in numbers {
        sheet.put_number(" ", u64::from(*number));
    }
}

fn sides_word(client: bool, controller: bool) -> &'static str {
    match (client, controller) {
        (true, true) => "both",
        (true, false) => "client",
        (false, true) => "controller",
        (false, false) => "none",
    }
}
