//! Replies to refused requests.
ghost use Rattle.std.specs.Prelude.{◌≡◌, ◌≢◌, ◌≤◌, ◌<◌, ◌+◌, ◌++◌, ℕ, List, length, slice_index, Ok, true};
ghost use Rattle.std.specs.List.{flat_map};
ghost use Rattle.arrayvec.specs.ArrayVec.{array_vec_len};
ghost use Rattle.cf_dnpobj.specs.Objects.{is_command};
ghost use Rattle.cf_dnpobj.specs.Headers.{headers_in, IsHeader};
ghost use Rattle.cf_dnpobj.specs.Fragment.{wants_reply};
ghost use Rattle.cf_dnpobj.specs.Reply.{reply, indication_of, answers_objects, refused, refused_octet, is_status};

use crate::acts::each;
use crate::fragment::{Fragment, read_fragment};
use crate::function::{
    CONFIRM, DIRECT_OPERATE_UNANSWERED, FREEZE_CLEAR_UNANSWERED, FREEZE_UNANSWERED, RESPONSE,
    SINGLE,
};
use crate::header::first_header;
use crate::object::range_size;
use arrayvec::ArrayVec;
use cf_view::{Reason, View};

/// The status of a control that is not authorized. IEEE 1815-2012, annex A, group 12.
const NOT_AUTHORIZED: u8 = 9;

/// Whether a refused request with this code is answered: all but confirm, and the direct operate and the freezes without reply.
pub fn wants_reply(code: u8) -> bool
    ensures { result ≡ wants_reply code }
{
    !(code == CONFIRM
        || code == DIRECT_OPERATE_UNANSWERED
        || code == FREEZE_UNANSWERED
        || code == FREEZE_CLEAR_UNANSWERED)
}

/// Replaces the contents of `out` by the reply to a refused request of 2 to 2,048 octets: a response with its sequence. Where a
/// select, an operate or a direct operate is well formed, its objects follow with their status 09; else the second octet of the
/// internal indications tells the reason, 01 function, 02 point, 04 value. This project's own choice of bits.
pub fn reply_for(octets: View<'_>, reason: &Reason, out: &mut ArrayVec<u8, 2056>)
    requires at_least { 2 ≤ length octets.bytes }
    requires at_most { length octets.bytes ≤ 2048 }
    requires wanted { wants_reply (slice_index octets.bytes 1) ≡ true }
    requires reason { reason.now ≢ Reason.Station }
    ensures { out.new.items ≡ reply octets.entry.bytes reason.now }
{
    out.clear();
    out.push(SINGLE + octets.at(0) % 16);
    out.push(RESPONSE);
    out.push(0);
    match read_fragment(octets) {
        Ok(fragment) if answers_objects(fragment.code) => {
            out.push(0);
            push_refused(out, fragment.code, &fragment.objects);
        }
        _ => out.push(indication_of(reason)),
    }
}

/// Select, operate and direct operate.
fn answers_objects(code: u8) -> bool
    ensures { result ≡ answers_objects code }
{
    code >= 3 && code <= 5
}

/// The second octet of internal indications.
fn indication_of(reason: &Reason) -> u8
    ensures { result ≡ indication_of reason.now }
{
    match reason {
        Reason::Function => 0x01,
        Reason::Point => 0x02,
        Reason::Value => 0x04,
        Reason::Station => 0x00,
    }
}

/// Appends the headers of a command with their objects, each with its status 09.
fn push_refused(out: &mut ArrayVec<u8, 2056>, code: u8, objects: &View<'_>)
    requires command { is_command code ≡ true }
    requires room { array_vec_len out.old + length objects.now.bytes ≤ 2056 }
    ensures { (headers : List (List ℕ)) → headers_in code objects.now.bytes ≡ Ok headers
        → out.new.items ≡ out.old.items ++ flat_map (refused code) headers }
{
    let len = objects.len();
    let mut at = 0;
    while at < len {
        let Ok(header) = first_header(code, &objects.sub(at, len)) else {
            return;
        };
        push_refused_header(out, code, &header);
        at += header.len();
    }
}

/// Appends a header of a command with its objects, each with its status 09.
fn push_refused_header(out: &mut ArrayVec<u8, 2056>, code: u8, header: &View<'_>)
    requires header { IsHeader code header.now.bytes }
    requires command { is_command code ≡ true }
    requires room { array_vec_len out.old + length header.now.bytes ≤ 2056 }
    ensures items { out.new.items ≡ out.old.items ++ refused code header.now.bytes }
    ensures len { array_vec_len out.new ≡ array_vec_len out.old + length header.now.bytes }
{
    for place in 0..header.len() {
        out.push(refused_octet(code, header, place));
    }
}

/// The octet at a place of a command's header, where the status of each object is 09.
fn refused_octet(code: u8, header: &View<'_>, place: usize) -> u8
    requires header { IsHeader code header.now.bytes }
    requires command { is_command code ≡ true }
    requires inside { place < length header.now.bytes }
    ensures { result ≡ refused_octet code header.now.bytes place }
{
    if is_status(code, header, place) {
        return NOT_AUTHORIZED;
    }
    header.at(place)
}

/// Whether the status of an object stands at a place of a command's header.
fn is_status(code: u8, header: &View<'_>, place: usize) -> bool
    requires header { IsHeader code header.now.bytes }
    requires command { is_command code ≡ true }
    ensures { result ≡ is_status code header.now.bytes place }
{
    let objects = 3 + range_size(header.at(2));
    let each = each(code, header);
    place >= objects && (place - objects) % each == each - 1
}
