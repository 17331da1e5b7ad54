//! DNP3: fragments of clients, and responses to refused ones.

use crate::acts::{put_act, reason_of};
use crate::sheet::Sheet;
use arrayvec::ArrayVec;
use cf_dnpobj::{FragmentRefusal, act_at, act_count, read_fragment, reply_for, wants_reply};
use cf_view::{Reason, View};

/// How many acts a request has, and the last of them, so many as are wanted; that it is a confirmation; or why it is refused.
pub fn tell_fragment(sheet: &mut Sheet, shown: u32, first: &[u8], second: &[u8]) {
    match read_fragment(View::two(first, second)) {
        Err(refusal) => sheet.put(refusal_words(&refusal)),
        Ok(fragment) if fragment.code == 0 => sheet.put("confirmation"),
        Ok(fragment) if fragment.objects.len() > 2046 => sheet.put("longer than a fragment"),
        Ok(fragment) => {
            let count = act_count(&fragment);
            sheet.put_number("", u64::from(count));
            sheet.put(":");
            for i in count.saturating_sub(shown)..count {
                put_act(sheet, &act_at(&fragment, i));
            }
        }
    }
}

fn refusal_words(refusal: &FragmentRefusal) -> &'static str {
    match refusal {
        FragmentRefusal::Short => "short",
        FragmentRefusal::NotSingle => "not single",
        FragmentRefusal::Function => "function",
        FragmentRefusal::Object => "object",
        FragmentRefusal::Parameter => "parameter",
    }
}

/// The response to a request that is refused for a reason, put in place of what was there.
pub fn tell_response(sheet: &mut Sheet, word: &str, first: &[u8], second: &[u8]) {
    let request = View::two(first, second);
    match reason_of(word) {
        None | Some(Reason::Station) => sheet.put("no reason"),
        Some(_) if request.len() < 2 || request.len() > 2048 => sheet.put("no request"),
        Some(_) if !wants_reply(request.at(1)) => sheet.put("no response"),
        Some(reason) => {
            let mut out = ArrayVec::new();
            out.push(0x55);
            reply_for(request, &reason, &mut out);
            sheet.put_octets(out.as_slice());
        }
    }
}

/// Those of some function codes whose requests have no response.
pub fn tell_unanswered(sheet: &mut Sheet, first: &[u8], second: &[u8]) {
    for codes in [first, second] {
        for code in codes {
            if !wants_reply(*code) {
                sheet.put_octets(&[*code]);
            }
        }
    }
}
