//! Where the acts of a request stand, so that one of many is found without a walk over all headers before it.
ghost use Rattle.std.specs.Prelude.{◌≡◌, ◌≢◌, ◌+◌, ◌<◌, ◌≤◌, ℕ, length, slice_get, Some};
ghost use Rattle.cf_dnpobj.specs.Acts.{acts, AreMarks, IsMark};
ghost use Rattle.cf_dnpobj.specs.Fragment.{fragment_value};

use crate::acts::{act_at, find_from, header_count, plain_act};
use crate::fragment::Fragment;
use crate::header::first_header;
use cf_view::{Act, View};

/// Each so many acts there is a mark.
const STEP: usize = 16;

/// How many marks there are: 704 acts lie before the last one's end, and a fragment of 2,048 octets has 682 at most.
const MARKS: usize = 44;

/// Where an act stands: behind the headers that end at a place, and after so many of the acts that follow.
#[derive(Clone, Copy)]
pub struct Mark {
    /// The place in the octets of the headers.
    pub at: usize,
    /// How many acts stand between that place and the act.
    pub left: usize,
}

/// Where each sixteenth act of a request stands.
pub fn marks_of(fragment: &Fragment<'_>) -> [Mark; MARKS]
    ensures { AreMarks (fragment_value fragment.now) result }
{
    let mut marks = [Mark { at: 0, left: 0 }; MARKS];
    let mut mark = Mark { at: 0, left: 0 };
    for number in 0..MARKS {
        marks[number] = mark;
        mark = later_mark(fragment.code, &fragment.objects, mark);
    }
    marks
}

/// Where the sixteenth act after one stands.
fn later_mark(code: u8, objects: &View<'_>, mark: Mark) -> Mark
    requires inside { mark.at ≤ length objects.now.bytes }
    requires small { mark.left ≤ 704 }
    ensures { (i : ℕ) → IsMark code objects.now.bytes i mark → IsMark code objects.now.bytes (i + 16) result }
{
    let len = objects.len();
    let mut at = mark.at;
    let mut left = mark.left + STEP;
    while at < len {
        let Ok(header) = first_header(code, &objects.sub(at, len)) else {
            return Mark { at, left };
        };
        let count = header_count(code, &header);
        if left < count {
            return Mark { at, left };
        }
        left -= count;
        at += header.len();
    }
    Mark { at, left }
}

/// What `act_at` answers, by marks of the request.
pub fn act_by(fragment: &Fragment<'_>, marks: &[Mark; MARKS], i: u32) -> Act
    requires code { fragment.now.code ≢ 0 }
    requires marks { AreMarks (fragment_value fragment.now) marks.now }
    requires inside { i < length (acts (fragment_value fragment.now)) }
    ensures { slice_get (acts (fragment_value fragment.now)) i ≡ Some result }
{
    let number = i as usize / STEP;
    if number >= MARKS {
        return act_at(fragment, i);
    }
    if fragment.objects.is_empty() {
        return plain_act(fragment.code, 0);
    }
    let mark = marks[number];
    find_from(
        fragment.code,
        &fragment.objects,
        mark.at,
        mark.left + i as usize % STEP,
    )
    .unwrap()
}
