//! Frames without their VLAN tags.
ghost use Rattle.std.specs.Prelude.{◌≡◌, ◌≤◌, IsTrue, length};
ghost use Rattle.cf_watch.specs.Tagged.{has_tag, has_tag_in_front, untagged, untagged_kind, without_tags};

use cf_view::{LinkKind, View};

/// The Ethernet type of a customer tag. IEEE 802.1Q-2018, section 9.5.
const CUSTOMER_TAG: u16 = 0x8100;
/// That of a service tag.
const SERVICE_TAG: u16 = 0x88A8;
/// How many octets a tag has.
const TAG: usize = 4;

/// The octets of a record without the VLAN tags of its frame, however many it has, of the kind that `untagged_kind` says: of a frame with
/// tags its octets from 4 further on for each, so that the type after the tags stands where the first tag's did. What then stands before it
/// are no addresses. IEEE 802.1Q-2018, section 9.
pub fn untagged<'a>(link: &LinkKind, octets: &'a [u8]) -> &'a [u8]
    ensures { result.now ≡ untagged link.now octets.now }
{
    match link {
        LinkKind::RawIp => octets,
        LinkKind::Ethernet => without_tags(octets, 12),
        LinkKind::LinuxCooked => without_tags(octets, 14),
        LinkKind::LinuxCooked2 => without_tag_in_front(octets),
    }
}

/// What stands before the packet in the octets that `untagged` gives.
pub fn untagged_kind(link: &LinkKind, octets: &[u8]) -> LinkKind
    ensures { result ≡ untagged_kind link.now octets.now }
{
    match link {
        LinkKind::LinuxCooked2 if has_tag_in_front(octets) => LinkKind::Ethernet,
        LinkKind::LinuxCooked2 => LinkKind::LinuxCooked2,
        LinkKind::RawIp => LinkKind::RawIp,
        LinkKind::Ethernet => LinkKind::Ethernet,
        LinkKind::LinuxCooked => LinkKind::LinuxCooked,
    }
}

/// A frame whose type stands in front: where it has tags, the Ethernet frame that ends as it does, without them.
fn without_tag_in_front(frame: &[u8]) -> &[u8]
    ensures { result.now ≡ untagged LinkKind.LinuxCooked2 frame.now }
{
    if has_tag_in_front(frame) {
        without_tags(&frame[10..], 12)
    } else {
        frame
    }
}

/// Whether the type of a frame stands in front and is that of a tag, behind which the next type is there.
fn has_tag_in_front(frame: &[u8]) -> bool
    ensures value { result ≡ has_tag_in_front frame.now }
    ensures long { IsTrue result → 24 ≤ length frame.now }
{
    has_tag(frame, 0) && frame.len() >= 24
}

/// A frame from 4 octets further on for each of its tags.
fn without_tags(frame: &[u8], type_at: usize) -> &[u8]
    requires behind { 12 ≤ type_at }
    requires near { type_at ≤ 14 }
    ensures { result.now ≡ without_tags type_at (length frame.now) frame.now }
{
    let mut at = 0;
    'tags: while has_tag(&frame[at..], type_at) {
        at += TAG;
    }
    &frame[at..]
}

/// Whether the type of a frame, at this place, is that of a tag.
fn has_tag(frame: &[u8], type_at: usize) -> bool
    requires { type_at ≤ 14 }
    ensures { result ≡ has_tag type_at frame.now }
{
    if frame.len() < type_at + 2 {
        return false;
    }
    let kind = View::one(frame).u16_be(type_at);
    kind == CUSTOMER_TAG || kind == SERVICE_TAG
}
