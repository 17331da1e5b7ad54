//! What a host says at once.

use arrayvec::ArrayVec;
use cf_view::push_bytes;

/// How many octets a host says at once at most.
const LONGEST: usize = 64;

/// What a host says at once, one unit of its protocol.
pub(crate) type Message = ArrayVec<u8, 64>;

/// A message of these octets, or of the first 64.
pub(crate) fn message(octets: &[u8]) -> Message {
    let mut message = ArrayVec::new();
    push_bytes(&mut message, &octets[..octets.len().min(LONGEST)]);
    message
}

/// The octets with all bits inverted.
pub(crate) fn inverted(octets: &[u8]) -> Message {
    let mut inverted = message(octets);
    for octet in inverted.as_mut_slice() {
        *octet = !*octet;
    }
    inverted
}
