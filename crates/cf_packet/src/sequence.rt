//! Places of sequence numbers in a stream.
ghost use Rattle.std.specs.Prelude.{◌≡◌, ◌+◌, ◌^◌, ◌≤◌, pos, ◌+ℤ◌, ◌-ℤ◌, ◌≤ℤ◌, ◌<ℤ◌};
ghost use Rattle.cf_stream.specs.Position.{place_or_zero, position, sequence_number};

/// The sequence number of the letter at a place of a stream whose SYN has the number `origin`. RFC 9293, section 3.4.
pub fn sequence_number(origin: u32, place: u64) -> u32
    requires { place ≤ 2 ^ 32 }
    ensures { result ≡ sequence_number origin place }
{
    ((u64::from(origin) + 1 + place) % (1 << 32)) as u32
}

/// The place of a sequence number that is nearest to a base from 0 to 2^31: the place 0 is that of the octet after the
/// origin, which is the number of the SYN. Sequence numbers go round at 2^32; places do not, and those before the first
/// octet are negative. RFC 9293, section 3.4; the reading near a base is this project's own.
pub fn position(seq: u32, origin: u32, base: i64) -> i64
    requires low { pos 0 ≤ℤ base }
    requires high { base ≤ℤ pos (2 ^ 31) }
    ensures value { result ≡ position seq origin (place_or_zero base) }
    ensures from { (base -ℤ pos (2 ^ 31)) ≤ℤ result }
    ensures to { result <ℤ (base +ℤ pos (2 ^ 31)) }
{
    let distance = seq.wrapping_sub(sequence_number(origin, base as u64));
    if distance < 1 << 31 {
        base + i64::from(distance)
    } else {
        base + i64::from(distance) - (1 << 32)
    }
}
