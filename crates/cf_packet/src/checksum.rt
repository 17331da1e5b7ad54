//! The Internet checksum. RFC 1071.
ghost use Rattle.std.specs.Prelude.{◌≡◌, ℕ, ◌+◌, ◌*◌, ◌<◌, ◌≤◌, List, length};
ghost use Rattle.cf_view.specs.Octets.{IsOctets, u32_be_at};
ghost use Rattle.cf_packet.specs.Checksum.{Gathers, is_right, ones_sum, total, words};

/// Whether octets with their checksum in them are right.
pub(crate) fn is_right(octets: &[u8]) -> bool
    requires { length octets.now ≤ 65535 }
    ensures { result ≡ is_right octets.now }
{
    folded(gathered(octets)) == 0xFFFF
}

/// The one's complement sum of the words from which a number was gathered.
#[tactic(auto, using(crate::proofs::Sums::folded_laws))]
pub(crate) fn folded(sum: u64) -> u16
    ensures { (octets : List ℕ) → IsOctets octets → Gathers sum octets → result ≡ ones_sum (words octets) }
{
    match sum {
        0 => 0,
        _ => ((sum - 1) % 65_535 + 1) as u16,
    }
}

/// The sum of the words, with carries in it that `folded` adds. It goes on by eight octets, as two numbers of 32 bits,
/// since 2^16 is 1 in sums that add their carry.
#[tactic(auto, using(crate::proofs::Sums::gathered_laws))]
pub(crate) fn gathered(octets: &[u8]) -> u64
    requires { length octets.now ≤ 65535 }
    ensures gathers { Gathers result octets.now }
    ensures octets { IsOctets octets.now }
    ensures small { result ≤ length octets.now * 1073741824 }
{
    let mut sum = 0;
    let mut at = 0;
    while octets.len() - at >= 8 {
        sum += four(octets, at) + four(octets, at + 4);
        at += 8;
    }
    sum + rest(&octets[at..])
}

/// The sum of the words of a few octets.
#[tactic(auto, using(crate::proofs::Sums::rest_laws))]
fn rest(octets: &[u8]) -> u64
    requires { length octets.now < 8 }
    ensures value { result ≡ total (words octets.now) }
    ensures small { result ≤ length octets.now * 65536 }
{
    let mut sum = 0;
    let mut at = 0;
    while octets.len() - at >= 2 {
        sum += u64::from(octets[at]) * 256 + u64::from(octets[at + 1]);
        at += 2;
    }
    if at < octets.len() {
        sum += u64::from(octets[at]) * 256;
    }
    sum
}

/// The number of the four octets at a place, the high one first.
fn four(octets: &[u8], at: usize) -> u64
    requires { at + 4 ≤ length octets.now }
    ensures value { result ≡ u32_be_at octets.now at }
    ensures octets { IsOctets octets.now }
{
    let high = u64::from(octets[at]) * 256 + u64::from(octets[at + 1]);
    let low = u64::from(octets[at + 2]) * 256 + u64::from(octets[at + 3]);
    high * 65_536 + low
}
