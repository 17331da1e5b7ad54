//! The options of a TCP header. RFC 9293, section 3.1.
ghost use Rattle.std.specs.Prelude.{◌≡◌, ◌≤◌, IfSome, drop, length};
ghost use Rattle.cf_packet.specs.Tcp.{is_mss, mss_of, option_length};

use cf_view::View;

/// The maximum segment size that options state, if they do: the first one counts.
#[tactic(auto, using(crate::proofs::Mss::mss_laws))]
pub(crate) fn mss_in(options: &[u8]) -> Option<u16>
    ensures { result ≡ mss_of options.now }
{
    let mut rest = options;
    'options: while let Some(size) = option_length(rest) {
        if is_mss(size, rest) {
            return Some(View::one(rest).u16_be(2));
        }
        rest = behind(size, rest);
    }
    None
}

/// Whether the option of this length that begins the octets is a maximum segment size.
fn is_mss(size: usize, octets: &[u8]) -> bool
    requires { 1 ≤ length octets.now }
    ensures { result ≡ is_mss size octets.now }
{
    octets[0] == 2 && size == 4
}

/// What stands after the first octets.
fn behind<'a>(size: usize, octets: &'a [u8]) -> &'a [u8]
    requires { size ≤ length octets.now }
    ensures { result.now ≡ drop size octets.now }
{
    &octets[size..]
}

/// The length of the option that begins the octets, if one does.
fn option_length(octets: &[u8]) -> Option<usize>
    ensures value { result ≡ option_length octets.now }
    ensures inside { IfSome result (λ size. size ≤ length octets.now) }
    ensures some { IfSome result (λ size. 1 ≤ size) }
{
    if octets.is_empty() || octets[0] == 0 {
        return None;
    }
    if octets[0] == 1 {
        return Some(1);
    }
    if octets.len() < 2 {
        return None;
    }
    let size = usize::from(octets[1]);
    if size < 2 || octets.len() < size {
        return None;
    }
    Some(size)
}
