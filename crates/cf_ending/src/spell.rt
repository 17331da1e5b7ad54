//! Texts spelled from their end to their front, so that a number needs no room of its own first.
ghost use Rattle.std.specs.Prelude.{◌≡◌, ◌+◌, ◌<◌, ◌≤◌, ◌++◌, codes, decimal, drop, length};
ghost use Rattle.cf_view.specs.Text.{dotted, endpoint_text, moment_text, six_digits};

use cf_view::Endpoint;
use itoa::write_digits;

/// Spells a text so that it ends at a place, and answers where it begins.
#[inline]
#[tactic(auto, using(crate::proofs::Spelled::spelled))]
pub(crate) fn spell_text(text: &str, out: &mut [u8], end: usize) -> usize
    requires room { (length text.now ≤ end) × (end ≤ length out.old) }
    ensures written { drop result out.new ≡ text.now ++ drop end out.old }
    ensures start { result + length text.now ≡ end }
    ensures length { length out.new ≡ length out.old }
{
    let start = end - text.len();
    out[start..end].copy_from_slice(text.as_bytes());
    start
}

/// Spells a decimal number, of at most 20 digits.
#[inline]
#[tactic(auto, using(crate::proofs::Spelled::long))]
pub(crate) fn spell_number(n: u64, out: &mut [u8], end: usize) -> usize
    requires room { (20 ≤ end) × (end ≤ length out.old) }
    ensures written { drop result out.new ≡ decimal n ++ drop end out.old }
    ensures near { (result ≤ end) × (end ≤ result + 20) }
    ensures length { length out.new ≡ length out.old }
{
    write_digits(n, out, end)
}

/// Spells a decimal number of at most 32 bits.
#[inline]
#[tactic(auto, using(crate::proofs::Spelled::middling))]
pub(crate) fn spell_u32(n: u32, out: &mut [u8], end: usize) -> usize
    requires room { (10 ≤ end) × (end ≤ length out.old) }
    ensures written { drop result out.new ≡ decimal n ++ drop end out.old }
    ensures near { (result ≤ end) × (end ≤ result + 10) }
    ensures length { length out.new ≡ length out.old }
{
    write_digits(u64::from(n), out, end)
}

/// Spells a decimal number of at most 16 bits.
#[inline]
#[tactic(auto, using(crate::proofs::Spelled::short))]
pub(crate) fn spell_u16(n: u16, out: &mut [u8], end: usize) -> usize
    requires room { (5 ≤ end) × (end ≤ length out.old) }
    ensures written { drop result out.new ≡ decimal n ++ drop end out.old }
    ensures near { (result ≤ end) × (end ≤ result + 5) }
    ensures length { length out.new ≡ length out.old }
{
    write_digits(u64::from(n), out, end)
}

/// Spells one number of a dotted address.
#[inline]
#[tactic(auto, using(crate::proofs::Spelled::octet))]
fn spell_octet(n: u32, out: &mut [u8], end: usize) -> usize
    requires room { (3 ≤ end) × (end ≤ length out.old) }
    requires octet { n < 256 }
    ensures written { drop result out.new ≡ decimal n ++ drop end out.old }
    ensures near { (result ≤ end) × (end ≤ result + 3) }
    ensures length { length out.new ≡ length out.old }
{
    write_digits(u64::from(n), out, end)
}

/// Spells a point and a number below a million by its six digits.
#[inline]
#[tactic(auto, using(crate::proofs::Spelled::seven))]
fn spell_fraction(n: u64, out: &mut [u8], end: usize) -> usize
    requires room { (7 ≤ end) × (end ≤ length out.old) }
    requires below { n < 1000000 }
    ensures written { drop result out.new ≡ codes "." ++ six_digits n ++ drop end out.old }
    ensures start { result + 7 ≡ end }
    ensures length { length out.new ≡ length out.old }
{
    // Seven digits, the first of which makes place for the point.
    let start = write_digits(1_000_000 + n, out, end);
    out[start] = b'.';
    start
}

/// Spells a moment in microseconds as seconds, a point and six digits.
#[inline]
pub(crate) fn spell_moment(moment: u64, out: &mut [u8], end: usize) -> usize
    requires room { (27 ≤ end) × (end ≤ length out.old) }
    ensures written { drop result out.new ≡ moment_text moment ++ drop end out.old }
    ensures near { (result ≤ end) × (end ≤ result + 27) }
    ensures length { length out.new ≡ length out.old }
{
    let at = spell_fraction(moment % 1_000_000, out, end);
    spell_number(moment / 1_000_000, out, at)
}

/// Spells an IPv4 address in its dotted form.
#[inline]
fn spell_address(address: u32, out: &mut [u8], end: usize) -> usize
    requires room { (15 ≤ end) × (end ≤ length out.old) }
    ensures written { drop result out.new ≡ dotted address ++ drop end out.old }
    ensures near { (result ≤ end) × (end ≤ result + 15) }
    ensures length { length out.new ≡ length out.old }
{
    let at = spell_octet(address % 256, out, end);
    let at = spell_text(".", out, at);
    let at = spell_octet(address / 256 % 256, out, at);
    let at = spell_text(".", out, at);
    let at = spell_octet(address / 65_536 % 256, out, at);
    let at = spell_text(".", out, at);
    spell_octet(address / 16_777_216, out, at)
}

/// Spells an endpoint: its address, a colon and its port.
#[inline]
pub(crate) fn spell_endpoint(endpoint: &Endpoint, out: &mut [u8], end: usize) -> usize
    requires room { (21 ≤ end) × (end ≤ length out.old) }
    ensures written { drop result out.new ≡ endpoint_text endpoint.now ++ drop end out.old }
    ensures near { (result ≤ end) × (end ≤ result + 21) }
    ensures length { length out.new ≡ length out.old }
{
    let at = spell_u16(endpoint.port, out, end);
    let at = spell_text(":", out, at);
    spell_address(endpoint.address, out, at)
}
