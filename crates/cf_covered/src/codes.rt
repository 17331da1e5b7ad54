//! The codes that a rule can have.
ghost use Rattle.std.specs.Prelude.{◌≡◌, ◌<◌, ◌&&◌, ℕ, int_le, not, pos, true};
ghost use Rattle.std.specs.List.{list_all};
ghost use Rattle.cf_policy.specs.Verdict.{is_empty, takes};

use cf_policy::{Items, Rule, Span};

/// One more than the highest code of a rule.
const CODES: u16 = 256;

/// One more than the highest code of Modbus and DNP3.
const LOW_CODES: u16 = 32;

/// A number above each code, up to 255, that a rule has: 32 where it states its codes and none is above 31, else 256.
pub fn code_end(rule: &Rule) -> u16
    ensures { (code : ℕ) → code < 256 → takes rule.now.codes (pos code) ≡ true → code < result }
{
    if are_low(&rule.codes) {
        LOW_CODES
    } else {
        CODES
    }
}

fn are_low(codes: &Items<Span>) -> bool
    ensures { result ≡ (not (is_empty codes.now) && list_all (λ s. int_le s.high (pos 31)) codes.now) }
{
    !codes.is_empty() && all_low(codes.as_slice())
}

fn all_low(codes: &[Span]) -> bool
    ensures { result ≡ list_all (λ s. int_le s.high (pos 31)) codes.now }
{
    codes.iter().all(|span| span.high <= 31)
}
