//! Numbers of 15 bits.
ghost use Rattle.std.specs.Prelude.{◌≡◌, ℕ, ◌+◌, ◌-◌, ◌%◌, ◌<◌, ◌≤◌, MatchResult, None, Some};
ghost use Rattle.cf_renumber.specs.Counts.{count_from, send_refusal, receive_refusal};

use crate::answer::NumberRefusal;

/// Numbers count modulo 32,768. IEC 60870-5-104, section 5.1.
const MODULUS: u16 = 32_768;

/// The number of the count after this one.
pub fn next(number: u16) -> u16
    requires { number < 32768 }
    ensures { result ≡ (number + 1) % 32768 }
{
    (number + 1) % MODULUS
}

/// The number of the count that is `less` below.
pub fn before(number: u16, less: u16) -> u16
    requires number { number < 32768 }
    requires less { less ≤ 32768 }
    ensures value { result ≡ (number + 32768 - less) % 32768 }
    ensures small { result < 32768 }
    ensures count { (count : ℕ) → number ≡ count % 32768 → less ≤ count → result ≡ (count - less) % 32768 }
{
    (number + (MODULUS - less)) % MODULUS
}

/// Whether a frame's N(S) is that of the count of frames before it.
pub fn check_send(expected: u16, seen: u16) -> Result<(), NumberRefusal>
    ensures { (count : ℕ) → expected ≡ count % 32768 →
        MatchResult result (λ _. send_refusal count seen ≡ None) (λ e. send_refusal count seen ≡ Some e) }
{
    if seen != expected {
        return Err(NumberRefusal::WrongSend { expected, seen });
    }
    Ok(())
}

/// How many frames an N(R) acknowledges anew, where `high` is the number of the last count and `unacked` frames were not
/// acknowledged.
pub fn check_receive(high: u16, unacked: u16, seen: u16) -> Result<u16, NumberRefusal>
    requires high { high < 32768 }
    requires unacked { unacked ≤ 4096 }
    ensures within { MatchResult result (λ n. n ≤ unacked) (λ e. Unit {0}) }
    ensures answer { (from to : ℕ) → high ≡ to % 32768 → from ≤ to → unacked ≡ to - from →
        MatchResult result (λ n. (receive_refusal from to seen ≡ None)
        × (count_from from seen ≡ from + n)) (λ e. receive_refusal from to seen ≡ Some e) }
{
    let low = before(high, unacked);
    if seen < MODULUS {
        let anew = before(seen, low);
        if anew <= unacked {
            return Ok(anew);
        }
    }
    Err(NumberRefusal::WrongReceive { low, high, seen })
}
