//! Enhanced packets: their time.
ghost use Rattle.std.specs.Prelude.{◌≡◌, ◌≤◌};
ghost use Rattle.cf_pcapng.specs.Time.{stamp_of};

/// The time of so many units of 10 to the power of −`resolution` seconds, in microseconds: rounded down, and at most
/// 2^64 − 1.
pub(crate) fn stamp(resolution: u8, ticks: u64) -> u64
    requires { resolution ≤ 9 }
    ensures { result ≡ stamp_of resolution ticks }
{
    match resolution {
        0 => ticks.saturating_mul(1_000_000),
        1 => ticks.saturating_mul(100_000),
        2 => ticks.saturating_mul(10_000),
        3 => ticks.saturating_mul(1_000),
        4 => ticks.saturating_mul(100),
        5 => ticks.saturating_mul(10),
        6 => ticks,
        7 => ticks / 10,
        8 => ticks / 100,
        _ => ticks / 1_000,
    }
}
