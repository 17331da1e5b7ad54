//! The first octet of a segment.
ghost use Rattle.std.specs.Prelude.{◌≡◌, ◌/◌, ◌%◌, ◌==◌, nat_le};

/// FIN: the segment is a fragment's last. IEEE 1815-2012, section 8.2.1.
pub const FIN: u8 = 0x80;
/// FIR: the segment is a fragment's first. IEEE 1815-2012, section 8.2.
pub const FIR: u8 = 0x40;
/// Sequences count modulo 64. IEEE 1815-2012, section 8.2.
pub const MODULUS: u8 = 64;

/// Whether FIN is set.
pub fn is_final(octet: u8) -> bool
    ensures { result ≡ nat_le 128 octet }
{
    octet >= FIN
}

/// Whether FIR is set.
pub fn is_first(octet: u8) -> bool
    ensures { result ≡ (octet / 64 % 2 == 1) }
{
    octet / FIR % 2 == 1
}

/// The six bits of the sequence.
pub fn sequence(octet: u8) -> u8
    ensures { result ≡ octet % 64 }
{
    octet % MODULUS
}
