//! A fragment in segments.
ghost use Rattle.std.specs.Prelude.{◌≡◌, ◌<◌, ◌≤◌};
ghost use Rattle.cf_dnptrans.specs.Segments.{count_of, octet_of};

use crate::octet::{FIN, FIR};

/// The most application octets of a segment. IEEE 1815-2012, section 8.2.
const OCTETS: usize = 249;

/// The number of segments of a fragment of `len` octets: all but the last have 249 of them.
pub fn segment_count(len: usize) -> usize
    requires { len ≤ 2056 }
    ensures { result ≡ count_of len }
{
    len.div_ceil(OCTETS)
}

/// The first octet of segment `i`, counted from 0, of a fragment of `len` octets, where `seq` is the sequence of that segment.
/// After it stand octets 249 i and on of the fragment, at most 249.
pub fn segment_octet(len: usize, i: usize, seq: u8) -> u8
    requires len { len ≤ 2056 }
    requires inside { i < count_of len }
    requires seq { seq < 64 }
    ensures { result ≡ octet_of len i seq }
{
    let last = if i + 1 == segment_count(len) { FIN } else { 0 };
    let first = if i == 0 { FIR } else { 0 };
    last + first + seq
}
