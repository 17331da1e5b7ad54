//! A client's fragment.
ghost use Rattle.std.specs.Prelude.{◌≡◌, ◌↔◌, ℕ, List, IfOk, Ok, drop, slice_index};
ghost use Rattle.cf_dnpobj.specs.Fragment.{FragmentValue, SpellsRequest, fragment_answer, read_octets, takes_headers};

use crate::function::{CONFIRM, SINGLE};
use crate::header::count_headers;
use crate::object::{is_command, is_function, is_write};
use cf_view::View;

/// A request of one fragment. IEEE 1815-2012, section 4.2.
#[derive(Drop)]
pub struct Fragment<'a> {
    /// The application control octet: FIR 80, FIN 40, CON 20, UNS 10, and the sequence in its low four bits.
    pub control: u8,
    /// The function code.
    pub code: u8,
    /// The object headers with their objects.
    pub objects: View<'a>,
}

/// Why octets are no request that is served. They are tested in this order. This project's own division.
#[derive(Clone, Copy)]
pub enum FragmentRefusal {
    /// There are fewer than two octets.
    Short,
    /// FIR or FIN is clear.
    NotSingle,
    /// The function code is none of those served.
    Function,
    /// The group and variation of a header are none that the code takes.
    Object,
    /// A header has a qualifier that its objects do not take, a start above its stop or a count of 0; a header, its range or its
    /// objects are cut off; a confirmation has a header, a write or a command has none.
    Parameter,
}

/// The request that the octets are, or the first reason why they are none. Of the headers the first fault decides.
pub fn read_fragment<'a>(octets: View<'a>) -> Result<Fragment<'a>, FragmentRefusal>
    ensures answer { fragment_answer result ≡ read_octets octets.entry.bytes }
    ensures parts { IfOk result (λ f. (f.control ≡ slice_index octets.entry.bytes 0) × (f.code ≡ slice_index octets.entry.bytes 1)
        × (f.objects.bytes ≡ drop 2 octets.entry.bytes)) }
{
    let len = octets.len();
    if len < 2 {
        return Err(FragmentRefusal::Short);
    }
    let control = octets.at(0);
    if control < SINGLE {
        return Err(FragmentRefusal::NotSingle);
    }
    let code = octets.at(1);
    if !is_function(code) {
        return Err(FragmentRefusal::Function);
    }
    let objects = octets.sub(2, len);
    let count = count_headers(code, &objects)?;
    if !takes_headers(code, count) {
        return Err(FragmentRefusal::Parameter);
    }
    Ok(Fragment {
        control,
        code,
        objects,
    })
}

/// A law: octets are read as a request exactly where they are spelled so: FIR and FIN, a function code that is served, and
/// headers with their objects, one after the other, as many as the code takes. The call does nothing.
pub fn requests_are_spelled()
    ensures { (octets : List ℕ) (f : FragmentValue) → read_octets octets ≡ Ok f ↔ SpellsRequest f octets }
{}

/// Whether a code may have so many headers.
fn takes_headers(code: u8, count: usize) -> bool
    ensures { result ≡ takes_headers code count }
{
    if code == CONFIRM {
        return count == 0;
    }
    if is_command(code) || is_write(code) {
        return count > 0;
    }
    true
}
