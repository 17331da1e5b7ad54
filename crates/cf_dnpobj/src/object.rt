//! The table of objects: which function codes take which objects with which qualifiers.
ghost use Rattle.std.specs.Prelude.{◌≡◌, ◌≤◌, IfSome};
ghost use Rattle.cf_dnpobj.specs.Objects.{is_function, is_command, is_write, layout_of, is_span, is_all, is_counted, is_indexed};
ghost use Rattle.cf_dnpobj.specs.Objects.{takes, width, range_size, index_size, objects_size};

/// How the objects of a header lie. IEEE 1815-2012, section 4.2.2.
#[derive(Clone, Copy)]
pub enum Layout {
    /// Each has so many octets after its index. Qualifiers 17 and 28.
    Indexed(usize),
    /// Each has so many octets. Qualifiers 07 and 08.
    Listed(usize),
    /// Each is a bit. Qualifiers 00 and 01.
    Packed,
    /// They have no octets, only their indexes after qualifiers 17 and 28. All seven qualifiers.
    Named,
}

/// Whether a function code is served. IEEE 1815-2012, section 4.4.
pub fn is_function(code: u8) -> bool
    ensures { result ≡ is_function code }
{
    code <= 10 || code == 13 || code == 14 || code >= 20 && code <= 24
}

/// Select, operate, and direct operate with and without reply.
pub fn is_command(code: u8) -> bool
    ensures { result ≡ is_command code }
{
    code >= 3 && code <= 6
}

/// Write.
pub fn is_write(code: u8) -> bool
    ensures { result ≡ is_write code }
{
    code == 2
}

/// The table: how the objects of a group and variation lie in a request with this code, if it takes them.
pub fn layout_of(code: u8, group: u8, variation: u8) -> Option<Layout>
    ensures value { result ≡ layout_of code group variation }
    ensures most { IfSome result (λ l. objects_size l 0 1 ≤ 11) }
{
    if is_command(code) {
        return control_layout(group, variation);
    }
    if is_write(code) {
        return written_layout(group, variation);
    }
    Some(Layout::Named)
}

/// Controls: g12v1 is a relay output block, g41 an analog output of 32 bits, 16 bits, single and double precision.
fn control_layout(group: u8, variation: u8) -> Option<Layout>
    ensures value { result ≡ layout_of 3 group variation }
    ensures most { IfSome result (λ l. objects_size l 0 1 ≤ 11) }
{
    if group == 12 && variation == 1 {
        return Some(Layout::Indexed(11));
    }
    if group == 41 && variation == 1 {
        return Some(Layout::Indexed(5));
    }
    if group == 41 && variation == 2 {
        return Some(Layout::Indexed(3));
    }
    if group == 41 && variation == 3 {
        return Some(Layout::Indexed(5));
    }
    if group == 41 && variation == 4 {
        return Some(Layout::Indexed(9));
    }
    None
}

/// What is written: g50v1 is a time, g50v3 a recorded time, g80v1 internal indications.
fn written_layout(group: u8, variation: u8) -> Option<Layout>
    ensures value { result ≡ layout_of 2 group variation }
    ensures most { IfSome result (λ l. objects_size l 0 1 ≤ 11) }
{
    if group == 50 && variation == 1 {
        return Some(Layout::Listed(6));
    }
    if group == 50 && variation == 3 {
        return Some(Layout::Listed(6));
    }
    if group == 80 && variation == 1 {
        return Some(Layout::Packed);
    }
    None
}

/// A start and a stop.
pub fn is_span(qualifier: u8) -> bool
    ensures { result ≡ is_span qualifier }
{
    qualifier == 0x00 || qualifier == 0x01
}

/// All points.
pub fn is_all(qualifier: u8) -> bool
    ensures { result ≡ is_all qualifier }
{
    qualifier == 0x06
}

/// A count.
fn is_counted(qualifier: u8) -> bool
    ensures { result ≡ is_counted qualifier }
{
    qualifier == 0x07 || qualifier == 0x08
}

/// A count, and an index before each object.
fn is_indexed(qualifier: u8) -> bool
    ensures { result ≡ is_indexed qualifier }
{
    qualifier == 0x17 || qualifier == 0x28
}

/// Whether objects of a layout take a qualifier.
pub fn takes(layout: Layout, qualifier: u8) -> bool
    ensures { result ≡ takes layout qualifier }
{
    match layout {
        Layout::Indexed(_) => is_indexed(qualifier),
        Layout::Listed(_) => is_counted(qualifier),
        Layout::Packed => is_span(qualifier),
        Layout::Named => is_any(qualifier),
    }
}

/// One of the seven qualifiers that are served.
fn is_any(qualifier: u8) -> bool
    ensures { result ≡ takes Layout.Named qualifier }
{
    is_span(qualifier) || is_all(qualifier) || is_counted(qualifier) || is_indexed(qualifier)
}

/// The octets of a number of the range.
pub fn width(qualifier: u8) -> usize
    ensures value { result ≡ width qualifier }
    ensures most { result ≤ 2 }
{
    match qualifier {
        0x06 => 0,
        0x00 | 0x07 | 0x17 => 1,
        _ => 2,
    }
}

/// The octets of the range.
pub fn range_size(qualifier: u8) -> usize
    ensures value { result ≡ range_size qualifier }
    ensures most { result ≤ 4 }
{
    if is_span(qualifier) {
        2 * width(qualifier)
    } else {
        width(qualifier)
    }
}

/// The octets of the index before an object.
fn index_size(qualifier: u8) -> usize
    ensures value { result ≡ index_size qualifier }
    ensures most { result ≤ 2 }
{
    if is_indexed(qualifier) {
        width(qualifier)
    } else {
        0
    }
}

/// The octets of so many objects with their indexes.
pub fn objects_size(layout: Layout, qualifier: u8, count: usize) -> usize
    requires count { count ≤ 65536 }
    requires layout { objects_size layout 0 1 ≤ 11 }
    ensures value { result ≡ objects_size layout qualifier count }
    ensures most { result ≤ 851968 }
{
    match layout {
        Layout::Indexed(size) => count * (index_size(qualifier) + size),
        Layout::Listed(size) => count * size,
        Layout::Packed => (count + 7) / 8,
        Layout::Named => count * index_size(qualifier),
    }
}
