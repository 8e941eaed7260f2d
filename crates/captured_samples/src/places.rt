//! Of which ODT of a DAQ list a packet is, and where its bytes stand.
ghost use Rattle.std.specs.Prelude.{◌≡◌, ◌≤◌, ◌<◌, ◌*◌, length, slice_index_or, []};
ghost use Rattle.captured_samples.specs.Places.{below, body_len, field_len, has_overload, head_len};
ghost use Rattle.captured_samples.specs.Places.{odt_by_field, odt_by_pid, odt_in, odt_of_list};
ghost use Rattle.captured_samples.specs.Places.{plain_pid, size_of};

use captured_session::{CapturedList, Element, Form, IdField, word};

/// The bytes of the identification field.
pub fn field_len(field: IdField) -> usize
    ensures value { result ≡ field_len field }
    ensures few { result ≤ 4 }
{
    match field {
        IdField::Absolute => 1,
        IdField::RelativeByte => 2,
        IdField::RelativeWord => 3,
        IdField::RelativeWordAligned => 4,
    }
}

/// Of which ODT of a list a packet is, if it is of the list.
pub fn odt_in(list: &CapturedList, packet: &[u8]) -> Option<usize>
    ensures { result ≡ odt_in list.now packet.now }
{
    let (pid, rest) = packet.split_first()?;
    if *pid >= 0xFC {
        return None;
    }
    odt_by_field(list, plain_pid(list.form(), *pid), rest)
}

/// The same, by a PID without the overload indication and what stands behind it.
fn odt_by_field(list: &CapturedList, pid: u8, rest: &[u8]) -> Option<usize>
    ensures { result ≡ odt_by_field list.now list.now.form.field pid rest.now }
{
    let order = list.form().order;
    match (list.form().field, rest) {
        (IdField::Absolute, _) => odt_by_pid(list, pid),
        (IdField::RelativeByte, [a, ..]) => odt_of_list(list, pid, *a as u16),
        (IdField::RelativeWord, [a, b, ..]) => odt_of_list(list, pid, word(order, *a, *b)),
        (IdField::RelativeWordAligned, [_, a, b, ..]) => {
            odt_of_list(list, pid, word(order, *a, *b))
        }
        _ => None,
    }
}

/// By an absolute ODT number.
fn odt_by_pid(list: &CapturedList, pid: u8) -> Option<usize>
    ensures { result ≡ odt_by_pid (length list.now.odts) pid list.now.first_pid }
{
    let first = list.first_pid()?;
    if pid < first {
        return None;
    }
    below(list, (pid - first) as usize)
}

/// By a relative one, and the list that the packet names.
fn odt_of_list(list: &CapturedList, pid: u8, told: u16) -> Option<usize>
    ensures { result ≡ odt_of_list list.now.list (length list.now.odts) pid told }
{
    if told != list.list() {
        return None;
    }
    below(list, pid as usize)
}

/// The ODT of this number, if the list has it.
fn below(list: &CapturedList, odt: usize) -> Option<usize>
    ensures { result ≡ below (length list.now.odts) odt }
{
    if odt < list.odts() { Some(odt) } else { None }
}

/// A PID without the overload indication.
fn plain_pid(form: Form, pid: u8) -> u8
    ensures { result ≡ plain_pid form pid }
{
    if form.has_overload { pid % 128 } else { pid }
}

/// Whether a packet of a list has the overload indication.
pub fn has_overload(list: &CapturedList, packet: &[u8]) -> bool
    ensures { result ≡ has_overload list.now packet.now }
{
    match packet {
        [pid, ..] => list.form().has_overload && *pid >= 128,
        [] => false,
    }
}

/// How many bytes stand in front of the entries in the packet of an ODT.
pub fn head_len(list: &CapturedList, odt: usize) -> usize
    ensures value { result ≡ head_len list.now odt }
    ensures few { result ≤ 11 }
{
    let field = field_len(list.form().field);
    if odt == 0 {
        return field + list.stamp_len();
    }
    field
}

/// How many bytes the entries of an ODT have.
pub fn body_len(list: &CapturedList, odt: usize) -> usize
    requires { odt < length list.now.odts }
    ensures value { result ≡ body_len list.now odt }
    ensures few { result ≤ 65025 }
{
    size_of(list.entries(odt))
}

/// How many bytes entries have.
fn size_of(entries: &[Element]) -> usize
    requires { length entries.now ≤ 255 }
    ensures value { result ≡ size_of entries.now }
    ensures few { result ≤ 65025 }
{
    let mut len = 0;
    for entry in entries {
        len += entry.size as usize;
    }
    len
}
