//! How names, and data that names stand in, are written (RFC 1035, 3.3 and 4.1.4; RFC 2782).
ghost use Rattle.std.specs.Prelude.{◌+◌, ◌≤◌, ◌<◌, ◌^◌, length, take, drop};
ghost use Rattle.dns_name.specs.Labels.{labels_in, IsWhole};
ghost use Rattle.dns_name.specs.Name.{IsName};
ghost use Rattle.wire_names.specs.Table.{IsTable};
ghost use Rattle.dns_message.specs.Encoding.{these, named, before, measured};
ghost use Rattle.dns_message.specs.Encoded.{WritesEncoding};
ghost use Rattle.dns_message.specs.Octets.{names_octets, data_octets};

use crate::octets::{put, put_u16, set_u16};
use dns_name::{Name, first_name};
use dns_rdata::{Layout, RType};
use wire_names::NameWriter;

/// Writes a name at a position, with pointers or in full: the position after it, or None where it doesn't fit
/// (RFC 1035, 4.1.4).
pub(crate) fn put_name(
    out: &mut [u8],
    at: usize,
    names: &mut NameWriter,
    name: &Name,
    compress: bool,
) -> Option<usize>
    requires within { at ≤ length out.old }
    requires table { IsTable (take at out.old) names.old }
    ensures put { WritesEncoding (named compress name.now) out.old out.new at names.old names.new result }
    ensures lawful { IsName name.now }
{
    names.write(name, compress, out, at)
}

/// Writes the name in these octets at a position, as [`put_name`] does.
pub(crate) fn put_name_octets(
    out: &mut [u8],
    at: usize,
    names: &mut NameWriter,
    octets: &[u8],
    compress: bool,
) -> Option<usize>
    requires within { at ≤ length out.old }
    requires table { IsTable (take at out.old) names.old }
    requires whole { IsWhole octets.now }
    requires lawful { IsName (labels_in octets.now) }
    ensures { WritesEncoding (named compress (labels_in octets.now)) out.old out.new at names.old names.new result }
{
    names.write_octets(octets, compress, out, at)
}

/// Writes data after the number of its octets as they are written, as [`put_name`] does (RFC 1035, 4.1.3).
pub(crate) fn put_measured(
    out: &mut [u8],
    at: usize,
    names: &mut NameWriter,
    rtype: RType,
    octets: &[u8],
) -> Option<usize>
    requires within { at ≤ length out.old }
    requires most { length out.old < 2 ^ 16 }
    requires table { IsTable (take at out.old) names.old }
    ensures { WritesEncoding (measured (data_octets rtype.0 octets.now)) out.old out.new at names.old names.new result }
{
    let start = put_u16(out, at, 0)?;
    let next = put_data(out, start, names, rtype, octets)?;
    set_u16(out, at, (next - start) as u16);
    Some(next)
}

/// Writes the data of a type, as [`put_name`] does: its names with pointers where the type's layout has them so, else in
/// full, and all else as it is (RFC 1035, 3.3 and 4.1.4; RFC 2782; RFC 3597, 4).
fn put_data(
    out: &mut [u8],
    at: usize,
    names: &mut NameWriter,
    rtype: RType,
    octets: &[u8],
) -> Option<usize>
    requires within { at ≤ length out.old }
    requires table { IsTable (take at out.old) names.old }
    ensures { WritesEncoding (data_octets rtype.0 octets.now) out.old out.new at names.old names.new result }
{
    match rtype.layout() {
        Some(
            Layout::Fields {
                front,
                names: count,
                compressed,
                ..
            },
        ) => put_fields(out, at, names, front, count, compressed, octets),
        Some(Layout::Strings) => put(out, at, octets),
        Some(Layout::Opaque) => put(out, at, octets),
        None => put(out, at, octets),
    }
}

/// Writes so many octets as they are, and then so many names and what follows them, as [`put_name`] does.
fn put_fields(
    out: &mut [u8],
    at: usize,
    names: &mut NameWriter,
    front: usize,
    count: usize,
    compress: bool,
    octets: &[u8],
) -> Option<usize>
    requires within { at ≤ length out.old }
    requires table { IsTable (take at out.old) names.old }
    ensures { WritesEncoding (before (these (take front octets.now)) (names_octets compress count (drop front octets.now)))
        out.old out.new at names.old names.new result }
{
    let (head, rest) = octets.split_at(front.min(octets.len()));
    let at = put(out, at, head)?;
    put_names(out, at, names, compress, count, rest)
}

/// Writes so many names at the front of octets, and then what follows them, as [`put_name`] does; what can't be read as a
/// name is written as it is.
fn put_names(
    out: &mut [u8],
    at: usize,
    names: &mut NameWriter,
    compress: bool,
    count: usize,
    octets: &[u8],
) -> Option<usize>
    requires within { at ≤ length out.old }
    requires table { IsTable (take at out.old) names.old }
    ensures { WritesEncoding (names_octets compress count octets.now) out.old out.new at names.old names.new result }
{
    let mut rest = octets;
    let mut next = at;
    for _ in 0..count {
        let Some((name, behind)) = first_name(rest) else {
            return put(out, next, rest);
        };
        next = put_name_octets(out, next, names, name, compress)?;
        rest = behind;
    }
    put(out, next, rest)
}
