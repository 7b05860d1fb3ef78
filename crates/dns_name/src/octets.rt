//! A name's octets: labels after their lengths, up to a zero octet (RFC 1035, 3.1).
ghost use Rattle.std.specs.Prelude.{◌≡◌, ◌+◌, ◌≤◌, ◌↔◌, [], ◌∷◌, ◌++◌, length, IsTrue, MatchOption, None, option_map};
ghost use Rattle.std.specs.Bool.{OnFalse, OnTrue};
ghost use Rattle.dns_name.specs.Labels.{labels_in, IsWhole, IsFirstLabel, IsFirstName};
ghost use Rattle.dns_name.specs.Name.{wire_of, name_in, is_under};

use crate::name::{MAX_LABEL, MAX_NAME};
use arrayvec::ArrayVec;

/// The first label, and the octets after it; None at the zero octet.
pub fn first_label(octets: &[u8]) -> Option<(&[u8], &[u8])>
    requires { IsWhole octets.now }
    ensures { MatchOption result (labels_in octets.now ≡ []) (λ parts. IsFirstLabel octets.now parts.0.now parts.1.now) }
{
    let (first, rest) = octets.split_first()?;
    let len = usize::from(*first);
    if len == 0 {
        return None;
    }
    Some(rest.split_at(len))
}

/// The octets of the name that the octets begin with, written in full, and the octets after it; None where they begin with no name
/// (RFC 1035, 3.1).
pub fn first_name(octets: &[u8]) -> Option<(&[u8], &[u8])>
    ensures { MatchOption result (name_in octets.now ≡ None) (λ parts. IsFirstName octets.now parts.0.now parts.1.now) }
{
    let len = name_len(octets)?;
    Some(octets.split_at(len))
}

/// How many octets the name takes that the octets begin with; None where they begin with no name (RFC 1035, 3.1).
pub(crate) fn name_len(octets: &[u8]) -> Option<usize>
    ensures { result ≡ option_map (λ name. length (wire_of name)) (name_in octets.now) }
{
    let mut at = 0;
    while at < MAX_NAME {
        let len = usize::from(*octets.get(at)?);
        if len == 0 {
            return Some(at + 1);
        }
        if len > MAX_LABEL {
            return None;
        }
        at += len + 1;
    }
    None
}

/// Whether the labels in these octets end in the other's, without regard to case.
pub(crate) fn ends_in(octets: &[u8], other: &[u8]) -> bool
    requires own { IsWhole octets.now }
    requires others { IsWhole other.now }
    ensures { result ≡ is_under (labels_in octets.now) (labels_in other.now) }
{
    let mut rest = octets;
    while rest.len() > other.len() {
        let len = usize::from(rest[0]);
        (_, rest) = rest.split_at(len + 1);
    }
    rest.eq_ignore_ascii_case(other)
}

/// Puts octets after the others, where there is room.
pub(crate) fn append(to: &mut ArrayVec<u8, MAX_NAME>, octets: &[u8])
    requires { length to.old.items + length octets.now ≤ MAX_NAME }
    ensures { to.new.items ≡ to.old.items ++ octets.now }
{
    let _ = to.try_extend_from_slice(octets);
}

/// Puts a label after the others, after its length. False where that leaves no room for the zero octet: nothing is
/// put then.
pub(crate) fn append_label(to: &mut ArrayVec<u8, MAX_NAME>, label: &[u8]) -> bool
    ensures room { IsTrue result ↔ (length to.old.items + length label.now + 2 ≤ MAX_NAME) }
    ensures put { OnTrue result (to.new.items ≡ to.old.items ++ length label.now ∷ label.now) }
    ensures full { OnFalse result (to.new.items ≡ to.old.items) }
{
    let len = label.len();
    if to.len() + 2 > MAX_NAME || len > MAX_NAME - 2 - to.len() {
        return false;
    }
    to.push(len as u8);
    append(to, label);
    true
}
