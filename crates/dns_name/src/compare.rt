//! The canonical order of names by their octets (RFC 4034, 6.1).
ghost use Rattle.std.specs.Prelude.{◌≡◌, ◌≤◌, length, drop, map};
ghost use Rattle.std.specs.Char.{to_ascii_lowercase};
ghost use Rattle.std.specs.Cmp.Lexicographic.{slice_cmp};
ghost use Rattle.std.specs.Ordering.{nat_cmp, ordering_then};
ghost use Rattle.dns_name.specs.declared.name.TheConstants.{MAX_NAME};
ghost use Rattle.dns_name.specs.Labels.{labels_in, IsWhole};
ghost use Rattle.dns_name.specs.Name.{canonical_cmp};

use crate::octets::first_label;
use std::cmp::Ordering;

/// The canonical order of the names in the octets.
pub(crate) fn names_order(own: &[u8], other: &[u8]) -> Ordering
    requires whole { IsWhole own.now }
    requires whole_other { IsWhole other.now }
    requires short { length own.now ≤ MAX_NAME }
    requires short_other { length other.now ≤ MAX_NAME }
    ensures { result ≡ canonical_cmp (labels_in own.now) (labels_in other.now) }
{
    let count = label_count(own);
    let others = label_count(other);
    let level = without(own, count.saturating_sub(others));
    let level_other = without(other, others.saturating_sub(count));
    level_order(level, level_other, count.cmp(&others))
}

/// How many labels there are.
fn label_count(octets: &[u8]) -> usize
    requires whole { IsWhole octets.now }
    requires short { length octets.now ≤ MAX_NAME }
    ensures { result ≡ length (labels_in octets.now) }
{
    let mut rest = octets;
    let mut count = 0;
    while let Some((_, behind)) = first_label(rest) {
        rest = behind;
        count += 1;
    }
    count
}

/// The octets after the first labels, as many as are said.
fn without(octets: &[u8], count: usize) -> &[u8]
    requires { IsWhole octets.now }
    ensures whole { IsWhole result.now }
    ensures labels { labels_in result.now ≡ drop count (labels_in octets.now) }
{
    let mut rest = octets;
    for _i in 0..count {
        match first_label(rest) {
            Some((_, behind)) => rest = behind,
            None => return rest,
        }
    }
    rest
}

/// The order of names of one number of labels, or else `surplus`: the last pair of labels that differ decides.
fn level_order(own: &[u8], other: &[u8], surplus: Ordering) -> Ordering
    requires whole { IsWhole own.now }
    requires whole_other { IsWhole other.now }
    requires level { length (labels_in own.now) ≡ length (labels_in other.now) }
    ensures { result ≡ ordering_then (canonical_cmp (labels_in own.now) (labels_in other.now)) surplus }
{
    let mut rest = own;
    let mut rest_other = other;
    let mut order = surplus;
    while let (Some((label, behind)), Some((label_other, behind_other))) = (
        first_label(rest),
        first_label(rest_other),
    ) {
        order = label_order(label, label_other).then(order);
        rest = behind;
        rest_other = behind_other;
    }
    order
}

/// The order of two labels, folded and compared octet by octet.
fn label_order(label: &[u8], other: &[u8]) -> Ordering
    ensures { result ≡ slice_cmp nat_cmp (map to_ascii_lowercase label.now) (map to_ascii_lowercase other.now) }
{
    label
        .iter()
        .map(|octet| octet.to_ascii_lowercase())
        .cmp(other.iter().map(|octet| octet.to_ascii_lowercase()))
}
