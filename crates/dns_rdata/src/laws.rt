//! Laws of data, records and sets: each is the contract of a function that does nothing.
ghost use Rattle.std.specs.Prelude.{◌≡◌, ◌<◌, ◌^◌, ℕ, Bool, false, ◌||◌, ◌↔◌, true, List, length, flat_map, Some, IsSome, bytes_eq};
ghost use Rattle.std.specs.Cmp.{IsTotalOrder};
ghost use Rattle.dns_rdata.specs.Data.{data_of, are_strings, counted, target_of};
ghost use Rattle.dns_rdata.specs.Layout.{layout_of, names_in_data};
ghost use Rattle.dns_rdata.specs.Numbers.{is_metatype, type_CNAME};
ghost use Rattle.dns_rdata.specs.Record.{Record, IsLawful, record_cmp, with_record, has_data};

use crate::layout::Layout;

/// Data that is read is as long as the octets that it is read from, and is read again as itself (RFC 4034, 6.2).
pub fn read_again()
    ensures again { (rtype : ℕ) (octets own : List ℕ)
        → data_of rtype octets ≡ Some own → data_of rtype own ≡ Some own }
    ensures len { (rtype : ℕ) (octets own : List ℕ)
        → data_of rtype octets ≡ Some own → length own ≡ length octets }
{}

/// Octets are strings exactly where they are those of some strings in a row, each after its length (RFC 1035, 3.3).
pub fn strings_in_a_row()
    ensures { (octets : List ℕ) → (are_strings octets ≡ true)
        ↔ ((strings : List (List ℕ)) × (octets ≡ flat_map counted strings)) }
{}

/// Records of a zone have each type of 16 bits that isn't a metatype, and no other (RFC 3597, 3; RFC 6895, 3.1).
pub fn served_types()
    ensures { (rtype : ℕ) → IsSome (layout_of rtype) ↔ ((is_metatype rtype ≡ false) × (rtype < 2 ^ 16)) }
{}

/// Data of a type with so many names has that many of them (RFC 1035, 3.3); so an alias of a zone has a name that it stands
/// for (RFC 1035, 3.3.1).
pub fn names_of_data()
    ensures count { (rtype front names back : ℕ) (compressed : Bool) (octets own : List ℕ)
        → layout_of rtype ≡ Some (Layout.Fields front names back compressed)
        → data_of rtype octets ≡ Some own → length (names_in_data rtype octets) ≡ names }
    ensures target { (r : Record) → IsLawful r → r.rtype ≡ type_CNAME → IsSome (target_of r.rdata) }
{}

/// The canonical order of records is total (RFC 4034, 6.1 and 6.3).
pub fn records_in_order()
    ensures { IsTotalOrder record_cmp }
{}

/// A set with one more record has that one and those that it had, and no other (RFC 2181, 5).
pub fn one_more()
    ensures { (r : Record) (rs : List Record) (octets : List ℕ)
        → has_data (with_record r rs) octets ≡ (bytes_eq octets r.rdata || has_data rs octets) }
{}
