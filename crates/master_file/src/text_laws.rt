//! Laws of a zone's text in a user's words: each is the contract of a function that does nothing.
ghost use Rattle.std.specs.Prelude.{◌≡◌, ◌↔◌, ◌+◌, ◌++◌, ◌∷◌, ℕ, List, false, true, Some, Ok};
ghost use Rattle.std.specs.List.{list_all, Contains};
ghost use Rattle.dns_rdata.specs.Record.{Record};
ghost use Rattle.zone_lexing.specs.Items.{is_blank};
ghost use Rattle.zone_lexing.specs.Lines.{lowered};
ghost use Rattle.zone_lexing.specs.Order.{lfs};
ghost use Rattle.zone_lexing.specs.Place.{ends_in, ends_outside, is_remark, place_of};
ghost use Rattle.master_file.specs.Records.{records_of};
ghost use Rattle.master_file.specs.TextLaws.{on_fault, on_line, IsRead, rrs_of, last_ttl};
ghost use Rattle.master_file.specs.ZoneText.{zone_of_text};

/// A comment changes nothing: neither the zone of a text nor the fault that is told of it, its line neither. It stands
/// outside quotes, and after no backslash, up to its line's end (RFC 1035, 5.1).
pub fn comments_change_no_zone()
    ensures line { (origin : List (List ℕ)) (text remark more : List ℕ) → ends_outside text ≡ true → is_remark remark ≡ true
        → zone_of_text origin (text ++ 59 ∷ remark ++ 10 ∷ more) ≡ zone_of_text origin (text ++ 10 ∷ more) }
    ensures last { (origin : List (List ℕ)) (text remark : List ℕ) → ends_outside text ≡ true → is_remark remark ≡ true
        → zone_of_text origin (text ++ 59 ∷ remark) ≡ zone_of_text origin text }
{}

/// A blank line, after a line or before the first, changes nothing but the line of a fault that is told below it,
/// which is one more (RFC 1035, 5.1).
pub fn blank_lines_change_no_zone()
    ensures behind { (origin : List (List ℕ)) (text blanks more : List ℕ) → list_all is_blank blanks ≡ true
        → zone_of_text origin (text ++ 10 ∷ blanks ++ 10 ∷ more) ≡ on_fault (on_line (lowered (lfs text + 1))) (zone_of_text origin (text ++ 10 ∷ more)) }
    ensures first { (origin : List (List ℕ)) (blanks more : List ℕ) → list_all is_blank blanks ≡ true
        → zone_of_text origin (blanks ++ 10 ∷ more) ≡ on_fault (on_line (lowered 0)) (zone_of_text origin more) }
{}

/// Whether a line ends by an LF or by a CR and an LF changes nothing (RFC 1035, 5.1).
pub fn line_ends_change_no_zone()
    ensures { (origin : List (List ℕ)) (text more : List ℕ) → ends_in 13 text ≡ false
        → zone_of_text origin (text ++ 13 ∷ 10 ∷ more) ≡ zone_of_text origin (text ++ 10 ∷ more) }
{}

/// Between parentheses a line's end is a blank: an entry over several lines is read as the entry on one line, and where
/// one is refused the other is for the same cause (RFC 1035, 5.1).
pub fn parentheses_change_no_zone()
    ensures { (origin : List (List ℕ)) (text more : List ℕ) → ends_outside text ≡ true → (place_of text).inside ≡ true
        → on_fault (λ fault. fault.cause) (zone_of_text origin (text ++ 10 ∷ more)) ≡ on_fault (λ fault. fault.cause) (zone_of_text origin (text ++ 32 ∷ more)) }
{}

/// A record is in a text's zone exactly where the text has its owner, type and data, and its TTL is that of the last record
/// of the text that has its owner and type (RFC 1035, 5.1; RFC 2181, 5 and 5.2).
pub fn zone_has_the_records_of_its_text()
    ensures { (origin : List (List ℕ)) (text : List ℕ) (zone : List Record) → zone_of_text origin text ≡ Ok zone
        → (r : Record) → Contains zone r
        ↔ (IsRead (records_of origin text).rrs r × (last_ttl (rrs_of r.owner r.rtype (records_of origin text).rrs) ≡ Some r.ttl)) }
{}
