//! Laws of the words of data: each is the contract of a function that does nothing.
ghost use Rattle.std.specs.Prelude.{◌≡◌, ◌↔◌, ◌<◌, ◌≤◌, ℕ, List, All, length, Some, Ok};
ghost use Rattle.std.specs.Net.Addr.{octets_of};
ghost use Rattle.std.specs.Net.Grammar.{IsDotted, IsColonHex};
ghost use Rattle.dns_rdata.specs.Limits.{max_data};
ghost use Rattle.dns_rdata.specs.Data.{data_of};
ghost use Rattle.record_text.specs.Address.{dotted, colon_hex};
ghost use Rattle.record_text.specs.Data.{data_of_words};
ghost use Rattle.record_text.specs.Text.{words_of};
ghost use Rattle.zone_lexing.specs.Word.{Written};

/// A text writes an address exactly where it is spelt so: four numbers below 256 without leading zeros, dots between
/// (RFC 1035, 3.4.1); or groups of 1 to 4 hexadecimal digits with colons between, eight of them, or fewer on both sides
/// of one `::`, the last two perhaps as an address of version 4 (RFC 4291, 2.2).
pub fn addresses_are_spelt()
    ensures address { (text octets : List ℕ) → (dotted text ≡ Some octets) ↔ IsDotted text octets }
    ensures address6 { (text octets : List ℕ) → (colon_hex text ≡ Some octets)
        ↔ ((groups : List ℕ) × IsColonHex text groups × (octets ≡ octets_of groups)) }
{}

/// The words that are written of data are read as the same data, whatever the origin is (RFC 1035, 5.1).
pub fn written_data_is_read_back()
    ensures { (rtype : ℕ) (octets : List ℕ) (origin : List (List ℕ)) → data_of rtype octets ≡ Some octets → length octets ≤ max_data
        → All (λ octet. octet < 256) octets → data_of_words rtype origin (words_of rtype octets) ≡ Ok octets }
{}

/// What words are read as is data of their type: octets of its form, with the names in them in lower case, at most 4,096
/// of them.
pub fn what_is_read_is_data()
    ensures form { (rtype : ℕ) (origin : List (List ℕ)) (words : List Written) (octets : List ℕ)
        → data_of_words rtype origin words ≡ Ok octets → data_of rtype octets ≡ Some octets }
    ensures short { (rtype : ℕ) (origin : List (List ℕ)) (words : List Written) (octets : List ℕ)
        → data_of_words rtype origin words ≡ Ok octets → length octets ≤ max_data }
{}
