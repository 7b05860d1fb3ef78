//! Laws of a zone's text: each is the contract of a function that does nothing.
ghost use Rattle.std.specs.Prelude.{◌≡◌, ◌≢◌, ◌<◌, ◌≤◌, ℕ, length, false, List, Some, None, map, All, Ok, Err};
ghost use Rattle.dns_rdata.specs.Limits.{max_data};
ghost use Rattle.dns_name.specs.Name.{IsName};
ghost use Rattle.dns_rdata.specs.Record.{Record, IsLawful};
ghost use Rattle.zone_tree.specs.Zone.{IsZone};
ghost use Rattle.record_text.specs.declared.cause.Cause.TheVariants.{NoMemory};
ghost use Rattle.master_file.specs.declared.fault.FileFault.{FileFault};
ghost use Rattle.master_file.specs.ZoneText.{zone_of_text, zone_records};
ghost use Rattle.zone_lexing.specs.Entries.{entries_of};
ghost use Rattle.master_file.specs.declared.context.Context.{Context};
ghost use Rattle.master_file.specs.Records.{behind, judged, records_of};
ghost use Rattle.zone_lexing.specs.Spelling.{spell, one_a_line};
ghost use Rattle.master_file.specs.WrittenZone.{soa_first, zone_text, line_words, rr_at, rrs_from};

/// What is written of a zone is a line for each record, with a space between its words, and is read as an entry for each
/// line with these words, the SOA's first (RFC 1035, 5.1).
pub fn written_zone_has_an_entry_a_record()
    ensures lines { (zone : List Record) → zone_text zone ≡ spell (map line_words (soa_first zone)) }
    ensures entries { (zone : List Record) → All IsLawful zone → entries_of (zone_text zone) ≡ one_a_line 1 (map line_words (soa_first zone)) }
{}

/// What is written of a zone is read as the zone's records, the SOA first, each on the line of its place, whatever the
/// origin is and whatever is in force (RFC 1035, 5.1).
pub fn written_zone_is_read_back()
    ensures record { (context : Context) (line : ℕ) (r : Record) → IsLawful r → length r.rdata ≤ max_data
        → judged context line false (line_words r) ≡ Ok (behind context (rr_at line r), Some (rr_at line r)) }
    ensures records { (zone : List Record) (origin : List (List ℕ)) → All IsLawful zone → All (λ r. length r.rdata ≤ max_data) zone
        → records_of origin (zone_text zone) ≡ record { rrs = rrs_from 1 (soa_first zone); fault = None } }
{}

/// What is written of a zone is read as that zone, whatever the origin is (RFC 1035, 5.1).
pub fn written_zone_is_the_zone()
    ensures { (zone : List Record) (origin : List (List ℕ)) → IsZone zone → zone_of_text origin (zone_text zone) ≡ Ok zone }
{}

/// A text of which no fault is told is a zone; and where a text's records are one, no fault but the text's own is told
/// (RFC 1035, 5.2).
pub fn text_without_a_fault_is_a_zone()
    ensures is_zone { (origin : List (List ℕ)) (text : List ℕ) (zone : List Record) → IsName origin → All (All (λ octet. octet < 256)) origin
        → All (λ octet. octet < 256) text → zone_of_text origin text ≡ Ok zone → IsZone zone }
    ensures reported { (origin : List (List ℕ)) (text : List ℕ) → (records_of origin text).fault ≡ None
        → IsZone (zone_records (records_of origin text).rrs) → zone_of_text origin text ≡ Ok (zone_records (records_of origin text).rrs) }
{}

/// No fault of a text is want of memory, whatever the text and the origin are.
pub fn no_text_wants_memory()
    ensures { (origin : List (List ℕ)) (text : List ℕ) (fault : FileFault) → zone_of_text origin text ≡ Err fault → fault.cause ≢ NoMemory }
{}
