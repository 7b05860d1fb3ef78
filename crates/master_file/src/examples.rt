//! Worked examples of the definitions.
ghost use Rattle.std.specs.Prelude.{◌≡◌, codes, None};
ghost use Rattle.master_file.specs.Examples.{origin, text, records, unclosed_text};
ghost use Rattle.master_file.specs.Records.{records_of, faulty};

use record_text::Cause;

/// The records of a text whose lines leave out owner, TTL and class, and have directives and parentheses (RFC 1035, 5.1;
/// RFC 2308, 4); and faults told from left to right.
#[tactic(auto, unfolding(crate::specs::Records::directed, record_text::specs::Number::decimal_of, record_text::specs::Mnemonics::type_named, record_text::specs::Mnemonics::class_named, record_text::specs::NameWord::name_named, record_text::specs::Data::octets_of_words, record_text::specs::Data::form_of, record_text::specs::Data::as_data, dns_rdata::specs::Data::data_of, dns_rdata::specs::Layout::layout_of))]
pub fn examples_of_records()
    ensures records { records_of origin text ≡ record { rrs = records; fault = None } }
    ensures unclosed { records_of origin (unclosed_text (codes "b")) ≡ faulty (record { line = 2; cause = Cause.Unclosed }) }
    ensures to_the_left { records_of origin (unclosed_text (codes "..")) ≡ faulty (record { line = 1; cause = Cause.BadName }) }
{}
