//! Laws of zone files: each is the contract of a function that does nothing.
ghost use Rattle.wide_file.specs.Laws.{PlainZonesAreWide, WordsAreTheZone};

/// A text that `master_file::read_zone` takes has the same zone as a zone file, whatever the origin is.
pub fn plain_zones_are_wide()
    ensures { PlainZonesAreWide }
{}

/// What `in_words` makes of the text of a zone has that zone as a zone file, whatever the origin is: the text that `master_file::write_zone` writes,
/// with types and data in words (RFC 1035, 5.1).
pub fn words_are_the_zone()
    ensures { WordsAreTheZone }
{}
