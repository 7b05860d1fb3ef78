//! Laws of the words of types: each is the contract of a function that does nothing.
ghost use Rattle.wide_text.specs.Laws.{FieldsAreReadBack, FrontsAreReadBack, PlainDataIsWide, PlainFrontIsWide, WordsAreSpelt};

/// The words that are written of octets by a form are read as these octets, whatever the origin.
pub fn written_fields_are_read_back()
    ensures { FieldsAreReadBack }
{}

/// What the plain grammar reads, `record_text::read_data` and `record_text::read_front`, is read alike: data of any type, and TTL, class and
/// type before it.
pub fn plain_words_are_wide()
    ensures data { PlainDataIsWide }
    ensures front { PlainFrontIsWide }
{}

/// The words that are written of data are spelt: each is read as one word, whatever the data is.
pub fn written_words_are_spelt()
    ensures { WordsAreSpelt }
{}

/// A TTL in decimal, the class IN and a type's word are read as these before data.
pub fn written_fronts_are_read_back()
    ensures { FrontsAreReadBack }
{}
