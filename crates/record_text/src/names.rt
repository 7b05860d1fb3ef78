//! Names as words (RFC 1035, 5.1).
ghost use Rattle.std.specs.Prelude.{◌≡◌};
ghost use Rattle.zone_lexing.specs.Word.{written};
ghost use Rattle.record_text.specs.NameWord.{name_named, name_of, owner_of};

use crate::cause::Cause;
use dns_name::Name;
use zone_lexing::Word;

/// The name that a word of data is, relative to the origin; `@` alone is the origin (RFC 1035, 5.1).
///
/// `BadName` at a word that is no name, `BadData` at a quoted string, `Unclosed` where no word stands.
pub fn name(word: Word<'_>, origin: &Name) -> Result<Name, Cause>
    ensures { result ≡ name_of origin.now (written word.entry) }
{
    match word {
        Word::Plain(text) => name_named(text, origin),
        Word::Quoted(_) => Err(Cause::BadData),
        Word::Unclosed => Err(Cause::Unclosed),
    }
}

/// The name that a word is as an owner or after a directive, relative to the origin; `@` alone is the origin
/// (RFC 1035, 5.1).
///
/// `BadName` at a word that is no name, and at a quoted string; `Unclosed` where no word stands.
pub fn owner(word: Word<'_>, origin: &Name) -> Result<Name, Cause>
    ensures { result ≡ owner_of origin.now (written word.entry) }
{
    match word {
        Word::Plain(text) => name_named(text, origin),
        Word::Quoted(_) => Err(Cause::BadName),
        Word::Unclosed => Err(Cause::Unclosed),
    }
}

/// The name that a text stands for; `BadName` where it is none.
#[tactic(auto, unfolding(crate::specs::NameWord::name_named))]
fn name_named(text: &[u8], origin: &Name) -> Result<Name, Cause>
    ensures { result ≡ name_named text.now origin.now }
{
    match Name::from_text(text, origin) {
        Ok(name) => Ok(name),
        Err(_) => Err(Cause::BadName),
    }
}
