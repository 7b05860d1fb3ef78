//! Words that are written only where they are read as the octets that they are of.
ghost use Rattle.std.specs.Prelude.{◌≡◌, ◌++◌, ◌∷◌, [], map, OnOk, IfOk, string_bytes};
ghost use Rattle.record_text.specs.Text.{text_of_words};
ghost use Rattle.wide_text.specs.Private.{WritesWords, plain_word};
ghost use Rattle.wide_text.specs.Words.{are_read, read_back};
ghost use Rattle.zone_lexing.specs.Word.{written};

use crate::fields::put_rest;
use crate::forms::Rest;
use record_text::Cause;
use std::alloc::{AllocError, Global};
use zone_lexing::Word;

/// Writes words outside quotes, each after a space, where they are read as these octets; false where they aren't.
pub(crate) fn write_read_back(
    alloc: Global,
    text: &mut String,
    rest: Rest,
    octets: &[u8],
    words: &[String],
) -> Result<bool, AllocError>
    ensures { IfOk result (WritesWords (read_back rest octets.now (map plain_word words.now)) (string_bytes text.old) (string_bytes text.new)) }
{
    if !are_read(alloc, rest, octets, words)? {
        return Ok(false);
    }
    write_all(text, words)?;
    Ok(true)
}

/// Puts a word outside quotes after the others.
pub(crate) fn push_text(words: &mut Vec<String>, text: String) -> Result<(), AllocError>
    ensures { OnOk result (map plain_word words.new.items ≡ map plain_word words.old.items ++ plain_word text ∷ []) }
{
    words.push(text)?;
    Ok(())
}

/// Writes words, each after a space.
fn write_all(text: &mut String, words: &[String]) -> Result<(), AllocError>
    ensures { OnOk result (string_bytes text.new ≡ string_bytes text.old ++ text_of_words (map plain_word words.now)) }
{
    for word in words {
        text.push(' ')?;
        text.push_str(word)?;
    }
    Ok(())
}

/// Whether words outside quotes are read as these octets.
fn are_read(alloc: Global, rest: Rest, octets: &[u8], words: &[String]) -> Result<bool, AllocError>
    ensures { IfOk result (λ same. same ≡ are_read rest octets.now (map plain_word words.now)) }
{
    let words = plain_words(alloc, words)?;
    let mut own = Vec::new(alloc);
    match put_rest(alloc, &mut own, rest, &words) {
        Ok(()) => Ok(own.as_slice() == octets),
        Err(Cause::NoMemory) => Err(AllocError),
        Err(_) => Ok(false),
    }
}

/// Texts as words outside quotes.
fn plain_words<'t>(alloc: Global, texts: &'t [String]) -> Result<Vec<Word<'t>>, AllocError>
    ensures { IfOk result (λ words. map written words.items ≡ map plain_word texts.now) }
{
    let mut words = Vec::new(alloc);
    for text in texts {
        words.push(Word::Plain(text.as_bytes()))?;
    }
    Ok(words)
}
