//! Records that signers make of the others, and that a zone without signatures is without (RFC 4034, 3 and 4; RFC 5155, 3 and 4).
ghost use Rattle.std.specs.Prelude.{◌≡◌, map};
ghost use Rattle.wide_text.specs.Signing.{all_closed, is_signing, left_out};
ghost use Rattle.zone_lexing.specs.Word.{written};

use crate::data::are_generic;
use crate::mnemonics::{NSEC, NSEC3, NSEC3PARAM, RRSIG};
use dns_rdata::RType;
use record_text::Cause;
use zone_lexing::Word;

/// Whether a record of a type, whose data is written as these words, is left out of its zone: an RRSIG, an NSEC, an NSEC3 or an NSEC3PARAM, unless
/// its data is octets after `\#` (own).
///
/// `Unclosed` at one that is left out and has a quote or a parenthesis without its other one.
pub fn is_left_out(rtype: RType, words: &[Word<'_>]) -> Result<bool, Cause>
    ensures { result ≡ left_out rtype.0 (map written words.now) }
{
    if !is_signing(rtype) || are_generic(words) {
        return Ok(false);
    }
    all_closed(words)
}

/// Whether signers make records of a type.
#[tactic(auto, unfolding(crate::specs::Signing::is_signing, crate::specs::Mnemonics::type_RRSIG, crate::specs::Mnemonics::type_NSEC, crate::specs::Mnemonics::type_NSEC3, crate::specs::Mnemonics::type_NSEC3PARAM))]
fn is_signing(rtype: RType) -> bool
    ensures { result ≡ is_signing rtype.0 }
{
    rtype.0 == u16::from(RRSIG)
        || rtype.0 == u16::from(NSEC)
        || rtype.0 == u16::from(NSEC3)
        || rtype.0 == u16::from(NSEC3PARAM)
}

/// That each word stands; `Unclosed` where none does.
fn all_closed(words: &[Word<'_>]) -> Result<bool, Cause>
    ensures { result ≡ all_closed (map written words.now) }
{
    for word in words {
        match *word {
            Word::Plain(_) | Word::Quoted(_) => {}
            Word::Unclosed => return Err(Cause::Unclosed),
        }
    }
    Ok(true)
}
