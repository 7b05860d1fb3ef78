//! What stands before a record's data: its TTL, its class and its type (RFC 1035, 5.1).
ghost use Rattle.std.specs.Prelude.{◌≡◌, ◌<◌, ◌^◌, Ok, map, IfOk, IfErr, IfSome, Err};
ghost use Rattle.std.specs.Option.{is_some};
ghost use Rattle.record_text.specs.Front.{front_seen};
ghost use Rattle.wide_text.specs.Front.{IsLasting, front_from, mark_of, wide_front};
ghost use Rattle.zone_lexing.specs.Word.{written};

use crate::forms::wide_type;
use crate::times::{is_time, wide_ttl};
use dns_rdata::{RType, Ttl};
use record_text::{Cause, Front, is_class};
use zone_lexing::Word;

/// What a word before the data is.
pub(crate) enum Mark {
    /// The TTL.
    Ttl(Ttl),
    /// The class IN.
    Class,
    /// The type, which ends what stands before the data.
    Type(RType),
}

/// What the words after an owner begin with: TTL and class, in either order and each left out or not, and the type, by any word of the table
/// (RFC 1035, 5.1). A TTL may have units.
///
/// `Number` at a TTL that is too great, `BadClass` at a class other than IN, `UnknownType` at another word that is no type, `BadData` where
/// there is no type, and `Unclosed` where no word stands.
pub fn read_wide_front<'w, 'a>(words: &'w [Word<'a>]) -> Result<Front<'w, 'a>, Cause>
    ensures front { IfOk result (λ front. wide_front (map written words.now) ≡ Ok (front_seen front)) }
    ensures lasts { IfOk result (λ front. IfSome front.ttl (λ ttl. ttl.0 < 2 ^ 31)) }
    ensures fault { IfErr result (λ cause. wide_front (map written words.now) ≡ Err cause) }
{
    let mut own = None;
    let mut classed = false;
    for (at, word) in words.iter().enumerate() {
        match read_mark(own.is_some(), classed, *word)? {
            Mark::Ttl(ttl) => own = Some(ttl),
            Mark::Class => classed = true,
            Mark::Type(rtype) => {
                return Ok(Front {
                    ttl: own,
                    rtype,
                    words: &words[at + 1..],
                });
            }
        }
    }
    Err(Cause::BadData)
}

/// What a word before the data is, where a TTL has stood before it or not, and a class.
fn read_mark(timed: bool, classed: bool, word: Word<'_>) -> Result<Mark, Cause>
    ensures lasts { IfOk result IsLasting }
    ensures mark { result ≡ mark_of timed classed (written word.entry) }
{
    if !timed && is_time(word) {
        return Ok(Mark::Ttl(wide_ttl(word)?));
    }
    if !classed && is_class(word)? {
        return Ok(Mark::Class);
    }
    Ok(Mark::Type(wide_type(word)?))
}
