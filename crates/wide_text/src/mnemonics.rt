//! Numbers by their words: algorithms of DNSSEC, types of certificates, and types of the records that signers make.
ghost use Rattle.std.specs.Prelude.{◌≡◌, ◌≤◌, ◌↔◌, map, None, Some, Ok, Err, IfOk, IfSome, IsNone};
ghost use Rattle.std.specs.Option.{option_map};
ghost use Rattle.std.specs.List.{find};
ghost use Rattle.record_text.specs.Mnemonics.{is_word};
ghost use Rattle.wide_text.specs.Mnemonics.{algorithms, certificate_types, mnemonic_seen, name_of, named_of, number_named, signing_types, word_numbered};
ghost use Rattle.zone_lexing.specs.Word.{written};

use record_text::{Cause, is_number, number};
use zone_lexing::Word;

/// A word and its number.
#[derive(Clone, Copy)]
pub(crate) struct Mnemonic {
    /// The word.
    pub(crate) word: &'static str,
    /// The number.
    pub(crate) number: u8,
}

/// The algorithms of DNSSEC (RFC 4034, A.1, and those that add to it).
const ALGORITHMS: [Mnemonic; 18] = [
    Mnemonic {
        word: "RSAMD5",
        number: 1,
    },
    Mnemonic {
        word: "DH",
        number: 2,
    },
    Mnemonic {
        word: "DSA",
        number: 3,
    },
    Mnemonic {
        word: "RSASHA1",
        number: 5,
    },
    Mnemonic {
        word: "DSA-NSEC3-SHA1",
        number: 6,
    },
    Mnemonic {
        word: "RSASHA1-NSEC3-SHA1",
        number: 7,
    },
    Mnemonic {
        word: "NSEC3DSA",
        number: 6,
    },
    Mnemonic {
        word: "NSEC3RSASHA1",
        number: 7,
    },
    Mnemonic {
        word: "RSASHA256",
        number: 8,
    },
    Mnemonic {
        word: "RSASHA512",
        number: 10,
    },
    Mnemonic {
        word: "ECC-GOST",
        number: 12,
    },
    Mnemonic {
        word: "ECDSAP256SHA256",
        number: 13,
    },
    Mnemonic {
        word: "ECDSAP384SHA384",
        number: 14,
    },
    Mnemonic {
        word: "ED25519",
        number: 15,
    },
    Mnemonic {
        word: "ED448",
        number: 16,
    },
    Mnemonic {
        word: "INDIRECT",
        number: 252,
    },
    Mnemonic {
        word: "PRIVATEDNS",
        number: 253,
    },
    Mnemonic {
        word: "PRIVATEOID",
        number: 254,
    },
];

/// The types of certificates (RFC 4398, 2.1).
const CERTIFICATE_TYPES: [Mnemonic; 10] = [
    Mnemonic {
        word: "PKIX",
        number: 1,
    },
    Mnemonic {
        word: "SPKI",
        number: 2,
    },
    Mnemonic {
        word: "PGP",
        number: 3,
    },
    Mnemonic {
        word: "IPKIX",
        number: 4,
    },
    Mnemonic {
        word: "ISPKI",
        number: 5,
    },
    Mnemonic {
        word: "IPGP",
        number: 6,
    },
    Mnemonic {
        word: "ACPKIX",
        number: 7,
    },
    Mnemonic {
        word: "IACPKIX",
        number: 8,
    },
    Mnemonic {
        word: "URI",
        number: 253,
    },
    Mnemonic {
        word: "OID",
        number: 254,
    },
];

/// The types of the records that signers make of the others (RFC 4034, 3 and 4; RFC 5155, 3 and 4).
const SIGNING_TYPES: [Mnemonic; 4] = [
    Mnemonic {
        word: "RRSIG",
        number: RRSIG,
    },
    Mnemonic {
        word: "NSEC",
        number: NSEC,
    },
    Mnemonic {
        word: "NSEC3",
        number: NSEC3,
    },
    Mnemonic {
        word: "NSEC3PARAM",
        number: NSEC3PARAM,
    },
];

/// The type RRSIG (RFC 4034, 3).
pub(crate) const RRSIG: u8 = 46;

/// The type NSEC (RFC 4034, 4).
pub(crate) const NSEC: u8 = 47;

/// The type NSEC3 (RFC 5155, 3).
pub(crate) const NSEC3: u8 = 50;

/// The type NSEC3PARAM (RFC 5155, 4).
pub(crate) const NSEC3PARAM: u8 = 51;

/// The algorithms of DNSSEC.
#[tactic(auto, unfolding(crate::specs::Mnemonics::algorithms))]
pub(crate) fn all_algorithms() -> &'static [Mnemonic]
    ensures { map mnemonic_seen result.now ≡ algorithms }
{
    &ALGORITHMS
}

/// The types of certificates.
#[tactic(auto, unfolding(crate::specs::Mnemonics::certificate_types))]
pub(crate) fn all_certificate_types() -> &'static [Mnemonic]
    ensures { map mnemonic_seen result.now ≡ certificate_types }
{
    &CERTIFICATE_TYPES
}

/// The types of the records that signers make of the others.
#[tactic(auto, unfolding(crate::specs::Mnemonics::signing_types, crate::specs::Mnemonics::type_RRSIG, crate::specs::Mnemonics::type_NSEC, crate::specs::Mnemonics::type_NSEC3, crate::specs::Mnemonics::type_NSEC3PARAM))]
pub(crate) fn signing_types() -> &'static [Mnemonic]
    ensures { map mnemonic_seen result.now ≡ signing_types }
{
    &SIGNING_TYPES
}

/// The number that a word is: decimal digits, at most the greatest one given, or one of the words of a table, in any case.
///
/// `Number` at another word, at a quoted string too, and at a number that is greater; `Unclosed` where no word stands.
pub(crate) fn named(word: Word<'_>, most: u32, mnemonics: &[Mnemonic]) -> Result<u32, Cause>
    requires { 255 ≤ most }
    ensures number { result ≡ named_of most (map mnemonic_seen mnemonics.now) (written word.entry) }
    ensures within { IfOk result (λ n. n ≤ most) }
{
    if is_number(word) {
        return number(word, most);
    }
    match word {
        Word::Plain(text) => match number_named(text, mnemonics) {
            Some(number) => Ok(u32::from(number)),
            None => Err(Cause::Number),
        },
        Word::Quoted(_) => Err(Cause::Number),
        Word::Unclosed => Err(Cause::Unclosed),
    }
}

/// The number that a text names in a table; None where it names none.
pub(crate) fn number_named(text: &[u8], mnemonics: &[Mnemonic]) -> Option<u8>
    ensures { result ≡ number_named (map mnemonic_seen mnemonics.now) text.now }
{
    for mnemonic in mnemonics {
        if is_word(text, mnemonic.word) {
            return Some(mnemonic.number);
        }
    }
    None
}

/// The word of a number in a table; None where it has none.
pub(crate) fn word_numbered(number: u16, mnemonics: &'static [Mnemonic]) -> Option<&'static str>
    ensures none { IsNone result ↔ (word_numbered (map mnemonic_seen mnemonics.now) number ≡ None) }
    ensures word { IfSome result (λ word. word_numbered (map mnemonic_seen mnemonics.now) number ≡ Some word.now) }
{
    for mnemonic in mnemonics {
        if u16::from(mnemonic.number) == number {
            return Some(mnemonic.word);
        }
    }
    None
}

/// Whether a text is this word, in any case.
pub(crate) fn is_word(text: &[u8], word: &str) -> bool
    ensures { result ≡ is_word text.now word.now }
{
    text.eq_ignore_ascii_case(word.as_bytes())
}
