//! The table of types: their words, their numbers and the fields of their data.
ghost use Rattle.std.specs.Prelude.{◌≡◌, map, Ok, Err, IfOk, IfErr};
ghost use Rattle.std.specs.Option.{option_map};
ghost use Rattle.wide_text.specs.Forms.{form_of, form_seen, forms, other_type_named, type_in_table};
ghost use Rattle.wide_text.specs.Front.{wide_type_of};
ghost use Rattle.wide_text.specs.Mnemonics.{number_named, signing_types};
ghost use Rattle.zone_lexing.specs.Word.{written};

use crate::mnemonics::{is_word, number_named, signing_types};
use dns_rdata::RType;
use record_text::{Cause, rtype};
use zone_lexing::Word;

/// What one word of a type's data is.
#[derive(Clone, Copy, Debug, PartialEq, Eq)]
pub enum Field {
    /// A name.
    Name,
    /// A number of an octet.
    Octet,
    /// A number of two octets.
    Short,
    /// A number of four octets.
    Long,
    /// Seconds, which may have units, in four octets.
    Time,
    /// A string of at most 255 octets, after its length (RFC 1035, 3.3).
    String,
    /// A tag of 1 to 15 letters and digits, after its length (RFC 8659, 4.1).
    Tag,
    /// A text whose octets end the data (RFC 7553, 4.4; RFC 8659, 4.1).
    Text,
    /// An algorithm of DNSSEC, by its number or its word (RFC 4034, A.1).
    Algorithm,
    /// A certificate's type, by its number or its word (RFC 4398, 2.1).
    CertType,
    /// An identifier of six octets, in pairs of hexadecimal digits with hyphens between (RFC 7043, 3.2).
    Eui48,
    /// One of eight octets (RFC 7043, 4.2).
    Eui64,
}

/// What the words after the fields are.
#[derive(Clone, Copy, Debug, PartialEq, Eq)]
pub enum Rest {
    /// None.
    Nothing,
    /// Strings, one or more, each after its length (RFC 1035, 3.3.14).
    Strings,
    /// Octets in hexadecimal digits.
    Hex,
    /// Octets in base64 (RFC 4648, 4).
    Base64,
    /// Parameters of a service (RFC 9460, 2.1).
    Params,
    /// A place on the earth (RFC 1876, 3).
    Location,
}

/// A type's word, its number and the form of its data.
#[derive(Clone, Copy, Debug)]
pub struct Form {
    /// The word, in capital letters.
    pub word: &'static str,
    /// The number.
    pub rtype: u16,
    /// The fields that have one word each.
    pub fields: &'static [Field],
    /// What the words after them are.
    pub rest: Rest,
}

/// The table.
const FORMS: [Form; 25] = [
    Form {
        word: "SOA",
        rtype: 6,
        fields: &[
            Field::Name,
            Field::Name,
            Field::Long,
            Field::Time,
            Field::Time,
            Field::Time,
            Field::Time,
        ],
        rest: Rest::Nothing,
    },
    Form {
        word: "HINFO",
        rtype: 13,
        fields: &[Field::String, Field::String],
        rest: Rest::Nothing,
    },
    Form {
        word: "RP",
        rtype: 17,
        fields: &[Field::Name, Field::Name],
        rest: Rest::Nothing,
    },
    Form {
        word: "AFSDB",
        rtype: 18,
        fields: &[Field::Short, Field::Name],
        rest: Rest::Nothing,
    },
    Form {
        word: "LOC",
        rtype: 29,
        fields: &[],
        rest: Rest::Location,
    },
    Form {
        word: "NAPTR",
        rtype: 35,
        fields: &[
            Field::Short,
            Field::Short,
            Field::String,
            Field::String,
            Field::String,
            Field::Name,
        ],
        rest: Rest::Nothing,
    },
    Form {
        word: "KX",
        rtype: 36,
        fields: &[Field::Short, Field::Name],
        rest: Rest::Nothing,
    },
    Form {
        word: "CERT",
        rtype: 37,
        fields: &[Field::CertType, Field::Short, Field::Algorithm],
        rest: Rest::Base64,
    },
    Form {
        word: "DNAME",
        rtype: 39,
        fields: &[Field::Name],
        rest: Rest::Nothing,
    },
    Form {
        word: "DS",
        rtype: 43,
        fields: &[Field::Short, Field::Algorithm, Field::Octet],
        rest: Rest::Hex,
    },
    Form {
        word: "SSHFP",
        rtype: 44,
        fields: &[Field::Octet, Field::Octet],
        rest: Rest::Hex,
    },
    Form {
        word: "DNSKEY",
        rtype: 48,
        fields: &[Field::Short, Field::Octet, Field::Algorithm],
        rest: Rest::Base64,
    },
    Form {
        word: "DHCID",
        rtype: 49,
        fields: &[],
        rest: Rest::Base64,
    },
    Form {
        word: "TLSA",
        rtype: 52,
        fields: &[Field::Octet, Field::Octet, Field::Octet],
        rest: Rest::Hex,
    },
    Form {
        word: "SMIMEA",
        rtype: 53,
        fields: &[Field::Octet, Field::Octet, Field::Octet],
        rest: Rest::Hex,
    },
    Form {
        word: "CDS",
        rtype: 59,
        fields: &[Field::Short, Field::Algorithm, Field::Octet],
        rest: Rest::Hex,
    },
    Form {
        word: "CDNSKEY",
        rtype: 60,
        fields: &[Field::Short, Field::Octet, Field::Algorithm],
        rest: Rest::Base64,
    },
    Form {
        word: "OPENPGPKEY",
        rtype: 61,
        fields: &[],
        rest: Rest::Base64,
    },
    Form {
        word: "SVCB",
        rtype: 64,
        fields: &[Field::Short, Field::Name],
        rest: Rest::Params,
    },
    Form {
        word: "HTTPS",
        rtype: 65,
        fields: &[Field::Short, Field::Name],
        rest: Rest::Params,
    },
    Form {
        word: "SPF",
        rtype: 99,
        fields: &[],
        rest: Rest::Strings,
    },
    Form {
        word: "EUI48",
        rtype: 108,
        fields: &[Field::Eui48],
        rest: Rest::Nothing,
    },
    Form {
        word: "EUI64",
        rtype: 109,
        fields: &[Field::Eui64],
        rest: Rest::Nothing,
    },
    Form {
        word: "URI",
        rtype: 256,
        fields: &[Field::Short, Field::Short, Field::Text],
        rest: Rest::Nothing,
    },
    Form {
        word: "CAA",
        rtype: 257,
        fields: &[Field::Octet, Field::Tag, Field::Text],
        rest: Rest::Nothing,
    },
];

/// The table of the types that have words beside the plain ones, in the order of their numbers.
#[tactic(auto, unfolding(crate::specs::Forms::forms))]
pub fn all_forms() -> &'static [Form]
    ensures { map form_seen result.now ≡ forms }
{
    &FORMS
}

/// The form of a type; None of one that isn't in the table.
pub fn form_of(rtype: RType) -> Option<Form>
    ensures { option_map form_seen result ≡ form_of rtype.0 }
{
    for form in all_forms() {
        if form.rtype == rtype.0 {
            return Some(*form);
        }
    }
    None
}

/// The type that a word is, in any case: a plain one, one of the table, one of those of signers' records, or `TYPE` and its number (RFC 1035, 5.1;
/// RFC 3597, 5).
///
/// `UnknownType` at another word, at a quoted string too; `Unclosed` where no word stands.
pub fn wide_type(word: Word<'_>) -> Result<RType, Cause>
    ensures rtype { IfOk result (λ rtype. wide_type_of (written word.entry) ≡ Ok rtype.0) }
    ensures fault { IfErr result (λ cause. wide_type_of (written word.entry) ≡ Err cause) }
{
    match rtype(word) {
        Ok(rtype) => Ok(rtype),
        Err(cause) => match word {
            Word::Plain(text) => other_type(text).ok_or(Cause::UnknownType),
            Word::Quoted(_) | Word::Unclosed => Err(cause),
        },
    }
}

/// The type that a text names, other than by a plain word; None where it names none.
fn other_type(text: &[u8]) -> Option<RType>
    ensures { option_map (λ rtype. rtype.0) result ≡ other_type_named text.now }
{
    match type_in_table(text) {
        Some(rtype) => Some(rtype),
        None => signing_type(text),
    }
}

/// The type of signers' records that a text names; None where it names none.
fn signing_type(text: &[u8]) -> Option<RType>
    ensures { option_map (λ rtype. rtype.0) result ≡ number_named signing_types text.now }
{
    match number_named(text, signing_types()) {
        Some(number) => Some(RType(u16::from(number))),
        None => None,
    }
}

/// The type that a text names in the table; None where it names none.
fn type_in_table(text: &[u8]) -> Option<RType>
    ensures { option_map (λ rtype. rtype.0) result ≡ type_in_table text.now }
{
    for form in all_forms() {
        if is_word(text, form.word) {
            return Some(RType(form.rtype));
        }
    }
    None
}
