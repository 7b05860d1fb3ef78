//! Addresses as words (RFC 1035, 3.4.1 and 5.1; RFC 3596, 2.4; RFC 4291, 2.2).
ghost use Rattle.std.specs.Prelude.{◌≡◌, ok_or};
ghost use Rattle.zone_lexing.specs.Word.{written};
ghost use Rattle.record_text.specs.Address.{dotted, colon_hex, address_of, address6_of};

use crate::cause::Cause;
use std::net::{Ipv4Addr, Ipv6Addr};
use zone_lexing::Word;

/// The octets of the address that a word is: four numbers from 0 to 255 without leading zeros, dots between
/// (RFC 1035, 3.4.1). `BadData` at another word, at a quoted string too; `Unclosed` where no word stands.
pub fn address(word: Word<'_>) -> Result<[u8; 4], Cause>
    ensures { result ≡ address_of (written word.entry) }
{
    match word {
        Word::Plain(text) => dotted(text),
        Word::Quoted(_) => Err(Cause::BadData),
        Word::Unclosed => Err(Cause::Unclosed),
    }
}

/// The octets of the address of version 6 that a word is: eight groups of 1 to 4 hexadecimal digits with colons between;
/// one `::` may stand for one or more zero groups, and the last two groups may be written as an address of version 4
/// (RFC 4291, 2.2). `BadData` at another word, at a quoted string too; `Unclosed` where no word stands.
pub fn address6(word: Word<'_>) -> Result<[u8; 16], Cause>
    ensures { result ≡ address6_of (written word.entry) }
{
    match word {
        Word::Plain(text) => colon_hex(text),
        Word::Quoted(_) => Err(Cause::BadData),
        Word::Unclosed => Err(Cause::Unclosed),
    }
}

/// The octets of the address that a text writes; `BadData` where it writes none.
fn dotted(text: &[u8]) -> Result<[u8; 4], Cause>
    ensures { result ≡ ok_or (dotted text.now) Cause.BadData }
{
    match Ipv4Addr::parse_ascii(text) {
        Ok(address) => Ok(address.octets()),
        Err(_) => Err(Cause::BadData),
    }
}

/// The octets of the address of version 6 that a text writes; `BadData` where it writes none.
fn colon_hex(text: &[u8]) -> Result<[u8; 16], Cause>
    ensures { result ≡ ok_or (colon_hex text.now) Cause.BadData }
{
    match Ipv6Addr::parse_ascii(text) {
        Ok(address) => Ok(address.octets()),
        Err(_) => Err(Cause::BadData),
    }
}
