//! What texts, octets inside messages and records' data are read as, and the words for what is wrong with them.
use crate::made::{name, read};
use dns_name::Name;
use dns_rdata::RType;
use std::alloc::{AllocError, Global};
use wire_names::read_name;

/// Texts under the origin `example.`, and the octets of their names, in hexadecimal, or what is wrong with them (RFC 1035, 2.3.4 and 5.1):
/// 63 octets make a label, and 64 none.
const TEXTS: &str = r#"text a = 0161076578616d706c6500
text a.b. = 0161016200
text . = 00
text @ = 076578616d706c6500
text \@ = 0140076578616d706c6500
text \064 = 0140076578616d706c6500
text @. = 014000
text @.a = 01400161076578616d706c6500
text a\.b. = 03612e6200
text a\046b. = 03612e6200
text \\\255. = 025cff00
text  = N3 EmptyLabel
text a..b = N3 EmptyLabel
text .a = N3 EmptyLabel
text .. = N3 EmptyLabel
text a\ = N4 BadEscape
text a\25 = N4 BadEscape
text a\256 = N4 BadEscape
text xxxxxxxxxxxxxxxxxxxxxxxxxxxxxxxxxxxxxxxxxxxxxxxxxxxxxxxxxxxxxxx. = 3f78787878787878787878787878787878787878787878787878787878787878787878787878787878787878787878787878787878787878787878787878787800
text xxxxxxxxxxxxxxxxxxxxxxxxxxxxxxxxxxxxxxxxxxxxxxxxxxxxxxxxxxxxxxxx. = N1 LabelTooLong
"#;

/// The message of RFC 1035, 4.1.4, with names at the positions 20, 40, 64 and 92.
const RFC: &str = "\
    0000000000000000000000000000000000000000014603495349044152504100000000000000000003464f4fc014\
    000000000000000000000000000000000000c01a000000000000000000000000000000000000000000000000000000";

/// Positions in that message and in others, and the name there as it is printed (RFC 1035, 5.1) with the position after it, or what is
/// wrong with it (RFC 1035, 4.1.4).
const OCTETS: &str = r#"at 20 RFC = F.ISI.ARPA. 32
at 40 RFC = FOO.F.ISI.ARPA. 46
at 64 RFC = ARPA. 66
at 92 RFC = . 93
at 0 03777777074578616d706c6500 = www.Example. 13
at 0 03612e62016300 = a\.b.c. 7
at 0 0661206200ff7e00 = a\032b\000\255~. 8
at 0 07402428293b225c00 = \@\$\(\)\;\"\\. 9
at 0  = F1 Short
at 1 00 = F1 Short
at 0 0161 = F1 Short
at 0 0261 = F1 Short
at 1 00c0 = F1 Short
at 0 40 = F2 BadLength
at 0 80 = F2 BadLength
at 0 c000 = F3 BadPointer
at 0 c00200 = F3 BadPointer
at 0 0161c000 = F3 BadPointer
at 1 000161ffff = F3 BadPointer
"#;

/// The same of names of 255 octets and of 256 (RFC 1035, 2.3.4), as a text and as octets, and of the latter where they are cut.
const LONG: &str = "\
    text \
    xxxxxxxxxxxxxxxxxxxxxxxxxxxxxxxxxxxxxxxxxxxxxxxxxxxxxxxxxxxxxxx.\
    xxxxxxxxxxxxxxxxxxxxxxxxxxxxxxxxxxxxxxxxxxxxxxxxxxxxxxxxxxxxxxx.\
    xxxxxxxxxxxxxxxxxxxxxxxxxxxxxxxxxxxxxxxxxxxxxxxxxxxxxxxxxxxxxxx.\
    xxxxxxxxxxxxxxxxxxxxxxxxxxxxxxxxxxxxxxxxxxxxxxxxxxxxxxxxxxxxx.\
    \x20= \
    3f787878787878787878787878787878787878787878787878787878787878787878787878787878787878787878787878787878787878787878787878787878\
    3f787878787878787878787878787878787878787878787878787878787878787878787878787878787878787878787878787878787878787878787878787878\
    3f787878787878787878787878787878787878787878787878787878787878787878787878787878787878787878787878787878787878787878787878787878\
    3d78787878787878787878787878787878787878787878787878787878787878787878787878787878787878787878787878787878787878787878787878\
    00\n\
    text \
    xxxxxxxxxxxxxxxxxxxxxxxxxxxxxxxxxxxxxxxxxxxxxxxxxxxxxxxxxxxxxxx.\
    xxxxxxxxxxxxxxxxxxxxxxxxxxxxxxxxxxxxxxxxxxxxxxxxxxxxxxxxxxxxxxx.\
    xxxxxxxxxxxxxxxxxxxxxxxxxxxxxxxxxxxxxxxxxxxxxxxxxxxxxxxxxxxxxxx.\
    xxxxxxxxxxxxxxxxxxxxxxxxxxxxxxxxxxxxxxxxxxxxxxxxxxxxxxxxxxxxxx.\
    \x20= N2 NameTooLong\n\
    at 0 \
    3f787878787878787878787878787878787878787878787878787878787878787878787878787878787878787878787878787878787878787878787878787878\
    3f787878787878787878787878787878787878787878787878787878787878787878787878787878787878787878787878787878787878787878787878787878\
    3f787878787878787878787878787878787878787878787878787878787878787878787878787878787878787878787878787878787878787878787878787878\
    3e7878787878787878787878787878787878787878787878787878787878787878787878787878787878787878787878787878787878787878787878787878\
    00\
    \x20= F4 TooLong\n\
    at 0 \
    3f787878787878787878787878787878787878787878787878787878787878787878787878787878787878787878787878787878787878787878787878787878\
    3f787878787878787878787878787878787878787878787878787878787878787878787878787878787878787878787878787878787878787878787878787878\
    3f787878787878787878787878787878787878787878787878787878787878787878787878787878787878787878787878787878787878787878787878787878\
    3e78787878787878787878787878787878787878787878787878787878787878787878787878787878787878787878787878787878787878787878787878\
    \x20= F1 Short\n\
    ";

/// Types and octets, and what these are read as: the zone of RFC 1035, 5.3, on the wire, the pointer of RFC 1035, 3.5, the address of
/// RFC 3596, 2.5, the service of RFC 2782, octets of types that nobody here knows (RFC 3597), and data that isn't of its type's form (RFC
/// 1035, 3.1, 3.3 and 3.4.1).
const DATA: &str = "\
data 1 0a010034 = 0a010034\n\
data 1 0a0100 = A1 BadLength\n\
data 1 0a01003400 = A1 BadLength\n\
data 2 0656454e455241034953490345445500 = 0676656e657261036973690365647500\n\
data 5 0656454e455241034953490345445500 = 0676656e657261036973690365647500\n\
data 2 0656454e4552410349534903454455 = A1 BadLength\n\
data 2 0656454e45524103495349034544550000 = A1 BadLength\n\
data 2 c00c = A1 BadLength\n\
data 2  = A1 BadLength\n\
data 15 000a0656454e455241034953490345445500 = 000a0676656e657261036973690365647500\n\
data 15 0656454e455241034953490345445500 = A1 BadLength\n\
data 15 00 = A1 BadLength\n\
data 16 024869 = 024869\n\
data 16 024869000121 = 024869000121\n\
data 16 00 = 00\n\
data 16  = A1 BadLength\n\
data 16 034869 = A1 BadLength\n\
data 6 00000000001400001c20000002580036ee80000000 = A1 BadLength\n\
data 12 094d494c4e45542d4757034953490345445500 = 096d696c6e65742d6777036973690365647500\n\
data 28 432100000001000200030004056789ab = 432100000001000200030004056789ab\n\
data 28 432100000001000200030004056789 = A1 BadLength\n\
data 33 0000000100090c6f6c642d736c6f772d626f78076578616d706c6503636f6d00 = 0000000100090c6f6c642d736c6f772d626f78076578616d706c6503636f6d00\n\
data 33 000000010009 = A1 BadLength\n\
data 13 0356415804554e4958 = 0356415804554e4958\n\
data 65280 014100c00c = 014100c00c\n\
data 65535  = \n\
data 0  = A1 BadLength\n\
data 128  = A1 BadLength\n\
data 41  = A1 BadLength\n\
data 255  = A1 BadLength\n\
data 2 00 = 00\n\
data 2 0146034953490441525041007265 = A1 BadLength\n\
data 2 03495349 = A1 BadLength\n\
data 2 0449534900 = A1 BadLength\n\
data 2 4000 = A1 BadLength\n\
";

/// What is told of a text.
fn reading_of_text(alloc: Global, text: &str) -> Result<String, AllocError> {
    match Name::from_text(text.as_bytes(), &name(b"example.")) {
        Ok(name) => hex::encode(alloc, name.wire()),
        Err(fault) => format!(in alloc; "{fault}"),
    }
}

/// What is told of the name at a position.
fn reading_at(alloc: Global, at: u16, octets: &[u8]) -> Result<String, AllocError> {
    match read_name(octets, usize::from(at)) {
        Ok((name, behind)) => format!(in alloc; "{name:?} {behind}"),
        Err(fault) => format!(in alloc; "{fault}"),
    }
}

/// What is told of the octets of a type.
fn reading_of_data(alloc: Global, rtype: u16, octets: &[u8]) -> Result<String, AllocError> {
    match read(alloc, RType(rtype), octets) {
        Ok(data) => hex::encode(alloc, data.octets()),
        Err(fault) => format!(in alloc; "{fault}"),
    }
}

/// What is told of the words of a row: `text` and a text, or `at` or `data`, a number and octets.
fn outcome(alloc: Global, words: &str) -> Option<String> {
    let (kind, rest) = words.split_once(' ')?;
    if kind == "text" {
        return reading_of_text(alloc, rest).ok();
    }
    let (number, spelt) = rest.split_once(' ')?;
    let number = number.parse::<u16>().ok()?;
    let octets = hex::decode(alloc, if spelt == "RFC" { RFC } else { spelt }).ok()?;
    if kind == "at" {
        reading_at(alloc, number, &octets).ok()
    } else {
        reading_of_data(alloc, number, &octets).ok()
    }
}

/// Whether a row's words are told of as it says.
fn is_right(alloc: Global, row: &str) -> Option<bool> {
    let (words, want) = row.split_once(" = ")?;
    Some(outcome(alloc, words)?.as_str() == want)
}

#[test]
fn what_is_read(rt: HostRuntime) -> Result<(), &'static str> {
    for rows in [TEXTS, OCTETS, LONG, DATA] {
        for row in rows.lines() {
            if is_right(rt.alloc(), row) != Some(true) {
                return Err(row);
            }
        }
    }
    Ok(())
}
