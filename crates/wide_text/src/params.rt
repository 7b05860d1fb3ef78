//! Parameters of services as words, and their octets in ascending order of their keys (RFC 9460, 2.1, 2.2, 7, 8 and A.1).
ghost use Rattle.std.specs.Prelude.{◌≡◌, ◌⊎◌, ◌<◌, ◌≤◌, ◌+◌, ◌∷◌, [], ℕ, List, length, drop, Result, Ok, Err, OnOk, IfOk, IfErr, map};
ghost use Rattle.std.specs.Int.{from_be_bytes, to_be_bytes, w16};
ghost use Rattle.record_text.specs.Data.{IsToldOf};
ghost use Rattle.record_text.specs.Number.{number_of};
ghost use Rattle.record_text.specs.Private.{ReadsBehind};
ghost use Rattle.record_text.specs.Reading.{on_ok};
ghost use Rattle.wide_text.specs.Mnemonics.{mnemonic_seen};
ghost use Rattle.wide_text.specs.Params.{after, first_in, framed, item_of, key_len, key_numbered, key_of, keyed_seen, keys_among, list_from, list_of, mandatory_of, nothing_in, param_among, param_keys, param_of, params_among, params_of, put_among, shaped, value_of};
ghost use Rattle.zone_lexing.specs.Word.{written};
ghost use Rattle.zone_lexing.specs.Word.Written.{Plain};

use crate::encoded::base64_in;
use crate::keyed::{Keyed, put_all, put_among};
use crate::mnemonics::{Mnemonic, is_word, number_named};
use crate::texts::unescaped;
use record_text::{Cause, address, address6, number};
use std::alloc::{AllocError, Global};
use zone_lexing::Word;

/// What the items of a list are.
#[derive(Clone, Copy, Debug, PartialEq, Eq)]
pub(crate) enum Item {
    /// A key of a parameter.
    Key,
    /// A protocol of at most 255 octets, after its length.
    Protocol,
    /// An address.
    Address,
    /// An address of version 6.
    Address6,
}

/// The keys that have words (RFC 9460, 14.3.2).
const PARAM_KEYS: [Mnemonic; 7] = [
    Mnemonic {
        word: "mandatory",
        number: 0,
    },
    Mnemonic {
        word: "alpn",
        number: 1,
    },
    Mnemonic {
        word: "no-default-alpn",
        number: 2,
    },
    Mnemonic {
        word: "port",
        number: 3,
    },
    Mnemonic {
        word: "ipv4hint",
        number: 4,
    },
    Mnemonic {
        word: "ech",
        number: 5,
    },
    Mnemonic {
        word: "ipv6hint",
        number: 6,
    },
];

/// The keys that have words.
#[tactic(auto, unfolding(crate::specs::Params::param_keys))]
pub(crate) fn param_keys() -> &'static [Mnemonic]
    ensures { map mnemonic_seen result.now ≡ param_keys }
{
    &PARAM_KEYS
}

/// Puts the octets of parameters after the others, in ascending order of keys: a word a parameter, a key, or a key, `=` and its value, which may
/// stand in quotes.
///
/// `BadData` at a word that is no parameter, at a value that isn't of its key's form, and at a key that stands twice; `Number` at a number that
/// is none; `Unclosed` where no word stands; `NoMemory` where a growth was refused.
pub(crate) fn put_params(
    alloc: Global,
    octets: &mut Vec<u8>,
    words: &[Word<'_>],
) -> Result<(), Cause>
    ensures put { OnOk result (ReadsBehind (params_of (map written words.now)) octets.old.items octets.new.items) }
    ensures fault { IfErr result (IsToldOf (params_of (map written words.now))) }
{
    let params = params_in(alloc, words)?;
    put_all(octets, &params)?;
    Ok(())
}

/// The parameters that words spell, in ascending order of keys.
fn params_in(alloc: Global, words: &[Word<'_>]) -> Result<Vec<Keyed>, Cause>
    ensures params { IfOk result (λ own. params_among [] (map written words.now) ≡ Ok (map keyed_seen own.items)) }
    ensures fault { IfErr result (IsToldOf (params_among [] (map written words.now))) }
{
    let mut params = Vec::new(alloc);
    let mut rest = words;
    while !rest.is_empty() {
        let part = first_in(rest)?;
        put_part(alloc, &mut params, part)?;
        rest = &rest[part.count..];
    }
    Ok(params)
}

/// A parameter as words.
#[derive(Clone, Copy)]
struct Part<'a> {
    /// The text of its key.
    key: &'a [u8],
    /// The text of its value.
    value: &'a [u8],
    /// How many words it has.
    count: usize,
}

/// The first parameter of words.
fn first_in<'a>(words: &[Word<'a>]) -> Result<Part<'a>, Cause>
    requires { 0 < length words.now }
    ensures part { IfOk result (λ part. first_in (map written words.now) ≡ Ok (record { key = part.key.now; value = part.value.now; count = part.count })) }
    ensures within { IfOk result (λ part. (0 < part.count) × (part.count ≤ length words.now)) }
    ensures fault { IfErr result (λ cause. first_in (map written words.now) ≡ Err cause) }
{
    match words {
        [Word::Plain(text), Word::Quoted(value), ..] => {
            let len = key_len(text);
            if len + 1 != text.len() {
                return Err(Cause::BadData);
            }
            Ok(Part {
                key: &text[..len],
                value,
                count: 2,
            })
        }
        [Word::Plain(text), ..] => {
            let len = key_len(text);
            Ok(Part {
                key: &text[..len],
                value: value_after(text, len),
                count: 1,
            })
        }
        [Word::Unclosed, ..] => Err(Cause::Unclosed),
        _ => Err(Cause::BadData),
    }
}

/// Puts a parameter among others.
fn put_part(alloc: Global, params: &mut Vec<Keyed>, part: Part<'_>) -> Result<(), Cause>
    ensures put { OnOk result (param_among (map keyed_seen params.old.items) part.entry.key.now part.entry.value.now ≡ Ok (map keyed_seen params.new.items)) }
    ensures fault { IfErr result (IsToldOf (param_among (map keyed_seen params.old.items) part.entry.key.now part.entry.value.now)) }
{
    let param = param_of(alloc, part.key, part.value)?;
    put_among(params, param)
}

/// The parameter that the texts of a key and of its value spell.
fn param_of(alloc: Global, key: &[u8], text: &[u8]) -> Result<Keyed, Cause>
    ensures param { IfOk result (λ own. param_of key.now text.now ≡ Ok (keyed_seen own)) }
    ensures fault { IfErr result (IsToldOf (param_of key.now text.now)) }
{
    let key = key_of(key)?;
    let value = value_of(alloc, key, text)?;
    let octets = framed(alloc, key, &value)?;
    Ok(Keyed { key, octets })
}

/// What stands after the octet at a place; nothing where the text ends there.
fn value_after(text: &[u8], place: usize) -> &[u8]
    requires { place ≤ length text.now }
    ensures { result.now ≡ drop (place + 1) text.now }
{
    if place < text.len() {
        &text[place + 1..]
    } else {
        b""
    }
}

/// How many octets stand before the first `=`, or all where there is none.
fn key_len(text: &[u8]) -> usize
    ensures len { result ≡ key_len text.now }
    ensures within { result ≤ length text.now }
{
    let mut len = 0;
    for octet in text {
        if *octet == b'=' {
            return len;
        }
        len += 1;
    }
    len
}

/// The key that a text is.
fn key_of(text: &[u8]) -> Result<u32, Cause>
    ensures key { result ≡ key_of text.now }
    ensures within { IfOk result (λ key. key ≤ 65535) }
{
    match number_named(text, param_keys()) {
        Some(key) => Ok(u32::from(key)),
        None => key_numbered(text),
    }
}

/// The key that `key` and its number are.
fn key_numbered(text: &[u8]) -> Result<u32, Cause>
    ensures key { result ≡ key_numbered text.now }
    ensures within { IfOk result (λ key. key ≤ 65535) }
{
    let (mark, digits) = text.split_at(text.len().min(3));
    if is_word(mark, "key") {
        number(Word::Plain(digits), 65_535)
    } else {
        Err(Cause::BadData)
    }
}

/// A value after its key and its length.
fn framed(alloc: Global, key: u32, value: &[u8]) -> Result<Vec<u8>, Cause>
    requires { key ≤ 65535 }
    ensures octets { IfOk result (λ own. framed key value.now ≡ Ok own.items) }
    ensures fault { IfErr result (IsToldOf (framed key value.now)) }
{
    if value.len() > 65_535 {
        return Err(Cause::BadData);
    }
    let (key, len) = (key as u16, value.len() as u16);
    let mut octets = Vec::new(alloc);
    octets.extend_from_slice(&key.to_be_bytes())?;
    octets.extend_from_slice(&len.to_be_bytes())?;
    octets.extend_from_slice(value)?;
    Ok(octets)
}

/// The octets of a value that a text spells.
fn value_of(alloc: Global, key: u32, text: &[u8]) -> Result<Vec<u8>, Cause>
    ensures octets { IfOk result (λ own. value_of key text.now ≡ Ok own.items) }
    ensures fault { IfErr result (IsToldOf (value_of key text.now)) }
{
    let Some(octets) = unescaped(alloc, text)? else {
        return Err(Cause::BadData);
    };
    shaped(alloc, key, &octets)
}

/// The octets of a key's value.
#[tactic(auto, unfolding(crate::specs::Params::shaped))]
fn shaped(alloc: Global, key: u32, octets: &[u8]) -> Result<Vec<u8>, Cause>
    ensures octets { IfOk result (λ own. shaped key octets.now ≡ Ok own.items) }
    ensures fault { IfErr result (IsToldOf (shaped key octets.now)) }
{
    match key {
        0 => mandatory_of(alloc, octets),
        1 => list_of(alloc, Item::Protocol, octets),
        2 => nothing_in(alloc, octets),
        3 => port_of(alloc, octets),
        4 => list_of(alloc, Item::Address, octets),
        5 => base64_in(alloc, octets),
        6 => list_of(alloc, Item::Address6, octets),
        _ => copied(alloc, octets),
    }
}

/// The same octets.
fn copied(alloc: Global, octets: &[u8]) -> Result<Vec<u8>, Cause>
    ensures octets { IfOk result (λ own. own.items ≡ octets.now) }
    ensures fault { IfErr result (λ cause. cause ≡ Cause.NoMemory) }
{
    let mut own = Vec::new(alloc);
    own.extend_from_slice(octets)?;
    Ok(own)
}

/// No octets, where there is none.
fn nothing_in(alloc: Global, octets: &[u8]) -> Result<Vec<u8>, Cause>
    ensures octets { IfOk result (λ own. nothing_in octets.now ≡ Ok own.items) }
    ensures fault { IfErr result (IsToldOf (nothing_in octets.now)) }
{
    if octets.is_empty() {
        Ok(Vec::new(alloc))
    } else {
        Err(Cause::BadData)
    }
}

/// The octets of a port's number.
fn port_of(alloc: Global, octets: &[u8]) -> Result<Vec<u8>, Cause>
    ensures octets { IfOk result (λ own. on_ok (to_be_bytes w16) (number_of 65535 (Plain octets.now)) ≡ Ok own.items) }
    ensures fault { IfErr result (IsToldOf (on_ok (to_be_bytes w16) (number_of 65535 (Plain octets.now)))) }
{
    let port = number(Word::Plain(octets), 65_535)? as u16;
    let mut own = Vec::new(alloc);
    own.extend_from_slice(&port.to_be_bytes())?;
    Ok(own)
}

/// The keys of `mandatory`, in ascending order; it doesn't stand among them.
fn mandatory_of(alloc: Global, octets: &[u8]) -> Result<Vec<u8>, Cause>
    ensures octets { IfOk result (λ own. mandatory_of octets.now ≡ Ok own.items) }
    ensures fault { IfErr result (IsToldOf (mandatory_of octets.now)) }
{
    let list = list_of(alloc, Item::Key, octets)?;
    let keys = keys_in(alloc, &list)?;
    let mut own = Vec::new(alloc);
    put_all(&mut own, &keys)?;
    Ok(own)
}

/// The keys that octets are, of two octets each, in ascending order, after that of `mandatory`, which has no octets.
fn keys_in(alloc: Global, octets: &[u8]) -> Result<Vec<Keyed>, Cause>
    ensures keys { IfOk result (λ own. keys_among (record { key = 0; octets = [] } ∷ []) octets.now ≡ Ok (map keyed_seen own.items)) }
    ensures fault { IfErr result (IsToldOf (keys_among (record { key = 0; octets = [] } ∷ []) octets.now)) }
{
    let mut keys = first_key(alloc)?;
    let mut rest = octets;
    while let [a, b, after @ ..] = rest {
        put_key(alloc, &mut keys, [*a, *b])?;
        rest = after;
    }
    if rest.is_empty() {
        Ok(keys)
    } else {
        Err(Cause::BadData)
    }
}

/// The key of `mandatory`, without octets.
fn first_key(alloc: Global) -> Result<Vec<Keyed>, AllocError>
    ensures { IfOk result (λ own. map keyed_seen own.items ≡ record { key = 0; octets = [] } ∷ []) }
{
    let mut keys = Vec::new(alloc);
    let own = Keyed {
        key: 0,
        octets: Vec::new(alloc),
    };
    keys.push(own)?;
    Ok(keys)
}

/// Puts a key of two octets among others.
fn put_key(alloc: Global, keys: &mut Vec<Keyed>, octets: [u8; 2]) -> Result<(), Cause>
    ensures put { OnOk result (put_among (record { key = from_be_bytes w16 octets; octets = octets }) (map keyed_seen keys.old.items) ≡ Ok (map keyed_seen keys.new.items)) }
    ensures fault { IfErr result (IsToldOf (put_among (record { key = from_be_bytes w16 octets; octets = octets }) (map keyed_seen keys.old.items))) }
{
    let mut own = Vec::new(alloc);
    own.extend_from_slice(&octets)?;
    let key = u32::from(u16::from_be_bytes(octets));
    put_among(keys, Keyed { key, octets: own })
}

/// The octets of the items of a list, with commas between; a backslash takes the octet after it into an item.
fn list_of(alloc: Global, kind: Item, octets: &[u8]) -> Result<Vec<u8>, Cause>
    ensures octets { IfOk result (λ own. list_of kind octets.now ≡ Ok own.items) }
    ensures fault { IfErr result (IsToldOf (list_of kind octets.now)) }
{
    let mut list = Vec::new(alloc);
    let mut own = Vec::new(alloc);
    let mut escaped = false;
    for octet in octets {
        escaped = put_octet(&mut list, &mut own, kind, escaped, *octet)?;
    }
    if escaped {
        return Err(Cause::BadData);
    }
    put_item(&mut list, kind, &own)?;
    Ok(list)
}

/// Puts an octet to an item, or the item after the others; whether it is a backslash that takes the octet after it along.
fn put_octet(
    list: &mut Vec<u8>,
    own: &mut Vec<u8>,
    kind: Item,
    escaped: bool,
    octet: u8,
) -> Result<bool, Cause>
    ensures put { IfOk result (λ next. (rest : List ℕ) → after list.new.items (list_from kind next own.new.items rest) ≡ after list.old.items (list_from kind escaped own.old.items (octet ∷ rest))) }
    ensures fault { IfErr result (λ cause. (cause ≡ Cause.NoMemory) ⊎ ((rest : List ℕ) → list_from kind escaped own.old.items (octet ∷ rest) ≡ Err cause)) }
{
    if !escaped && octet == b'\\' {
        return Ok(true);
    }
    if !escaped && octet == b',' {
        put_item(list, kind, own)?;
        own.clear();
        return Ok(false);
    }
    own.extend_from_slice(&[octet])?;
    Ok(false)
}

/// Puts an item of a list after the others.
#[tactic(auto, unfolding(crate::specs::Params::item_of))]
fn put_item(list: &mut Vec<u8>, kind: Item, own: &[u8]) -> Result<(), Cause>
    ensures put { OnOk result (ReadsBehind (item_of kind own.now) list.old.items list.new.items) }
    ensures fault { IfErr result (IsToldOf (item_of kind own.now)) }
{
    match kind {
        Item::Key => {
            let key = key_of(own)? as u16;
            list.extend_from_slice(&key.to_be_bytes())?;
        }
        Item::Protocol => {
            if own.is_empty() || own.len() > 255 {
                return Err(Cause::BadData);
            }
            list.extend_from_slice(&[own.len() as u8])?;
            list.extend_from_slice(own)?;
        }
        Item::Address => list.extend_from_slice(&address(Word::Plain(own))?)?,
        Item::Address6 => list.extend_from_slice(&address6(Word::Plain(own))?)?,
    }
    Ok(())
}
