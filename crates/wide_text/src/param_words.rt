//! The words of parameters of services (RFC 9460, 2.1, 7, 8 and A.1).
ghost use Rattle.std.specs.Prelude.{◌≡◌, ◌<◌, ◌++◌, length, take, drop, flat_map, map, OnOk, IfOk, string_bytes};
ghost use Rattle.record_text.specs.Text.{groups_text};
ghost use Rattle.wide_text.specs.ParamWords.{address6_item, address_item, base64_text, item_len, item_octet, item_text, key_item, key_text, list_text, octets_text, param_text, param_words, port_text, protocol_item, value_octet, value_text};
ghost use Rattle.wide_text.specs.Private.{plain_word};

use crate::mnemonics::word_numbered;
use crate::params::{Item, param_keys};
use crate::read_back::push_text;
use base64::engine::general_purpose::STANDARD;
use std::alloc::{AllocError, Global};
use std::net::Ipv6Addr;

/// The words of parameters, one each: a key, or a key, `=` and its value. What is written of octets that are no parameters isn't read as these.
pub(crate) fn param_words(alloc: Global, octets: &[u8]) -> Result<Vec<String>, AllocError>
    ensures { IfOk result (λ words. map plain_word words.items ≡ param_words octets.now) }
{
    let mut words = Vec::new(alloc);
    let mut rest = octets;
    while let [a, b, c, d, after @ ..] = rest {
        let key = u16::from_be_bytes([*a, *b]);
        let (value, others) = cut(after, usize::from(u16::from_be_bytes([*c, *d])));
        push_text(&mut words, param_word(alloc, key, value)?)?;
        rest = others;
    }
    Ok(words)
}

/// The first octets, at most so many, and those after them.
fn cut(octets: &[u8], len: usize) -> (&[u8], &[u8])
    ensures front { result.0.now ≡ take len octets.now }
    ensures after { result.1.now ≡ drop len octets.now }
{
    if len < octets.len() {
        octets.split_at(len)
    } else {
        (octets, &[])
    }
}

/// The word of a parameter.
fn param_word(alloc: Global, key: u16, value: &[u8]) -> Result<String, AllocError>
    ensures { IfOk result (λ text. string_bytes text ≡ param_text key value.now) }
{
    let mut text = String::new(alloc);
    write_key(&mut text, key)?;
    write_value(&mut text, key, value)?;
    Ok(text)
}

/// Writes a key: its word, else `key` and its number.
fn write_key(text: &mut String, key: u16) -> Result<(), AllocError>
    ensures { OnOk result (string_bytes text.new ≡ string_bytes text.old ++ key_text key) }
{
    match word_numbered(key, param_keys()) {
        Some(word) => text.push_str(word),
        None => write!(text, "key{key}"),
    }
}

/// Writes a key's value after `=`; nothing of one without octets.
#[tactic(auto, unfolding(crate::specs::ParamWords::value_text))]
fn write_value(text: &mut String, key: u16, octets: &[u8]) -> Result<(), AllocError>
    ensures { OnOk result (string_bytes text.new ≡ string_bytes text.old ++ value_text key octets.now) }
{
    match key {
        0 => write_list(text, Item::Key, octets),
        1 => write_list(text, Item::Protocol, octets),
        3 => write_port(text, octets),
        4 => write_list(text, Item::Address, octets),
        5 => write_base64(text, octets),
        6 => write_list(text, Item::Address6, octets),
        _ => write_octets(text, octets),
    }
}

/// Writes the items of a list, the first after `=`, each other one after a comma.
fn write_list(text: &mut String, kind: Item, octets: &[u8]) -> Result<(), AllocError>
    ensures { OnOk result (string_bytes text.new ≡ string_bytes text.old ++ list_text kind octets.now) }
{
    let mut mark = '=';
    let mut rest = octets;
    while let [first, ..] = rest {
        let (item, others) = cut(rest, item_len(kind, *first));
        text.push(mark)?;
        write_item(text, kind, item)?;
        mark = ',';
        rest = others;
    }
    Ok(())
}

/// How many octets an item of a list has, by the first of them.
fn item_len(kind: Item, first: u8) -> usize
    ensures len { result ≡ item_len kind first }
    ensures some { 0 < result }
{
    match kind {
        Item::Key => 2,
        Item::Protocol => usize::from(first) + 1,
        Item::Address => 4,
        Item::Address6 => 16,
    }
}

/// Writes an item of a list.
#[tactic(auto, unfolding(crate::specs::ParamWords::item_text))]
fn write_item(text: &mut String, kind: Item, item: &[u8]) -> Result<(), AllocError>
    ensures { OnOk result (string_bytes text.new ≡ string_bytes text.old ++ item_text kind item.now) }
{
    match kind {
        Item::Key => write_key_item(text, item),
        Item::Protocol => write_protocol(text, item),
        Item::Address => write_address(text, item),
        Item::Address6 => write_address6(text, item),
    }
}

/// Writes the key that two octets are.
fn write_key_item(text: &mut String, item: &[u8]) -> Result<(), AllocError>
    ensures { OnOk result (string_bytes text.new ≡ string_bytes text.old ++ key_item item.now) }
{
    match item {
        [a, b] => write_key(text, u16::from_be_bytes([*a, *b])),
        _ => Ok(()),
    }
}

/// Writes a protocol, whose octets stand after their number.
fn write_protocol(text: &mut String, item: &[u8]) -> Result<(), AllocError>
    ensures { OnOk result (string_bytes text.new ≡ string_bytes text.old ++ protocol_item item.now) }
{
    match item {
        [_, octets @ ..] => write_escaped_item(text, octets),
        [] => Ok(()),
    }
}

/// Writes the octets of a protocol.
fn write_escaped_item(text: &mut String, octets: &[u8]) -> Result<(), AllocError>
    ensures { OnOk result (string_bytes text.new ≡ string_bytes text.old ++ flat_map item_octet octets.now) }
{
    for octet in octets {
        write_item_octet(text, *octet)?;
    }
    Ok(())
}

/// Writes an octet of an item of a list.
fn write_item_octet(text: &mut String, octet: u8) -> Result<(), AllocError>
    ensures { OnOk result (string_bytes text.new ≡ string_bytes text.old ++ item_octet octet) }
{
    if octet == b',' || octet == b'\\' {
        write_value_octet(text, b'\\')?;
        write_value_octet(text, octet)
    } else {
        write_value_octet(text, octet)
    }
}

/// Writes an octet of a value outside quotes (RFC 1035, 5.1).
fn write_value_octet(text: &mut String, octet: u8) -> Result<(), AllocError>
    ensures { OnOk result (string_bytes text.new ≡ string_bytes text.old ++ value_octet octet) }
{
    if octet < b'!' || octet > b'~' {
        text.push('\\')?;
        text.push(char::from(b'0' + octet / 100))?;
        text.push(char::from(b'0' + octet / 10 % 10))?;
        text.push(char::from(b'0' + octet % 10))
    } else if octet == b'"' || octet == b'(' || octet == b')' || octet == b';' || octet == b'\\' {
        text.push('\\')?;
        text.push(char::from(octet))
    } else {
        text.push(char::from(octet))
    }
}

/// Writes the address that four octets are.
fn write_address(text: &mut String, item: &[u8]) -> Result<(), AllocError>
    ensures { OnOk result (string_bytes text.new ≡ string_bytes text.old ++ address_item item.now) }
{
    match item {
        [a, b, c, d] => write!(text, "{a}.{b}.{c}.{d}"),
        _ => Ok(()),
    }
}

/// Writes the address of version 6 that 16 octets are, as in the data of AAAA.
fn write_address6(text: &mut String, item: &[u8]) -> Result<(), AllocError>
    ensures { OnOk result (string_bytes text.new ≡ string_bytes text.old ++ address6_item item.now) }
{
    if item.len() != 16 {
        return Ok(());
    }
    let Some(address) = item.first_chunk::<16>() else {
        return Ok(());
    };
    write_groups(text, &Ipv6Addr::from(*address).segments())
}

/// Writes groups of four hexadecimal digits at most with colons between.
fn write_groups(text: &mut String, groups: &[u16]) -> Result<(), AllocError>
    ensures { OnOk result (string_bytes text.new ≡ string_bytes text.old ++ groups_text groups.now) }
{
    let Some((first, others)) = groups.split_first() else {
        return Ok(());
    };
    write!(text, "{first:x}")?;
    for group in others {
        write!(text, ":{group:x}")?;
    }
    Ok(())
}

/// Writes a port after `=`.
fn write_port(text: &mut String, octets: &[u8]) -> Result<(), AllocError>
    ensures { OnOk result (string_bytes text.new ≡ string_bytes text.old ++ port_text octets.now) }
{
    match octets {
        [a, b] => {
            let port = u16::from_be_bytes([*a, *b]);
            write!(text, "={port}")
        }
        _ => Ok(()),
    }
}

/// Writes octets in base64 after `=`.
fn write_base64(text: &mut String, octets: &[u8]) -> Result<(), AllocError>
    ensures { OnOk result (string_bytes text.new ≡ string_bytes text.old ++ base64_text octets.now) }
{
    if octets.is_empty() {
        return Ok(());
    }
    text.push('=')?;
    STANDARD.encode_string(octets, text)?;
    Ok(())
}

/// Writes octets after `=`.
fn write_octets(text: &mut String, octets: &[u8]) -> Result<(), AllocError>
    ensures { OnOk result (string_bytes text.new ≡ string_bytes text.old ++ octets_text octets.now) }
{
    if octets.is_empty() {
        return Ok(());
    }
    text.push('=')?;
    write_value_octets(text, octets)
}

/// Writes the octets of a value.
fn write_value_octets(text: &mut String, octets: &[u8]) -> Result<(), AllocError>
    ensures { OnOk result (string_bytes text.new ≡ string_bytes text.old ++ flat_map value_octet octets.now) }
{
    for octet in octets {
        write_value_octet(text, *octet)?;
    }
    Ok(())
}
