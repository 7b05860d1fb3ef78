//! Addresses as numbers of 128 bits, and the prefixes that have them.
ghost use Rattle.std.specs.Prelude.{◌≡◌, ◌≤◌, ◌+◌, ◌-◌, false, IfOk};
ghost use Rattle.rights.specs.Address.{number_of, shares_front, is_ipv4, has_address, has_prefix, has_rest, bits_in_front};

use crate::fault::RuleFault;
use crate::prefix::Prefix;
use std::net::IpAddr;

/// An address as a number of 128 bits, an IPv4 address as its IPv4-mapped IPv6 address (RFC 4291, 2.5.5.2).
pub(crate) fn number_of(address: IpAddr) -> u128
    ensures { result ≡ number_of address }
{
    match address {
        IpAddr::V4(ip) => {
            let [a, b, c, d] = ip.octets();
            u128::from_be_bytes([0, 0, 0, 0, 0, 0, 0, 0, 0, 0, 255, 255, a, b, c, d])
        }
        IpAddr::V6(ip) => u128::from_be_bytes(ip.octets()),
    }
}

/// Whether a prefix has an address, as numbers of 128 bits: an IPv4 address only if it is a prefix of IPv4 addresses.
pub(crate) fn has_address(prefix: &Prefix, address: u128) -> bool
    ensures { result ≡ has_address prefix.now address }
{
    shares_front(prefix.length, prefix.bits, address) && (prefix.length >= 96 || !is_ipv4(address))
}

/// Whether a prefix, if there is one, has an address.
pub(crate) fn has_prefix(prefix: &Option<Prefix>, address: u128) -> bool
    ensures { result ≡ has_prefix prefix.now address }
{
    match prefix {
        None => true,
        Some(prefix) => has_address(prefix, address),
    }
}

/// Whether a number of 128 bits is that of an IPv4 address.
pub(crate) fn is_ipv4(address: u128) -> bool
    ensures { result ≡ is_ipv4 address }
{
    address >> 32 == 0xffff
}

/// Whether two numbers of 128 bits begin with the same bits, so many of them.
fn shares_front(length: u8, a: u128, b: u128) -> bool
    requires { length ≤ 128 }
    ensures { result ≡ shares_front length a b }
{
    if length == 0 {
        return true;
    }
    let rest = 128 - length;
    a >> rest == b >> rest
}

/// Whether a number of 128 bits has bits set after the first, so many of them.
fn has_rest(length: u8, bits: u128) -> bool
    requires { length ≤ 128 }
    ensures { result ≡ has_rest length bits }
{
    if length == 0 {
        return bits != 0;
    }
    bits % (1 << (128 - length)) != 0
}

/// The prefix that a word is: an address, or one, a slash and a number of bits, with no bit set after them.
pub fn parse_prefix(word: &str) -> Result<Prefix, RuleFault<'_>>
    ensures { IfOk result (λ prefix. has_rest prefix.length prefix.bits ≡ false) }
{
    let Some((front, digits)) = word.split_once('/') else {
        let Ok(address) = word.parse::<IpAddr>() else {
            return Err(RuleFault::Address(word));
        };
        return prefix_of(word, address, 128 - bits_in_front(address));
    };
    let Ok(address) = front.parse::<IpAddr>() else {
        return Err(RuleFault::Address(word));
    };
    let Some(length) = length_of(digits) else {
        return Err(RuleFault::Length(word));
    };
    if length > 128 - bits_in_front(address) {
        return Err(RuleFault::Length(word));
    }
    prefix_of(word, address, length)
}

/// How many bits of 128 come before those of an address.
fn bits_in_front(address: IpAddr) -> u8
    ensures front { result ≡ bits_in_front address }
    ensures few { result ≤ 96 }
{
    match address {
        IpAddr::V4(_) => 96,
        IpAddr::V6(_) => 0,
    }
}

/// The number that one to three digits are.
fn length_of(digits: &str) -> Option<u8> {
    if !digits.bytes().all(|digit| digit.is_ascii_digit()) {
        return None;
    }
    digits.parse::<u8>().ok()
}

/// The prefix of the addresses that begin as one does, in so many bits. `Rest` where bits are set after them.
fn prefix_of(word: &str, address: IpAddr, length: u8) -> Result<Prefix, RuleFault<'_>>
    requires { length ≤ 128 - bits_in_front address }
    ensures bits { IfOk result (λ prefix. prefix.bits ≡ number_of address) }
    ensures length { IfOk result (λ prefix. prefix.length ≡ bits_in_front address + length) }
    ensures none { IfOk result (λ prefix. has_rest prefix.length prefix.bits ≡ false) }
{
    let bits = number_of(address);
    let length = bits_in_front(address) + length;
    if has_rest(length, bits) {
        return Err(RuleFault::Rest(word));
    }
    Ok(Prefix { bits, length })
}
