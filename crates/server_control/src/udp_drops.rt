//! What the system dropped of the datagrams to the server's addresses (Linux, proc(5): /proc/net/udp and /proc/net/udp6).
use metric_families::Drops;
use std::alloc::{AllocError, Global};
use std::fs::File;
use std::io::{Read, Seek, SeekFrom};
use std::net::{IpAddr, SocketAddr};

/// The files in which the system lists UDP sockets, and the addresses at which the server has some.
pub struct UdpDrops {
    files: Vec<File>,
    addresses: Vec<SocketAddr>,
}

impl Drop for UdpDrops {
    fn drop(self) {
        let UdpDrops {
            files: _,
            addresses: _,
        } = self;
    }
}

impl UdpDrops {
    /// These files. The server has no address yet.
    pub fn new(alloc: Global, files: Vec<File>) -> UdpDrops {
        UdpDrops {
            files,
            addresses: Vec::new(alloc),
        }
    }

    /// The server has sockets at this address, too. The fault is a growth that was refused.
    pub fn watch(&mut self, address: SocketAddr) -> Result<(), AllocError> {
        self.addresses.push(address)?;
        Ok(())
    }

    /// How many datagrams to each address were dropped, by all of its sockets. None where the system doesn't list them. The fault is a request for memory that was refused.
    pub(crate) fn read(&mut self, alloc: Global) -> Result<Option<Vec<Drops>>, AllocError> {
        let Some(text) = read_all(&mut self.files, alloc)? else {
            return Ok(None);
        };
        let mut drops = Vec::new(alloc);
        for address in self.addresses.iter() {
            let address = *address;
            drops.push(Drops {
                address: format!(in alloc; "{address}")?,
                count: dropped_at(text.as_str(), address),
            })?;
        }
        Ok(Some(drops))
    }
}

/// The text of all files. None where one can't be read, or there is none.
fn read_all(files: &mut Vec<File>, alloc: Global) -> Result<Option<String>, AllocError> {
    let mut octets = Vec::new(alloc);
    for file in files.iter_mut() {
        if file.seek(SeekFrom::Start(0)).is_err() || file.read_to_end(&mut octets).is_err() {
            return Ok(None);
        }
    }
    if octets.is_empty() {
        return Ok(None);
    }
    Ok(Some(String::from_utf8_lossy(alloc, &octets)?))
}

/// How many datagrams the sockets at an address dropped, by the lines of sockets.
fn dropped_at(text: &str, address: SocketAddr) -> u64 {
    let mut dropped = 0u64;
    for line in text.lines() {
        dropped = dropped.saturating_add(dropped_by(line, address));
    }
    dropped
}

/// How many datagrams the socket of a line dropped; 0 where it isn't at this address. The second word is its address, the last one how many.
fn dropped_by(line: &str, address: SocketAddr) -> u64 {
    let mut words = line.split_ascii_whitespace();
    let _number = words.next();
    let Some(local) = words.next() else {
        return 0;
    };
    if !is_at(local, address) {
        return 0;
    }
    match words.last() {
        Some(word) => word.parse::<u64>().unwrap_or(0),
        None => 0,
    }
}

/// Whether a local address is this one: hexadecimal digits, of which each eight are 32 bits in the order of the machine, a colon, and the port.
fn is_at(local: &str, address: SocketAddr) -> bool {
    let Some((digits, port)) = local.split_once(':') else {
        return false;
    };
    if u16::from_str_radix(port, 16) != Ok(address.port()) {
        return false;
    }
    match address.ip() {
        IpAddr::V4(ip) => is_word(digits, ip.octets()),
        IpAddr::V6(ip) => are_words(digits, ip.octets()),
    }
}

/// Whether eight hexadecimal digits are these octets, as a number of 32 bits in the order of the machine.
fn is_word(digits: &str, octets: [u8; 4]) -> bool {
    u32::from_str_radix(digits, 16) == Ok(u32::from_ne_bytes(octets))
}

/// Whether thirty-two hexadecimal digits are these octets, each eight of them.
fn are_words(digits: &str, octets: [u8; 16]) -> bool {
    if digits.len() != 32 {
        return false;
    }
    for word in 0..4usize {
        let at = 4 * word;
        let part = [octets[at], octets[at + 1], octets[at + 2], octets[at + 3]];
        match digits.get(8 * word..8 * word + 8) {
            Some(eight) if is_word(eight, part) => {}
            _ => return false,
        }
    }
    true
}
