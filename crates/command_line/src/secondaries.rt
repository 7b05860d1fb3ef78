//! The secondaries that are notified of each version of the zone (RFC 1996), as given on the command line.
use crate::fault::CommandFault;
use clap::ArgMatches;
use dns_name::Name;
use std::alloc::{AllocError, Global};
use std::net::{IpAddr, Ipv4Addr, Ipv6Addr, SocketAddr};

/// The maximum number of secondaries (own).
pub const MAX_SECONDARIES: usize = 32;

/// The option for a secondary to notify of each version.
pub const NOTIFY: &str = "notify";

/// The word before the name of a key.
const KEY: &str = "key";

/// The default port of a secondary (RFC 1035, 4.2).
const DNS_PORT: u16 = 53;

/// A secondary, as given on the command line.
pub struct Secondary {
    /// Its address and its port.
    pub address: SocketAddr,
    /// The source address of its notifications, if one is given.
    pub from: Option<IpAddr>,
    /// The name of the key by which its notifications are signed, if one is given.
    pub key: Option<Name>,
}

// Written out: a derived drop is proved again in each crate that drops such a value.
impl Drop for Secondary {
    fn drop(self) {
        let Secondary {
            address: _,
            from: _,
            key: _,
        } = self;
    }
}

/// The secondaries given by the option, each as `ADDR[:PORT][@FROM]`, with ` key NAME` after it if its notifications are signed: at most [`MAX_SECONDARIES`], no two with the same address and port.
///
/// An error is the first value that is not of this form, exceeds the maximum or repeats an address, or lack of memory.
pub fn secondaries_of<'a>(
    alloc: Global,
    found: &ArgMatches<'a>,
) -> Result<Vec<Secondary>, CommandFault<'a>> {
    let mut secondaries: Vec<Secondary> = Vec::new(alloc);
    let Some(words) = found.get_strs(NOTIFY) else {
        return Ok(secondaries);
    };
    for word in words {
        let Some(secondary) = secondary_of(word) else {
            return Err(CommandFault::Notify(*word));
        };
        if secondaries.len() >= MAX_SECONDARIES {
            return Err(CommandFault::Secondaries(*word));
        }
        if secondaries
            .iter()
            .any(|other| other.address == secondary.address)
        {
            return Err(CommandFault::SecondaryTwice(*word));
        }
        if secondaries.push(secondary).is_err() {
            return Err(CommandFault::from(AllocError));
        }
    }
    Ok(secondaries)
}

/// The secondary given by a value. None if the value has another form, or if its two addresses differ in family.
fn secondary_of(value: &str) -> Option<Secondary> {
    let (word, key) = match value.split_once(' ') {
        None => (value, None),
        Some((word, rest)) => (word, Some(key_of(rest)?)),
    };
    let (to, from) = match word.split_once('@') {
        None => (word, None),
        Some((to, from)) => (to, Some(from.parse::<IpAddr>().ok()?)),
    };
    let address = match to.parse::<SocketAddr>() {
        Ok(address) => address,
        Err(_) => SocketAddr::new(to.parse::<IpAddr>().ok()?, DNS_PORT),
    };
    match from {
        Some(from) if from.is_ipv4() != address.is_ipv4() => None,
        _ => Some(Secondary { address, from, key }),
    }
}

/// The key's name in `key NAME`, in lower case. None if the words have another form.
fn key_of(words: &str) -> Option<Name> {
    let (first, name) = words.trim_ascii().split_once(' ')?;
    if first != KEY {
        return None;
    }
    let name = Name::from_text(name.trim_ascii().as_bytes(), &Name::root()).ok()?;
    Some(name.fold())
}

/// The source address for notifying a secondary: the one given for it; else the first listening address of its family; else the wildcard of that
/// family, so that routing picks one.
pub fn source_of(secondary: &Secondary, listen: &[SocketAddr]) -> IpAddr {
    if let Some(from) = secondary.from {
        return from;
    }
    for address in listen {
        if address.is_ipv4() == secondary.address.is_ipv4() {
            return address.ip();
        }
    }
    if secondary.address.is_ipv4() {
        IpAddr::V4(Ipv4Addr::new(0, 0, 0, 0))
    } else {
        IpAddr::V6(Ipv6Addr::new(0, 0, 0, 0, 0, 0, 0, 0))
    }
}

/// Whether routing picks the source address for any of the secondaries, given the listening addresses.
pub fn is_routed(secondaries: &[Secondary], listen: &[SocketAddr]) -> bool {
    secondaries
        .iter()
        .any(|secondary| source_of(secondary, listen).is_unspecified())
}
