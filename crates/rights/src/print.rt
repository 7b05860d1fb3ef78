//! Rules as text.
use crate::address::is_ipv4;
use crate::prefix::Prefix;
use crate::rule::{NameScope, Rule, UpdateRight};
use crate::types::TypeWord;
use std::fmt;
use std::net::{Ipv4Addr, Ipv6Addr};

impl fmt::Display for Prefix {
    fn fmt<W: fmt::Write>(&self, f: &mut fmt::Formatter<W>) -> fmt::Result {
        if self.length >= 96 && is_ipv4(self.bits) {
            let address = Ipv4Addr::from_bits((self.bits % (1 << 32)) as u32);
            write!(f, "{address}")?;
            return write_length(f, self.length - 96, 32);
        }
        let address = Ipv6Addr::from_bits(self.bits);
        write!(f, "{address}")?;
        write_length(f, self.length, 128)
    }
}

/// Writes the length of a prefix, unless it is that of an address.
fn write_length<W: fmt::Write>(f: &mut fmt::Formatter<W>, length: u8, whole: u8) -> fmt::Result {
    if length < whole {
        write!(f, "/{length}")?;
    }
    Ok(())
}

impl fmt::Display for UpdateRight {
    fn fmt<W: fmt::Write>(&self, f: &mut fmt::Formatter<W>) -> fmt::Result {
        write!(f, "update")?;
        match &self.names {
            NameScope::Every => {}
            NameScope::Exact(name) => write!(f, " exact {name}")?,
            NameScope::AtOrBelow(name) => write!(f, " at-or-below {name}")?,
        }
        for rtype in &self.types {
            let word = TypeWord(*rtype);
            write!(f, " {word}")?;
        }
        if self.needs_tcp {
            write!(f, " tcp")?;
        }
        Ok(())
    }
}

/// Writes whose rights a rule gives.
fn write_who<W: fmt::Write>(f: &mut fmt::Formatter<W>, rule: &Rule) -> fmt::Result {
    if let Some(key) = &rule.key {
        write!(f, "key {key}")?;
        if rule.prefix.is_some() {
            write!(f, " ")?;
        }
    }
    if let Some(prefix) = rule.prefix {
        write!(f, "{prefix}")?;
    }
    Ok(())
}

/// The rule as [`crate::parse_rule`] reads it.
impl fmt::Display for Rule {
    fn fmt<W: fmt::Write>(&self, f: &mut fmt::Formatter<W>) -> fmt::Result {
        write_who(f, self)?;
        write!(f, ": ")?;
        if let Some(right) = &self.update {
            write!(f, "{right}")?;
            if self.transfer {
                write!(f, ", ")?;
            }
        }
        if self.transfer {
            write!(f, "transfer")?;
        }
        Ok(())
    }
}
