//! Rules, each of which gives rights.
use crate::prefix::Prefix;
use dns_name::Name;
use dns_rdata::RType;

/// Names at which records may be updated.
pub enum NameScope {
    /// Each name.
    Every,
    /// This name alone.
    Exact(Name),
    /// This name, and each name below it (RFC 1034, 3.1).
    AtOrBelow(Name),
}

// Written out: a derived drop is proved again in each crate that drops such a value.
impl Drop for NameScope {
    fn drop(self) {
        match self {
            NameScope::Every => {}
            NameScope::Exact(_) => {}
            NameScope::AtOrBelow(_) => {}
        }
    }
}

/// A right to update records (RFC 2136, 3.3).
pub struct UpdateRight {
    /// The names at which it holds.
    pub names: NameScope,
    /// The types of which it holds; every type if there are none.
    pub types: Vec<RType>,
    /// Whether it holds over TCP alone.
    pub needs_tcp: bool,
}

// Written out: a derived drop is proved again in each crate that drops such a value.
impl Drop for UpdateRight {
    fn drop(self) {
        let UpdateRight {
            names: _,
            types: _,
            needs_tcp: _,
        } = self;
    }
}

/// A rule: the rights of those who ask from the addresses of a prefix, or by a key.
pub struct Rule {
    /// The name of the key by which their requests are signed (RFC 8945), in lower case. None if they aren't signed.
    pub key: Option<Name>,
    /// The addresses that they ask from. None if from any.
    pub prefix: Option<Prefix>,
    /// Whether they may transfer the zone (RFC 5936, 5).
    pub transfer: bool,
    /// What they may update, if anything.
    pub update: Option<UpdateRight>,
}

// Written out: a derived drop is proved again in each crate that drops such a value.
impl Drop for Rule {
    fn drop(self) {
        let Rule {
            key: _,
            prefix: _,
            transfer: _,
            update: _,
        } = self;
    }
}
