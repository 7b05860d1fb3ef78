//! Records as they are sent (RFC 1035, 4.1.3).
ghost use Rattle.std.specs.Prelude.{◌≡◌, IfOk};
ghost use Rattle.std.specs.Option.{is_some, option_map};
ghost use Rattle.dns_rdata.specs.Data.{data_of};

use crate::form::{has_form, lowered};
use crate::numbers::{Class, RType};
use dns_name::Name;
use std::alloc::{AllocError, Global};
use std::marker::Model;

/// A record as it is sent, of any class and type: in an update its class and its TTL say what is to be there or to be
/// done, and it may have no data (RFC 1035, 4.1.3; RFC 2136, 2.4 and 2.5).
pub struct RawRecord {
    /// The name that it stands at.
    pub owner: Name,
    /// Its type.
    pub rtype: RType,
    /// Its class.
    pub class: Class,
    /// Its TTL in seconds, of 32 bits; a TTL of a zone has 31 (RFC 2181, 8).
    pub ttl: u32,
    /// The octets of its data, names in full.
    pub octets: Vec<u8>,
}

impl Drop for RawRecord {
    fn drop(self) {
        let RawRecord {
            owner: _,
            rtype: _,
            class: _,
            ttl: _,
            octets: _,
        } = self;
    }
}

impl Model for RawRecord {
    ghost use Rattle.dns_rdata.specs.Raw.{RawRecord as Raw};

    ghost Value = { Raw };

    ghost view = { λ a. record {
      owner = a.owner;
      rtype = a.rtype.0;
      class = a.class.0;
      ttl = a.ttl;
      octets = a.octets.items;
    } };
}

impl RType {
    /// Whether octets, of any number, are data of the type, names in full; none are of a metatype (RFC 1035, 3.3 and
    /// 3.4.1; RFC 2782; RFC 3596, 2.2; RFC 3597, 3). It takes no memory.
    pub fn has_data(self, octets: &[u8]) -> bool
        ensures { result ≡ is_some (data_of self.0 octets.now) }
    {
        has_form(self, octets)
    }

    /// The data octets that these octets, of any number, spell for the type, names in full: the same octets with the names
    /// in lower case. None where they haven't the type's form, and of a metatype (RFC 1035, 3.3 and 3.4.1; RFC 2782;
    /// RFC 3596, 2.2; RFC 3597, 3). An `Err` only where a growth was refused.
    pub fn data_octets(self, alloc: Global, octets: &[u8]) -> Result<Option<Vec<u8>>, AllocError>
        ensures { IfOk result (λ found. option_map (λ own. own.items) found ≡ data_of self.0 octets.now) }
    {
        if !has_form(self, octets) {
            return Ok(None);
        }
        let own = lowered(alloc, self, octets)?;
        Ok(Some(own.as_slice().to_vec(alloc)?))
    }
}
