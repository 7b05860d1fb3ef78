//! Names lent from where they stand.
ghost use Rattle.std.specs.Prelude.{◌≡◌, ◌==◌, if◌then◌else◌, [], None, IfSome, unwrap_or};
ghost use Rattle.dns_name.specs.Labels.{IsWire};
ghost use Rattle.dns_name.specs.Name.{is_same};
ghost use Rattle.dns_rdata.specs.Data.{target_of};
ghost use Rattle.dns_rdata.specs.Numbers.{type_CNAME};

use crate::data::RData;
use dns_name::{Name, StoredName};
use std::marker::Model;

/// The octets of the root (RFC 1035, 3.1).
const ROOT: &[u8] = &[0];

/// Where a lent name stands.
#[derive(Drop)]
pub(crate) enum Source<'a> {
    /// Nowhere: it is the root.
    Root,
    /// In a name, as it is spelt there.
    Name(&'a Name),
    /// In a name that a zone keeps.
    Stored(&'a StoredName),
    /// In an alias's data (RFC 1035, 3.3.1).
    Target(&'a RData),
}

/// A name lent from where it stands: no octet of it is copied before [`LentName::to_name`]. Contracts see the list of its
/// labels.
#[derive(Drop)]
pub struct LentName<'a> {
    source: Source<'a>,
}

impl<'a> Model for LentName<'a> {
    ghost use Rattle.std.specs.Prelude.{ℕ, List};

    ghost Value = { List (List ℕ) };

    ghost use Rattle.dns_rdata.specs.Lent.{name_lent};

    ghost view = { λ a. name_lent a.source };
}

impl<'a> LentName<'a> {
    /// The root, which stands nowhere.
    pub fn root() -> LentName<'a>
        ensures { result ≡ [] }
    {
        LentName {
            source: Source::Root,
        }
    }

    /// A name as it is spelt.
    pub fn spelt(name: &'a Name) -> LentName<'a>
        ensures { result ≡ name.now }
    {
        LentName {
            source: Source::Name(name),
        }
    }

    /// A name that a zone keeps, in lower case.
    pub fn stored(name: &'a StoredName) -> LentName<'a>
        ensures { result ≡ name.now }
    {
        LentName {
            source: Source::Stored(name),
        }
    }

    /// The name that an alias of these data stands for (RFC 1035, 3.3.1).
    pub fn target(rdata: &'a RData) -> LentName<'a>
        requires { rdata.now.rtype ≡ type_CNAME }
        ensures { result ≡ unwrap_or (target_of rdata.now.octets) [] }
    {
        LentName {
            source: Source::Target(rdata),
        }
    }

    /// The octets of the name, where it stands somewhere written in full; None of a name that a zone keeps (RFC 1035, 3.1).
    pub fn octets(&self) -> Option<&[u8]>
        ensures { IfSome result (λ octets. IsWire octets.now self.now) }
    {
        match &self.source {
            Source::Root => Some(ROOT),
            Source::Name(name) => Some(name.wire()),
            Source::Stored(_) => None,
            Source::Target(rdata) => rdata.target_octets(),
        }
    }

    /// Whether this is another name, without regard to case (RFC 4343, 3).
    pub fn is_same(&self, name: &Name) -> bool
        ensures { result ≡ is_same self.now name.now }
    {
        match self.octets() {
            Some(octets) => name.is_spelt_by(octets),
            None => self.to_name() == *name,
        }
    }

    /// The name itself. It takes no memory.
    pub fn to_name(&self) -> Name
        ensures { result ≡ self.now }
    {
        match &self.source {
            Source::Root => Name::root(),
            Source::Name(name) => name.copy(),
            Source::Stored(name) => name.to_name(),
            Source::Target(rdata) => rdata.target().unwrap_or(Name::root()),
        }
    }
}

/// The octets of the name that an alias stands for; those of the root of data of another type (RFC 1035, 3.3.1).
fn octets_of(rdata: &RData) -> &[u8]
    ensures { IsWire result.now (unwrap_or (if rdata.now.rtype == type_CNAME then target_of rdata.now.octets else None) []) }
{
    rdata.target_octets().unwrap_or(ROOT)
}
