//! Entries of a history.
ghost use Rattle.std.specs.Prelude.{◌≡◌, ◌<◌, IfOk, IfErr};
ghost use Rattle.snapshot_cell.specs.Tokens.{IsUpgraded};

use dns_rdata::Serial;
use snapshot_cell::{NamedReader, NamedStrong, NamedWeak, Names, Naming, Spent};
use std::marker::Model;

/// A version, owned weakly, and its serial. Contracts see both.
#[derive(Drop)]
pub(crate) struct Entry<'a, T: Drop, C: Names<T>, N: Naming> {
    serial: Serial,
    weak: NamedWeak<'a, T, C, N>,
}

impl<'a, T: Drop, C: Names<T>, N: Naming> Model for Entry<'a, T, C, N> {
    ghost use Rattle.weak_history.specs.History.{Entered};

    ghost Value = { Entered T };

    ghost view = { λ a. record { version = a.weak; serial = a.serial.0 } };
}

impl<'a, T: Drop, C: Names<T>, N: Naming> Entry<'a, T, C, N> {
    /// The entry of a version.
    pub(crate) fn new(serial: Serial, weak: NamedWeak<'a, T, C, N>) -> Entry<'a, T, C, N>
        ensures { result ≡ record { version = weak.entry; serial = serial.0 } }
    {
        Entry { serial, weak }
    }

    /// The version's number.
    pub(crate) fn number(&self) -> u64
        ensures { result ≡ self.now.version.number }
    {
        self.weak.number()
    }

    /// The version's serial.
    pub(crate) fn serial(&self) -> Serial
        ensures { result.0 ≡ self.now.serial }
    {
        self.serial
    }

    /// An owner of the version, for a grant of the reader; None where it is buried. [`Spent`] where there is no grant left.
    pub(crate) fn upgrade(
        &mut self,
        reader: &mut NamedReader<T, N>,
    ) -> Result<Option<NamedStrong<'a, T, C, N>>, Spent>
        ensures same { self.new ≡ self.old }
        ensures upgraded { IfOk result (λ found. IsUpgraded reader.old reader.new self.old.version found × (0 < reader.old.left)) }
        ensures spent { IfErr result (λ _. (reader.old.left ≡ 0) × (reader.new ≡ reader.old)) }
    {
        self.weak.upgrade(reader)
    }
}
