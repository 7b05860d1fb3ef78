//! The right to publish in a server, which has one holder at a time (own).
ghost use Rattle.std.specs.Prelude.{◌≡◌, ℕ};
ghost use Rattle.zone_server.specs.Right.{AreNamed};

use snapshot_cell::Naming;
use std::marker::{Brand, PhantomData};
use std::sync::ledger::{Blank, Book, Ledger, Share};

/// The names of a server's ledgers, besides that of its cell.
pub trait ServerName: Naming {
    /// The name of the ledger that counts published versions.
    ghost published: { ℕ };

    /// The name of the ledger that counts reserved versions.
    ghost reserved: { ℕ };
}

impl ServerName for Brand {
    ghost published = { 0 };

    ghost reserved = { 0 };
}

/// The ledger of how many versions are published.
pub struct Published<N: ServerName> {
    marker: PhantomData<N>,
}

impl<N: ServerName> Ledger for Published<N> {
    ghost name = { N.published };

    ghost parts = { 1 };
}

/// The ledger of how many further versions are reserved for the publisher.
pub struct Reserved<N: ServerName> {
    marker: PhantomData<N>,
}

impl<N: ServerName> Ledger for Reserved<N> {
    ghost name = { N.reserved };

    ghost parts = { 1 };
}

/// The ledgers of a server before it is created, which count nothing yet. They have no bytes.
#[derive(Drop)]
pub struct ServerLedgers {
    /// The ledger of published versions.
    pub published: Blank,
    /// The ledger of reserved versions.
    pub reserved: Blank,
}

impl ServerLedgers {
    /// Ledgers with names that no other ledger has.
    pub fn new() -> ServerLedgers
        ensures { AreNamed result.published.name result.reserved.name result }
    {
        ServerLedgers {
            published: Blank::new(1),
            reserved: Blank::new(1),
        }
    }
}

/// The right to publish in a server, of which there is only one. Its holder knows how many versions are published, and how many more are reserved for it.
pub struct PublishRight<N: ServerName> {
    pub(crate) published: Share<Published<N>>,
    pub(crate) reserved: Share<Reserved<N>>,
    pub(crate) room: u64,
    ghost whole: { published.parts ≡ 1 },
    ghost all: { reserved.parts ≡ 1 },
    ghost is: { reserved.amount ≡ room },
}

impl<N: ServerName> Drop for PublishRight<N> {
    fn drop(self) {
        let PublishRight {
            published: _,
            reserved: _,
            room: _,
        } = self;
    }
}

impl<N: ServerName> PublishRight<N> {
    /// Gives up all reserved versions.
    pub(crate) fn release(&mut self, reserved: &mut Book<Reserved<N>>)
        ensures total { reserved.new.total ≡ 0 }
        ensures right { (self.new.reserved.amount ≡ 0) × (self.new.published ≡ self.old.published) }
    {
        reserved.audit(&mut self.reserved);
        reserved.sub(&mut self.reserved, self.room);
        self.room = 0;
    }

    /// Reserves so many versions, when none is reserved.
    pub(crate) fn reserve(&mut self, reserved: &mut Book<Reserved<N>>, room: u64)
        requires { (self.old.reserved.amount ≡ 0) × (reserved.old.total ≡ 0) }
        ensures total { reserved.new.total ≡ room }
        ensures right { (self.new.reserved.amount ≡ room) × (self.new.published ≡ self.old.published) }
    {
        reserved.add(&mut self.reserved, room);
        self.room = room;
    }
}
