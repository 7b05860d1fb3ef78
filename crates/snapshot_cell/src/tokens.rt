//! The tokens of a cell: its publisher, and its readers.
ghost use Rattle.std.specs.Prelude.{◌≡◌, ◌+◌};
ghost use Rattle.cell_core.specs.Words.{notes};
ghost use Rattle.counted_handles.specs.History.{IsHistory};
ghost use Rattle.snapshot_cell.specs.Tokens.{IsLastOf};

use atomic_table::Badge;
use cell_core::NOTES;
use counted_handles::{Names, View};
use std::marker::{Model, PhantomData};
use std::snapshot::Snapshot;

/// How many readers a cell may have (own).
pub const READERS: usize = 64;

/// How many loads a reader can make (own).
pub(crate) const LOADS: u64 = 1 << 40;

/// One who loads. Contracts see its cell, the values that it has seen published, the grants that it has left, and the numbers that it has
/// seen buried.
#[derive(Drop)]
pub struct Reader<T> {
    pub(crate) badge: Badge<View<T>>,
    pub(crate) left: u64,
}

impl<T> Model for Reader<T> {
    ghost use Rattle.snapshot_cell.specs.Tokens.{ReaderState, reader_coded, seen_in, gone_in, IsReader};

    ghost Value = { ReaderState T };

    ghost coded = { reader_coded T.code };

    ghost view = { λ a. record { cell = a.badge.table_id; seen = seen_in a.badge.views; left = a.left; gone = gone_in a.badge.views } };

    ghost invariant = { λ a. IsReader a.badge.table_id a.badge.views a.left };
}

/// The one who publishes. Contracts see its cell, the values that are published, the last one with its number, how many readers there are,
/// how many weak owners it has given, and how many free slots it has counted and not used since.
#[derive(Drop)]
pub struct Publisher<T, C: Names<T>> {
    pub(crate) badge: Badge<View<T>>,
    pub(crate) spare: Badge<View<T>>,
    pub(crate) number: u64,
    pub(crate) last: Snapshot<T>,
    pub(crate) readers: usize,
    pub(crate) noted: u64,
    pub(crate) ready: usize,
    pub(crate) names: PhantomData<C>,
}

impl<T, C: Names<T>> Model for Publisher<T, C> {
    ghost use Rattle.snapshot_cell.specs.Tokens.{PublisherState, publisher_coded, published_in, IsPublisher};

    ghost Value = { PublisherState T };

    ghost coded = { publisher_coded T.code };

    ghost view = { λ a. record { cell = a.badge.table_id; published = published_in a.badge.views; number = a.number; value = a.last.value; readers = a.readers; noted = a.noted; ready = a.ready } };

    ghost invariant = { λ a. IsPublisher C.begins C.follows a.badge.table_id a.badge.id a.badge.views a.spare.table_id a.spare.views a.number a.last.value a.readers a.noted a.ready };
}

impl<T> Reader<T> {
    /// The grants that are left: as many loads can be made.
    pub fn left(&self) -> u64
        ensures { result ≡ self.now.left }
    {
        self.left
    }
}

impl<T, C: Names<T>> Publisher<T, C> {
    /// The number of the version published last.
    pub fn last_number(&self) -> u64
        ensures number { result ≡ self.now.number }
        ensures history { IsHistory C.begins C.follows self.now.published }
        ensures last { IsLastOf self.now.published (record { number = self.now.number; value = self.now.value }) }
    {
        self.number
    }

    /// How many weak owners more it can give.
    pub fn left(&self) -> u64
        ensures { result + self.now.noted ≡ notes }
    {
        NOTES - self.noted
    }
}
