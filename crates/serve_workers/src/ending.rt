//! Ends cells that are no longer in use.
ghost use Rattle.std.specs.Prelude.{◌≡◌};
ghost use Rattle.std.specs.List.{All};

use snapshot_cell::{
    Cell, NamedCell, NamedPublisher, NamedReader, NamedStillOut, Names, Naming, Publisher, Reader,
    StillOut,
};
use std::sync::Wait;

/// Ends a cell whose tokens have all come back, and drops the value published last. Retries until no owner of a version is left.
pub(crate) fn end_cell<R: Wait, T: Drop, C: Names<T>>(
    rt: &R,
    cell: Cell<T, C>,
    publisher: Publisher<T, C>,
    readers: Vec<Reader<T>>,
)
    requires publisher { publisher.cell ≡ cell }
    requires readers { All (λ r. r.cell ≡ cell) readers.items }
{
    let mut tried = cell.close(publisher, readers);
    for _ in rt.forever() {
        let StillOut {
            cell,
            publisher,
            readers,
            in_use: _,
        } = match tried {
            Ok(_) => return,
            Err(out) => out,
        };
        tried = cell.close(publisher, readers);
    }
    unreachable!()
}

/// The same as [`end_cell`] for a named cell.
pub(crate) fn end_named<R: Wait, T: Drop, C: Names<T>, N: Naming>(
    rt: &R,
    cell: NamedCell<T, C, N>,
    publisher: NamedPublisher<T, C, N>,
    readers: Vec<NamedReader<T, N>>,
) {
    let mut tried = cell.close(publisher, readers);
    for _ in rt.forever() {
        let NamedStillOut {
            cell,
            publisher,
            readers,
            in_use: _,
        } = match tried {
            Ok(_) => return,
            Err(out) => out,
        };
        tried = cell.close(publisher, readers);
    }
    unreachable!()
}
