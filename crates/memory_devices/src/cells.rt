//! Cells of versions in which tests run, and servers over them.
ghost use Rattle.std.specs.Prelude.{◌≡◌, IfSome, vec_len};
ghost use Rattle.std.specs.List.{All};
ghost use Rattle.zone_server.specs.Right.{AreNamed};

use dns_engine::{
    FirstZone, Naming, NoEngine, SharedVersion, VersionCell, VersionPublisher, VersionReader,
    ZoneVersions,
};
use snapshot_cell::{Cell, NamedCell, NamedPublisher, NamedReader, Parts, Publisher, Reader};
use std::alloc::Global;
use std::marker::Brand;
use std::sync::Wait;
use zone_server::{Server, ServerLedgers, ServerName};
use zone_tree::{Version, Zone};

/// A cell of versions that is named by a type, with its publisher and its readers.
pub struct NamedParts<Z: FirstZone, N: Naming> {
    /// The cell.
    pub cell: VersionCell<Z, N>,
    /// The publisher.
    pub publisher: VersionPublisher<Z, N>,
    /// The readers.
    pub readers: Vec<VersionReader<N>>,
}

/// The result of a test in a cell of versions.
#[derive(Drop)]
pub struct Played<Z: FirstZone, N: Naming> {
    /// Whether the test passes; None if memory allocation fails.
    pub outcome: Option<bool>,
    /// The publisher.
    pub publisher: VersionPublisher<Z, N>,
    /// The readers.
    pub readers: Vec<VersionReader<N>>,
}

/// A test that runs in a cell of versions in which only the first version of a zone is published.
pub trait Play {
    /// Runs the test with the publisher and two readers, which it returns, and the ledgers of a server. Returns whether it passes.
    fn play<R: Wait, Z: FirstZone, N: ServerName>(
        &self,
        rt: &R,
        alloc: Global,
        cell: &VersionCell<Z, N>,
        publisher: VersionPublisher<Z, N>,
        readers: Vec<VersionReader<N>>,
        ledgers: ServerLedgers,
    ) -> Played<Z, N>
        requires first { publisher.number ≡ 0 }
        requires named { AreNamed N.published N.reserved ledgers };
}

// Keeps what cannot be closed, and waits forever.
fn keep<R: Wait, K, T>(rt: &R, _kept: K) -> T {
    for _ in rt.forever() {}
    unreachable!()
}

/// The cell of versions that starts with a zone, with this number of readers. None if memory allocation fails or the number of readers is over
/// the limit.
pub fn parts_of<Z: FirstZone>(
    alloc: Global,
    zone: Zone,
    readers: usize,
) -> Option<Parts<SharedVersion, ZoneVersions<Z>>>
    requires { zone ≡ Z.zone }
    ensures publisher { IfSome result (λ parts. (parts.publisher.cell ≡ parts.cell) × (parts.publisher.number ≡ 0)) }
    ensures readers { IfSome result (λ parts. All (λ r. r.cell ≡ parts.cell) parts.readers.items × (vec_len parts.readers ≡ readers)) }
{
    limited_parts_of(alloc, zone, readers, u64::MAX)
}

/// The same, with readers that have `grants` grants, or 2^40 if that is less.
pub fn limited_parts_of<Z: FirstZone>(
    alloc: Global,
    zone: Zone,
    readers: usize,
    grants: u64,
) -> Option<Parts<SharedVersion, ZoneVersions<Z>>>
    requires { zone ≡ Z.zone }
    ensures publisher { IfSome result (λ parts. (parts.publisher.cell ≡ parts.cell) × (parts.publisher.number ≡ 0)) }
    ensures readers { IfSome result (λ parts. All (λ r. r.cell ≡ parts.cell) parts.readers.items × (vec_len parts.readers ≡ readers)) }
{
    let first = SharedVersion::new(alloc, Version::first(zone))?;
    Cell::<SharedVersion, ZoneVersions<Z>>::new_limited(alloc, readers, first, grants).ok()
}

/// Converts readers to readers named by their cell, as many as the vector has room for.
fn name_all<N: Naming>(
    mut readers: Vec<Reader<SharedVersion>>,
    mut named: Vec<VersionReader<N>>,
) -> Vec<VersionReader<N>>
    requires { All (λ r. r.cell ≡ N.cell) readers.items }
{
    while let Some(reader) = readers.pop() {
        let _ = named.push(NamedReader::of(reader));
    }
    named
}

/// Closes a cell that is not named by a type. Never returns if a reader is missing or an owner is still in use.
fn end_unnamed<R: Wait, Z: FirstZone>(
    rt: &R,
    cell: Cell<SharedVersion, ZoneVersions<Z>>,
    publisher: Publisher<SharedVersion, ZoneVersions<Z>>,
    readers: Vec<Reader<SharedVersion>>,
)
    requires publisher { publisher.cell ≡ cell }
    requires readers { All (λ r. r.cell ≡ cell) readers.items }
{
    match cell.close(publisher, readers) {
        Ok(_) => {}
        Err(out) => keep(rt, out),
    }
}

/// A cell with its publisher and its readers, named by a type. None if memory allocation fails; the cell is then closed.
pub fn named_parts<R: Wait, Z: FirstZone, N: Naming>(
    rt: &R,
    alloc: Global,
    parts: Parts<SharedVersion, ZoneVersions<Z>>,
) -> Option<NamedParts<Z, N>>
    requires cell { (parts.cell ≡ N.cell) × (parts.publisher.cell ≡ N.cell) }
    requires readers { All (λ r. r.cell ≡ N.cell) parts.readers.items }
    ensures { IfSome result (λ named. named.publisher ≡ parts.publisher) }
{
    let Parts {
        cell,
        publisher,
        readers,
    } = parts;
    let Ok(named) = Vec::with_capacity(alloc, readers.len()) else {
        end_unnamed(rt, cell, publisher, readers);
        return None;
    };
    Some(NamedParts {
        cell: NamedCell::of(cell),
        publisher: NamedPublisher::of(publisher),
        readers: name_all(readers, named),
    })
}

/// Closes a cell and returns its last version. Never returns if a reader is missing or an owner is still in use.
pub fn last_of<R: Wait, Z: FirstZone, N: Naming>(rt: &R, parts: NamedParts<Z, N>) -> SharedVersion {
    let NamedParts {
        cell,
        publisher,
        readers,
    } = parts;
    match cell.close(publisher, readers) {
        Ok(last) => last,
        Err(out) => keep(rt, out),
    }
}

/// Closes a cell. Never returns if a reader is missing or an owner is still in use.
pub fn end<R: Wait, Z: FirstZone, N: Naming>(rt: &R, parts: NamedParts<Z, N>) {
    let _last = last_of(rt, parts);
}

/// A server over a cell, which keeps eight versions.
pub fn server_of<'a, Z: FirstZone, N: ServerName>(
    alloc: Global,
    cell: &'a VersionCell<Z, N>,
    publisher: VersionPublisher<Z, N>,
    reader: VersionReader<N>,
    ledgers: ServerLedgers,
) -> Result<Server<'a, Z, N>, NoEngine<Z, N>>
    requires first { publisher.number ≡ 0 }
    requires named { AreNamed N.published N.reserved ledgers }
{
    Server::new(alloc, cell, publisher, reader, 8, ledgers)
}

/// Runs a test in a cell, then closes the cell. Returns whether the test passes; None if memory allocation fails.
fn play_in<R: Wait, Z: FirstZone, N: ServerName, P: Play>(
    rt: &R,
    alloc: Global,
    parts: Parts<SharedVersion, ZoneVersions<Z>>,
    ledgers: ServerLedgers,
    play: &P,
) -> Option<bool>
    requires cell { (parts.cell ≡ N.cell) × (parts.publisher.cell ≡ N.cell) }
    requires readers { All (λ r. r.cell ≡ N.cell) parts.readers.items }
    requires first { parts.publisher.number ≡ 0 }
    requires named { AreNamed N.published N.reserved ledgers }
{
    let NamedParts {
        cell,
        publisher,
        readers,
    } = named_parts::<R, Z, N>(rt, alloc, parts)?;
    let Played {
        outcome,
        publisher,
        readers,
    } = play.play(rt, alloc, &cell, publisher, readers, ledgers);
    end(
        rt,
        NamedParts {
            cell,
            publisher,
            readers,
        },
    );
    outcome
}

/// Runs a test in a cell that starts with the zone, then closes the cell. Returns whether the test passes; None if memory allocation fails.
fn play_from<R: Wait, Z: FirstZone, P: Play>(
    rt: &R,
    alloc: Global,
    zone: Zone,
    grants: u64,
    play: &P,
) -> Option<bool>
    requires { zone ≡ Z.zone }
{
    let parts = limited_parts_of::<Z>(alloc, zone, 2, grants)?;
    let ledgers = ServerLedgers::new();
    play_in::<R, Z, Brand, P>(rt, alloc, parts, ledgers, play)
}

/// Runs a test in a cell that starts with a zone, then closes the cell. Returns whether the test passes; None if memory allocation fails.
pub fn is_played<R: Wait, P: Play>(rt: &R, alloc: Global, zone: Zone, play: &P) -> Option<bool> {
    is_played_by(rt, alloc, zone, u64::MAX, play)
}

/// The same, with readers that have `grants` grants, or 2^40 if that is less.
pub fn is_played_by<R: Wait, P: Play>(
    rt: &R,
    alloc: Global,
    zone: Zone,
    grants: u64,
    play: &P,
) -> Option<bool> {
    play_from::<R, Brand, P>(rt, alloc, zone, grants, play)
}
