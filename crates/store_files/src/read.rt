//! Reading a store (own).
ghost use Rattle.std.specs.Prelude.{◌≡◌, ◌↔◌, IsTrue, ℕ, MatchOption, IfOk};
ghost use Rattle.journal.specs.Head.{IsHeadFault};
ghost use Rattle.journal.specs.declared.heads.HeadFault.{HeadFault};
ghost use Rattle.store_files.specs.Names.{Names};
ghost use Rattle.store_files.specs.Read.{IsTextOf};
ghost use Rattle.store_files.specs.Still.{IsInFront, StandsStill};

use crate::files::read_there;
use crate::names::{JOURNAL, path_of, text_path};
use journal::read_head;
use std::alloc::Global;
use std::fs::Files;
use std::io::{self, ErrorKind};

/// How often a store that changes while it is read is read again.
const TRIES: u64 = 100;

/// The zone text that a journal names, as it was found.
#[derive(Drop)]
pub(crate) enum Text {
    /// Its octets.
    There(Vec<u8>),
    /// The text of this number doesn't exist.
    Gone(u64),
}

/// The number of the zone text that a journal names; None where the journal doesn't begin with a head.
pub(crate) fn number_in(journal: &[u8]) -> Option<u64>
    ensures { MatchOption result ((fault : HeadFault) × IsHeadFault journal.now fault) (λ number. Names journal.now number) }
{
    match read_head(journal) {
        Ok((head, _, _)) => Some(head.number),
        Err(_) => None,
    }
}

/// Reads the zone text that a journal names. Where the journal doesn't begin with a head it names no text, and none is read: the text's octets are none. It allocates memory.
pub(crate) fn read_text<R: Files>(
    rt: &R,
    alloc: Global,
    dir: &str,
    journal: &[u8],
) -> io::Result<Text>
    ensures named { IfOk result (λ text. IsTextOf journal.now text) }
{
    let Some(number) = number_in(journal) else {
        return Ok(Text::There(Vec::new(alloc)));
    };
    let path = text_path(alloc, dir, number)?;
    match read_there(rt, alloc, &path)? {
        Some(text) => Ok(Text::There(text)),
        None => Ok(Text::Gone(number)),
    }
}

/// The octets without the zeros at their end.
fn in_front_of_zeros(octets: &[u8]) -> &[u8]
    ensures { IsInFront octets.now result.now }
{
    let mut front = octets;
    while let Some((last, before)) = front.split_last() {
        if *last != 0 {
            break;
        }
        front = before;
    }
    front
}

/// Whether octets of a journal that were read are still at its start when it is read again, except for zeros at their end: these are room, which the next
/// batches overwrite. If not, the journal was cut after a batch that failed, or was replaced: what was read may mix a part of that batch with what was written after the
/// cut, and then it is no journal.
fn stands_still(octets: &[u8], again: &[u8]) -> bool
    ensures { IsTrue result ↔ StandsStill octets.now again.now }
{
    again.starts_with(in_front_of_zeros(octets))
}

/// Reads the zone text and the journal of a store that another process may have locked; None where they change meanwhile. It allocates memory.
fn read_once<R: Files>(
    rt: &R,
    alloc: Global,
    dir: &str,
    path: &str,
) -> io::Result<Option<(Vec<u8>, Vec<u8>)>> {
    let Some(journal) = read_there(rt, alloc, path)? else {
        return Err(io::Error::new(ErrorKind::NotFound, "the directory has no journal"));
    };
    let text = read_text(rt, alloc, dir, &journal)?;
    let Some(again) = read_there(rt, alloc, path)? else {
        return Ok(None);
    };
    judged_again(text, journal, &again)
}

/// The zone text and the journal that were read, where the journal is unchanged when it is read again; None where it isn't.
fn judged_again(
    text: Text,
    journal: Vec<u8>,
    again: &[u8],
) -> io::Result<Option<(Vec<u8>, Vec<u8>)>>
    ensures read { IfOk result (λ found. MatchOption found (StandsStill journal.items again.now → ⊥)
        (λ pair. (pair.1 ≡ journal) × StandsStill journal.items again.now)) }
{
    if !stands_still(&journal, again) {
        return Ok(None);
    }
    match text {
        Text::There(text) => Ok(Some((text, journal))),
        Text::Gone(_) => Err(io::Error::new(
            ErrorKind::NotFound,
            "the zone text that the journal names isn't there",
        )),
    }
}

/// Reads the zone text and the journal of a store that another process may have locked. The journal is read before the text, and again after it: where what was read of it has
/// changed, all is read again. So a part of a batch that failed is never read together with later batches; a last batch that isn't on the disk yet may be read.
/// It allocates memory.
pub fn read_store<R: Files>(rt: &R, alloc: Global, dir: &str) -> io::Result<(Vec<u8>, Vec<u8>)> {
    let path = path_of(alloc, dir, JOURNAL)?;
    for _ in 0..TRIES {
        if let Some(pair) = read_once(rt, alloc, dir, &path)? {
            return Ok(pair);
        }
    }
    Err(io::Error::new(
        ErrorKind::WouldBlock,
        "the store changes whenever it is read",
    ))
}
