//! Puts one journal in the place of another (own).
ghost use Rattle.journal.specs.Batch.{Messages};
ghost use Rattle.std.specs.Prelude.{◌≡◌, ℕ, List};
ghost use Rattle.dns_rdata.specs.Record.{Record};
ghost use Rattle.dns_message.specs.declared.update.Update.{Update};
ghost use Rattle.store_files.specs.File.{written, synced};
ghost use Rattle.store_compaction.specs.Writer.{recent_of, head_of};
ghost use Rattle.store_compaction.specs.Crash.{IsPlaced};
ghost use Rattle.store_compaction.specs.Stands.{Stands, StandsFrom};
ghost use Rattle.store_compaction.specs.TextWriter.{Wanted as Text, IsWritten};

use crate::event::{CompactionEvent, CompactionLog};
use crate::files::{drop_old_texts, replace_with_next};
use crate::text_writer::TextWriter;
use crate::writer::StoreWriter;
use journal::Head;
use std::alloc::Global;
use std::fs::{File, Files};
use std::sync::Wait;
use store_files::{FileDisk, PairFault, remove_text};

/// The outcome for a zone text.
#[derive(Clone, Copy, PartialEq, Eq)]
pub(crate) enum Placed {
    /// It is still being written, none is being written, or no compaction needs it any more.
    Nothing,
    /// Its journal is now the store's.
    Done,
    /// It could not be written, or its journal could not be put in place.
    Failed,
}

/// Puts the journal of the zone text in place once that text is on disk.
pub(crate) fn put_in_place<
    W: Wait,
    R: Files<File = File> + Alloc + Clone + Drop,
    T: TextWriter,
    N: CompactionLog,
>(
    rt: &W,
    files: &R,
    alloc: Global,
    dir: &str,
    writer: &mut StoreWriter<FileDisk>,
    texts: &mut T,
    events: &mut N,
) -> Placed
    ensures placed { IsPlaced writer.old writer.new }
    ensures recent { recent_of writer.new ≡ recent_of writer.old }
    ensures is_present { (text : List ℕ) (batches : List (List Messages)) (zone : List Record) (updates : List Update) (k : ℕ)
        → Stands written synced text batches zone updates k writer.old (T.wanted texts.old)
        → StandsFrom written synced zone updates writer.new (T.wanted texts.new) × ((head_of writer.new).origin ≡ (head_of writer.old).origin) }
{
    match texts.take(rt) {
        None => Placed::Nothing,
        Some(Ok(head)) => replace(rt, files, alloc, dir, writer, events, head),
        Some(Err(fault)) => {
            events.note(rt, CompactionEvent::NoText(fault));
            Placed::Failed
        }
    }
}

/// Puts the journal in place that belongs to the zone text with this head, which is on disk.
fn replace<W: Wait, R: Files<File = File> + Alloc + Clone + Drop, N: CompactionLog>(
    rt: &W,
    files: &R,
    alloc: Global,
    dir: &str,
    writer: &mut StoreWriter<FileDisk>,
    events: &mut N,
    head: Head,
) -> Placed
    ensures placed { IsPlaced writer.old writer.new }
    ensures recent { recent_of writer.new ≡ recent_of writer.old }
    ensures is_present { (wanted : Text) → IsWritten wanted head → (text : List ℕ) (batches : List (List Messages)) (zone : List Record) (updates : List Update) (k : ℕ)
        → Stands written synced text batches zone updates k writer.old (Some wanted)
        → StandsFrom written synced zone updates writer.new None × ((head_of writer.new).origin ≡ (head_of writer.old).origin) }
{
    let number = head.number;
    match replace_with_next(files, alloc, dir, writer, head) {
        Ok(false) => {
            drop_text(rt, files, alloc, dir, writer.head(), events, number);
            Placed::Nothing
        }
        Ok(true) => {
            events.note(rt, CompactionEvent::Replaced(number));
            if let Err(fault) = drop_old_texts(files, dir, writer) {
                events.note(rt, CompactionEvent::NotRemoved(fault));
            }
            Placed::Done
        }
        Err(PairFault::Before(fault)) => {
            events.note(rt, CompactionEvent::NotReplaced(fault));
            drop_text(rt, files, alloc, dir, writer.head(), events, number);
            Placed::Failed
        }
        Err(PairFault::Unknown(fault)) => {
            events.note(rt, CompactionEvent::Unknown(fault));
            Placed::Failed
        }
    }
}

/// Removes the text of a number that no journal names, nor ever will, since another text is started instead. The text of the store's journal, which has this head, is never
/// removed.
fn drop_text<W: Wait, R: Files, N: CompactionLog>(
    rt: &W,
    files: &R,
    alloc: Global,
    dir: &str,
    head: &Head,
    events: &mut N,
    number: u64,
) {
    if number == head.number {
        return;
    }
    if let Err(fault) = remove_text(files, alloc, dir, number, head) {
        events.note(rt, CompactionEvent::NotRemoved(fault));
    }
}
