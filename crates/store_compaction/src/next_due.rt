//! The next zone text (own).
ghost use Rattle.std.specs.Prelude.{◌≡◌, ◌≢◌, ℕ, true, List, None};
ghost use Rattle.dns_rdata.specs.Record.{Record};
ghost use Rattle.dns_message.specs.declared.update.Update.{Update};
ghost use Rattle.store_files.specs.File.{written, synced};
ghost use Rattle.journal.specs.Batch.{Messages};
ghost use Rattle.journal.specs.Log.{is_stuck};
ghost use Rattle.store_compaction.specs.Writer.{log_of, recent_of, head_of, under_way_of};
ghost use Rattle.store_compaction.specs.Stands.{Stands};

use crate::event::{CompactionEvent, CompactionLog};
use crate::text_writer::TextWriter;
use crate::writer::StoreWriter;
use std::alloc::Global;
use std::sync::Wait;
use store_files::FileDisk;

/// Whether another zone text is due, for a journal that had `had` bytes after the last one: it accepts no more batches, the last text failed, or it has more than `most` bytes
/// and twice as many as it had.
pub(crate) fn is_due(writer: &StoreWriter<FileDisk>, most: u64, had: u64) -> bool
    ensures stuck { is_stuck (log_of writer.now) ≡ true → result ≡ true }
    ensures under_way { under_way_of writer.now ≢ None → result ≡ true }
{
    let len = writer.log().len();
    writer.log().is_stuck() || writer.is_compacting() || (len > most && len / 2 > had)
}

/// Starts the next zone text, at once or a few seconds later. Returns whether it is started. The store's journal stays the same.
pub(crate) fn begin_next<W: Wait, T: TextWriter, N: CompactionLog>(
    rt: &W,
    alloc: Global,
    writer: &mut StoreWriter<FileDisk>,
    texts: &mut T,
    events: &mut N,
    later: bool,
) -> bool
    ensures recent { recent_of writer.new ≡ recent_of writer.old }
    ensures head { head_of writer.new ≡ head_of writer.old }
    ensures log { log_of writer.new ≡ log_of writer.old }
    ensures is_present { (text : List ℕ) (batches : List (List Messages)) (zone : List Record) (updates : List Update) (k : ℕ)
        → Stands written synced text batches zone updates k writer.old (T.wanted texts.old)
        → Stands written synced text batches zone updates k writer.new (T.wanted texts.new) }
{
    let Ok(Some(next)) = writer.begin_compaction(rt, alloc) else {
        events.note(rt, CompactionEvent::NotBegun);
        return false;
    };
    let number = next.number;
    match texts.write(rt, alloc, next, writer.head(), later) {
        Ok(()) => {
            events.note(rt, CompactionEvent::Started(number));
            true
        }
        Err(fault) => {
            events.note(rt, CompactionEvent::NoText(fault));
            false
        }
    }
}
