//! Laws of compacted stores. Each is the contract of a function that does nothing.
ghost use Rattle.std.specs.Prelude.{◌≡◌, ◌+◌, ◌++◌, ℕ, List, length};
ghost use Rattle.std.specs.declared.io.Error.{Error as IoError};
ghost use Rattle.dns_rdata.specs.Record.{Record};
ghost use Rattle.dns_message.specs.declared.update.Update.{Update};
ghost use Rattle.zone_tree.specs.Version.{Version};
ghost use Rattle.update_core.specs.Act.{replay};
ghost use Rattle.dns_engine.specs.Replayed.{EachChanges};
ghost use Rattle.journal.specs.Batch.{Messages};
ghost use Rattle.journal.specs.Recovered.{journal_of};
ghost use Rattle.journal.specs.Log.{disk_of};
ghost use Rattle.store_files.specs.File.{written, synced};
ghost use Rattle.store_recovery.specs.declared.start.Recovery.{Recovery};
ghost use Rattle.store_recovery.specs.Replay.{AreRead};
ghost use Rattle.store_recovery.specs.Start.{IsStarted};
ghost use Rattle.store_compaction.specs.RecentUpdates.{last_in};
ghost use Rattle.store_compaction.specs.Writer.{log_of, recent_of, head_of};
ghost use Rattle.store_compaction.specs.Stands.{StandsFrom};
ghost use Rattle.store_compaction.specs.Kept.{CompactedState, IsAt};
ghost use Rattle.store_compaction.specs.Has.{HasUpdates};

/// Whatever bytes a crash leaves after the synced part of a consistent store's journal, a restart finds the last version of the writer's recent updates, and after it at most
/// updates that were written but are not known to be on disk, which got SERVFAIL. A start of a store that replaces it finds the same last version, with the same number.
pub fn tended_stores_have_the_same_start()
    ensures crash { (text : List ℕ) (batches : List (List Messages)) (zone : List Record) (updates : List Update) (k : ℕ) (state : CompactedState IoError) (left : List ℕ) (start : Recovery)
        → IsAt text batches zone updates k state → IsStarted text (synced (disk_of (log_of state.writer)) ++ left) start
        → ((last_in (recent_of state.writer)).zone ≡ replay zone updates) × (start.head ≡ head_of state.writer)
        × ((more : List Update) × EachChanges zone (updates ++ more) × (start.newest.last.zone ≡ replay zone (updates ++ more)) × (start.newest.last.number ≡ length (updates ++ more))) }
    ensures tended { (text : List ℕ) (batches : List (List Messages)) (zone : List Record) (updates : List Update) (k : ℕ) (before after : CompactedState IoError) (start later : Recovery)
        → IsAt text batches zone updates k before → (from : StandsFrom written synced zone updates after.writer after.wanted)
        → IsStarted text (journal_of (head_of before.writer) batches) start → IsStarted from.text (journal_of (head_of after.writer) from.batches) later
        → (start.newest.last.zone ≡ later.newest.last.zone) × (start.newest.last.number ≡ from.n + later.newest.last.number) }
{}

/// The start after a crash, of a store that has updates applied to a zone. Whatever bytes the crash leaves after the synced part of the journal, the zone found is that zone with
/// these updates replayed in order, and after them at most updates that were written but are not known to be on disk: they got SERVFAIL or no response yet.
pub fn what_is_accepted_is_recovered()
    ensures { (zone : List Record) (store : CompactedState IoError) (published : List Version) (updates : List Messages) (left : List ℕ) (start : Recovery)
        → (has : HasUpdates zone store published updates) → IsStarted has.text (synced (disk_of (log_of store.writer)) ++ left) start
        → (all : List Update) × (more : List Update) × AreRead updates all × EachChanges zone (all ++ more) × (start.newest.last.zone ≡ replay zone (all ++ more)) }
{}
