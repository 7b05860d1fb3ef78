//! What a start recovers of the updates that got NOERROR (RFC 2136, 3.5).
ghost use Rattle.std.specs.Prelude.{◌≡◌, ◌∷◌, ◌++◌, ℕ, List, None};
ghost use Rattle.std.specs.declared.io.Error.{Error as IoError};
ghost use Rattle.dns_rdata.specs.Record.{Record};
ghost use Rattle.dns_message.specs.declared.update.Update.{Update};
ghost use Rattle.zone_tree.specs.Version.{Version};
ghost use Rattle.update_core.specs.Act.{replay};
ghost use Rattle.dns_engine.specs.Replayed.{EachChanges};
ghost use Rattle.journal.specs.Batch.{Messages};
ghost use Rattle.journal.specs.Recovered.{updates_in};
ghost use Rattle.journal.specs.Log.{disk_of};
ghost use Rattle.store_files.specs.declared.file.FileDisk.{FileDisk};
ghost use Rattle.store_files.specs.File.{synced};
ghost use Rattle.update_batches.specs.Turned.{ThreadState, HasServed, IsCrashSafe};
ghost use Rattle.store_recovery.specs.declared.start.Recovery.{Recovery};
ghost use Rattle.store_recovery.specs.Replay.{AreRead};
ghost use Rattle.store_recovery.specs.Start.{IsStarted};
ghost use Rattle.store_compaction.specs.declared.writer.StoreWriter.{StoreWriter};
ghost use Rattle.store_compaction.specs.Writer.{log_of};
ghost use Rattle.store_compaction.specs.Kept.{CompactedState};
ghost use Rattle.store_compaction.specs.Crash.{Leaves};
ghost use Rattle.store_compaction.specs.Has.{HasUpdates};
ghost use Rattle.store_server.specs.declared.served.LoggedStore.{LoggedStore};
ghost use Rattle.store_server.specs.declared.served.ServerStore.{ServerStore};
ghost use Rattle.store_server.specs.declared.served.ServerStore.TheVariants.{Store};
ghost use Rattle.store_server.specs.OpenStore.{WritesOn};
ghost use Rattle.store_server.specs.Served.{HasIn, LeavesIn};

/// A store that a start returns has the updates of its journal after the zone of its text, and ends with the version that the server publishes
/// last when it starts.
pub fn resumed_store_has_its_updates()
    ensures { (first : Version) (later : List Version) (writer : StoreWriter FileDisk IoError) → (writes : WritesOn first later writer)
        → HasUpdates writes.zone (record { writer = writer; wanted = None }) (first ∷ later) (updates_in writes.batches) }
{}

/// While updates are served and appended to a store, the store has, after a zone, the updates that it had, and after them those that got
/// NOERROR and make a version, in the order of their replies. Whatever octets a crash leaves after those that are on the disk, the zone that a
/// start recovers is that zone with these updates replayed, and after them at most some that were written and are not known to be on the disk,
/// to which the reply was SERVFAIL, or there is no reply yet. A crash at any moment during a call on the store leaves first the updates that the
/// store had when the call began.
pub fn served_updates_are_recovered<L>()
    ensures recovered { (zone : List Record) (old new : ThreadState (ServerStore (CompactedState IoError) L)) (stood : List Messages) (kept : LoggedStore (CompactedState IoError) L)
        → (served : HasServed (HasIn HasUpdates) (LeavesIn Leaves) old new)
        → HasIn HasUpdates zone old.store old.published stood → new.store ≡ Store kept
        → (has : HasUpdates zone kept.store new.published (stood ++ served.updates)) × ((left : List ℕ) (start : Recovery) → IsStarted has.text (synced (disk_of (log_of kept.store.writer)) ++ left) start
        → (all : List Update) × (more : List Update) × AreRead (stood ++ served.updates) all × EachChanges zone (all ++ more) × (start.newest.last.zone ≡ replay zone (all ++ more))) }
    ensures crash { (zone : List Record) (old new : ThreadState (ServerStore (CompactedState IoError) L)) (stood : List Messages)
        → (served : HasServed (HasIn HasUpdates) (LeavesIn Leaves) old new)
        → HasIn HasUpdates zone old.store old.published stood
        → IsCrashSafe (HasIn HasUpdates) (LeavesIn Leaves) zone old.store stood new.store new.published (stood ++ served.updates) }
{}
