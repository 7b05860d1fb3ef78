//! Laws of recoveries: each is the contract of a function that does nothing.
ghost use Rattle.std.specs.Prelude.{◌≡◌, ◌⊎◌, ◌+◌, ◌≤◌, [], ◌∷◌, ◌++◌, ℕ, List, length, take, drop};
ghost use Rattle.dns_rdata.specs.Record.{Record};
ghost use Rattle.dns_message.specs.declared.update.Update.{Update};
ghost use Rattle.journal.specs.Batch.{Messages};
ghost use Rattle.journal.specs.declared.heads.Head.{Head};
ghost use Rattle.journal.specs.declared.start.Refused.TheVariants.{Damaged};
ghost use Rattle.journal.specs.Recovered.{journal_of, updates_in};
ghost use Rattle.update_core.specs.Act.{replay};
ghost use Rattle.transfer_core.specs.Chain.{zones_of};
ghost use Rattle.zone_tree.specs.Version.{Version};
ghost use Rattle.dns_engine.specs.Held.{IsNewest, KEPT, newest, all_held, held_alone, held_through};
ghost use Rattle.dns_engine.specs.Replayed.{EachChanges};
ghost use Rattle.store_recovery.specs.declared.fault.StartFault.{StartFault};
ghost use Rattle.store_recovery.specs.declared.fault.StartFault.TheVariants.{Journal, NoMemory};
ghost use Rattle.store_recovery.specs.declared.start.Recovery.{Recovery};
ghost use Rattle.store_recovery.specs.declared.recent_versions.RecentVersions.{RecentVersions};
ghost use Rattle.store_recovery.specs.Before.{IsStartedBefore, IsBeforeFault};
ghost use Rattle.store_recovery.specs.Replay.{IsReplayed, begun, held_from};
ghost use Rattle.store_recovery.specs.Rebased.{versions_in, rebased, changes_of};
ghost use Rattle.store_recovery.specs.Start.{IsStarted, IsStartFault};
ghost use Rattle.store_recovery.specs.Store.{IsStore};

/// After updates an engine holds the newest of the versions that it has published; the last of them has the zone with the
/// updates replayed, and its number is the number of updates (RFC 2136, 3).
pub fn what_is_replayed_is_held()
    ensures newest { (zone : List Record) (updates : List Update) → EachChanges zone updates → IsNewest zone (held_from (begun zone) updates) }
    ensures zone { (zone : List Record) (updates : List Update) → (held_from (begun zone) updates).last.zone ≡ replay zone updates }
    ensures number { (zone : List Record) (updates : List Update) → (held_from (begun zone) updates).last.number ≡ length updates }
{}

/// An engine that begins with a recovery's newest versions holds the newest of all versions that an engine has published which applied the
/// updates: their zones are the same, and so are the changes of all but the oldest of them (RFC 1995, 4).
pub fn what_is_resumed_is_held()
    ensures zones { (zone : List Record) (messages : List Messages) (kept : RecentVersions) (first : Version) (later : List Version) (keep : ℕ) (is : IsReplayed zone messages kept)
        → keep ≤ KEPT → first ∷ later ≡ rebased (versions_in kept)
        → zones_of (all_held (held_through (held_alone (first ∷ []) first keep) later)) ≡ newest (keep + 1) (zones_of (held_from (begun zone) is.updates).published) }
    ensures changes { (zone : List Record) (messages : List Messages) (kept : RecentVersions) (first : Version) (later : List Version) (keep : ℕ) (is : IsReplayed zone messages kept)
        → keep ≤ KEPT → first ∷ later ≡ rebased (versions_in kept)
        → drop 1 (changes_of (all_held (held_through (held_alone (first ∷ []) first keep) later))) ≡ drop 1 (newest (keep + 1) (changes_of (held_from (begun zone) is.updates).published)) }
{}

/// A store is recovered with all of its updates, and is refused only for lack of memory.
pub fn what_is_accepted_is_recovered()
    ensures taken { (text : List ℕ) (head : Head) (batches : List (List Messages)) (zone : List Record) (updates : List Update) (start : Recovery)
        → IsStore text head batches zone updates → IsStarted text (journal_of head batches) start
        → (start.newest.last.zone ≡ replay zone updates) × (start.newest.last.number ≡ length updates) }
    ensures accepted { (text : List ℕ) (head : Head) (batches : List (List Messages)) (zone : List Record) (updates : List Update) (fault : StartFault)
        → IsStore text head batches zone updates → IsStartFault text (journal_of head batches) fault → fault ≡ NoMemory }
{}

/// Whatever octets are after a store's journal, a recovery has all of the store's updates first. It assumes nothing of the checksum.
pub fn what_was_synced_is_replayed_first()
    ensures { (text left : List ℕ) (head : Head) (batches : List (List Messages)) (zone : List Record) (updates : List Update) (start : Recovery)
        → IsStore text head batches zone updates → IsStarted text (journal_of head batches ++ left) start
        → (more : List Update) × EachChanges zone (updates ++ more) × (start.newest.last.zone ≡ replay zone (updates ++ more))
        × (start.newest.last.number ≡ length (updates ++ more)) }
{}

/// Wherever a store's journal is cut after batches that were synced to the disk, a recovery has the first of its updates, and at least those of these
/// batches; and it is refused only for lack of memory, or because a piece of a batch looks like a later frame.
pub fn each_cut_is_a_replay()
    ensures taken { (text : List ℕ) (head : Head) (synced later : List (List Messages)) (zone : List Record) (updates : List Update) (n : ℕ) (start : Recovery)
        → IsStore text head (synced ++ later) zone updates → IsStarted text (take (length (journal_of head synced) + n) (journal_of head (synced ++ later))) start
        → (k : ℕ) × (length (updates_in synced) ≤ k) × (k ≤ length updates) × (start.newest.last.zone ≡ replay zone (take k updates)) × (start.newest.last.number ≡ k) }
    ensures accepted { (text : List ℕ) (head : Head) (synced later : List (List Messages)) (zone : List Record) (updates : List Update) (n : ℕ) (fault : StartFault)
        → IsStore text head (synced ++ later) zone updates → IsStartFault text (take (length (journal_of head synced) + n) (journal_of head (synced ++ later))) fault
        → (fault ≡ NoMemory) ⊎ ((at : ℕ) × (fault ≡ Journal (Damaged at))) }
{}

/// Before damage a recovery has what is there. Of a journal that isn't damaged it has what `recover_zone` gives; damage is never reported; and whatever octets are after
/// a store's journal, all of the store's updates come first.
pub fn damage_takes_nothing_in_front()
    ensures same { (text octets : List ℕ) (start before : Recovery) → IsStarted text octets start → IsStartedBefore text octets before
        → (start.newest.last ≡ before.newest.last) × (start.newest.older.items ≡ before.newest.older.items) × (start.number ≡ before.number) × (start.end ≡ before.end) }
    ensures undamaged { (text octets : List ℕ) (at : ℕ) → IsBeforeFault text octets (Journal (Damaged at)) → ⊥ }
    ensures taken { (text left : List ℕ) (head : Head) (batches : List (List Messages)) (zone : List Record) (updates : List Update) (start : Recovery)
        → IsStore text head batches zone updates → IsStartedBefore text (journal_of head batches ++ left) start
        → (more : List Update) × EachChanges zone (updates ++ more) × (start.newest.last.zone ≡ replay zone (updates ++ more))
        × (start.newest.last.number ≡ length (updates ++ more)) }
{}
