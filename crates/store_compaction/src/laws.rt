//! Laws of compactions. Each is the contract of a function that does nothing.
ghost use Rattle.std.specs.Prelude.{◌≡◌, ◌+◌, ◌≤◌, ◌<◌, ◌^◌, ◌++◌, ℕ, List, [], ◌∷◌, Option, length, take, drop, map};
ghost use Rattle.dns_name.specs.Name.{Name};
ghost use Rattle.dns_rdata.specs.Record.{Record};
ghost use Rattle.dns_message.specs.declared.update.Update.{Update};
ghost use Rattle.zone_tree.specs.Version.{Version};
ghost use Rattle.update_core.specs.Act.{replay};
ghost use Rattle.transfer_core.specs.Chain.{zones_of};
ghost use Rattle.dns_engine.specs.Held.{KEPT, newest};
ghost use Rattle.dns_engine.specs.Replayed.{EachChanges};
ghost use Rattle.update_batches.specs.Batch.{newest_of};
ghost use Rattle.update_batches.specs.Journal.{AreMadeBy};
ghost use Rattle.journal.specs.declared.heads.Head.{Head};
ghost use Rattle.journal.specs.declared.heads.TextSum.{TextSum};
ghost use Rattle.journal.specs.Batch.{Messages, batch_of};
ghost use Rattle.journal.specs.Frame.{body_limit};
ghost use Rattle.journal.specs.Recovered.{journal_of};
ghost use Rattle.store_recovery.specs.declared.start.Recovery.{Recovery};
ghost use Rattle.store_recovery.specs.Start.{IsStarted};
ghost use Rattle.store_recovery.specs.Store.{IsStore};
ghost use Rattle.store_recovery.specs.declared.choices.Choice.{Choice};
ghost use Rattle.store_recovery.specs.declared.choices.Take.{Take};
ghost use Rattle.store_recovery.specs.Created.{IsCreated};
ghost use Rattle.store_recovery.specs.Behind.{AreBehind};
ghost use Rattle.store_recovery.specs.Choice.{IsChoice};
ghost use Rattle.store_recovery.specs.Folder.{Folder, Means, HasPair, with_journal};
ghost use Rattle.store_compaction.specs.declared.marked.Compaction.{Compaction};
ghost use Rattle.update_batches.specs.declared.version_update.VersionUpdate.{VersionUpdate};
ghost use Rattle.store_compaction.specs.RecentUpdates.{RecentState, AreRecent, last_in, followed};
ghost use Rattle.update_batches.specs.Batch.{versions_in, updates_of};
ghost use Rattle.store_compaction.specs.Marked.{bodies_of, IsMarked};
ghost use Rattle.store_compaction.specs.End.{IsEndOf};

/// Recent updates follow the published versions, each made from the previous one by the update of its step, and end at the last of them. After a batch is appended to a store's
/// journal and its steps are added, the recent updates are the end of that store again. The first version of a zone alone is the end of a store that is created with it. The
/// store's last version is that of the recent updates.
pub fn recent_updates_end_their_stores()
    ensures follows { (recent : RecentState) (steps : List VersionUpdate) → AreRecent recent → AreMadeBy (last_in recent) (versions_in steps) (updates_of steps)
        → AreRecent (followed recent steps) × (last_in (followed recent steps) ≡ newest_of (last_in recent) (versions_in steps)) }
    ensures begun { (text : List ℕ) (head : Head) (number keep : ℕ) (random : List ℕ) (origin : TextSum) (version : Version)
        → IsCreated version.zone number random origin text head → IsEndOf text head [] version.zone [] (record { oldest = version; steps = []; keep = keep }) 0 }
    ensures goes_on { (text : List ℕ) (head : Head) (batches : List (List Messages)) (zone : List Record) (updates : List Update) (recent : RecentState) (k : ℕ) (steps : List VersionUpdate)
        → IsEndOf text head batches zone updates recent k → AreMadeBy (last_in recent) (versions_in steps) (updates_of steps)
        → length (batch_of (updates_of steps)) < body_limit → length batches < 2 ^ 64
        → (more : List Update) × (m : ℕ) × (k ≤ m) × IsEndOf text head (batches ++ updates_of steps ∷ []) zone (updates ++ more) (followed recent steps) m }
    ensures last { (text : List ℕ) (head : Head) (batches : List (List Messages)) (zone : List Record) (updates : List Update) (recent : RecentState) (k : ℕ)
        → IsEndOf text head batches zone updates recent k → (last_in recent).zone ≡ replay zone updates }
{}

/// A compaction leaves a store of the same versions. Its zone text is that of the version after the first k updates of the previous store, its batches are those that were kept,
/// and a start of either finds the same zone. Recent updates that are the end of the previous store are the end of this one, so a start of it finds each version that they have.
pub fn compactions_keep_the_versions()
    ensures store { (text written : List ℕ) (head next : Head) (batches : List (List Messages)) (zone : List Record) (updates : List Update) (k number : ℕ)
        (random : List ℕ) (origin : TextSum) (version : Version) (compaction : Compaction)
        → IsStore text head batches zone updates → version.zone ≡ replay zone (take k updates) → IsCreated version.zone number random origin written next
        → IsMarked k batches compaction
        → (rest : List (List Messages)) × (bodies_of compaction ≡ map batch_of rest) × IsStore written next rest version.zone (drop k updates) }
    ensures started { (text written : List ℕ) (head next : Head) (batches rest : List (List Messages)) (zone : List Record) (updates : List Update) (k : ℕ) (start later : Recovery)
        → IsStore text head batches zone updates → k ≤ length updates → IsStore written next rest (replay zone (take k updates)) (drop k updates)
        → IsStarted text (journal_of head batches) start → IsStarted written (journal_of next rest) later
        → (start.newest.last.zone ≡ later.newest.last.zone) × (start.newest.last.number ≡ k + later.newest.last.number) }
    ensures recent { (text written : List ℕ) (head next : Head) (batches rest : List (List Messages)) (zone : List Record) (updates : List Update) (recent : RecentState) (k m : ℕ)
        → IsEndOf text head batches zone updates recent (k + m) → IsStore written next [] (replay zone (take k updates)) [] → AreBehind k batches rest
        → IsEndOf written next rest (replay zone (take k updates)) (drop k updates) recent m }
{}

/// A start of a store finds each version of the recent updates that are its end, with the same zone. So does a start of the store that a compaction leaves, since they are the
/// end of that one too ([`compactions_keep_the_versions`]). A secondary that is at most that many versions behind can therefore get the changes (RFC 1995, 4).
pub fn starts_have_their_recent_updates()
    ensures { (text : List ℕ) (head : Head) (batches : List (List Messages)) (zone : List Record) (updates : List Update) (recent : RecentState) (k : ℕ) (start : Recovery)
        → IsEndOf text head batches zone updates recent k → length recent.steps ≤ KEPT → IsStarted text (journal_of head batches) start
        → newest (length recent.steps + 1) (zones_of (start.newest.older.items ++ start.newest.last ∷ [])) ≡ zones_of (recent.oldest ∷ versions_in recent.steps) }
{}

/// The choice at a start between a store and the zone text that the operator names is the same after a compaction: the sum of the original text and the zone of the last version
/// are kept.
pub fn compactions_keep_the_choice()
    ensures { (text written : List ℕ) (head next : Head) (batches rest : List (List Messages)) (zone : List Record) (updates : List Update) (k number : ℕ)
        (random : List ℕ) (start later : Recovery) (origin : Name) (given : List ℕ) (taken : Option Take) (choice : Choice)
        → IsStore text head batches zone updates → k ≤ length updates → IsCreated (replay zone (take k updates)) number random head.origin written next → AreBehind k batches rest
        → IsStarted text (journal_of head batches) start → IsStarted written (journal_of next rest) later
        → IsChoice start.head.origin start.newest.last.zone origin given taken choice
        → IsChoice later.head.origin later.newest.last.zone origin given taken choice }
{}

/// Whatever bytes a crash leaves after the batches in a directory that holds a store, at each step of a compaction, a start finds all of the store's updates first.
pub fn what_a_crash_leaves_is_started()
    ensures { (folder : Folder) (head : Head) (batches : List (List Messages)) (zone : List Record) (updates : List Update) (left octets text : List ℕ) (start : Recovery)
        → Means folder head batches zone updates → HasPair (with_journal folder (journal_of head batches ++ left)) octets text → IsStarted text octets start
        → (start.head ≡ head) × ((more : List Update) × EachChanges zone (updates ++ more) × (start.newest.last.zone ≡ replay zone (updates ++ more))
        × (start.newest.last.number ≡ length (updates ++ more))) }
{}
