//! Laws of stores: each is the contract of a function that does nothing.
ghost use Rattle.std.specs.Prelude.{◌≡◌, ◌≢◌, ◌+◌, ◌≤◌, ℕ, List, [], Option, Some, length, take, drop, map, All};
ghost use Rattle.dns_name.specs.Name.{Name};
ghost use Rattle.dns_rdata.specs.Record.{Record};
ghost use Rattle.dns_message.specs.declared.update.Update.{Update};
ghost use Rattle.update_core.specs.Act.{replay};
ghost use Rattle.master_file.specs.declared.fault.FileFault.{FileFault};
ghost use Rattle.master_file.specs.Fault.{no_memory};
ghost use Rattle.journal.specs.declared.heads.Head.{Head};
ghost use Rattle.journal.specs.declared.heads.TextSum.{TextSum};
ghost use Rattle.journal.specs.Batch.{Messages, batch_of, IsRequest};
ghost use Rattle.journal.specs.Frame.{Fit};
ghost use Rattle.journal.specs.Head.{IsText};
ghost use Rattle.journal.specs.Recovered.{journal_of};
ghost use Rattle.store_recovery.specs.declared.fault.StartFault.{StartFault};
ghost use Rattle.store_recovery.specs.declared.fault.StartFault.TheVariants.{NoMemory};
ghost use Rattle.store_recovery.specs.declared.start.Recovery.{Recovery};
ghost use Rattle.store_recovery.specs.Start.{IsStarted, IsStartFault};
ghost use Rattle.store_recovery.specs.Store.{IsStore};
ghost use Rattle.store_recovery.specs.declared.choices.Choice.{Choice};
ghost use Rattle.store_recovery.specs.declared.choices.Choice.TheVariants.{Same, RefuseOtherApex};
ghost use Rattle.store_recovery.specs.declared.choices.Take.{Take};
ghost use Rattle.store_recovery.specs.Behind.{AreBehind, batches_behind};
ghost use Rattle.store_recovery.specs.Choice.{HasNoOtherApex, HasOtherApex, IsChoice, IsChoiceFault};
ghost use Rattle.store_recovery.specs.Folder.{Folder, Means, HasPair, with_text, without_text, with_journal};

/// A start has at most one choice; and where it has one, lack of memory is the only fault.
pub fn one_choice()
    ensures once { (begun : TextSum) (last : List Record) (origin : Name) (text : List ℕ) (taken : Option Take) (choice other : Choice)
        → IsChoice begun last origin text taken choice → IsChoice begun last origin text taken other → choice ≡ other }
    ensures apart { (begun : TextSum) (last : List Record) (origin : Name) (text : List ℕ) (taken : Option Take) (choice : Choice) (fault : FileFault)
        → IsChoice begun last origin text taken choice → IsChoiceFault begun origin text taken fault → fault ≡ no_memory }
{}

/// Where the zone text is the one that the store was created from, the store is served, whatever is chosen: so at the start after one at which the zone text was chosen. But
/// where names of the text are relative to another origin, so that its zone has another apex, it is refused; and lack of memory is the only fault.
pub fn begun_from_is_served()
    ensures same { (begun : TextSum) (last : List Record) (origin : Name) (text : List ℕ) (taken : Option Take) (choice : Choice)
        → IsText begun text → HasNoOtherApex last origin text → IsChoice begun last origin text taken choice → choice ≡ Same }
    ensures only_fault { (begun : TextSum) (origin : Name) (text : List ℕ) (taken : Option Take) (fault : FileFault)
        → IsText begun text → IsChoiceFault begun origin text taken fault → fault ≡ no_memory }
{}

/// A zone text of another apex than the store's is refused, whichever text the store was created from, and whatever is chosen.
pub fn other_apex_is_refused()
    ensures { (begun : TextSum) (last : List Record) (origin : Name) (text : List ℕ) (taken : Option Take) (apex : Name) (choice : Choice)
        → HasOtherApex last origin text apex → IsChoice begun last origin text taken choice → choice ≡ RefuseOtherApex apex }
{}

/// A store that is made of the version after the first updates of another, with the batches after them, is a store of the versions from there on: each is the same
/// zone. Its recovery has the same zone as that of the other, with as many updates fewer. What is left of a store's batches fits a journal of its own.
pub fn compacted_is_the_same()
    ensures store { (text written : List ℕ) (head next : Head) (batches rest : List (List Messages)) (zone : List Record) (updates : List Update) (k : ℕ)
        → IsStore text head batches zone updates → IsStore written next [] (replay zone (take k updates)) [] → AreBehind k batches rest
        → IsStore written next rest (replay zone (take k updates)) (drop k updates) }
    ensures versions { (zone : List Record) (updates : List Update) (k n : ℕ)
        → replay (replay zone (take k updates)) (take n (drop k updates)) ≡ replay zone (take (k + n) updates) }
    ensures last { (zone : List Record) (updates : List Update) (k : ℕ) → replay (replay zone (take k updates)) (drop k updates) ≡ replay zone updates }
    ensures started { (text written : List ℕ) (head next : Head) (batches rest : List (List Messages)) (zone : List Record) (updates : List Update) (k : ℕ) (start later : Recovery)
        → IsStore text head batches zone updates → IsStore written next [] (replay zone (take k updates)) [] → AreBehind k batches rest → k ≤ length updates
        → IsStarted text (journal_of head batches) start → IsStarted written (journal_of next rest) later
        → (start.newest.last.zone ≡ later.newest.last.zone) × (start.newest.last.number ≡ k + later.newest.last.number) }
    ensures behind { (batches : List (List Messages)) (k : ℕ) → All (All IsRequest) batches → Fit 0 (map batch_of batches) → AreBehind k batches (batches_behind k batches) }
{}

/// A recovery of a directory that means a store, from its journal and the zone text that the journal's head names, has the store's last version; and it is refused only for
/// lack of memory.
pub fn what_a_folder_means_is_started()
    ensures taken { (folder : Folder) (head : Head) (batches : List (List Messages)) (zone : List Record) (updates : List Update) (octets text : List ℕ) (start : Recovery)
        → Means folder head batches zone updates → HasPair folder octets text → IsStarted text octets start
        → (start.head ≡ head) × (start.newest.last.zone ≡ replay zone updates) × (start.newest.last.number ≡ length updates) }
    ensures accepted { (folder : Folder) (head : Head) (batches : List (List Messages)) (zone : List Record) (updates : List Update) (octets text : List ℕ) (fault : StartFault)
        → Means folder head batches zone updates → HasPair folder octets text → IsStartFault text octets fault → fault ≡ NoMemory }
{}

/// A directory means at most one store. Each step of a compaction leaves it a meaning: when the next zone text is written, the store is the same as before; when a journal
/// that names that text is renamed over the one before, the store is that of the later version, with the batches after it; and when a text that the journal doesn't name is
/// removed, the store stays the same. So whatever a crash leaves between two steps, the versions are the same ([`compacted_is_the_same`]).
pub fn each_step_keeps_the_meaning()
    ensures once { (folder : Folder) (head other : Head) (batches others : List (List Messages)) (zone other_zone : List Record) (updates other_updates : List Update)
        → Means folder head batches zone updates → Means folder other others other_zone other_updates
        → (head ≡ other) × (batches ≡ others) × (zone ≡ other_zone) × (updates ≡ other_updates) }
    ensures written { (folder : Folder) (head : Head) (batches : List (List Messages)) (zone : List Record) (updates : List Update) (number : ℕ) (text : List ℕ)
        → Means folder head batches zone updates → number ≢ head.number → Means (with_text folder number text) head batches zone updates }
    ensures renamed { (folder : Folder) (head next : Head) (batches rest : List (List Messages)) (zone : List Record) (updates : List Update) (k : ℕ) (written : List ℕ)
        → Means folder head batches zone updates → folder.texts next.number ≡ Some written → IsStore written next [] (replay zone (take k updates)) [] → AreBehind k batches rest
        → Means (with_journal folder (journal_of next rest)) next rest (replay zone (take k updates)) (drop k updates) }
    ensures removed { (folder : Folder) (head : Head) (batches : List (List Messages)) (zone : List Record) (updates : List Update) (number : ℕ)
        → Means folder head batches zone updates → number ≢ head.number → Means (without_text folder number) head batches zone updates }
{}
