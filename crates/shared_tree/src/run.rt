//! A run made anew: with a pair in place, without one, and parted where it has become too long.
ghost use Rattle.std.specs.Prelude.{◌≡◌, ℕ, ◌+◌, ◌<◌, ◌≤◌, ◌++◌, ◌∷◌, [], IfOk, length, vec_len};
ghost use Rattle.shared_tree.specs.Links.{run_pairs, link_pairs, IsRun, IsFronted, AreFronted, IsFormed, IsParted, link_height, root_pairs, root_height, IsFormedRoot, IsPartedRoot};
ghost use Rattle.shared_tree.specs.Pairs.{pairs_below, pairs_above, pairs_with, pairs_without};

use crate::fault::NoMemory;
use crate::front::Front;
use crate::node::{Entry, Link, MAX_RUN, Maker, push_entry, share_entry};
use crate::seek::Seek;
use std::alloc::Global;

/// The pairs of a run with lesser keys, and room for all others and one more. `NoMemory` where memory is refused.
fn entries_below<K: Front + Drop, V: Drop>(
    alloc: Global,
    run: &[Entry<K, V>],
    key: &K,
) -> Result<Vec<Entry<K, V>>, NoMemory>
    ensures pairs { IfOk result (λ below. run_pairs below.items ≡ pairs_below K.cmp key.now (run_pairs run.now)) }
    ensures fronted { (front : K → ℕ) → AreFronted front run.now → IfOk result (λ below. AreFronted front below.items) }
{
    let mut below = Vec::with_capacity(alloc, run.len().saturating_add(1))?;
    for entry in run {
        if key.cmp(&entry.pair.0).is_gt() {
            push_entry(&mut below, share_entry(entry)?)?;
        }
    }
    Ok(below)
}

/// Puts the pairs of a run with greater keys after others. `NoMemory` where memory is refused.
fn push_above<K: Front + Drop, V: Drop>(
    entries: &mut Vec<Entry<K, V>>,
    run: &[Entry<K, V>],
    key: &K,
) -> Result<(), NoMemory>
    ensures pairs { IfOk result (λ _. run_pairs entries.new.items ≡ run_pairs entries.old.items ++ pairs_above K.cmp key.now (run_pairs run.now)) }
    ensures fronted { (front : K → ℕ) → AreFronted front run.now → AreFronted front entries.old.items → IfOk result (λ _. AreFronted front entries.new.items) }
{
    for entry in run {
        if key.cmp(&entry.pair.0).is_lt() {
            push_entry(entries, share_entry(entry)?)?;
        }
    }
    Ok(())
}

/// The pairs of a run but that of a key. `NoMemory` where memory is refused.
fn entries_without<K: Front + Drop, V: Drop, Q: Seek<K>>(
    alloc: Global,
    run: &[Entry<K, V>],
    sought: &Q,
) -> Result<Vec<Entry<K, V>>, NoMemory>
    ensures pairs { IfOk result (λ rest. run_pairs rest.items ≡ pairs_without K.cmp (Q.key sought.now) (run_pairs run.now)) }
    ensures fronted { (front : K → ℕ) → AreFronted front run.now → IfOk result (λ rest. AreFronted front rest.items) }
    ensures length { IfOk result (λ rest. vec_len rest ≤ length run.now) }
{
    let mut rest = Vec::with_capacity(alloc, run.len())?;
    for entry in run {
        if sought.cmp_key(&entry.pair.0).is_ne() {
            push_entry(&mut rest, share_entry(entry)?)?;
        }
    }
    Ok(rest)
}

/// The pairs of a run with one in place, whatever pair its key had. `NoMemory` where memory is refused.
fn entries_with<K: Front + Drop, V: Drop>(
    alloc: Global,
    run: &[Entry<K, V>],
    entry: Entry<K, V>,
) -> Result<Vec<Entry<K, V>>, NoMemory>
    ensures pairs { IfOk result (λ entries. run_pairs entries.items ≡ pairs_with K.cmp entry.pair.value.0 entry.pair.value.1 (run_pairs run.now)) }
    ensures fronted { (front : K → ℕ) → IsFronted front entry → AreFronted front run.now → IfOk result (λ entries. AreFronted front entries.items) }
    ensures some { IfOk result (λ entries. 0 < vec_len entries) }
    ensures length { IfOk result (λ entries. vec_len entries ≤ length run.now + 1) }
{
    let own = share_entry(&entry)?;
    let mut entries = entries_below(alloc, run, &own.pair.0)?;
    push_entry(&mut entries, entry)?;
    push_above(&mut entries, run, &own.pair.0)?;
    Ok(entries)
}

impl Maker {
    /// A run's pairs with one in place, whatever pair its key had: a run, or two below a node. `NoMemory` where memory is refused.
    pub(crate) fn with_in_run<K: Front + Drop, V: Drop>(
        &mut self,
        run: &[Entry<K, V>],
        entry: Entry<K, V>,
    ) -> Result<Link<K, V>, NoMemory>
        ensures pairs { IfOk result (λ link. link_pairs link ≡ pairs_with K.cmp entry.pair.value.0 entry.pair.value.1 (run_pairs run.now)) }
        ensures formed { length run.now ≤ 16 → IfOk result (λ link. IsFormed link) }
        ensures parted { (front : K → ℕ) → IsFronted front entry → AreFronted front run.now → IfOk result (λ link. IsParted front link) }
        ensures low { IfOk result (λ link. 1 ≤ link_height link) }
        ensures high { IfOk result (λ link. link_height link ≤ 2) }
        ensures counted { IfOk result (λ _. self.old.made < self.new.made) }
        ensures at_most_three { self.new.made ≤ self.old.made + 3 }
    {
        let entries = entries_with(self.alloc(), run, entry)?;
        if entries.len() > MAX_RUN {
            return self.halved(entries);
        }
        self.run(entries)
    }

    /// A run of one pair. `NoMemory` where memory is refused.
    pub(crate) fn run_of_one<K: Drop, V: Drop>(
        &mut self,
        entry: Entry<K, V>,
    ) -> Result<Link<K, V>, NoMemory>
        ensures pairs { IfOk result (λ link. link_pairs link ≡ entry.pair.value ∷ []) }
        ensures formed { IfOk result (λ link. IsFormed link) }
        ensures parted { (front : K → ℕ) → IsFronted front entry → IfOk result (λ link. IsParted front link) }
        ensures height { IfOk result (λ link. link_height link ≡ 1) }
        ensures counted { IfOk result (λ _. self.new.made ≡ self.old.made + 1) }
        ensures at_most_one { self.new.made ≤ self.old.made + 1 }
    {
        let mut entries = Vec::with_capacity(self.alloc(), 1)?;
        push_entry(&mut entries, entry)?;
        self.run(entries)
    }

    /// Two runs of half the pairs each, below a node. `NoMemory` where memory is refused.
    fn halved<K: Drop, V: Drop>(
        &mut self,
        entries: Vec<Entry<K, V>>,
    ) -> Result<Link<K, V>, NoMemory>
        requires { 1 < vec_len entries }
        ensures pairs { IfOk result (λ link. link_pairs link ≡ run_pairs entries.items) }
        ensures formed { vec_len entries ≤ 32 → IfOk result (λ link. IsFormed link) }
        ensures parted { (front : K → ℕ) → AreFronted front entries.items → IfOk result (λ link. IsParted front link) }
        ensures height { IfOk result (λ link. link_height link ≡ 2) }
        ensures counted { IfOk result (λ _. self.old.made < self.new.made) }
        ensures at_most_three { self.new.made ≤ self.old.made + 3 }
    {
        let mut entries = entries;
        let middle = entries.len() / 2;
        let behind = entries.split_off(middle)?;
        entries.shrink_to_fit();
        let parting = share_entry(&behind[0])?;
        let left = self.run(entries)?;
        let right = self.run(behind)?;
        self.fork(left, parting, right)
    }

    /// A run's pairs but that of a key; None where no other is left. `NoMemory` where memory is refused.
    pub(crate) fn without_in_run<K: Front + Drop, V: Drop, Q: Seek<K>>(
        &mut self,
        run: &[Entry<K, V>],
        sought: &Q,
    ) -> Result<Option<Link<K, V>>, NoMemory>
        ensures pairs { IfOk result (λ root. root_pairs root ≡ pairs_without K.cmp (Q.key sought.now) (run_pairs run.now)) }
        ensures formed { length run.now ≤ 16 → IfOk result (λ root. IsFormedRoot root) }
        ensures parted { (front : K → ℕ) → AreFronted front run.now → IfOk result (λ root. IsPartedRoot front root) }
        ensures low { IfOk result (λ root. root_height root ≤ 1) }
        ensures at_most_one { self.new.made ≤ self.old.made + 1 }
    {
        let rest = entries_without(self.alloc(), run, sought)?;
        if rest.is_empty() {
            return Ok(None);
        }
        let link = self.run(rest)?;
        Ok(Some(link))
    }
}
