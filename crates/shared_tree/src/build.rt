//! A tree of pairs that ascend, built by halves.
ghost use Rattle.std.specs.Prelude.{◌≡◌, ◌+◌, ◌<◌, ◌≤◌, ◌++◌, IfOk, vec_len};
ghost use Rattle.shared_tree.specs.Links.{run_pairs, link_pairs, link_height, IsFormed, IsHalved, IsFronted, AreFronted, IsParted, root_pairs, IsFormedRoot, IsPartedRoot};
ghost use Rattle.shared_tree.specs.Fronts.{front_at};

use crate::fault::NoMemory;
use crate::front::{Base, Front};
use crate::look::share_first;
use crate::node::{Entry, Link, MAX_RUN, Maker, push_entry};
use std::alloc::AllocError;
use std::sync::Arc;

impl Maker {
    /// A pair with the number that stands before its key. `NoMemory` where memory is refused.
    pub(crate) fn entry<K: Front + Drop, V: Drop>(
        &self,
        base: &Base<K>,
        pair: (K, V),
    ) -> Result<Entry<K, V>, NoMemory>
        ensures pair { IfOk result (λ entry. entry.pair.value ≡ pair) }
        ensures front { IfOk result (λ entry. IsFronted (front_at K.front base.now) entry) }
    {
        let front = base.front_of(&pair.0);
        let pair = Arc::new(self.alloc(), pair).map_err(AllocError::from)?;
        Ok(Entry { front, pair })
    }

    /// The last `count` pairs of a list, which it loses, as a tree's root.
    pub(crate) fn build_root<K: Front + Drop, V: Drop>(
        &mut self,
        base: &Base<K>,
        pairs: &mut Vec<(K, V)>,
        count: usize,
    ) -> Result<Option<Link<K, V>>, NoMemory>
        requires { count ≤ vec_len pairs.old }
        ensures pairs { IfOk result (λ root. pairs.old.items ≡ pairs.new.items ++ root_pairs root) }
        ensures length { IfOk result (λ root. vec_len pairs.new + count ≡ vec_len pairs.old) }
        ensures formed { IfOk result (λ root. IsFormedRoot root) }
        ensures parted { IfOk result (λ root. IsPartedRoot (front_at K.front base.now) root) }
    {
        if count == 0 {
            return Ok(None);
        }
        let root = self.build(base, pairs, count)?;
        Ok(Some(root))
    }

    /// The last `count` pairs of a list, which it loses, as a link whose sides differ by at most a pair at each node. Its runs are
    /// as long as halves can be.
    pub(crate) fn build<K: Front + Drop, V: Drop>(
        &mut self,
        base: &Base<K>,
        pairs: &mut Vec<(K, V)>,
        count: usize,
    ) -> Result<Link<K, V>, NoMemory>
        ensures pairs { count ≤ vec_len pairs.old → IfOk result (λ link. pairs.old.items ≡ pairs.new.items ++ link_pairs link) }
        ensures length { count ≤ vec_len pairs.old → IfOk result (λ link. vec_len pairs.new + count ≡ vec_len pairs.old) }
        ensures formed { 0 < count → count ≤ vec_len pairs.old → IfOk result (λ link. IsFormed link) }
        ensures parted { 0 < count → count ≤ vec_len pairs.old → IfOk result (λ link. IsParted (front_at K.front base.now) link) }
        ensures height { 0 < count → count ≤ vec_len pairs.old → IfOk result (λ link. IsHalved (link_height link) count) }
    {
        if count <= MAX_RUN {
            let entries = self.last_entries(base, pairs, count)?;
            return self.run(entries);
        }
        let left_count = count / 2;
        let right = self.build(base, pairs, count - left_count)?;
        let parting = share_first(&right)?;
        let left = self.build(base, pairs, left_count)?;
        self.fork(left, parting, right)
    }

    /// The last `count` pairs of a list, which it loses, with the numbers that stand before their keys. `NoMemory` where memory
    /// is refused.
    fn last_entries<K: Front + Drop, V: Drop>(
        &self,
        base: &Base<K>,
        pairs: &mut Vec<(K, V)>,
        count: usize,
    ) -> Result<Vec<Entry<K, V>>, NoMemory>
        ensures pairs { IfOk result (λ entries. pairs.old.items ≡ pairs.new.items ++ run_pairs entries.items) }
        ensures length { count ≤ vec_len pairs.old → IfOk result (λ entries. vec_len entries ≡ count) }
        ensures rest { count ≤ vec_len pairs.old → IfOk result (λ _. vec_len pairs.new + count ≡ vec_len pairs.old) }
        ensures fronted { IfOk result (λ entries. AreFronted (front_at K.front base.now) entries.items) }
    {
        let front = pairs.len().saturating_sub(count);
        let last = pairs.split_off(front)?;
        let mut entries = Vec::with_capacity(self.alloc(), last.len())?;
        for pair in last {
            push_entry(&mut entries, self.entry(base, pair)?)?;
        }
        Ok(entries)
    }
}
