//! What a tree is made of, runs of pairs below nodes that part them, and the only calls that make these.
ghost use Rattle.std.specs.Prelude.{◌≡◌, ◌+◌, ◌-◌, ◌<◌, ◌≤◌, ◌^◌, ◌++◌, ◌∷◌, [], IfOk, max, vec_len};
ghost use Rattle.std.specs.Prelude.{ℕ};
ghost use Rattle.shared_tree.specs.Links.{run_pairs, link_pairs, link_height, IsRun, IsRunFronted, IsFronted, AreFronted, IsFormed, IsLevel, IsParting, IsParted, root_pairs, root_height, IsFormedRoot, IsPartedRoot};

use crate::fault::NoMemory;
use std::alloc::{AllocError, Global};
use std::sync::Arc;

/// The most links on a way down. A tree that needs more has over 2^45 pairs, and making it is told as want of memory (own).
pub(crate) const MAX_HEIGHT: usize = 64;

/// The most pairs in a run (own).
pub(crate) const MAX_RUN: usize = 16;

/// Some pairs of a tree, at the least one, which other trees may share.
#[cycle(tree)]
#[derive(Drop)]
pub(crate) enum Link<K, V> {
    /// A few pairs, in the order of their keys.
    Run(Arc<Vec<Entry<K, V>>>),
    /// The pairs on both sides of a node.
    Fork(Arc<Node<K, V>>),
}

/// A pair, and the number that stands before its key, which most often tells how a sought key stands to it.
#[derive(Drop)]
pub(crate) struct Entry<K, V> {
    pub(crate) front: u64,
    pub(crate) pair: Arc<(K, V)>,
}

/// Pairs of lesser keys on the left and pairs of greater keys on the right, of which the first is the entry: it parts the sides.
/// What a way down reads of each node stands first.
#[cycle(tree)]
#[derive(Drop)]
pub(crate) struct Node<K, V> {
    pub(crate) entry: Entry<K, V>,
    pub(crate) left: Link<K, V>,
    pub(crate) right: Link<K, V>,
    /// How many links stand on the longest way down, this one counted. Private, so that no other module makes a node.
    height: u8,
}

impl<K, V> Link<K, V> {
    /// How many links stand on the longest way down: one where it is a run.
    pub(crate) fn height(&self) -> u8
        ensures { IsFormed self.now → result ≡ link_height self.now }
    {
        match self {
            Link::Run(_) => 1,
            Link::Fork(node) => node.height,
        }
    }

    /// One more owner of the same run or node. `NoMemory` where the count of its owners is full.
    pub(crate) fn share(&self) -> Result<Link<K, V>, NoMemory>
        ensures pairs { IfOk result (λ link. link_pairs link ≡ link_pairs self.now) }
        ensures height { IfOk result (λ link. link_height link ≡ link_height self.now) }
        ensures formed { IsFormed self.now → IfOk result (λ link. IsFormed link) }
        ensures parted { (front : K → ℕ) → IsParted front self.now → IfOk result (λ link. IsParted front link) }
    {
        match self {
            Link::Run(run) => Ok(Link::Run(Arc::try_clone(run)?)),
            Link::Fork(node) => Ok(Link::Fork(Arc::try_clone(node)?)),
        }
    }
}

/// One more owner of a tree's root. `NoMemory` where the count of its owners is full.
pub(crate) fn share_root<K, V>(root: &Option<Link<K, V>>) -> Result<Option<Link<K, V>>, NoMemory>
    ensures pairs { IfOk result (λ shared. root_pairs shared ≡ root_pairs root.now) }
    ensures height { IfOk result (λ shared. root_height shared ≡ root_height root.now) }
    ensures formed { IsFormedRoot root.now → IfOk result (λ shared. IsFormedRoot shared) }
    ensures parted { (front : K → ℕ) → IsPartedRoot front root.now → IfOk result (λ shared. IsPartedRoot front shared) }
{
    match root {
        None => Ok(None),
        Some(link) => {
            let link = link.share()?;
            Ok(Some(link))
        }
    }
}

/// The same number, and one more owner of the same pair. `NoMemory` where the count of its owners is full.
pub(crate) fn share_entry<K, V>(entry: &Entry<K, V>) -> Result<Entry<K, V>, NoMemory>
    ensures front { IfOk result (λ shared. shared.front ≡ entry.now.front) }
    ensures pair { IfOk result (λ shared. shared.pair.value ≡ entry.now.pair.value) }
{
    let pair = Arc::try_clone(&entry.pair)?;
    Ok(Entry {
        front: entry.front,
        pair,
    })
}

/// Puts an entry after others. `NoMemory` where memory is refused.
#[tactic(auto, using(crate::proofs::LinkLemmas::run_append))]
pub(crate) fn push_entry<K: Drop, V: Drop>(
    entries: &mut Vec<Entry<K, V>>,
    entry: Entry<K, V>,
) -> Result<(), NoMemory>
    ensures pairs { IfOk result (λ _. run_pairs entries.new.items ≡ run_pairs entries.old.items ++ entry.pair.value ∷ []) }
    ensures length { IfOk result (λ _. vec_len entries.new ≡ vec_len entries.old + 1) }
    ensures fronted { (front : K → ℕ) → AreFronted front entries.old.items → IsFronted front entry → IfOk result (λ _. AreFronted front entries.new.items) }
{
    entries.push(entry).map_err(AllocError::from)?;
    Ok(())
}

/// Makes the runs and nodes of one call, and counts them.
#[derive(Drop)]
pub(crate) struct Maker {
    alloc: Global,
    made: u64,
}

impl Maker {
    /// A maker that has made nothing.
    pub(crate) fn new(alloc: Global) -> Maker
        ensures { result.made ≡ 0 }
    {
        Maker { alloc, made: 0 }
    }

    /// Where its runs and nodes lie.
    pub(crate) fn alloc(&self) -> Global {
        self.alloc
    }

    /// How many runs and nodes it has made.
    pub(crate) fn made(&self) -> u64
        ensures { result ≡ self.now.made }
    {
        self.made
    }

    /// A run of pairs: the only call that makes one, and that counts it. `NoMemory` where memory is refused, or where 2^64 - 1
    /// are made, which no memory holds.
    pub(crate) fn run<K: Drop, V: Drop>(
        &mut self,
        entries: Vec<Entry<K, V>>,
    ) -> Result<Link<K, V>, NoMemory>
        ensures pairs { IfOk result (λ link. link_pairs link ≡ run_pairs entries.items) }
        ensures height { IfOk result (λ link. link_height link ≡ 1) }
        ensures formed { IsRun entries.items → IfOk result (λ link. IsFormed link) }
        ensures parted { (front : K → ℕ) → IsRunFronted front entries.items → IfOk result (λ link. IsParted front link) }
        ensures counted { IfOk result (λ _. self.new.made ≡ self.old.made + 1) }
        ensures at_most_one { self.new.made ≤ self.old.made + 1 }
    {
        let made = self.made.checked_add(1).ok_or(NoMemory)?;
        let run = Arc::new(self.alloc, entries).map_err(AllocError::from)?;
        self.made = made;
        Ok(Link::Run(run))
    }

    /// The node of two sides with the first pair of the right one: the only call that makes a node, and that counts one.
    /// `NoMemory` where memory is refused, or where a side is [`MAX_HEIGHT`] links high or 2^64 - 1 are made, which no memory
    /// holds.
    pub(crate) fn fork<K: Drop, V: Drop>(
        &mut self,
        left: Link<K, V>,
        entry: Entry<K, V>,
        right: Link<K, V>,
    ) -> Result<Link<K, V>, NoMemory>
        ensures pairs { IfOk result (λ link. link_pairs link ≡ link_pairs left ++ link_pairs right) }
        ensures height { IfOk result (λ link. link_height link ≡ max (link_height left) (link_height right) + 1) }
        ensures formed { IsFormed left → IsFormed right → IsLevel left right → IfOk result (λ link. IsFormed link) }
        ensures parted { (front : K → ℕ) → IsParting front entry (link_pairs right) → IsParted front left → IsParted front right → IfOk result (λ link. IsParted front link) }
        ensures counted { IfOk result (λ _. self.new.made ≡ self.old.made + 1) }
        ensures at_most_one { self.new.made ≤ self.old.made + 1 }
    {
        let higher = left.height().max(right.height());
        if usize::from(higher) >= MAX_HEIGHT {
            return Err(NoMemory);
        }
        let height = higher + 1;
        let made = self.made.checked_add(1).ok_or(NoMemory)?;
        let node = Arc::new(
            self.alloc,
            Node {
                entry,
                left,
                right,
                height,
            },
        )
        .map_err(AllocError::from)?;
        self.made = made;
        Ok(Link::Fork(node))
    }
}
