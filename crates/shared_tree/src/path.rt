//! The way down to a key, made anew; what stands beside it is shared.
ghost use Rattle.std.specs.Prelude.{◌≡◌, ℕ, ◌+◌, ◌*◌, ◌<◌, ◌≤◌, ◌++◌, IfOk, Some};
ghost use Rattle.shared_tree.specs.Links.{link_pairs, link_height, IsFormed, IsGrown, IsShrunk, IsFronted, IsTree, root_pairs, IsFormedRoot, IsPartedRoot, root_height, IsParted, IsParting, IsPartedNode, IsCutLeft, IsCutRight, IsShrunkNode};
ghost use Rattle.shared_tree.specs.Pairs.{pairs_with, pairs_without};

use crate::fault::NoMemory;
use crate::front::Front;
use crate::look::share_first;
use crate::node::{Entry, Link, Maker, Node, share_entry};
use crate::seek::Seek;
use std::cmp::Ordering;

impl Maker {
    /// The pairs of a tree with one in place, whatever pair its key had.
    pub(crate) fn with_root<K: Front + Drop, V: Drop>(
        &mut self,
        root: &Option<Link<K, V>>,
        entry: Entry<K, V>,
    ) -> Result<Link<K, V>, NoMemory>
        ensures pairs { (front : K → ℕ) → IsTree K.cmp front root.now → IfOk result (λ new. link_pairs new ≡ pairs_with K.cmp entry.pair.value.0 entry.pair.value.1 (root_pairs root.now)) }
        ensures formed { IsFormedRoot root.now → IfOk result (λ new. IsFormed new) }
        ensures parted { (front : K → ℕ) → IsFronted front entry → IsTree K.cmp front root.now → IfOk result (λ new. IsParted front new) }
        ensures counted { IfOk result (λ _. self.old.made < self.new.made) }
        ensures bounded { IsFormedRoot root.now → self.new.made ≤ self.old.made + 3 * root_height root.now + 1 }
    {
        match root {
            None => self.run_of_one(entry),
            Some(link) => self.with(link, entry),
        }
    }

    /// The pairs of a tree without that of a key.
    pub(crate) fn without_root<K: Front + Drop, V: Drop, Q: Seek<K>>(
        &mut self,
        root: &Option<Link<K, V>>,
        sought: &Q,
    ) -> Result<Option<Link<K, V>>, NoMemory>
        ensures pairs { (front : K → ℕ) → IsTree K.cmp front root.now → IfOk result (λ new. root_pairs new ≡ pairs_without K.cmp (Q.key sought.now) (root_pairs root.now)) }
        ensures formed { IsFormedRoot root.now → IfOk result (λ new. IsFormedRoot new) }
        ensures parted { (front : K → ℕ) → IsTree K.cmp front root.now → IfOk result (λ new. IsPartedRoot front new) }
        ensures bounded { IsFormedRoot root.now → self.new.made ≤ self.old.made + 3 * root_height root.now }
    {
        match root {
            None => Ok(None),
            Some(link) => self.without(link, sought),
        }
    }

    /// The pairs of a link with one in place, whatever pair its key had. Where its key was the first on a node's right, it parts
    /// the sides from then on.
    pub(crate) fn with<K: Front + Drop, V: Drop>(
        &mut self,
        link: &Link<K, V>,
        entry: Entry<K, V>,
    ) -> Result<Link<K, V>, NoMemory>
        ensures pairs { (front : K → ℕ) → IsTree K.cmp front (Some link.now) → IfOk result (λ new. link_pairs new ≡ pairs_with K.cmp entry.pair.value.0 entry.pair.value.1 (link_pairs link.now)) }
        ensures formed { IsFormed link.now → IfOk result (λ new. IsFormed new) }
        ensures parted { (front : K → ℕ) → IsFronted front entry → IsTree K.cmp front (Some link.now) → IfOk result (λ new. IsParted front new) }
        ensures height { IsFormed link.now → IfOk result (λ new. IsGrown link.now new) }
        ensures counted { IfOk result (λ _. self.old.made < self.new.made) }
        ensures bounded { IsFormed link.now → self.new.made ≤ self.old.made + 3 * link_height link.now }
    {
        match link {
            Link::Run(run) => self.with_in_run(run, entry),
            Link::Fork(node) => match entry.pair.0.cmp(&node.entry.pair.0) {
                Ordering::Less => {
                    let left = self.with(&node.left, entry)?;
                    self.with_left(left, node)
                }
                Ordering::Equal => {
                    let parting = share_entry(&entry)?;
                    let right = self.with(&node.right, entry)?;
                    self.join(node.left.share()?, parting, right)
                }
                Ordering::Greater => {
                    let right = self.with(&node.right, entry)?;
                    self.with_right(node, right)
                }
            },
        }
    }

    /// The pairs of a link without that of a key; None where no other is left.
    pub(crate) fn without<K: Front + Drop, V: Drop, Q: Seek<K>>(
        &mut self,
        link: &Link<K, V>,
        sought: &Q,
    ) -> Result<Option<Link<K, V>>, NoMemory>
        ensures pairs { (front : K → ℕ) → IsTree K.cmp front (Some link.now) → IfOk result (λ new. root_pairs new ≡ pairs_without K.cmp (Q.key sought.now) (link_pairs link.now)) }
        ensures formed { IsFormed link.now → IfOk result (λ new. IsFormedRoot new) }
        ensures parted { (front : K → ℕ) → IsTree K.cmp front (Some link.now) → IfOk result (λ new. IsPartedRoot front new) }
        ensures height { IsFormed link.now → IfOk result (λ new. IsShrunk link.now new) }
        ensures bounded { IsFormed link.now → self.new.made ≤ self.old.made + 3 * link_height link.now }
    {
        match link {
            Link::Run(run) => self.without_in_run(run, sought),
            Link::Fork(node) => match sought.cmp_key(&node.entry.pair.0) {
                Ordering::Less => {
                    let left = self.without(&node.left, sought)?;
                    self.with_rest_left(left, node)
                }
                Ordering::Equal => {
                    let right = self.without(&node.right, sought)?;
                    self.parted_anew(node, right)
                }
                Ordering::Greater => {
                    let right = self.without(&node.right, sought)?;
                    self.with_rest_right(node, right)
                }
            },
        }
    }

    /// What is left on the left of a node, joined with its right side.
    #[tactic(auto, using(crate::proofs::LinkLemmas::some_height))]
    fn with_rest_left<K: Drop, V: Drop>(
        &mut self,
        left: Option<Link<K, V>>,
        node: &Node<K, V>,
    ) -> Result<Option<Link<K, V>>, NoMemory>
        ensures pairs { IfOk result (λ new. root_pairs new ≡ root_pairs left ++ link_pairs node.now.right) }
        ensures formed { IsCutLeft node.now left → IfOk result (λ new. IsFormedRoot new) }
        ensures parted { (front : K → ℕ) → IsPartedNode front node.now → IsPartedRoot front left → IfOk result (λ new. IsPartedRoot front new) }
        ensures height { IsCutLeft node.now left → IfOk result (λ new. IsShrunkNode node.now new) }
        ensures at_most_three { self.new.made ≤ self.old.made + 3 }
    {
        match left {
            None => {
                let right = node.right.share()?;
                Ok(Some(right))
            }
            Some(left) => {
                let link = self.with_left(left, node)?;
                Ok(Some(link))
            }
        }
    }

    /// A node's left side, joined with what is left on its right, where its first pair is left.
    #[tactic(auto, using(crate::proofs::LinkLemmas::some_height))]
    fn with_rest_right<K: Drop, V: Drop>(
        &mut self,
        node: &Node<K, V>,
        right: Option<Link<K, V>>,
    ) -> Result<Option<Link<K, V>>, NoMemory>
        ensures pairs { IfOk result (λ new. root_pairs new ≡ link_pairs node.now.left ++ root_pairs right) }
        ensures formed { IsCutRight node.now right → IfOk result (λ new. IsFormedRoot new) }
        ensures parted { (front : K → ℕ) → IsParting front node.now.entry (root_pairs right) → IsParted front node.now.left → IsPartedRoot front right → IfOk result (λ new. IsPartedRoot front new) }
        ensures height { IsCutRight node.now right → IfOk result (λ new. IsShrunkNode node.now new) }
        ensures at_most_three { self.new.made ≤ self.old.made + 3 }
    {
        match right {
            None => {
                let left = node.left.share()?;
                Ok(Some(left))
            }
            Some(right) => {
                let link = self.with_right(node, right)?;
                Ok(Some(link))
            }
        }
    }

    /// A node's left side, joined with what is left on its right, whose first pair parts them from then on.
    #[tactic(auto, using(crate::proofs::LinkLemmas::some_height))]
    fn parted_anew<K: Drop, V: Drop>(
        &mut self,
        node: &Node<K, V>,
        right: Option<Link<K, V>>,
    ) -> Result<Option<Link<K, V>>, NoMemory>
        ensures pairs { IfOk result (λ new. root_pairs new ≡ link_pairs node.now.left ++ root_pairs right) }
        ensures formed { IsCutRight node.now right → IfOk result (λ new. IsFormedRoot new) }
        ensures parted { (front : K → ℕ) → IsParted front node.now.left → IsPartedRoot front right → IfOk result (λ new. IsPartedRoot front new) }
        ensures height { IsCutRight node.now right → IfOk result (λ new. IsShrunkNode node.now new) }
        ensures at_most_three { self.new.made ≤ self.old.made + 3 }
    {
        match right {
            None => {
                let left = node.left.share()?;
                Ok(Some(left))
            }
            Some(right) => {
                let parting = share_first(&right)?;
                let link = self.join(node.left.share()?, parting, right)?;
                Ok(Some(link))
            }
        }
    }
}
