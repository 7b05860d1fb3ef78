//! Two sides and a pair between them, brought level by turning the higher side.
ghost use Rattle.std.specs.Prelude.{◌≡◌, ℕ, ◌+◌, ◌<◌, ◌≤◌, ◌++◌, IfOk, max};
ghost use Rattle.shared_tree.specs.Links.{link_pairs, link_height, IsFormed, IsLevel, AreJoinable, IsJoined, IsHighLeft, IsHighRight, IsBentLeft, IsBentRight, node_pairs, IsParting, IsParted, IsPartedNode};

use crate::fault::NoMemory;
use crate::node::{Entry, Link, Maker, Node, share_entry};

impl Maker {
    /// The pairs of two sides with a pair between them, level where neither side is higher by more than two. It makes at
    /// most three nodes. `NoMemory` where a node can't be made or shared.
    #[tactic(auto, using(crate::proofs::LinkLemmas::some_height))]
    pub(crate) fn join<K: Drop, V: Drop>(
        &mut self,
        left: Link<K, V>,
        entry: Entry<K, V>,
        right: Link<K, V>,
    ) -> Result<Link<K, V>, NoMemory>
        ensures pairs { IfOk result (λ link. link_pairs link ≡ link_pairs left ++ link_pairs right) }
        ensures formed { AreJoinable left right → IfOk result (λ link. IsFormed link) }
        ensures height { AreJoinable left right → IfOk result (λ link. IsJoined left right link) }
        ensures parted { (front : K → ℕ) → IsParting front entry (link_pairs right) → IsParted front left → IsParted front right → IfOk result (λ link. IsParted front link) }
        ensures counted { IfOk result (λ _. self.old.made < self.new.made) }
        ensures at_most_three { self.new.made ≤ self.old.made + 3 }
    {
        if let Link::Fork(node) = &left {
            if left.height() > right.height().saturating_add(1) {
                return self.turn_right(node, &entry, &right);
            }
        }
        if let Link::Fork(node) = &right {
            if right.height() > left.height().saturating_add(1) {
                return self.turn_left(&left, &entry, node);
            }
        }
        self.fork(left, entry, right)
    }

    /// `join` of a left side with a node's pair and right side, which stay with the node, and get one owner more.
    /// `NoMemory` also where one of them can't be shared.
    pub(crate) fn with_left<K: Drop, V: Drop>(
        &mut self,
        left: Link<K, V>,
        node: &Node<K, V>,
    ) -> Result<Link<K, V>, NoMemory>
        ensures pairs { IfOk result (λ link. link_pairs link ≡ link_pairs left ++ link_pairs node.now.right) }
        ensures formed { AreJoinable left node.now.right → IfOk result (λ link. IsFormed link) }
        ensures height { AreJoinable left node.now.right → IfOk result (λ link. IsJoined left node.now.right link) }
        ensures parted { (front : K → ℕ) → IsParted front left → IsPartedNode front node.now → IfOk result (λ link. IsParted front link) }
        ensures counted { IfOk result (λ _. self.old.made < self.new.made) }
        ensures at_most_three { self.new.made ≤ self.old.made + 3 }
    {
        self.join(left, share_entry(&node.entry)?, node.right.share()?)
    }

    /// `join` of a node's left side and pair, which stay with the node, and get one owner more, with a right side.
    /// `NoMemory` also where one of them can't be shared.
    pub(crate) fn with_right<K: Drop, V: Drop>(
        &mut self,
        node: &Node<K, V>,
        right: Link<K, V>,
    ) -> Result<Link<K, V>, NoMemory>
        ensures pairs { IfOk result (λ link. link_pairs link ≡ link_pairs node.now.left ++ link_pairs right) }
        ensures formed { AreJoinable node.now.left right → IfOk result (λ link. IsFormed link) }
        ensures height { AreJoinable node.now.left right → IfOk result (λ link. IsJoined node.now.left right link) }
        ensures parted { (front : K → ℕ) → IsParting front node.now.entry (link_pairs right) → IsParted front node.now.left → IsParted front right → IfOk result (λ link. IsParted front link) }
        ensures counted { IfOk result (λ _. self.old.made < self.new.made) }
        ensures at_most_three { self.new.made ≤ self.old.made + 3 }
    {
        self.join(node.left.share()?, share_entry(&node.entry)?, right)
    }

    /// `fork` where the pair and both sides stay with their owners, and get one more. `NoMemory` also where one of them can't be
    /// shared.
    fn fork_shared<K: Drop, V: Drop>(
        &mut self,
        left: &Link<K, V>,
        entry: &Entry<K, V>,
        right: &Link<K, V>,
    ) -> Result<Link<K, V>, NoMemory>
        ensures pairs { IfOk result (λ link. link_pairs link ≡ link_pairs left.now ++ link_pairs right.now) }
        ensures height { IfOk result (λ link. link_height link ≡ max (link_height left.now) (link_height right.now) + 1) }
        ensures formed { IsFormed left.now → IsFormed right.now → IsLevel left.now right.now → IfOk result (λ link. IsFormed link) }
        ensures parted { (front : K → ℕ) → IsParting front entry.now (link_pairs right.now) → IsParted front left.now → IsParted front right.now → IfOk result (λ link. IsParted front link) }
        ensures counted { IfOk result (λ _. self.new.made ≡ self.old.made + 1) }
        ensures at_most_one { self.new.made ≤ self.old.made + 1 }
    {
        self.fork(left.share()?, share_entry(entry)?, right.share()?)
    }

    /// `join` where the left side, a node, is higher by two: it gives its right side to the pair.
    #[tactic(auto, using(crate::proofs::LinkLemmas::some_height))]
    fn turn_right<K: Drop, V: Drop>(
        &mut self,
        node: &Node<K, V>,
        entry: &Entry<K, V>,
        right: &Link<K, V>,
    ) -> Result<Link<K, V>, NoMemory>
        ensures pairs { IfOk result (λ link. link_pairs link ≡ node_pairs node.now ++ link_pairs right.now) }
        ensures formed { IsHighLeft node.now right.now → IfOk result (λ link. IsFormed link) }
        ensures low { IsHighLeft node.now right.now → IfOk result (λ link. link_height right.now + 2 ≤ link_height link) }
        ensures high { IsHighLeft node.now right.now → IfOk result (λ link. link_height link ≤ link_height right.now + 3) }
        ensures parted { (front : K → ℕ) → IsPartedNode front node.now → IsParting front entry.now (link_pairs right.now) → IsParted front right.now → IfOk result (λ link. IsParted front link) }
        ensures counted { IfOk result (λ _. self.old.made < self.new.made) }
        ensures at_most_three { self.new.made ≤ self.old.made + 3 }
    {
        if let Link::Fork(inner) = &node.right {
            if node.right.height() > node.left.height() {
                return self.turn_right_twice(node, inner, entry, right);
            }
        }
        let lower = self.fork_shared(&node.right, entry, right)?;
        self.fork(node.left.share()?, share_entry(&node.entry)?, lower)
    }

    /// `turn_right` where the node's right side, `inner`, is its higher one: `inner` comes to the top.
    fn turn_right_twice<K: Drop, V: Drop>(
        &mut self,
        node: &Node<K, V>,
        inner: &Node<K, V>,
        entry: &Entry<K, V>,
        right: &Link<K, V>,
    ) -> Result<Link<K, V>, NoMemory>
        ensures pairs { IfOk result (λ link. link_pairs link ≡ link_pairs node.now.left ++ (node_pairs inner.now ++ link_pairs right.now)) }
        ensures formed { IsBentLeft node.now inner.now right.now → IfOk result (λ link. IsFormed link) }
        ensures height { IsBentLeft node.now inner.now right.now → IfOk result (λ link. link_height link ≡ link_height right.now + 2) }
        ensures parted { (front : K → ℕ) → IsParting front node.now.entry (node_pairs inner.now) → IsParted front node.now.left → IsPartedNode front inner.now → IsParting front entry.now (link_pairs right.now) → IsParted front right.now → IfOk result (λ link. IsParted front link) }
        ensures counted { IfOk result (λ _. self.old.made < self.new.made) }
        ensures at_most_three { self.new.made ≤ self.old.made + 3 }
    {
        let upper_left = self.fork_shared(&node.left, &node.entry, &inner.left)?;
        let upper_right = self.fork_shared(&inner.right, entry, right)?;
        self.fork(upper_left, share_entry(&inner.entry)?, upper_right)
    }

    /// `join` where the right side, a node, is higher by two: it gives its left side to the pair.
    #[tactic(auto, using(crate::proofs::LinkLemmas::some_height))]
    fn turn_left<K: Drop, V: Drop>(
        &mut self,
        left: &Link<K, V>,
        entry: &Entry<K, V>,
        node: &Node<K, V>,
    ) -> Result<Link<K, V>, NoMemory>
        ensures pairs { IfOk result (λ link. link_pairs link ≡ link_pairs left.now ++ node_pairs node.now) }
        ensures formed { IsHighRight left.now node.now → IfOk result (λ link. IsFormed link) }
        ensures low { IsHighRight left.now node.now → IfOk result (λ link. link_height left.now + 2 ≤ link_height link) }
        ensures high { IsHighRight left.now node.now → IfOk result (λ link. link_height link ≤ link_height left.now + 3) }
        ensures parted { (front : K → ℕ) → IsParted front left.now → IsParting front entry.now (node_pairs node.now) → IsPartedNode front node.now → IfOk result (λ link. IsParted front link) }
        ensures counted { IfOk result (λ _. self.old.made < self.new.made) }
        ensures at_most_three { self.new.made ≤ self.old.made + 3 }
    {
        if let Link::Fork(inner) = &node.left {
            if node.left.height() > node.right.height() {
                return self.turn_left_twice(left, entry, inner, node);
            }
        }
        let lower = self.fork_shared(left, entry, &node.left)?;
        self.fork(lower, share_entry(&node.entry)?, node.right.share()?)
    }

    /// `turn_left` where the node's left side, `inner`, is its higher one: `inner` comes to the top.
    fn turn_left_twice<K: Drop, V: Drop>(
        &mut self,
        left: &Link<K, V>,
        entry: &Entry<K, V>,
        inner: &Node<K, V>,
        node: &Node<K, V>,
    ) -> Result<Link<K, V>, NoMemory>
        ensures pairs { IfOk result (λ link. link_pairs link ≡ link_pairs left.now ++ (node_pairs inner.now ++ link_pairs node.now.right)) }
        ensures formed { IsBentRight left.now inner.now node.now → IfOk result (λ link. IsFormed link) }
        ensures height { IsBentRight left.now inner.now node.now → IfOk result (λ link. link_height link ≡ link_height left.now + 2) }
        ensures parted { (front : K → ℕ) → IsParted front left.now → IsParting front entry.now (node_pairs inner.now) → IsPartedNode front inner.now → IsParting front node.now.entry (link_pairs node.now.right) → IsParted front node.now.right → IfOk result (λ link. IsParted front link) }
        ensures counted { IfOk result (λ _. self.old.made < self.new.made) }
        ensures at_most_three { self.new.made ≤ self.old.made + 3 }
    {
        let upper_left = self.fork_shared(left, entry, &inner.left)?;
        let upper_right = self.fork_shared(&inner.right, &node.entry, &node.right)?;
        self.fork(upper_left, share_entry(&inner.entry)?, upper_right)
    }
}
