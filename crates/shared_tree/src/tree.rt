//! A tree, and what it is asked and made into.
ghost use Rattle.std.specs.Prelude.{◌≡◌, ◌+◌, ◌*◌, ◌<◌, ◌≤◌, [], IfOk, length, None, IsNone, IsTrue, ◌↔◌};
ghost use Rattle.std.specs.Option.{option_copied};
ghost use Rattle.shared_tree.specs.Pairs.{IsAscending, pair_at, value_at, pair_before, pair_after, pairs_above, pairs_with, pairs_without, first_pair, IsLow};

use crate::fault::NoMemory;
use crate::front::{Base, Front};
use crate::look::{Around, around_in, find_in, first_in};
use crate::node::{Link, Maker, share_root};
use crate::seek::Seek;
use crate::walk::Walk;
use std::alloc::Global;
use std::marker::Model;

/// A sorted map. A tree is never changed: a change makes another tree, which shares with this one all that is the same,
/// and each owner of either may drop it when it likes. Contracts see its pairs, whose keys ascend by `K`'s order, and
/// its height.
#[derive(Drop)]
pub struct Tree<K: Front, V> {
    root: Option<Link<K, V>>,
    base: Base<K>,
}

impl<K: Front, V> Model for Tree<K, V> {
    ghost use Rattle.shared_tree.specs.Pairs.{TreeView};
    ghost use Rattle.shared_tree.specs.Fronts.{front_at};
    ghost use Rattle.shared_tree.specs.Links.{view_of, IsTree};

    ghost Value = { TreeView K V };

    ghost view = { λ tree. view_of tree.root };

    ghost invariant = { λ tree. IsTree K.cmp (front_at K.front tree.base) tree.root };
}

impl<K: Front, V> Tree<K, V> {
    /// The tree of no pair. It takes no memory.
    pub fn new() -> Tree<K, V>
        ensures pairs { result.pairs ≡ [] }
        ensures height { result.height ≡ 0 }
    {
        Tree {
            root: None,
            base: Base::unsaid(),
        }
    }

    /// Whether it has no pair.
    #[tactic(auto, using(crate::proofs::LinkLemmas::some_pairs))]
    pub fn is_empty(&self) -> bool
        ensures { IsTrue result ↔ (self.now.pairs ≡ []) }
    {
        self.root.is_none()
    }

    /// How many nodes and runs stand on the longest way down from the root: at most twice the binary digits of the number of pairs.
    pub fn height(&self) -> u8
        ensures height { result ≡ self.now.height }
        ensures low { IsLow result (length self.now.pairs) }
    {
        match &self.root {
            None => 0,
            Some(root) => root.height(),
        }
    }

    /// The pair of a key, for its key as the tree has it.
    pub fn pair<Q: Seek<K>>(&self, sought: &Q) -> Option<&(K, V)>
        ensures { option_copied result ≡ pair_at K.cmp (Q.key sought.now) self.now.pairs }
    {
        match &self.root {
            None => None,
            Some(root) => find_in(root, &self.base, sought),
        }
    }

    /// The value of a key.
    pub fn get<Q: Seek<K>>(&self, sought: &Q) -> Option<&V>
        ensures { option_copied result ≡ value_at K.cmp (Q.key sought.now) self.now.pairs }
    {
        match self.pair(sought) {
            Some(pair) => Some(&pair.1),
            None => None,
        }
    }

    /// The pair of a key, or else the pairs next to it, by one way down.
    pub fn around<Q: Seek<K>>(&self, sought: &Q) -> Around<'_, K, V>
        ensures at { option_copied result.at ≡ pair_at K.cmp (Q.key sought.now) self.now.pairs }
        ensures before { IsNone result.at → option_copied result.before ≡ pair_before K.cmp (Q.key sought.now) self.now.pairs }
        ensures behind { IsNone result.at → option_copied result.behind ≡ pair_after K.cmp (Q.key sought.now) self.now.pairs }
    {
        match &self.root {
            None => Around {
                at: None,
                before: None,
                behind: None,
            },
            Some(root) => around_in(root, &self.base, sought),
        }
    }

    /// The pair of the least key that is greater than a key, which the tree needn't have.
    pub fn after<Q: Seek<K>>(&self, sought: &Q) -> Option<&(K, V)>
        ensures { option_copied result ≡ pair_after K.cmp (Q.key sought.now) self.now.pairs }
    {
        let mut above = self.walk_above(sought);
        above.next()
    }

    /// The pair of the least key.
    pub fn first(&self) -> Option<&(K, V)>
        ensures { option_copied result ≡ first_pair self.now.pairs }
    {
        match &self.root {
            None => None,
            Some(root) => first_in(root),
        }
    }

    /// The pairs in the order of their keys. It takes no memory.
    pub fn walk(&self) -> Walk<'_, K, V>
        ensures { result ≡ self.now.pairs }
    {
        Walk::new(&self.root)
    }

    /// The pairs whose keys are greater than a key, which the tree needn't have, in the order of their keys. It takes no
    /// memory, and comes to its first pair on one way down.
    pub fn walk_above<Q: Seek<K>>(&self, sought: &Q) -> Walk<'_, K, V>
        ensures { result ≡ pairs_above K.cmp (Q.key sought.now) self.now.pairs }
    {
        Walk::above(&self.root, &self.base, sought)
    }
}

impl<K: Front + Drop, V: Drop> Tree<K, V> {
    /// The tree of pairs whose keys ascend, each less than the next; most of them begin as `base` does. Where there are
    /// more than eight, its runs have eight to sixteen pairs each, and it makes a node for each run but one. `NoMemory` where
    /// memory is refused; the pairs are then gone.
    pub fn from_sorted(alloc: Global, base: K, pairs: Vec<(K, V)>) -> Result<Tree<K, V>, NoMemory>
        requires { IsAscending K.cmp pairs.items }
        ensures pairs { IfOk result (λ tree. tree.pairs ≡ pairs.items) }
    {
        let mut pairs = pairs;
        let count = pairs.len();
        let base = Base::new(alloc, base)?;
        let mut maker = Maker::new(alloc);
        let root = maker.build_root(&base, &mut pairs, count)?;
        Ok(Tree { root, base })
    }

    /// The tree with a pair in place, whatever pair its key had, and how many nodes and runs were made: one at the
    /// least, and at most four for each level of this tree and four more. `NoMemory` where memory is refused; this tree stays as it is,
    /// as it does at any call.
    pub fn with(&self, alloc: Global, key: K, value: V) -> Result<(Tree<K, V>, u64), NoMemory>
        ensures pairs { IfOk result (λ new. new.0.pairs ≡ pairs_with K.cmp key value self.now.pairs) }
        ensures made { IfOk result (λ new. (0 < new.1) × (new.1 ≤ 4 * (self.now.height + 1))) }
    {
        let base = self.base.share()?;
        let mut maker = Maker::new(alloc);
        let entry = maker.entry(&base, (key, value))?;
        let root = maker.with_root(&self.root, entry)?;
        Ok((
            Tree {
                root: Some(root),
                base,
            },
            maker.made(),
        ))
    }

    /// The tree without the pair of a key, and how many nodes and runs were made: at most four for each level of this
    /// tree and four more, and none where the tree has no pair of that key, which gives an equal tree. `NoMemory` where memory is
    /// refused; this tree stays as it is, as it does at any call.
    pub fn without<Q: Seek<K>>(
        &self,
        alloc: Global,
        sought: &Q,
    ) -> Result<(Tree<K, V>, u64), NoMemory>
        ensures pairs { IfOk result (λ new. new.0.pairs ≡ pairs_without K.cmp (Q.key sought.now) self.now.pairs) }
        ensures absent { pair_at K.cmp (Q.key sought.now) self.now.pairs ≡ None → IfOk result (λ new. (new.0 ≡ self.now) × (new.1 ≡ 0)) }
        ensures made { IfOk result (λ new. new.1 ≤ 4 * (self.now.height + 1)) }
    {
        match self.pair(sought) {
            None => Ok((self.share()?, 0)),
            Some(_) => {
                let base = self.base.share()?;
                let mut maker = Maker::new(alloc);
                let root = maker.without_root(&self.root, sought)?;
                Ok((Tree { root, base }, maker.made()))
            }
        }
    }

    /// Another owner of the same nodes and runs. `NoMemory` where the count of the root's owners is full; no memory is taken.
    pub fn share(&self) -> Result<Tree<K, V>, NoMemory>
        ensures { IfOk result (λ new. new ≡ self.now) }
    {
        let base = self.base.share()?;
        let root = share_root(&self.root)?;
        Ok(Tree { root, base })
    }
}
