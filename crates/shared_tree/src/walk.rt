//! The pairs of a tree in order.
ghost use Rattle.std.specs.Iterator.{YieldsFirstRef, item_count};
ghost use Rattle.std.specs.Prelude.{◌≡◌, ◌+◌, ◌<◌, ◌≤◌, [], ◌++◌, length, MatchOption};
ghost use Rattle.shared_tree.specs.Links.{run_pairs, link_pairs, link_height, IsFormed, IsParted, AreFronted, AreOnWay, pairs_on_way, IsTaken, IsTree, root_pairs, IsFormedRoot};
ghost use Rattle.shared_tree.specs.Fronts.{front_at};
ghost use Rattle.shared_tree.specs.Pairs.{IsAscending, pairs_above};

use crate::front::{Base, Front};
use crate::look::{order_at, place_in};
use crate::node::{Entry, Link, MAX_HEIGHT, Node};
use crate::seek::Seek;
use arrayvec::ArrayVec;
use std::marker::Model;

/// Nodes on the way down to a run, the highest first; what stands on the left of each is passed.
type Way<'a, K, V> = ArrayVec<Option<&'a Node<K, V>>, MAX_HEIGHT>;

/// The pairs of a tree that are left, in the order of their keys. It keeps the way down to the run that it is in, in room of its
/// own, so that it takes no memory, and a walk comes to each link once. Contracts see the list of the pairs that are left.
#[derive(Drop)]
pub struct Walk<'a, K: Ord, V> {
    way: Way<'a, K, V>,
    rest: &'a [Entry<K, V>],
}

impl<'a, K: Ord, V> Model for Walk<'a, K, V> {
    ghost use Rattle.std.specs.Prelude.{List, ◌++◌};
    ghost use Rattle.shared_tree.specs.Links.{AreOnWay, pairs_on_way, run_pairs};

    ghost Value = { List (K × V) };

    ghost view = { λ walk. run_pairs walk.rest.now ++ pairs_on_way walk.way.items };

    ghost invariant = { λ walk. AreOnWay 0 walk.way.items };
}

impl<'a, K: Ord, V> Walk<'a, K, V> {
    /// All pairs below a root.
    pub(crate) fn new(root: &'a Option<Link<K, V>>) -> Walk<'a, K, V>
        requires { IsFormedRoot root.now }
        ensures { result ≡ root_pairs root.now }
    {
        match root {
            None => Walk {
                way: ArrayVec::new(),
                rest: &[],
            },
            Some(link) => Walk::below(link),
        }
    }

    /// All pairs below a link.
    #[tactic(auto, using(crate::proofs::WayLemmas::low_enough))]
    fn below(link: &'a Link<K, V>) -> Walk<'a, K, V>
        requires { IsFormed link.now }
        ensures { result ≡ link_pairs link.now }
    {
        let mut way = ArrayVec::new();
        let rest = go_down(&mut way, link);
        Walk { way, rest }
    }
}

impl<'a, K: Front, V> Walk<'a, K, V> {
    /// The pairs below a root whose keys are greater than a key.
    pub(crate) fn above<Q: Seek<K>>(
        root: &'a Option<Link<K, V>>,
        base: &Base<K>,
        sought: &Q,
    ) -> Walk<'a, K, V>
        requires { IsTree K.cmp (front_at K.front base.now) root.now }
        ensures { result ≡ pairs_above K.cmp (Q.key sought.now) (root_pairs root.now) }
    {
        match root {
            None => Walk {
                way: ArrayVec::new(),
                rest: &[],
            },
            Some(link) => Walk::above_in(link, base, sought),
        }
    }

    /// The pairs below a link whose keys are greater than a key.
    #[tactic(auto, using(crate::proofs::WayLemmas::low_enough))]
    fn above_in<Q: Seek<K>>(link: &'a Link<K, V>, base: &Base<K>, sought: &Q) -> Walk<'a, K, V>
        requires formed { IsFormed link.now }
        requires parted { IsParted (front_at K.front base.now) link.now }
        requires ascends { IsAscending K.cmp (link_pairs link.now) }
        ensures { result ≡ pairs_above K.cmp (Q.key sought.now) (link_pairs link.now) }
    {
        let mut way = ArrayVec::new();
        let rest = go_above(&mut way, link, base, sought);
        Walk { way, rest }
    }
}

impl<'a, K: Ord, V> Iterator for Walk<'a, K, V> {
    type Item = &'a (K, V);

    ghost next_gives = { YieldsFirstRef (λ walk. walk) };

    ghost remaining = { item_count (λ walk. walk) };

    fn next(&mut self) -> Option<&'a (K, V)> {
        self.rest = rest_or_next(&mut self.way, self.rest);
        let (first, rest) = self.rest.split_first()?;
        self.rest = rest;
        Some(&*first.pair)
    }
}

/// Takes the lowest node off a way.
fn take_lowest<'a, K, V>(way: &mut Way<'a, K, V>) -> Option<&'a Node<K, V>>
    requires { AreOnWay 0 way.old.items }
    ensures { MatchOption result ((way.old.items ≡ []) × (way.new.items ≡ [])) (λ node. IsTaken way.old.items way.new.items node) }
{
    let lowest = way.pop()?;
    lowest
}

/// The rest of a run, or the run after it where nothing is left, with the way to it in place of the way to the one.
fn rest_or_next<'a, K, V>(way: &mut Way<'a, K, V>, rest: &'a [Entry<K, V>]) -> &'a [Entry<K, V>]
    requires { AreOnWay 0 way.old.items }
    ensures way { AreOnWay 0 way.new.items }
    ensures pairs { run_pairs result.now ++ pairs_on_way way.new.items ≡ run_pairs rest.now ++ pairs_on_way way.old.items }
    ensures none { length result.now ≡ 0 → pairs_on_way way.new.items ≡ [] }
{
    if !rest.is_empty() {
        return rest;
    }
    match take_lowest(way) {
        None => rest,
        Some(node) => go_down(way, &node.right),
    }
}

/// Puts the way down from a link to its first run after a way, and gives that run.
fn go_down<'a, K, V>(way: &mut Way<'a, K, V>, link: &'a Link<K, V>) -> &'a [Entry<K, V>]
    requires way { AreOnWay 0 way.old.items }
    requires formed { IsFormed link.now }
    requires room { length way.old.items + link_height link.now ≤ MAX_HEIGHT }
    ensures way { AreOnWay 0 way.new.items }
    ensures some { 0 < length result.now }
    ensures pairs { run_pairs result.now ++ pairs_on_way way.new.items ≡ link_pairs link.now ++ pairs_on_way way.old.items }
{
    let mut below = link;
    loop {
        match below {
            Link::Run(run) => return run,
            Link::Fork(node) => {
                way.push(Some(&**node));
                below = &node.left;
            }
        }
    }
}

/// Puts the way down from a link to the first pair of a greater key after a way, and gives that pair's run from it on.
fn go_above<'a, K: Front, V, Q: Seek<K>>(
    way: &mut Way<'a, K, V>,
    link: &'a Link<K, V>,
    base: &Base<K>,
    sought: &Q,
) -> &'a [Entry<K, V>]
    requires way { AreOnWay 0 way.old.items }
    requires formed { IsFormed link.now }
    requires parted { IsParted (front_at K.front base.now) link.now }
    requires room { length way.old.items + link_height link.now ≤ MAX_HEIGHT }
    requires ascends { IsAscending K.cmp (link_pairs link.now) }
    ensures way { AreOnWay 0 way.new.items }
    ensures pairs { run_pairs result.now ++ pairs_on_way way.new.items ≡ pairs_above K.cmp (Q.key sought.now) (link_pairs link.now) ++ pairs_on_way way.old.items }
{
    let own = base.front_of(sought);
    let mut below = link;
    loop {
        match below {
            Link::Run(run) => return run_above(own, base, sought, run),
            Link::Fork(node) => {
                let is_above = order_at(own, base, sought, &node.entry).is_lt();
                if is_above {
                    way.push(Some(&**node));
                    below = &node.left;
                } else {
                    below = &node.right;
                }
            }
        }
    }
}

/// A run after the place of a key.
fn run_above<'a, K: Front, V, Q: Seek<K>>(
    own: u64,
    base: &Base<K>,
    sought: &Q,
    run: &'a [Entry<K, V>],
) -> &'a [Entry<K, V>]
    requires own { own ≡ front_at K.front base.now (Q.key sought.now) }
    requires fronted { AreFronted (front_at K.front base.now) run.now }
    requires ascends { IsAscending K.cmp (run_pairs run.now) }
    ensures { run_pairs result.now ≡ pairs_above K.cmp (Q.key sought.now) (run_pairs run.now) }
{
    match place_in(own, base, sought, run) {
        Ok(place) => run.split_at(place + 1).1,
        Err(place) => run.split_at(place).1,
    }
}
