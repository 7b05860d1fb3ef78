//! What a key finds, on one way down.
ghost use Rattle.std.specs.Prelude.{◌≡◌, ◌<◌, ◌≤◌, IsNone, MatchResult, IfOk, IfSome, ℕ, length, take};
ghost use Rattle.std.specs.Option.{option_copied, option_map, option_or};
ghost use Rattle.std.specs.List.{slice_get};
ghost use Rattle.std.specs.List.Sorted.{IsSearchInRange};
ghost use Rattle.shared_tree.specs.Fronts.{front_at};
ghost use Rattle.shared_tree.specs.Links.{run_pairs, link_pairs, IsFronted, AreFronted, IsParted, IsFormed, IsParting, pair_of};
ghost use Rattle.shared_tree.specs.Pairs.{IsAscending, pair_at, pair_after, pair_before, first_pair, last_pair, IsAt, IsBetween};

use crate::fault::NoMemory;
use crate::front::{Base, Front};
use crate::node::{Entry, Link, share_entry};
use crate::seek::Seek;
use std::cmp::Ordering;

/// The pair of a key, or else the pairs next to it: that of the greatest key that is less, and that of the least key that is greater.
#[derive(Drop)]
pub struct Around<'a, K, V> {
    /// The pair of the key.
    pub at: Option<&'a (K, V)>,
    /// Where the tree has no pair of the key, that of the greatest key that is less.
    pub before: Option<&'a (K, V)>,
    /// Where the tree has no pair of the key, that of the least key that is greater.
    pub behind: Option<&'a (K, V)>,
}

/// How a sought key, before which a number stands, stands to an entry's: where the numbers differ, as they do.
pub(crate) fn order_at<K: Front, V, Q: Seek<K>>(
    own: u64,
    _base: &Base<K>,
    sought: &Q,
    entry: &Entry<K, V>,
) -> Ordering
    requires own { own ≡ front_at K.front _base.now (Q.key sought.now) }
    requires fronted { IsFronted (front_at K.front _base.now) entry.now }
    ensures { result ≡ K.cmp (Q.key sought.now) entry.now.pair.value.0 }
{
    if own < entry.front {
        return Ordering::Less;
    }
    if entry.front < own {
        return Ordering::Greater;
    }
    sought.cmp_key(&entry.pair.0)
}

/// The place of a sought key in a run: that of its pair, or else of the first pair of a greater key.
pub(crate) fn place_in<K: Front, V, Q: Seek<K>>(
    own: u64,
    base: &Base<K>,
    sought: &Q,
    run: &[Entry<K, V>],
) -> Result<usize, usize>
    requires own { own ≡ front_at K.front base.now (Q.key sought.now) }
    requires fronted { AreFronted (front_at K.front base.now) run.now }
    requires ascends { IsAscending K.cmp (run_pairs run.now) }
    ensures bound { IsSearchInRange result (length run.now) }
    ensures position { MatchResult result (λ place. IsAt K.cmp (Q.key sought.now) (run_pairs run.now) place) (λ place. IsBetween K.cmp (Q.key sought.now) (run_pairs run.now) place) }
{
    let mut low = 0;
    let mut high = run.len();
    while low < high {
        let middle = low + (high - low) / 2;
        match order_at(own, base, sought, &run[middle]) {
            Ordering::Less => high = middle,
            Ordering::Equal => return Ok(middle),
            Ordering::Greater => low = middle + 1,
        }
    }
    Err(low)
}

/// The pair at a place of a run, where it has so many.
fn pair_at_place<K, V>(run: &[Entry<K, V>], place: usize) -> Option<&(K, V)>
    ensures { option_copied result ≡ slice_get (run_pairs run.now) place }
{
    if place >= run.len() {
        return None;
    }
    Some(&*run[place].pair)
}

/// The pair of a key.
pub(crate) fn find_in<'a, K: Front, V, Q: Seek<K>>(
    link: &'a Link<K, V>,
    base: &Base<K>,
    sought: &Q,
) -> Option<&'a (K, V)>
    requires ascends { IsAscending K.cmp (link_pairs link.now) }
    requires parted { IsParted (front_at K.front base.now) link.now }
    ensures { option_copied result ≡ pair_at K.cmp (Q.key sought.now) (link_pairs link.now) }
{
    let own = base.front_of(sought);
    let mut below = link;
    loop {
        match below {
            Link::Run(run) => return find_in_run(own, base, sought, run),
            Link::Fork(node) => match order_at(own, base, sought, &node.entry) {
                Ordering::Less => below = &node.left,
                Ordering::Equal => return Some(&*node.entry.pair),
                Ordering::Greater => below = &node.right,
            },
        }
    }
}

/// The pair of a key in a run.
fn find_in_run<'a, K: Front, V, Q: Seek<K>>(
    own: u64,
    base: &Base<K>,
    sought: &Q,
    run: &'a [Entry<K, V>],
) -> Option<&'a (K, V)>
    requires own { own ≡ front_at K.front base.now (Q.key sought.now) }
    requires fronted { AreFronted (front_at K.front base.now) run.now }
    requires ascends { IsAscending K.cmp (run_pairs run.now) }
    ensures { option_copied result ≡ pair_at K.cmp (Q.key sought.now) (run_pairs run.now) }
{
    match place_in(own, base, sought, run) {
        Ok(place) => pair_at_place(run, place),
        Err(_) => None,
    }
}

/// The pair of a key, or else the pairs next to it, by one way down.
pub(crate) fn around_in<'a, K: Front, V, Q: Seek<K>>(
    link: &'a Link<K, V>,
    base: &Base<K>,
    sought: &Q,
) -> Around<'a, K, V>
    requires ascends { IsAscending K.cmp (link_pairs link.now) }
    requires parted { IsParted (front_at K.front base.now) link.now }
    ensures at { option_copied result.at ≡ pair_at K.cmp (Q.key sought.now) (link_pairs link.now) }
    ensures before { IsNone result.at → option_copied result.before ≡ pair_before K.cmp (Q.key sought.now) (link_pairs link.now) }
    ensures behind { IsNone result.at → option_copied result.behind ≡ pair_after K.cmp (Q.key sought.now) (link_pairs link.now) }
{
    let own = base.front_of(sought);
    let mut below = link;
    let mut behind = None;
    loop {
        match below {
            Link::Run(run) => return around_in_run(own, base, sought, run, behind),
            Link::Fork(node) => match order_at(own, base, sought, &node.entry) {
                Ordering::Less => {
                    behind = Some(&*node.entry.pair);
                    below = &node.left;
                }
                Ordering::Equal => {
                    return Around {
                        at: Some(&*node.entry.pair),
                        before: None,
                        behind: None,
                    };
                }
                Ordering::Greater => below = &node.right,
            },
        }
    }
}

/// The pair of a key in a run, or else the pairs next to it, where one stands after the run.
fn around_in_run<'a, K: Front, V, Q: Seek<K>>(
    own: u64,
    base: &Base<K>,
    sought: &Q,
    run: &'a [Entry<K, V>],
    behind: Option<&'a (K, V)>,
) -> Around<'a, K, V>
    requires own { own ≡ front_at K.front base.now (Q.key sought.now) }
    requires fronted { AreFronted (front_at K.front base.now) run.now }
    requires ascends { IsAscending K.cmp (run_pairs run.now) }
    ensures at { option_copied result.at ≡ pair_at K.cmp (Q.key sought.now) (run_pairs run.now) }
    ensures before { IsNone result.at → option_copied result.before ≡ pair_before K.cmp (Q.key sought.now) (run_pairs run.now) }
    ensures behind { IsNone result.at → option_copied result.behind ≡ option_or (pair_after K.cmp (Q.key sought.now) (run_pairs run.now)) (option_copied behind.entry) }
{
    match place_in(own, base, sought, run) {
        Ok(place) => Around {
            at: Some(&*run[place].pair),
            before: None,
            behind: None,
        },
        Err(place) => Around {
            at: None,
            before: pair_in_front(run, place),
            behind: pair_or(run, place, behind),
        },
    }
}

/// The pair before a place of a run, where there is one.
fn pair_in_front<K, V>(run: &[Entry<K, V>], place: usize) -> Option<&(K, V)>
    ensures { place ≤ length run.now → option_copied result ≡ last_pair (take place (run_pairs run.now)) }
{
    let front = place.checked_sub(1)?;
    pair_at_place(run, front)
}

/// The pair at a place of a run, or else the one that stands after the run.
fn pair_or<'a, K, V>(
    run: &'a [Entry<K, V>],
    place: usize,
    behind: Option<&'a (K, V)>,
) -> Option<&'a (K, V)>
    ensures { option_copied result ≡ option_or (slice_get (run_pairs run.now) place) (option_copied behind.entry) }
{
    match pair_at_place(run, place) {
        None => behind,
        found => found,
    }
}

/// The first pair, as its run has it.
pub(crate) fn first_entry<K, V>(link: &Link<K, V>) -> Option<&Entry<K, V>>
    ensures first { IsFormed link.now → option_map pair_of (option_copied result) ≡ first_pair (link_pairs link.now) }
    ensures parting { (front : K → ℕ) → IsParted front link.now → IfSome result (λ entry. IsParting front entry.now (link_pairs link.now)) }
{
    let mut below = link;
    loop {
        match below {
            Link::Run(run) => return run.first(),
            Link::Fork(node) => below = &node.left,
        }
    }
}

/// The first pair, which parts a link from what stands before it, with one owner more. `NoMemory` where the count of its
/// owners is full.
pub(crate) fn share_first<K, V>(link: &Link<K, V>) -> Result<Entry<K, V>, NoMemory>
    ensures { (front : K → ℕ) → IsParted front link.now → IfOk result (λ entry. IsParting front entry (link_pairs link.now)) }
{
    match first_entry(link) {
        None => Err(NoMemory),
        Some(first) => {
            let shared = share_entry(first)?;
            Ok(shared)
        }
    }
}

/// The pair of the least key.
pub(crate) fn first_in<K, V>(link: &Link<K, V>) -> Option<&(K, V)>
    requires { IsFormed link.now }
    ensures { option_copied result ≡ first_pair (link_pairs link.now) }
{
    let first = first_entry(link)?;
    Some(&*first.pair)
}
