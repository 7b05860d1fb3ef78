//! Trees of small keys: what versions hold, how high they are, and each request for memory refused in turn.
ghost use Rattle.std.specs.Prelude.{IfOk, ℕ};
ghost use Rattle.std.specs.Ordering.{nat_cmp};
ghost use Rattle.shared_tree.specs.Pairs.{IsAscending};

use shared_tree::{Front, Tree, Walk};
use std::alloc::{AllocError, Global};

/// A map whose keys are the numbers below some count, each with itself.
type Numbers = Tree<u32, u32>;

/// The numbers below a count, each with itself.
fn numbers(alloc: Global, count: u32) -> Result<Vec<(u32, u32)>, AllocError>
    ensures { IfOk result (λ pairs. IsAscending nat_cmp pairs.items) }
{
    let mut pairs = Vec::new(alloc);
    for number in 0..count {
        pairs.push((number, number))?;
    }
    Ok(pairs)
}

/// The same as a tree; None where memory is refused.
fn built(alloc: Global, count: u32) -> Option<Numbers> {
    Tree::from_sorted(alloc, 0, numbers(alloc, count).ok()?).ok()
}

/// No number of these trees.
const NONE: u32 = u32::MAX;

/// The number, or the next one in place of the one that is left out.
fn past(number: u32, but: u32) -> u32 {
    if number == but {
        number.saturating_add(1)
    } else {
        number
    }
}

/// Whether a walk gives just the numbers from one on and below a count, each with itself, but for one.
fn counts_up(walk: Walk<'_, u32, u32>, from: u32, count: u32, but: u32) -> bool {
    let mut number = past(from, but);
    for pair in walk {
        if pair.0 != number || pair.1 != number {
            return false;
        }
        number = past(number.saturating_add(1), but);
    }
    number == past(count, but)
}

/// The number of a pair.
fn number_of(pair: Option<&(u32, u32)>) -> Option<u32> {
    match pair {
        Some(pair) => Some(pair.0),
        None => None,
    }
}

/// Whether each number of a tree of so many is found, with the greater ones above it, and after the last there is none.
fn each_is_found(tree: &Numbers, count: u32) -> bool {
    for number in 0..count {
        let above = tree.walk_above(&number);
        if number_of(tree.around(&number).at) != Some(number)
            || !counts_up(above, number.saturating_add(1), count, NONE)
        {
            return false;
        }
    }
    let behind = tree.around(&count);
    let none = behind.at.is_none() && behind.behind.is_none();
    none && number_of(behind.before) == count.checked_sub(1)
        && tree.walk_above(&count).next().is_none()
}

// Trees that are built of a base.
#[test]
fn keys_and_greater_keys(rt: HostRuntime) {
    for count in [1, 2, 3, 64, 100] {
        let tree = built(rt.alloc(), count).expect(&rt, "a tree");
        assert!(rt; each_is_found(&tree, count));
    }
}

/// The tree with one more number; None where that makes more than 84 nodes, or a tree that is higher than 20.
fn with_number(alloc: Global, tree: &Numbers, number: u32) -> Option<Numbers> {
    let (next, made) = tree.with(alloc, number, number).ok()?;
    if made <= 84 && next.height() <= 20 {
        return Some(next);
    }
    None
}

/// The versions of a tree to which so many numbers come; None where memory is refused, or one was made otherwise.
fn versions_of(alloc: Global, count: u32) -> Option<Vec<Numbers>> {
    let mut versions = Vec::new(alloc);
    let mut tree = Tree::new();
    for number in 0..count {
        let next = with_number(alloc, &tree, number)?;
        versions.push(tree).ok()?;
        tree = next;
    }
    Some(versions)
}

/// How many versions in front have as many numbers as there are before them.
fn count_up(versions: &[Numbers]) -> u32 {
    let mut count = 0u32;
    for version in versions {
        if !counts_up(version.walk(), 0, count, NONE) {
            return count;
        }
        count = count.saturating_add(1);
    }
    count
}

// 1,000 has ten binary digits, so that no tree of as many is higher than 20, and no change makes more than 4 * 21 nodes.
#[test]
fn each_version_keeps_its_keys(rt: HostRuntime) {
    let versions = versions_of(rt.alloc(), 1000).expect(&rt, "versions");
    assert_eq!(rt; count_up(&versions), 1000);
}

/// Whether a number goes from a tree of so many, once, and comes back with another value.
fn goes(alloc: Global, tree: &Numbers, count: u32, number: u32) -> Option<bool> {
    let (gone, made) = tree.without(alloc, &number).ok()?;
    let (still, none) = gone.without(alloc, &number).ok()?;
    let (put, _) = gone.with(alloc, number, 7).ok()?;
    let few = made <= 4 * (u64::from(tree.height()) + 1) && none == 0;
    let left = counts_up(gone.walk(), 0, count, number)
        && counts_up(still.walk(), 0, count, number);
    Some(few && left && gone.get(&number).is_none() && put.get(&number).copied() == Some(7))
}

/// Whether each number of a tree of so many goes and comes back, and the tree has them all.
fn each_goes(alloc: Global, count: u32) -> Option<bool> {
    let tree = built(alloc, count)?;
    for number in 0..count {
        if !goes(alloc, &tree, count, number)? {
            return Some(false);
        }
    }
    Some(!tree.is_empty() && counts_up(tree.walk(), 0, count, NONE))
}

// Each key of a built tree is taken out and put back with another value.
#[test]
fn each_key_goes_and_comes(rt: HostRuntime) {
    for count in [1u32, 2, 3, 12, 100] {
        assert_eq!(rt; each_goes(rt.alloc(), count), Some(true));
    }
}

/// The tree of 2, 4 and 6, put in another order.
fn of_three(alloc: Global) -> Option<Numbers> {
    let mut tree = Tree::new();
    for number in [4u32, 2, 6] {
        tree = with_number(alloc, &tree, number)?;
    }
    Some(tree)
}

/// Numbers, and of 2, 4 and 6 the number itself, or else the one before it, and the next one after it.
const AROUND: [(u32, Option<u32>, Option<u32>, Option<u32>); 8] = [
    (0, None, None, Some(2)),
    (1, None, None, Some(2)),
    (2, Some(2), None, Some(4)),
    (3, None, Some(2), Some(4)),
    (4, Some(4), None, Some(6)),
    (5, None, Some(4), Some(6)),
    (6, Some(6), None, None),
    (7, None, Some(6), None),
];

/// The first number around which a tree has others.
fn found_otherwise(tree: &Numbers) -> Option<u32> {
    for (number, at, before, behind) in AROUND {
        let found = tree.around(&number);
        let beside = number_of(found.before) == before && number_of(found.behind) == behind;
        if number_of(found.at) != at
            || number_of(tree.after(&number)) != behind
            || !(beside || at.is_some())
        {
            return Some(number);
        }
    }
    None
}

// A tree that is made of no base, so that no number tells its keys apart.
#[test]
fn finds_what_stands_around(rt: HostRuntime) {
    let tree = of_three(rt.alloc()).expect(&rt, "a tree");
    assert_eq!(rt; found_otherwise(&tree), None);
    assert!(rt; number_of(tree.first()) == Some(2) && Numbers::new().is_empty());
}

// A million pairs are halved sixteen times before each run has no more than sixteen.
#[test]
fn a_million_pairs_are_dropped(rt: HostRuntime) {
    let tree = built(rt.alloc(), 1_000_000).expect(&rt, "a tree");
    let last = tree.get(&999_999u32).copied();
    assert_eq!(rt; (tree.height(), last), (17, Some(999_999)));
}

/// Whether a tree of 12 goes on with one more, and that one without 7, each made anew where memory is refused, and those before are as they
/// were; None where the first couldn't be built.
fn goes_on(alloc: Global) -> Option<bool> {
    let tree = built(alloc, 12)?;
    let (more, _) = match tree.with(alloc, 12, 12) {
        Ok(more) => more,
        Err(_) => tree.with(alloc, 12, 12).ok()?,
    };
    let (less, _) = match more.without(alloc, &7u32) {
        Ok(less) => less,
        Err(_) => more.without(alloc, &7u32).ok()?,
    };
    let stay = counts_up(tree.walk(), 0, 12, NONE) && counts_up(more.walk(), 0, 13, NONE);
    Some(stay && counts_up(less.walk(), 0, 13, 7))
}

// With one request for memory refused, whichever it is, each call is made anew, and the tree before it is as it was.
#[test]
fn goes_on_where_memory_is_refused(rt: HostRuntime) {
    let outcome = match goes_on(rt.alloc()) {
        Some(outcome) => Some(outcome),
        None => goes_on(rt.alloc()),
    };
    assert_eq!(rt; outcome, Some(true));
}

fn goes_between_threads<T: Send + Sync>() {}

// A tree, and a walk over it, go between threads where their keys and values do.
fn trees_go_between_threads<K: Front + Send + Sync, V: Send + Sync>() {
    goes_between_threads::<Tree<K, V>>();
    goes_between_threads::<Walk<'_, K, V>>();
}

#[test]
fn trees_of_numbers_go_between_threads(_rt: HostRuntime) {
    trees_go_between_threads::<u32, u32>();
}
