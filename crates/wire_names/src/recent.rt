//! Names that were sought label by label lately, and where the table has them.
//!
//! They promise nothing: what they tell is compared with the octets of the table's names. A name that ends as one of them does is sought from
//! there on, so that names which share deep parents aren't sought by all of their labels, however their parents come in turn.
ghost use Rattle.std.specs.Prelude.{◌≤◌, length};
ghost use Rattle.dns_name.specs.Labels.{IsWhole};

use crate::chains::ROOT;
use crate::long::FEW_OCTETS;
use crate::table::Positions;
use dns_name::first_label;

/// How many names are kept.
const NAMES: usize = 6;

/// How many octets before what a name has in common with the one that was nearest last don't lead to another.
const FEW_IN_FRONT: usize = 16;

/// A suffix of a recent name: how many octets it takes, and the index of the entry that spells it.
#[derive(Clone, Copy)]
pub(crate) struct Suffix {
    pub(crate) size: usize,
    pub(crate) index: usize,
}

/// The indexes of the entries that spell the names that were sought lately, the one that was nearest last, and the one that goes next.
#[derive(Clone, Copy)]
pub(crate) struct Recents {
    names: [usize; NAMES],
    count: usize,
    last: usize,
    next: usize,
}

impl Recents {
    /// No name.
    pub(crate) fn new() -> Recents {
        Recents {
            names: [ROOT; NAMES],
            count: 0,
            last: 0,
            next: 0,
        }
    }

    /// Forgets all names.
    pub(crate) fn clear(&mut self) {
        self.count = 0;
        self.last = 0;
        self.next = 0;
    }

    /// The octets of the recent name at an index, where they are many.
    fn octets_at<'a>(&self, positions: &'a Positions, i: usize) -> &'a [u8] {
        match self.names.get(i) {
            Some(index) => positions.long(*index),
            None => &[],
        }
    }

    /// Which name has most octets in common with this one at their ends, and how many: the one that was nearest last, where few octets are left.
    fn nearest(&self, positions: &Positions, octets: &[u8]) -> (usize, usize)
        ensures { result.1 ≤ length octets.now }
    {
        let mut nearest = self.last;
        let mut most = same_behind(octets, self.octets_at(positions, nearest));
        if octets.len() - most <= FEW_IN_FRONT {
            return (nearest, most);
        }
        for i in 0..self.count {
            let others = self.octets_at(positions, i);
            if goes_on(octets, others, most) {
                let same = same_behind(octets, others);
                if same > most {
                    nearest = i;
                    most = same;
                }
            }
        }
        (nearest, most)
    }

    /// The longest suffix of a name that a recent name has as well; the root where that takes few octets.
    pub(crate) fn suffix_of(&mut self, positions: &Positions, octets: &[u8]) -> Suffix
        requires { IsWhole octets.now }
    {
        let root = Suffix {
            size: 1,
            index: ROOT,
        };
        if self.count == 0 || octets.len() <= FEW_OCTETS {
            return root;
        }
        let (nearest, same) = self.nearest(positions, octets);
        if same <= FEW_OCTETS {
            return root;
        }
        self.last = nearest;
        match self.names.get(nearest) {
            Some(index) => suffix_at(positions, *index, octets, same).unwrap_or(root),
            None => root,
        }
    }

    /// Keeps the name that the entry at an index spells.
    pub(crate) fn keep(&mut self, index: usize) {
        let Some(name) = self.names.get_mut(self.next) else {
            return;
        };
        *name = index;
        self.last = self.next;
        self.count = self.count.max(self.next + 1);
        self.next = (self.next + 1) % NAMES;
    }
}

/// The longest suffix of at most so many octets that a name and the one that the entry at an index spells seem to have both.
fn suffix_at(positions: &Positions, index: usize, octets: &[u8], same: usize) -> Option<Suffix>
    requires { IsWhole octets.now }
{
    let others = positions.long(index);
    let mut suffix = Suffix {
        size: others.len(),
        index,
    };
    let mut rest = octets;
    while let Some((_label, behind)) = first_label(rest) {
        let size = rest.len();
        if size <= same {
            suffix = down_to(positions, others, suffix, size);
            if suffix.size == size {
                return Some(suffix);
            }
        }
        rest = behind;
    }
    None
}

/// The first suffix of the name in octets, from one on, that takes at most so many of them.
fn down_to(positions: &Positions, octets: &[u8], from: Suffix, size: usize) -> Suffix {
    let mut suffix = from;
    while suffix.size > size {
        let start = octets.len().saturating_sub(suffix.size);
        let len = match octets.get(start) {
            Some(len) => usize::from(*len),
            None => 0,
        };
        suffix = Suffix {
            size: suffix.size.saturating_sub(1 + len),
            index: positions.parent_of(suffix.index),
        };
    }
    suffix
}

/// Whether a name may have more than so many octets in common with another one at their ends: the next one is the same.
fn goes_on(octets: &[u8], others: &[u8], most: usize) -> bool {
    match octet_before(octets, most) {
        Some(octet) => octet_before(others, most) == Some(octet),
        None => false,
    }
}

/// The octet before the last ones, so many.
fn octet_before(octets: &[u8], behind: usize) -> Option<u8> {
    let at = octets.len().checked_sub(behind)?.checked_sub(1)?;
    octets.get(at).copied()
}

/// How many octets at their ends are the same, eight at a time.
fn same_behind(octets: &[u8], others: &[u8]) -> usize
    ensures { result ≤ length octets.now }
{
    let mut rest = octets;
    let mut there = others;
    while let (Some((front, eight)), Some((before, same))) = (
        rest.split_last_chunk::<8>(),
        there.split_last_chunk::<8>(),
    ) {
        let differing = u64::from_be_bytes(*eight) ^ u64::from_be_bytes(*same);
        if differing != 0 {
            return octets.len() - rest.len() + differing.trailing_zeros() as usize / 8;
        }
        rest = front;
        there = before;
    }
    octets.len() - rest.len()
}
