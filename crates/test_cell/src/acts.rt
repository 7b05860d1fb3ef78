//! Scripts of what is done with owners of a cell's versions, by a table.
use crate::counted::{Counted, Rising};
use crate::named::CellWriter;
use snapshot_cell::{NamedReader, NamedStrong, NamedWeak, Naming};
use std::alloc::Global;

/// What is done. The owners that it gives are counted from 0, and so are the weak owners.
#[derive(Clone, Copy)]
pub(crate) enum Act {
    /// The last version is loaded: its number.
    Load,
    /// The newest version's owner is asked for, and a weak owner: its number.
    NewestWithWeak,
    /// The reader sees all that is published: the number of the last version.
    Meet,
    /// A value is published: the number of the old version, whose owner is kept.
    Publish,
    /// An owner's version is there: the number that its value has.
    Alive,
    /// An owner is cloned: its number.
    Clone,
    /// A weak owner is made of an owner: its number.
    Weaken,
    /// A weak owner is upgraded: the number of the owner, or [`SPENT`] where there is no grant.
    Raise,
    /// An owner is let go: the number that is buried.
    Release,
    /// A weak owner is let go: its number where a slot is free then.
    Fade,
    /// The grants that are left.
    Grants,
    /// The weak owners that the publisher can still give.
    Notes,
}

/// No grant is left.
pub(crate) const SPENT: u64 = u64::MAX;

/// What is done, with which owner or weak owner, the number that it gives, and how many values are dropped in it.
pub(crate) type Row = (Act, usize, Option<u64>, u64);

/// How often rows are played, each time with the next owners and weak owners, and with numbers one higher.
pub(crate) type Rounds = (u64, &'static [Row]);

/// One who plays rows.
#[derive(Drop)]
pub(crate) struct Player<'a, N: Naming> {
    writer: CellWriter<'a, N>,
    reader: NamedReader<Counted, N>,
    owners: Vec<Option<NamedStrong<'a, Counted, Rising, N>>>,
    weaks: Vec<Option<NamedWeak<'a, Counted, Rising, N>>>,
    first: u64,
    acts: u64,
}

impl<'a, N: Naming> Player<'a, N> {
    /// One who has no owner. The numbers of the rows are counted from the last version on.
    pub(crate) fn new(
        alloc: Global,
        writer: CellWriter<'a, N>,
        reader: NamedReader<Counted, N>,
    ) -> Player<'a, N> {
        Player {
            first: writer.publisher.last_number(),
            writer,
            reader,
            owners: Vec::new(alloc),
            weaks: Vec::new(alloc),
            acts: 0,
        }
    }

    /// Who publishes and the reader, when all owners are let go.
    pub(crate) fn end(self) -> (CellWriter<'a, N>, NamedReader<Counted, N>) {
        (self.writer, self.reader)
    }

    /// Keeps an owner: its number, where its value has it.
    fn keep(&mut self, owner: NamedStrong<'a, Counted, Rising, N>) -> Option<u64> {
        let number = owner.number();
        let is_right = owner.get().number == number;
        self.owners.push(Some(owner)).ok()?;
        is_right.then_some(number)
    }

    /// Keeps a weak owner: its number.
    fn keep_weak(&mut self, weak: NamedWeak<'a, Counted, Rising, N>) -> Option<u64> {
        let number = weak.number();
        self.weaks.push(Some(weak)).ok()?;
        Some(number)
    }

    fn load(&mut self) -> Option<u64> {
        let owner = self.writer.cell.load(&mut self.reader).ok()?;
        self.keep(owner)
    }

    fn newest_with_weak(&mut self) -> Option<u64> {
        let writer = &mut self.writer;
        let cell = writer.cell;
        let both = cell.newest_with_weak(&mut writer.publisher, &mut self.reader);
        let (owner, weak) = both.ok()?;
        if self.keep_weak(weak) != Some(owner.number()) {
            return None;
        }
        self.keep(owner)
    }

    fn meet(&mut self) -> Option<u64> {
        let writer = &mut self.writer;
        let cell = writer.cell;
        cell.meet(&mut writer.publisher, &mut self.reader);
        Some(writer.publisher.last_number())
    }

    fn publish(&mut self) -> Option<u64> {
        let old = self.writer.publish()?;
        self.keep(old)
    }

    fn alive(&mut self, at: usize) -> Option<u64> {
        let owner = self.owners.get_mut(at)?.as_mut()?;
        owner.alive(&mut self.reader);
        Some(owner.get().number)
    }

    fn clone_at(&mut self, at: usize) -> Option<u64> {
        let owner = self.owners.get_mut(at)?.as_mut()?;
        let clone = owner.clone_strong(&mut self.reader).ok()?;
        self.keep(clone)
    }

    fn weaken(&mut self, at: usize) -> Option<u64> {
        let owner = self.owners.get_mut(at)?.as_mut()?;
        let weak = self.writer.downgrade(owner)?;
        self.keep_weak(weak)
    }

    fn raise(&mut self, at: usize) -> Option<u64> {
        let weak = self.weaks.get_mut(at)?.as_mut()?;
        match weak.upgrade(&mut self.reader) {
            Ok(Some(owner)) => self.keep(owner),
            Ok(None) => None,
            Err(_) => Some(SPENT),
        }
    }

    fn release(&mut self, at: usize) -> Option<u64> {
        let owner = self.owners.get_mut(at)?.take()?;
        owner.release().buried()
    }

    fn fade(&mut self, at: usize) -> Option<u64> {
        let weak = self.weaks.get_mut(at)?.take()?;
        let number = weak.number();
        weak.release().freed().then_some(number)
    }

    /// What it gives.
    fn act(&mut self, act: Act, at: usize) -> Option<u64> {
        match act {
            Act::Load => self.load(),
            Act::NewestWithWeak => self.newest_with_weak(),
            Act::Meet => self.meet(),
            Act::Publish => self.publish(),
            Act::Alive => self.alive(at),
            Act::Clone => self.clone_at(at),
            Act::Weaken => self.weaken(at),
            Act::Raise => self.raise(at),
            Act::Release => self.release(at),
            Act::Fade => self.fade(at),
            Act::Grants => Some(self.reader.left()),
            Act::Notes => Some(self.writer.publisher.left()),
        }
    }

    /// Whether an act goes as a row says.
    fn is_played(&mut self, round: u64, row: Row) -> bool {
        let (act, at, outcome, drops) = row;
        let due = match outcome {
            Some(SPENT) | None => outcome,
            Some(number) => Some(number.wrapping_add(self.first).wrapping_add(round)),
        };
        let before = self.writer.tally.drops();
        let given = self.act(act, at.wrapping_add(round as usize));
        self.acts = self.acts.wrapping_add(1);
        given == due && self.writer.tally.drops().wrapping_sub(before) == drops
    }

    /// Whether all rows are played so often.
    fn are_played(&mut self, rounds: u64, rows: &[Row]) -> bool {
        for round in 0..rounds {
            for row in rows {
                if !self.is_played(round, *row) {
                    return false;
                }
            }
        }
        true
    }

    /// How many acts were made when one went otherwise than its row says; None where none did.
    pub(crate) fn first_wrong(&mut self, script: &[Rounds]) -> Option<u64> {
        for (rounds, rows) in script {
            if !self.are_played(*rounds, rows) {
                return Some(self.acts);
            }
        }
        None
    }
}
