//! What waits.
ghost use Rattle.std.specs.Prelude.{◌≡◌, ◌==◌, ◌-◌, ◌≤◌, ◌↔◌, ◌++◌, [], ◌∷◌, length, slice_get, vec_len, vec_capacity, IsOk, IfOk, IfErr, OnOk};
ghost use Rattle.update_batches.specs.BoundedQueue.{nothing, HasRoom, items_of, with_first, without_first};

use circular_buffer::HeapCircularBuffer;
use std::alloc::{AllocError, Global};
use std::marker::Model;

/// How much may wait.
#[derive(Clone, Copy)]
pub struct Most {
    /// How many.
    pub items: usize,
    /// How many octets these may have together.
    pub octets: usize,
}

/// A receipt for an item that was put into a queue. Outside this crate only [`Queue::put`](crate::Queue::put) gives one.
#[derive(Drop, PartialEq, Eq)]
pub struct Put(());

/// What waits, the first to come first, at most so much.
pub struct BoundedQueue<T> {
    /// Each with how many octets it has.
    items: HeapCircularBuffer<(T, usize)>,
    /// How many octets they have together.
    octets: usize,
    /// How many they may have.
    most_octets: usize,
}

impl<T: Drop> Drop for BoundedQueue<T> {
    fn drop(self) {
        let BoundedQueue {
            items: _,
            octets: _,
            most_octets: _,
        } = self;
    }
}

impl<T> Model for BoundedQueue<T> {
    ghost use Rattle.std.specs.Prelude.{◌≡◌, ◌≤◌, length};
    ghost use Rattle.update_batches.specs.BoundedQueue.{Line, octets_in};

    ghost Value = { Line T };

    ghost view = { λ w. record { items = w.items.items; most = w.items.capacity; most_octets = w.most_octets } };

    ghost invariant = { λ w. (length w.items.items ≤ w.items.capacity) × (w.octets ≡ octets_in w.items.items) × (w.octets ≤ w.most_octets) };
}

impl<T: Drop> BoundedQueue<T> {
    /// Nothing waits; at most so much ever does. It takes the memory for as many as may wait.
    pub fn new(alloc: Global, most: Most) -> Result<BoundedQueue<T>, AllocError>
        ensures { IfOk result (λ waiting. waiting ≡ nothing most.items most.octets) }
    {
        Ok(BoundedQueue {
            items: HeapCircularBuffer::with_capacity(alloc, most.items)?,
            octets: 0,
            most_octets: most.octets,
        })
    }

    /// Puts one more, of so many octets, after those that wait. It comes back where as many wait as may, or all would have more octets than they may.
    pub fn put(&mut self, item: T, octets: usize) -> Result<Put, T>
        ensures room { IsOk result ↔ HasRoom self.old octets }
        ensures put { OnOk result (self.new ≡ record self.old { items = self.old.items ++ (item, octets) ∷ [] }) }
        ensures full { IfErr result (λ back. (back ≡ item) × (self.new ≡ self.old)) }
    {
        if octets > self.most_octets - self.octets {
            return Err(item);
        }
        match self.items.try_push_back((item, octets)) {
            Ok(()) => {
                self.octets += octets;
                Ok(Put(()))
            }
            Err((item, _octets)) => Err(item),
        }
    }

    /// Puts one more, of so many octets, before those that wait. It comes back as by [`put`](Self::put).
    pub fn put_first(&mut self, item: T, octets: usize) -> Result<Put, T>
        ensures room { IsOk result ↔ HasRoom self.old octets }
        ensures put { OnOk result (self.new ≡ record self.old { items = (item, octets) ∷ self.old.items }) }
        ensures full { IfErr result (λ back. (back ≡ item) × (self.new ≡ self.old)) }
    {
        if octets > self.most_octets - self.octets {
            return Err(item);
        }
        match self.items.try_push_front((item, octets)) {
            Ok(()) => {
                self.octets += octets;
                Ok(Put(()))
            }
            Err((item, _octets)) => Err(item),
        }
    }

    /// Takes the first that waits, if any does.
    fn take_first(&mut self) -> Option<T>
        ensures first { result ≡ slice_get (items_of self.old) 0 }
        ensures rest { self.new ≡ without_first 1 self.old }
    {
        let (item, octets) = self.items.pop_front()?;
        self.octets -= octets;
        Some(item)
    }

    /// Takes the first that wait, in their order, and puts them after `taken`, as many as this has room for.
    pub fn take(&mut self, taken: &mut Vec<T>)
        ensures taken { taken.new.items ≡ with_first (vec_capacity taken.old - vec_len taken.old) taken.old.items self.old }
        ensures rest { self.new ≡ without_first (vec_capacity taken.old - vec_len taken.old) self.old }
        ensures room { vec_capacity taken.new ≡ vec_capacity taken.old }
    {
        let room = taken.capacity() - taken.len();
        for _taken in 0..room {
            let Some(item) = self.take_first() else {
                break;
            };
            taken.push_reserved(item);
        }
    }

    /// Whether nothing waits.
    pub fn is_empty(&self) -> bool
        ensures { result ≡ (length self.now.items == 0) }
    {
        self.items.is_empty()
    }
}
