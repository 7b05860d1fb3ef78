//! A list of calls that only clauses read.
ghost use Rattle.std.specs.Prelude.{◌≡◌, List, [], ◌∷◌};
ghost use Rattle.std.specs.Borrow.{ftrue};
ghost use Rattle.store_files.specs.Calls.{FileCall, call_of};

use std::marker::{Model, PhantomData};

/// The calls on a file, the last one first. They take no memory.
#[derive(Drop)]
pub struct CallList {
    marker: PhantomData<u8>,
    /// The calls.
    pub ghost calls: { List FileCall },
}

impl Model for CallList {
    ghost also_owns = { λ _. ftrue };
}

impl CallList {
    /// No calls.
    pub fn new() -> CallList
        ensures { result.calls ≡ [] }
    {
        CallList {
            marker: PhantomData,
        }
    }

    /// Adds a call: its numbers, which are the kind of call and a length, and its octets.
    pub fn note(&mut self, _numbers: &[u64], _octets: &[u8])
        ensures { self.new.calls ≡ call_of _numbers.now _octets.now ∷ self.old.calls }
    {}
}
