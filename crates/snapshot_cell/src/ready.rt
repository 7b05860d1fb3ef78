//! Free slots that are counted before values are published.
ghost use Rattle.std.specs.Prelude.{◌≡◌};
ghost use Rattle.snapshot_cell.specs.Tokens.{ready_for};

use crate::cell::Cell;
use crate::tokens::Publisher;
use counted_handles::{FreeCount, Names, find_free};

impl<T: Drop, C: Names<T>> Cell<T, C> {
    /// Counts the free slots, by one load of each. Nobody but the publisher takes one. It waits for nobody.
    pub fn count(&self, publisher: &mut Publisher<T, C>) -> FreeCount
        requires { publisher.old.cell ≡ self.now }
        ensures { publisher.new ≡ ready_for publisher.old result }
    {
        let free = find_free(self.words(), &mut publisher.badge);
        publisher.ready = free.number();
        free
    }
}
