//! The numbers of a store's zone texts (own).
ghost use Rattle.std.specs.Prelude.{◌≡◌, ◌≤◌, max};

use journal::Head;

/// The head of a store's journal, and the greatest number given to a zone text so far.
pub(crate) struct TextNumbers {
    pub(crate) head: Head,
    pub(crate) last: u64,
    ghost later: { head.number ≤ last },
}

impl Drop for TextNumbers {
    fn drop(self) {
        let TextNumbers { head: _, last: _ } = self;
    }
}

impl TextNumbers {
    /// Records that a zone text was given this number.
    pub(crate) fn give(&mut self, number: u64)
        ensures head { self.new.head ≡ self.old.head }
        ensures last { self.new.last ≡ max self.old.last number }
    {
        self.last = self.last.max(number);
    }

    /// Records that the journal of another zone text is now the store's.
    pub(crate) fn replace(&mut self, head: Head)
        ensures head { self.new.head ≡ head }
        ensures last { self.new.last ≡ max self.old.last head.number }
    {
        self.last = self.last.max(head.number);
        self.head = head;
    }
}
