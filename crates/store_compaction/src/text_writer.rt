//! Writers of zone texts (own).
ghost use Rattle.std.specs.Prelude.{◌≡◌, ◌≢◌, ◌↔◌, ◌<◌, Option, None, Some, IsTrue, IfOk, OnOk, OnErr, MatchOption};
ghost use Rattle.store_compaction.specs.TextWriter.{Wanted, wanted_of, IsWritten};

use crate::next::NextText;
use journal::Head;
use std::alloc::Global;
use std::io;
use std::sync::Wait;

/// Writes the next zone texts of a store, one at a time, while updates continue.
pub trait TextWriter: Drop {
    /// The requested text, with the sum of the text from which the store was created.
    ghost wanted: { Self → Option Wanted };

    /// Starts to write a zone text for a store with this head, which names an earlier text, at once or a few seconds later. A text that was being written is no longer reported.
    /// Allocates memory. After an error no text is being written.
    fn write<R: Wait>(
        &mut self,
        rt: &R,
        alloc: Global,
        next: NextText,
        before: &Head,
        later: bool,
    ) -> io::Result<()>
        requires later { before.now.number < next.number }
        ensures begun { OnOk result (wanted self.new ≡ Some (wanted_of next before.now)) }
        ensures none { OnErr result (wanted self.new ≡ None) };

    /// Whether a text is being written, or is finished but not yet reported.
    fn is_writing(&self) -> bool
        ensures { IsTrue result ↔ (wanted self.now ≢ None) };

    /// The head for the text once it is on disk, or the fault if it could not be written. None while it is being written, or if no text is.
    fn take<R: Wait>(&mut self, rt: &R) -> Option<io::Result<Head>>
        ensures reported { MatchOption result (wanted self.new ≡ wanted self.old)
            (λ reported. (wanted self.new ≡ None) × IfOk reported (λ head. (text : Wanted) × (wanted self.old ≡ Some text) × IsWritten text head)) };
}
