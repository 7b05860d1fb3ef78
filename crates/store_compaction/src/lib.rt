//! A store whose journal is compacted while updates continue (RFC 2136, 3.5; own).
//!
//! A [`StoreWriter`] writes the batches of updates to disk. It keeps the [`RecentUpdates`] of what is published: the newest versions, as many as an engine keeps, each with the
//! bytes of the update that made it. A [`Compaction`] starts with the oldest of these versions, whose zone text is the next one ([`next_text`]), and with the batch of the
//! updates after that version. Batches appended meanwhile are added to it. Each text has its own number, even where its compaction is given up for another, so that no two are
//! written to one file. Only the text of the current compaction gets a journal. Its [`NextJournal`] has all these batches under a head of its own. Once it is the store's
//! journal, the log continues with it, even a log that was stuck. Both stores have the same versions ([`compactions_keep_the_versions`]), so a start after a crash finds the same
//! zone whichever of them the crash leaves ([`compactions_keep_the_choice`], [`what_a_crash_leaves_is_started`]). A start of the later one finds the recent versions too
//! ([`starts_have_their_recent_updates`]).
//!
//! Files: [`create_next_text`] creates the file of the next zone text, [`write_next_text`] writes it and calls fsync while updates continue, [`replace_with_next`] makes its
//! journal the store's between two batches, and [`drop_old_texts`] removes texts only where it is known which journal a start finds. A crash at any step leaves the previous pair
//! or the next one (`store_files`).
//!
//! A [`CompactedStore`] stores the updates of the update thread. Between two batches it checks whether the next zone text is written and puts its journal in place. It starts the
//! next text where the journal exceeds a size or accepts no more batches. A [`TextWriter`] writes the text meanwhile, on a thread of its own ([`ThreadTextWriter`]). After a
//! fault the next text is started a few seconds later, and its journal accepts updates again ([`tended_stores_have_the_same_start`]).
#![tactic(auto)]

mod body;
mod compacted_store;
mod compactor_laws;
mod event;
mod files;
mod laws;
mod marked;
mod next;
mod next_due;
mod placed;
mod recent_updates;
mod steps;
mod text_writer;
mod texts;
mod thread;
mod writer;

pub use compacted_store::CompactedStore;
pub use compactor_laws::{tended_stores_have_the_same_start, what_is_accepted_is_recovered};
pub use event::{CompactionEvent, CompactionLog};
pub use files::{create_next_text, drop_old_texts, replace_with_next, write_next_text};
pub use laws::{
    compactions_keep_the_choice, compactions_keep_the_versions, recent_updates_end_their_stores,
    starts_have_their_recent_updates, what_a_crash_leaves_is_started,
};
pub use marked::{Compaction, next_text};
pub use next::{NextJournal, NextText};
pub use recent_updates::RecentUpdates;
pub use steps::steps_of;
pub use text_writer::TextWriter;
pub use thread::ThreadTextWriter;
pub use writer::StoreWriter;
