//! What `dnsd` does without serving: it runs commands over a zone's text, prints the zone of a store, what its updates changed, what changes
//! from one zone to another and what a request gets by rules, brings the zone that a server serves to another one, and reads, locks and binds what a
//! server serves with.
//!
//! The log of a running server is here too: its lines and their levels, and the thread that writes them to standard error and notifies a service
//! manager.
#![tactic(auto)]

mod bound;
mod change;
mod control;
mod counted_log;
mod counted_store;
mod deploy;
pub mod descriptors;
mod dnames;
mod file_report;
mod includes;
mod kept;
mod keys;
mod levels;
mod lines;
mod log;
mod may;
mod metrics;
mod peer_lines;
mod reload;
mod started_zone;
mod stored;
mod streams;
mod writer;
mod zone_file;
mod zone_text;

pub use bound::{BoundSockets, WorkerSockets, bind_sockets};
pub use change::run_change;
pub use control::{bind_control_at, remove_control, run_control};
pub use counted_log::CountedLog;
pub use counted_store::CountedStore;
pub use deploy::run_deploy;
pub use kept::start_store_for;
pub use keys::keys_for;
pub use lines::{LogLine, ROOT_APEX};
pub use log::{Listening, Log};
pub use may::{run_may, tell_outside};
pub use metrics::bind_metrics;
pub use reload::{FileReader, prepare_reloads};
pub use started_zone::{ServedZone, StartedStore, StartedZone, ZoneStore};
pub use stored::{run_journal, run_stored};
pub use streams::{Ways, run_on_streams};
pub use writer::{Entries, Entry, SeenWriter, start_entries};
pub use zone_file::{read_text_for, text_for};
pub use zone_text::ZoneText;
