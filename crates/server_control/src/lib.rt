//! What ends a server's threads, and the threads by which its operator sees and changes it.
//!
//! The threads of a server share a [`Shutdown`]. A [`ControlJob`] takes the commands of `dnsd control`, and has another thread read the zone file by a
//! [`ReloadSlot`], whose change [`file_zone`] makes. A [`MetricsJob`] answers over HTTP with what the server's threads count.
#![tactic(auto)]

mod control_job;
mod control_reload;
mod control_text;
mod file_change;
mod metrics_client;
mod metrics_job;
mod monotonic;
mod process_files;
mod rates;
mod reload_slot;
mod serve_fault;
mod served_facts;
mod shutdown;
mod thread_rounds;
mod udp_drops;
mod work_since;

pub use control_job::{ControlJob, ControlPlan};
pub use file_change::file_zone;
pub use metrics_job::{MetricsJob, MetricsPlan};
pub use process_files::ProcessFiles;
pub use reload_slot::{FileChange, FileZone, ReloadOrder, ReloadResult, ReloadSlot, Reloads};
pub use serve_fault::ServeFault;
pub use shutdown::Shutdown;
pub use udp_drops::UdpDrops;
pub use work_since::{SharedWork, WorkSince, end_rounds, show_round};
