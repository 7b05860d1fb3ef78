//! Transfers of a zone: the lists of records by which it is sent, in whole (RFC 5936) or as what changed since an older
//! version (RFC 1995), and what a holder of a zone holds after such a list.
//!
//! Contracts see a zone as the list of its records. `full` and `incremental` are the lists, `take` is what they make of
//! what is held, or the fault of the first record that has one. Laws and worked examples tell of them.
#![tactic(auto)]

mod chain;
mod changes;
mod examples;
mod fault;
mod kept;
mod laws;
mod list;
mod packed;
mod packer;
mod place;
mod resume;
mod step;
mod windows;

pub use chain::{ChainView, VersionList};
pub use changes::{ChangesList, steps};
pub use examples::{
    examples_are_zones, examples_of_broken_lists, examples_of_first_faults, examples_of_lists,
    examples_of_no_zones, examples_of_taken_lists, examples_of_wrong_bases,
};
pub use fault::TransferFault;
pub use kept::{KEPT, KeptChain, Reach, WINDOW, chain_since, sizes_of_what_is_kept};
pub use laws::{first_faults_are_reported, full_lists_are_taken, incremental_lists_are_taken};
pub use list::{FullList, LentRecord, SetRecords, full};
pub use packed::{messages_are_the_list, messages_tell_their_records};
pub use packer::{MAX_MESSAGE, Packer, TransferRecords, write_message};
pub use place::{ChangesPlace, Part, Place, StepPlace, ZonePlace};
pub use resume::records_at;
pub use windows::{
    examples_of_changes, examples_of_windows, serials_of_a_window_differ, windows_are_longest_runs,
};
