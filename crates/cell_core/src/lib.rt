//! A cell in which values are published one after the other, while owners of older ones still read them: what its steps
//! are, on plain data, before any thread.
//!
//! Contracts see a cell as the values published, which of their numbers are buried, and how many strong and weak owners
//! each number has (`Cell`), and a step as what it makes of a cell (`Steps`). A [`WordMachine`] is such a cell on words:
//! each step reads or writes one of them (`Makes`), and what the words show is a cell (`Shows`), whatever the order of the
//! steps. Cells that threads share are not here.
#![tactic(auto)]

mod fault;
mod follows;
mod laws;
mod owner_steps;
mod run_laws;
mod word_laws;
mod word_machine;
mod words;

pub use fault::StepFault;
pub use follows::Follows;
pub use laws::{
    buried_was_published, examples, follows_goes_on, last_is_not_buried, load_gives_the_last,
    only_grows, owned_is_not_buried, owned_was_published, owners_keep_their_value,
    up_gives_that_number,
};
pub use run_laws::{
    burials_are_final, clones_give_that_number, loads_give_the_last_published,
    no_slot_after_64_probes, no_word_overflows, owners_find_what_was_published, rest_was_buried,
    run_examples, runs_only_add, runs_tell_what_is_shown, upgrades_give_that_number,
};
pub use word_laws::{
    buried_is_unowned, buried_once, calls_go_on, freed_is_unowned, load_gives_what_was_in_w,
    owner_finds_its_value, rest_is_buried_and_free, steps_are_a_function, weak_examples,
    weak_owner_sees_its_version, word_examples, word_runs_show_runs, word_steps_show_the_cell,
    words_only_grow,
};
pub use word_machine::WordMachine;
pub use words::{GRANTS, NOTES, Owner, Publisher, SLOTS, Slot, Version, WordEvent, WordStep};
