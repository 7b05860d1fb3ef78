//! Tests of the cell. Its steps on words (`cell_core`), and the world that scripts play over them (`world_run`): worked examples, and growth
//! that is refused. The cell on words that threads share (`snapshot_cell`): readers and a publisher at the same time, values that count their
//! drops, an owner that is stopped in the middle of its release, slots that are all in use, weak owners, and a cell's end. Histories
//! (`weak_history`): what they tell of the versions after one of a serial, while these are owned and when they have gone, and which entries
//! leave. The places of `raw_slots`: a row that is cut into places, which are written and joined again.
#![tactic(auto)]

#[cfg(test)]
mod acts;
#[cfg(test)]
mod chains;
#[cfg(test)]
mod counted;
#[cfg(test)]
mod counted_cell;
#[cfg(test)]
mod crew;
#[cfg(test)]
mod ends;
#[cfg(test)]
mod histories;
#[cfg(test)]
mod jobs;
#[cfg(test)]
mod named;
#[cfg(test)]
mod plays;
#[cfg(test)]
mod scripts;
#[cfg(test)]
mod slots;
#[cfg(test)]
mod word_machines;
