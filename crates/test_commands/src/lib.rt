//! Tests of zone text and of commands, of the crates record_text, master_file and commands: what no run of the program shows,
//! which the tables of rows try. Devices that fail, memory that is refused, and what calls give beside what is printed of it.
#![tactic(auto)]

#[cfg(test)]
mod devices;
#[cfg(test)]
mod made;
#[cfg(test)]
mod refusals;
#[cfg(test)]
mod values;
