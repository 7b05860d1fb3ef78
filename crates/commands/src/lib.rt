//! The program's commands, each over a zone's text, a reader and a writer: answer requests, print the zone, apply an incoming transfer, or play a
//! script. Also the line that reports a fault, and its exit status.
//!
//! Contracts treat texts, inputs and output as lists of octets. What a command writes is a function of the text's zone and of the input
//! (`output_for`). Requests are lines of hexadecimal. Each is answered by a line that holds a reply or the messages of a transfer (`output_of`), and
//! each update changes what later lines see. Only which updates run out of memory is left open. `serve_core` decides what a request gets. The newest
//! versions are kept so that their changes can be sent (RFC 1995, 4). A script has one step per line (`script_output`), and `world_run` defines what
//! a step does. Command lines, files and sockets are handled elsewhere.
#![tactic(auto)]

mod answer;
mod apply;
mod check;
mod command;
mod fault;
mod hint;
mod input;
mod kept;
mod lines;
mod reason;
mod report;
mod run;
mod script;
mod script_fault;
mod seen;
mod shown;
mod steps;
mod units;
mod whole;

pub use answer::run_answer;
pub use check::run_check;
pub use command::{Command, Source};
pub use fault::{DONE, FAILED, Fault, REFUSED};
pub use input::{MAX_READS, endless, read_zone_text};
pub use lines::{Line, Lines, MAX_REQUEST, lines_of, without_end, without_lf};
pub use report::{report_fault, report_fault_of, report_wide_fault};
pub use run::{Ended, Outcome, run_text, run_with_zone};
pub use script_fault::StepsFault;
pub use steps::run_steps;
pub use whole::write_whole;
