//! The socket on which a running server takes commands of its operator (unix(7); own).
//!
//! A client sends a line, a command's word ([`ControlCommand`]), and gets lines, the last of which is `ok` or `error: REASON`; then the server closes
//! the connection. [`bind_control`] makes the socket, which its owner alone may use. [`ControlClient`] is a client as the server has it, which
//! neither waits for it: what it sends is read as it comes, and what is written is left until it is taken. [`send_command`] is a client's own side.
#![tactic(auto)]

mod bind;
mod client;
mod command;
mod send;

pub use bind::{BindFault, bind_control};
pub use client::{ControlClient, Heard, accept_client};
pub use command::ControlCommand;
pub use send::send_command;
