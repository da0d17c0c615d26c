//! The commands, and the top call that the program makes.
//!
//! `medusa_main` reads the words, backs up one node into the bucket or makes the index of each node
//! anew, and prints its lines, or tells its fault in one line. Its contract is one clause: the
//! command ended as its plan has it.
//! Read `specs/Plans.antt` first, then `specs/Headline.antt`.
#![tactic(auto)]

mod backup;
mod fault;
mod index;
mod laws;
mod load;
mod main_call;
mod print;
mod print_config;
mod report;
mod status;

pub use laws::what_is_told_decides;
pub use main_call::{medusa_main, run_command, tell_no_memory};
pub use status::Status;
