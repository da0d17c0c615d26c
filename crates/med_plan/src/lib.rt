//! How a call ends, said once for all commands: a plan has its steps in their working order, each
//! with what it asks, what it answers or refuses, and what is left where the call ends there.
//!
//! Read `specs/Ends.antt`.
#![tactic(auto)]
