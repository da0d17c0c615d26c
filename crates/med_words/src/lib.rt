//! The command line: from its words to a request.
//!
//! The words are read by `clap`, over tables of options that are data. A request is made exactly of
//! words that the grammar spells, and that ask for it; a refusal says why none is.
//! Read `specs/Grammar.antt` and `specs/Request.antt` first.
#![tactic(auto)]

mod app;
mod command;
mod cut;
mod laws;
mod line;
mod read;
mod request;
mod table;
mod values;
mod well_formed;

pub use laws::one_request;
pub use read::read_words;
pub use request::{Command, Request, Usage, WordsError};
