//! The ini form, and the options of medusa.ini.
//!
//! `Ini` is the list of the options that a text sets, and `Config` what the commands read of them.
//! Read `specs/Entries.antt` and `specs/Options.antt` first.
#![tactic(auto)]

mod checks;
mod config;
mod document;
mod errors;
mod ini;
mod labels;
mod laws;
mod lines;
mod names;
mod overrides;
mod parts;
mod read;
mod reading;

pub use config::{Config, ConfigError};
pub use errors::{IniError, IniKind};
pub use ini::Ini;
pub use laws::one_reading;
pub use overrides::Overrides;
pub use read::read_ini;
