// What the commands read of the options.
ghost use Rattle.std.specs.Prelude.{◌≡◌, IfOk, IfErr};
ghost use Rattle.med_ini.specs.Options.{config_fault, IsConfig, Blames};

use crate::checks::{check_provider, stored_in};
use crate::parts::{folders_of, names_of, numbers_of};
use crate::{Ini, Overrides};
use med_base::{Fqdn, Layout};
use std::alloc::Global;
use thiserror::Error;

/// Why the options are refused: the first check that fails, in the order of the table.
#[derive(Debug, Drop, Error)]
pub enum ConfigError {
    #[error("missing option {option}")]
    MissingOption { option: &'static str },
    #[error("bad number {option}")]
    BadNumber { option: &'static str },
    #[error("bad name {option}")]
    BadName { option: &'static str },
    #[error("unsupported provider {name}")]
    UnsupportedProvider { name: String },
    #[error("out of memory")]
    Memory,
}

/// The options of a command.
#[derive(Debug, Drop)]
pub struct Config {
    pub base: String,
    pub bucket: String,
    pub layout: Layout,
    pub node: Fqdn,
    pub age_days: u32,
    pub count: u32,
    pub grace_days: u32,
    pub nodes_root: String,
    pub targets_root: String,
}

impl Config {
    /// The options of a file. An override stands in place of the option's value. An empty text
    /// counts as absent. Of the checks the first that fails decides: each refusal tells the option
    /// or the provider of that check. `Memory` alone comes where there was no memory.
    pub fn from_ini(alloc: Global, ini: &Ini, over: &Overrides) -> Result<Config, ConfigError>
        ensures ok { IfOk result (IsConfig ini.now over.now) }
        ensures err { IfErr result (Blames (config_fault ini.now over.now)) }
    {
        check_provider(alloc, stored_in(ini, "storage_provider"))?;
        let names = names_of(alloc, ini, over)?;
        let numbers = numbers_of(ini)?;
        let folders = folders_of(alloc, ini)?;
        Ok(Config {
            base: names.base,
            bucket: names.bucket,
            layout: names.layout,
            node: names.node,
            age_days: numbers.age_days,
            count: numbers.count,
            grace_days: numbers.grace_days,
            nodes_root: folders.nodes_root,
            targets_root: folders.targets_root,
        })
    }
}
