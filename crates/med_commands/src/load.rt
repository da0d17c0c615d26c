// The configuration of a command, read from its config file.
ghost use Rattle.std.specs.Prelude.{◌≡◌, ◌≤◌, IfOk, IfErr};
ghost use Rattle.med_words.specs.Views.{asked_of};
ghost use Rattle.med_commands.specs.Fault.{stop_of_load};
ghost use Rattle.med_commands.specs.Headline.{status_of_stop};
ghost use Rattle.med_commands.specs.Loaded.{Gives, IsConfigured, BlamesReading, BlamesLoad};
ghost use Rattle.med_commands.specs.declared.load.LoadError.TheVariants.{Ini, Options};

use crate::Status;
use med_ini::{Config, ConfigError, IniError, Overrides, read_ini};
use med_outside::{Denied, Files};
use med_words::Request;
use std::alloc::{AllocError, Global};

/// Why a command has no configuration.
#[derive(Debug, Drop)]
pub(crate) enum LoadError {
    /// There is no config file of this name.
    NoFile { name: String },
    /// The config file isn't in the ini form.
    Ini(IniError),
    /// The options are refused.
    Options(ConfigError),
    /// The files' count of faults rose.
    Files,
    Memory,
}

impl From<IniError> for LoadError {
    ghost from_gives = { λ error e. e ≡ Ini error };

    fn from(error: IniError) -> Self {
        LoadError::Ini(error)
    }
}

impl From<ConfigError> for LoadError {
    ghost from_gives = { λ error e. e ≡ Options error };

    fn from(error: ConfigError) -> Self {
        LoadError::Options(error)
    }
}

impl LoadError {
    /// The status that the program ends with after this error.
    pub(crate) fn status(&self) -> Status
        ensures { result ≡ status_of_stop (stop_of_load self.now) }
    {
        match self {
            LoadError::Files => Status::ReadFault,
            LoadError::Ini(IniError::Memory)
            | LoadError::Options(ConfigError::Memory)
            | LoadError::Memory => Status::Memory,
            LoadError::NoFile { name: _ } | LoadError::Ini(_) | LoadError::Options(_) => {
                Status::Config
            }
        }
    }
}

// The configuration that the bytes of a config file give.
fn config_in(alloc: Global, bytes: &[u8], over: &Overrides) -> Result<Config, LoadError>
    ensures ok { IfOk result (Gives over.now bytes.now) }
    ensures err { IfErr result (BlamesReading over.now bytes.now) }
{
    let ini = read_ini(alloc, bytes)?;
    Ok(Config::from_ini(alloc, &ini, over)?)
}

/// The configuration that the request asks for: that of its config file, under its overrides. The
/// name of the file is copied first, so that its absence is told without memory.
pub(crate) fn load<F: Files>(
    alloc: Global,
    files: &mut F,
    request: &Request,
) -> Result<Config, LoadError>
    ensures ok { IfOk result (IsConfigured (F.state files.old).contents (asked_of request.now)) }
    ensures err { IfErr result
        (BlamesLoad (F.state files.old).contents (asked_of request.now) (F.state files.old).faults
        (F.state files.new).faults) }
    ensures same { (F.state files.new).contents ≡ (F.state files.old).contents }
    ensures later { (F.state files.old).faults ≤ (F.state files.new).faults }
{
    let name = match String::from_str(alloc, request.config_file.as_str()) {
        Ok(name) => name,
        Err(AllocError) => return Err(LoadError::Memory),
    };
    match files.read(alloc, request.config_file.as_str()) {
        Ok(Some(bytes)) => config_in(alloc, bytes.as_slice(), &request.over),
        Ok(None) => Err(LoadError::NoFile { name }),
        Err(Denied::Failed) => Err(LoadError::Files),
        Err(Denied::Memory) => Err(LoadError::Memory),
    }
}
