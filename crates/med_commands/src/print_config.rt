// The texts of a command that has no configuration.
ghost use Rattle.std.specs.Prelude.{◌≤◌, OnErr};
ghost use Rattle.med_outside.specs.Causes.{RoseOrFull};
ghost use Rattle.med_commands.specs.Fault.{stop_of_load, stop_of_options};
ghost use Rattle.med_commands.specs.Headline.{text_of_stop};
ghost use Rattle.med_commands.specs.Texts.{line_text};
ghost use Rattle.med_commands.specs.Printed.{Prints, complaint};

use crate::load::LoadError;
use crate::print::{say, say_named, write_pieces};
use itoa::Buffer;
use med_ini::{ConfigError, IniError, IniKind};
use med_outside::{Sink, SinkFailed};

fn say_line<E: Sink>(err: &mut E, line: u64, kind: IniKind) -> Result<(), SinkFailed>
    ensures text { Prints (complaint (line_text line kind))
        (E.state err.old).taken (E.state err.new).taken result }
    ensures later { (E.state err.old).faults ≤ (E.state err.new).faults }
    ensures failed { OnErr result (RoseOrFull (E.state err.old).faults (E.state err.new).faults) }
{
    let mut buffer = Buffer::new();
    let number = buffer.format(line);
    write_pieces(
        err,
        &[
            b"medusa: config: line ".as_slice(),
            number.as_bytes(),
            b": ".as_slice(),
            kind.text().as_bytes(),
            b"\n".as_slice(),
        ],
    )
}

fn say_options<E: Sink>(err: &mut E, error: &ConfigError) -> Result<(), SinkFailed>
    ensures text { Prints (complaint (text_of_stop (stop_of_options error.now)))
        (E.state err.old).taken (E.state err.new).taken result }
    ensures later { (E.state err.old).faults ≤ (E.state err.new).faults }
    ensures failed { OnErr result (RoseOrFull (E.state err.old).faults (E.state err.new).faults) }
{
    match error {
        ConfigError::MissingOption { option } => {
            say_named(err, b"config: missing option ", option.as_bytes())
        }
        ConfigError::BadNumber { option } => {
            say_named(err, b"config: bad number ", option.as_bytes())
        }
        ConfigError::BadName { option } => say_named(err, b"config: bad name ", option.as_bytes()),
        ConfigError::UnsupportedProvider { name } => {
            say_named(err, b"config: unsupported provider ", name.as_bytes())
        }
        ConfigError::Memory => say(err, b"out of memory"),
    }
}

/// Tells why there is no configuration, in one line.
pub(crate) fn say_config<E: Sink>(err: &mut E, error: &LoadError) -> Result<(), SinkFailed>
    ensures text { Prints (complaint (text_of_stop (stop_of_load error.now)))
        (E.state err.old).taken (E.state err.new).taken result }
    ensures later { (E.state err.old).faults ≤ (E.state err.new).faults }
    ensures failed { OnErr result (RoseOrFull (E.state err.old).faults (E.state err.new).faults) }
{
    match error {
        LoadError::NoFile { name } => say_named(err, b"config: no file ", name.as_bytes()),
        LoadError::Ini(IniError::Fault { line, kind }) => say_line(err, *line, *kind),
        LoadError::Options(error) => say_options(err, error),
        LoadError::Files => say(err, b"read fault"),
        LoadError::Ini(IniError::Memory) | LoadError::Memory => say(err, b"out of memory"),
    }
}
