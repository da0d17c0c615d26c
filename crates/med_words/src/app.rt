// What clap is told of the tables.
ghost use Rattle.std.specs.Prelude.{◌≡◌, IfOk, map, [], false};
ghost use Rattle.clap.specs.Words.{app_of, rule_of};
ghost use Rattle.med_words.specs.Built.{raw_rule, flat_app};
ghost use Rattle.med_words.specs.Views.{opt_view};
ghost use Rattle.med_words.specs.Grammar.{valued};

use crate::table::Opt;
use clap::{Arg, ArgAction, Command};
use std::alloc::{AllocError, Global};

/// An option with a value.
fn valued_arg<'a>(alloc: Global, name: &'a str, is_required: bool) -> Arg<'a>
    ensures rule { rule_of result ≡ raw_rule (valued name.entry.now is_required) }
    ensures local { result.global ≡ false }
{
    Arg::new(alloc, name)
        .long(name)
        .action(ArgAction::Set)
        .required(is_required)
}

/// An option of a table.
fn arg_of<'a>(alloc: Global, option: &Opt<'a>) -> Arg<'a>
    ensures rule { rule_of result ≡ raw_rule (opt_view option.now) }
    ensures local { result.global ≡ false }
{
    match *option {
        Opt::Required(name) => valued_arg(alloc, name, true),
        Opt::Optional(name) => valued_arg(alloc, name, false),
        Opt::Flag(name) => Arg::new(alloc, name).long(name).action(ArgAction::SetTrue),
    }
}

/// The command without options: no name of the program stands before the words, and clap answers
/// no help.
fn bare<'a>(alloc: Global) -> Command<'a>
    ensures { app_of result ≡ flat_app [] }
{
    Command::new(alloc, "medusa")
        .no_binary_name(true)
        .disable_help_flag(true)
        .disable_help_subcommand(true)
        .disable_version_flag(true)
}

/// A command that reads these options.
pub(crate) fn command<'a>(alloc: Global, table: &[Opt<'a>]) -> Result<Command<'a>, AllocError>
    ensures { IfOk result (λ c. app_of c ≡ flat_app (map opt_view table.now)) }
{
    let mut command = bare(alloc);
    for option in table {
        command = command.arg(arg_of(alloc, option))?;
    }
    Ok(command)
}
