// The words of a line, read by clap.
ghost use Rattle.std.specs.Prelude.{◌≡◌, true, Some, ◌++◌, ◌∷◌, Bool, List, IfOk, IsErrOf, map, string_bytes, codes, option_map};
ghost use Rattle.std.specs.List.{AllByRecursion, flat_map};
ghost use Rattle.clap.specs.Words.{found_of};
ghost use Rattle.clap.specs.Walk.{first_of, one_of, rows_of};
ghost use Rattle.med_words.specs.Grammar.{Text, Use, IsLine, spelled, options_of};
ghost use Rattle.med_words.specs.WellFormed.{IsWellFormed};
ghost use Rattle.med_words.specs.Matched.{IsMatched, IsUses, is_table, FlagRow, main_rows, own_rows};
ghost use Rattle.med_words.specs.Tables.{main_options, commands};
ghost use Rattle.med_words.specs.Views.{opt_view, main_view, own_view, HasLine, HasMain, HasOwn};

use crate::app::command;
use crate::cut::{Cut, at_word};
use crate::table::{Opt, main_table, options_for};
use crate::well_formed::are_well_formed;
use clap::ArgMatches;
use clap::error::ErrorKind;
use std::alloc::Global;

/// What the main options say.
#[derive(Clone, Copy)]
pub(crate) struct Main<'a> {
    pub(crate) config_file: Option<&'a str>,
    pub(crate) bucket: Option<&'a str>,
    pub(crate) prefix: Option<&'a str>,
    pub(crate) fqdn: Option<&'a str>,
}

/// What the options of the command word say.
#[derive(Clone, Copy)]
pub(crate) struct Own<'a> {
    pub(crate) name: Option<&'a str>,
    pub(crate) mode: Option<&'a str>,
    pub(crate) workers: Option<&'a str>,
    pub(crate) rounds: Option<&'a str>,
    pub(crate) destination: Option<&'a str>,
    pub(crate) host_list: Option<&'a str>,
    pub(crate) jobs_file: Option<&'a str>,
    pub(crate) all_nodes: bool,
    pub(crate) show_all: bool,
}

/// A command word, and what the options on both sides of it say.
#[derive(Clone, Copy)]
pub(crate) struct Line<'a> {
    pub(crate) main: Main<'a>,
    pub(crate) word: &'a str,
    pub(crate) own: Own<'a>,
}

/// Why no line was read.
#[derive(Clone, Copy)]
pub(crate) enum LineError {
    /// The words are no line.
    Line,
    Memory,
}

/// The matches of words of which each may be handed on.
fn matched<'a>(
    alloc: Global,
    table: &[Opt<'a>],
    words: &'a [String],
) -> Result<ArgMatches<'a>, LineError>
    requires table { is_table (map opt_view table.now) ≡ true }
    requires words { AllByRecursion IsWellFormed (map string_bytes words.now) }
    ensures ok { IfOk result
        (IsMatched (map opt_view table.entry.now) (map string_bytes words.entry.now)) }
    ensures line { IsErrOf result LineError.Line → (uses : List Use)
        → IsUses (map opt_view table.entry.now) (map string_bytes words.entry.now) uses → ⊥ }
{
    let Ok(command) = command(alloc, table) else {
        return Err(LineError::Memory);
    };
    match command.try_get_matches_from(words) {
        Ok(matches) => Ok(matches),
        Err(error) => Err(if error.kind() == ErrorKind::OutOfMemory {
            LineError::Memory
        } else {
            LineError::Line
        }),
    }
}

/// The value of an option.
fn value_of<'a>(matches: &ArgMatches<'a>, name: &str) -> Option<&'a str>
    ensures { option_map (λ s. s.now) result ≡ first_of name.now (rows_of (found_of matches.now)) }
{
    matches.get_str(name)
}

/// Whether a flag stands.
fn is_used(matches: &ArgMatches<'_>, name: &str) -> bool
    ensures { (b : Bool) → FlagRow b (one_of name.now (rows_of (found_of matches.now)))
        → result ≡ b }
{
    matches.get_flag(name)
}

/// What the matches of the main options say.
fn main_of<'a>(matches: &ArgMatches<'a>) -> Main<'a>
    ensures { main_view result ≡ main_rows (rows_of (found_of matches.now)) }
{
    Main {
        config_file: value_of(matches, "config-file"),
        bucket: value_of(matches, "bucket-name"),
        prefix: value_of(matches, "prefix"),
        fqdn: value_of(matches, "fqdn"),
    }
}

/// What the matches of a command's options say.
fn own_of<'a>(matches: &ArgMatches<'a>) -> Own<'a>
    ensures { (all_nodes show_all : Bool)
        → FlagRow all_nodes (one_of (codes "all-nodes") (rows_of (found_of matches.now)))
        → FlagRow show_all (one_of (codes "show-all") (rows_of (found_of matches.now)))
        → own_view result ≡ own_rows (rows_of (found_of matches.now)) all_nodes show_all }
{
    Own {
        name: value_of(matches, "backup-name"),
        mode: value_of(matches, "mode"),
        workers: value_of(matches, "workers"),
        rounds: value_of(matches, "rounds"),
        destination: value_of(matches, "download-destination"),
        host_list: value_of(matches, "host-list"),
        jobs_file: value_of(matches, "jobs-file"),
        all_nodes: is_used(matches, "all-nodes"),
        show_all: is_used(matches, "show-all"),
    }
}

/// What words that spell main options say.
fn read_main<'a>(alloc: Global, words: &'a [String]) -> Result<Main<'a>, LineError>
    requires { AllByRecursion IsWellFormed (map string_bytes words.now) }
    ensures ok { IfOk result (HasMain (map string_bytes words.entry.now)) }
    ensures line { IsErrOf result LineError.Line → (uses : List Use)
        → IsUses main_options (map string_bytes words.entry.now) uses → ⊥ }
{
    match matched(alloc, main_table(), words) {
        Ok(matches) => Ok(main_of(&matches)),
        Err(error) => Err(error),
    }
}

/// What words that spell these options of a command word say.
fn read_own<'a>(
    alloc: Global,
    options: &'a [Opt<'a>],
    words: &'a [String],
) -> Result<Own<'a>, LineError>
    requires options { (word : Text) × (options_of commands word ≡ Some (map opt_view options.now)) }
    requires words { AllByRecursion IsWellFormed (map string_bytes words.now) }
    ensures ok { IfOk result
        (HasOwn (map opt_view options.entry.now) (map string_bytes words.entry.now)) }
    ensures line { IsErrOf result LineError.Line → (uses : List Use)
        → IsUses (map opt_view options.entry.now) (map string_bytes words.entry.now) uses → ⊥ }
{
    match matched(alloc, options, words) {
        Ok(matches) => Ok(own_of(&matches)),
        Err(error) => Err(error),
    }
}

/// The line that well formed words are, cut at its command word.
fn line_at<'a>(alloc: Global, parts: &Cut<'a>) -> Result<Line<'a>, LineError>
    requires main { AllByRecursion IsWellFormed (map string_bytes parts.now.main.now) }
    requires own { AllByRecursion IsWellFormed (map string_bytes parts.now.own.now) }
    ensures ok { IfOk result (λ l. (words : List Text)
        → words ≡ map string_bytes parts.entry.now.main.now
        ++ parts.entry.now.word.now ∷ map string_bytes parts.entry.now.own.now → HasLine words l) }
    ensures line { IsErrOf result LineError.Line → (words : List Text) (main own : List Use)
        → IsLine main_options commands words main parts.entry.now.word.now own
        → map string_bytes parts.entry.now.main.now ≡ flat_map spelled main
        → map string_bytes parts.entry.now.own.now ≡ flat_map spelled own → ⊥ }
{
    let Some(options) = options_for(parts.word) else {
        return Err(LineError::Line);
    };
    let main = match read_main(alloc, parts.main) {
        Ok(main) => main,
        Err(error) => return Err(error),
    };
    match read_own(alloc, options, parts.own) {
        Ok(own) => Ok(Line {
            main,
            word: parts.word,
            own,
        }),
        Err(error) => Err(error),
    }
}

/// The line that the words are.
pub(crate) fn read_line<'a>(alloc: Global, words: &'a [String]) -> Result<Line<'a>, LineError>
    ensures ok { IfOk result (HasLine (map string_bytes words.entry.now)) }
    ensures line { IsErrOf result LineError.Line → (main own : List Use) (word : Text)
        → IsLine main_options commands (map string_bytes words.entry.now) main word own → ⊥ }
{
    if !are_well_formed(words) {
        return Err(LineError::Line);
    }
    match at_word(words) {
        Some(parts) => line_at(alloc, &parts),
        None => Err(LineError::Line),
    }
}
