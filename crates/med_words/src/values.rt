// The values that options take.
ghost use Rattle.std.specs.Prelude.{◌≡◌, Some, None, false, IfOk, IfErr, option_map, codes};
ghost use Rattle.med_outside.specs.declared.mode.Mode.TheVariants.{Differential};
ghost use Rattle.med_words.specs.Values.{read_mode, read_count, read_name, read_workers, read_rounds, given_or, fails};
ghost use Rattle.med_words.specs.Views.{said_view};
ghost use Rattle.med_words.specs.Reads.{Reads, Blames, BlamesValues};
ghost use Rattle.med_words.specs.declared.request.WordsError.TheVariants as WordsError;
ghost use Rattle.med_words.specs.declared.request.Usage.TheVariants as Usage;

use crate::line::Own;
use crate::request::{Usage, WordsError};
use med_base::{BackupName, NameError, decimal_in};
use med_outside::Mode;
use std::alloc::Global;

/// The values of the options that are checked.
#[derive(Drop)]
pub(crate) struct Values {
    pub(crate) name: Option<BackupName>,
    pub(crate) mode: Mode,
    pub(crate) workers: u32,
    pub(crate) rounds: Option<u32>,
}

/// The number that 1 to 4 digits write, from 1 to the limit.
fn count_in(limit: u32, text: &str) -> Option<u32>
    ensures { result ≡ read_count limit text.now }
{
    match decimal_in(text, 4, limit) {
        Some(count) if 0 < count => Some(count),
        _ => None,
    }
}

fn mode_in(text: &str) -> Option<Mode>
    ensures { result ≡ read_mode text.now }
{
    match text {
        "full" => Some(Mode::Full),
        "differential" => Some(Mode::Differential),
        _ => None,
    }
}

/// The mode that is given, or differential where none is.
fn mode_of(text: Option<&str>) -> Option<Mode>
    ensures { result ≡ given_or (Some Differential) read_mode (option_map (λ s. s.now) text.entry) }
{
    match text {
        Some(text) => mode_in(text),
        None => Some(Mode::Differential),
    }
}

/// The number of workers that is given, or 1 where none is.
fn workers_of(text: Option<&str>) -> Option<u32>
    ensures { result ≡ given_or (Some 1) read_workers (option_map (λ s. s.now) text.entry) }
{
    match text {
        Some(text) => count_in(64, text),
        None => Some(1),
    }
}

/// The refusal of a value of this option.
fn refused(option: &'static str) -> WordsError
    ensures { result ≡ WordsError.Usage (Usage.Value option.entry) }
{
    WordsError::Usage(Usage::Value { option })
}

/// The number of rounds, where it is given.
fn rounds_of(text: Option<&str>) -> Result<Option<u32>, WordsError>
    ensures ok { IfOk result (λ rounds.
        given_or None read_rounds (option_map (λ s. s.now) text.entry) ≡ rounds) }
    ensures fits { IfOk result (λ rounds.
        fails read_rounds (option_map (λ s. s.now) text.entry) ≡ false) }
    ensures err { IfErr result
        (Blames (codes "--rounds") (fails read_rounds (option_map (λ s. s.now) text.entry))) }
{
    match text {
        Some(text) => match count_in(1000, text) {
            Some(rounds) => Ok(Some(rounds)),
            None => Err(refused("--rounds")),
        },
        None => Ok(None),
    }
}

/// The name of a backup, where it is given.
fn name_of(alloc: Global, text: Option<&str>) -> Result<Option<BackupName>, WordsError>
    ensures ok { IfOk result (λ name.
        given_or None read_name (option_map (λ s. s.now) text.entry) ≡ name) }
    ensures fits { IfOk result (λ name.
        fails read_name (option_map (λ s. s.now) text.entry) ≡ false) }
    ensures err { IfErr result
        (Blames (codes "--backup-name") (fails read_name (option_map (λ s. s.now) text.entry))) }
{
    match text {
        Some(text) => match BackupName::read(alloc, text) {
            Ok(name) => Ok(Some(name)),
            Err(NameError::BadName { at: _ }) => Err(refused("--backup-name")),
            Err(NameError::Memory) => Err(WordsError::Memory),
        },
        None => Ok(None),
    }
}

/// The values of the options that are checked, in the order of the checks.
pub(crate) fn read_values(alloc: Global, own: &Own<'_>) -> Result<Values, WordsError>
    ensures ok { IfOk result (Reads (said_view own.now)) }
    ensures err { IfErr result (BlamesValues (said_view own.now)) }
{
    let name = name_of(alloc, own.name)?;
    let Some(mode) = mode_of(own.mode) else {
        return Err(refused("--mode"));
    };
    let Some(workers) = workers_of(own.workers) else {
        return Err(refused("--workers"));
    };
    let rounds = rounds_of(own.rounds)?;
    Ok(Values {
        name,
        mode,
        workers,
        rounds,
    })
}
